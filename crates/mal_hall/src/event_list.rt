//! What a hall entered: its events, each with what stands at it.

ghost use Rattle.std.specs.Prelude.{◌≡◌, ◌+◌, ◌<◌, ◌≤◌, ◌^◌, [], ◌∷◌, ◌++◌, map, option_map, None, IfOk, OnOk};
ghost use Rattle.mal_hall.specs.Entered.{brought_of, full, posted_of};
ghost use Rattle.spec_hall.specs.{Dressed.{keyed}, Events.{Arrive, Revise, bare}, Own.{own}};

use crate::content::Content;
use crate::telling::own_among;
use mal_base::{Key, Name};
use mal_history::{Event, History};
use mal_parcel::Owned;
use mal_revision::Revision;
use std::alloc::{AllocError, Global};
use std::marker::Model;

/// The events that a hall of so many workers (1 to 64) entered, in their order, each with what stands at it.
/// Contracts see the number of workers, the events, and the room: for how many more events there is memory.
#[derive(Drop)]
pub struct EventList {
    history: History,
    /// What stands at each event, at the event's place: the revision that was posted where it is a Revise, what the job
    /// did before where it is an Arrive. It is in a box, so that an event at which nothing stands takes little.
    contents: Vec<Option<Box<Content>>>,
}

impl Model for EventList {
    ghost use Rattle.std.specs.Prelude.{◌≡◌, ◌-◌, length, min, vec_len, vec_capacity};
    ghost use Rattle.mal_hall.specs.Entered.{Entered, filled, unboxed};

    ghost Value = { Entered };

    ghost view = { λ e. record {
      workers = e.history.workers;
      events = filled e.history.events (unboxed e.contents.items);
      room = min e.history.room (vec_capacity e.contents - vec_len e.contents);
    } };

    ghost invariant = { λ e. length e.contents.items ≡ length e.history.events };
}

impl EventList {
    /// The entries of a hall of so many workers, 1 to 64, in which nothing was entered.
    pub fn new(alloc: Global, workers: u32) -> EventList
        requires some { 1 ≤ workers }
        requires bound { workers ≤ 64 }
        ensures workers { result.workers ≡ workers }
        ensures events { result.events ≡ [] }
    {
        EventList {
            history: History::new(alloc, workers),
            contents: Vec::new(alloc),
        }
    }

    /// The number of workers, 1 to 64.
    pub fn workers(&self) -> u32
        ensures value { result ≡ self.now.workers }
        ensures some { 1 ≤ result }
        ensures bound { result ≤ 64 }
        ensures few { self.now.room < 2 ^ 63 }
    {
        self.history.workers()
    }

    /// The events as they are written down, without what stands at them.
    #[tactic(auto, using(crate::proofs::EntryLemmas::written_down))]
    pub fn history(&self) -> &History
        ensures workers { result.now.workers ≡ self.now.workers }
        ensures events { result.now.events ≡ map bare self.now.events }
    {
        &self.history
    }

    /// Makes room for so many more events, and for what stands at them. If memory runs out, the events are as before.
    pub fn reserve(&mut self, events: usize) -> Result<(), AllocError>
        ensures room { OnOk result (events ≤ self.new.room) }
        ensures more { self.old.room ≤ self.new.room }
        ensures workers { self.new.workers ≡ self.old.workers }
        ensures events { self.new.events ≡ self.old.events }
    {
        self.history.reserve(events)?;
        self.contents.reserve(events)
    }

    /// A copy of a revision, which is to stand at its Revise. It shares the lists.
    pub fn copy_of(&self, revision: &Revision) -> Result<Box<Content>, AllocError>
        ensures { IfOk result (λ c. posted_of c.value ≡ revision.now) }
    {
        let alloc = *self.contents.allocator();
        Ok(Box::new(alloc, Content::Revised(revision.copy()?))?)
    }

    /// A copy of what a job did before, which is to stand at its Arrive. The revisions share their lists.
    pub fn arrival_of(&self, own: &Owned) -> Result<Box<Content>, AllocError>
        ensures { IfOk result (λ c. brought_of c.value ≡ own.now) }
    {
        let alloc = *self.contents.allocator();
        Ok(Box::new(alloc, Content::Arrived(own.copy()?))?)
    }

    /// The own events of a job: of each that was entered what it tells of the job.
    pub fn own_of(&self, tenant: &Name, job: &Name) -> Result<Owned, AllocError>
        ensures { IfOk result (λ o. o ≡ own (keyed tenant.now job.now) self.now.events) }
    {
        let alloc = *self.contents.allocator();
        let key = Key {
            tenant: *tenant,
            job: *job,
        };
        own_among(alloc, &key, self.history.events(), &self.contents)
    }

    /// Enters an event at which nothing stands, for which room was made. Takes no memory.
    pub fn push_reserved(&mut self, event: Event)
        requires { 1 ≤ self.old.room }
        ensures workers { self.new.workers ≡ self.old.workers }
        ensures events { self.new.events ≡ self.old.events ++ full event None ∷ [] }
        ensures room { self.new.room + 1 ≡ self.old.room }
    {
        self.push_with(event, None);
    }

    /// Enters a Revise with the revision that was posted, for which room was made. Takes no memory.
    pub fn push_revise(&mut self, tenant: Name, job: Name, number: u32, content: Box<Content>)
        requires { 1 ≤ self.old.room }
        ensures workers { self.new.workers ≡ self.old.workers }
        ensures events { self.new.events ≡ self.old.events ++ Revise (keyed tenant job) number (posted_of content.value) ∷ [] }
        ensures room { self.new.room + 1 ≡ self.old.room }
    {
        let event = Event::Revise {
            tenant,
            job,
            number,
        };
        self.push_with(event, Some(content));
    }

    /// Enters an Arrive with what the job did before, for which room was made. Takes no memory.
    pub fn push_arrive(&mut self, tenant: Name, job: Name, content: Box<Content>)
        requires { 1 ≤ self.old.room }
        ensures workers { self.new.workers ≡ self.old.workers }
        ensures events { self.new.events ≡ self.old.events ++ Arrive (keyed tenant job) (brought_of content.value) ∷ [] }
        ensures room { self.new.room + 1 ≡ self.old.room }
    {
        self.push_with(Event::Arrive { tenant, job }, Some(content));
    }

    /// Enters an event with what stands at it.
    #[tactic(auto, using(crate::proofs::EntryLemmas::one_more))]
    fn push_with(&mut self, event: Event, content: Option<Box<Content>>)
        requires { 1 ≤ self.old.room }
        ensures workers { self.new.workers ≡ self.old.workers }
        ensures events { self.new.events ≡ self.old.events ++ full event (option_map (λ c. c.value) content) ∷ [] }
        ensures room { self.new.room + 1 ≡ self.old.room }
    {
        self.history.push_reserved(event);
        self.contents.push_reserved(content);
    }
}
