//! What a hall's events tell of one job.

ghost use Rattle.std.specs.Prelude.{◌≡◌, [], ◌∷◌, ◌++◌, true, length, get_or, None, if◌then◌else◌, IfOk, OnOk};
ghost use Rattle.std.specs.Option.{option_copied, option_map_or};
ghost use Rattle.mal_hall.specs.Entered.{brought_of, filled, full, is_bare, posted_of, unboxed};
ghost use Rattle.mal_history.specs.Shared.{shared};
ghost use Rattle.mal_parcel.specs.Owned.{own_of, owned};
ghost use Rattle.spec_job.specs.SoloMachine.{Revised};
ghost use Rattle.spec_hall.specs.Dressed as dressed;
ghost use Rattle.spec_hall.specs.Dressed.{keyed};
ghost use Rattle.spec_hall.specs.Own as spec;
ghost use Rattle.spec_hall.specs.Own.{adds, adds_volume, is_key, own, own_step, volume_step};

use crate::content::Content;
use mal_base::{ClauseList, Key, Name};
use mal_history::{Event, Share};
use mal_parcel::{OwnEvent, Owned};
use mal_revision::{Revision, RevisionFault};
use std::alloc::{AllocError, Global};
use std::marker::Model;
use std::sync::Arc;

/// Whether these are the names of a key.
fn is_key(key: &Key, tenant: &Name, job: &Name) -> bool
    ensures { result ≡ is_key key.now (keyed tenant.now job.now) }
{
    key.tenant == *tenant && key.job == *job
}

/// What was told of a job so far: its own events. The type keeps the job's volume after them.
#[derive(Drop)]
struct Telling {
    own: Owned,
    volume: u32,
}

impl Model for Telling {
    ghost use Rattle.std.specs.Prelude.{◌≡◌, List};
    ghost use Rattle.spec_job.specs.SoloMachine.{Own};
    ghost use Rattle.spec_hall.specs.Own.{volume_after};

    ghost Value = { List Own };

    ghost view = { λ t. t.own };

    ghost invariant = { λ t. t.volume ≡ volume_after t.own };
}

impl Telling {
    /// Nothing was told.
    fn new(alloc: Global) -> Telling
        ensures { result ≡ [] }
    {
        Telling {
            own: Owned::new(alloc),
            volume: 0,
        }
    }

    /// The own events.
    fn into_own(self) -> Owned
        ensures { result ≡ self }
    {
        self.own
    }

    /// Puts an event after the others, where it is the job's.
    fn put(&mut self, mine: bool, event: OwnEvent) -> Result<(), AllocError>
        ensures { OnOk result (self.new ≡ adds mine self.old (own_of event)) }
    {
        if !mine {
            return Ok(());
        }
        let volume = volume_behind(self.volume, &event);
        self.own.push(event)?;
        self.volume = volume;
        Ok(())
    }

    /// Puts this volume after the other events, where it differs from the one before.
    fn put_volume(&mut self, volume: u32) -> Result<(), AllocError>
        ensures { OnOk result (self.new ≡ adds_volume volume self.old) }
    {
        if volume == self.volume {
            return Ok(());
        }
        self.own.push(OwnEvent::Volume(volume))?;
        self.volume = volume;
        Ok(())
    }

    /// Puts what stands at a Revise after the other events, where it is the job's.
    fn revise(
        &mut self,
        alloc: Global,
        mine: bool,
        content: Option<&Content>,
    ) -> Result<(), AllocError>
        ensures { OnOk result
            (self.new ≡ adds mine self.old
            (Revised (option_map_or posted_of (option_copied content.entry) dressed.no_revision))) }
    {
        let revision = posted_at(alloc, content)?;
        self.put(mine, OwnEvent::Revised(revision))
    }

    /// Takes the volume away, where it is the job that leaves.
    fn leave(&mut self, mine: bool) -> Result<(), AllocError>
        ensures { OnOk result (self.new ≡ (if mine then adds_volume 0 self.old else self.old)) }
    {
        if !mine {
            return Ok(());
        }
        self.put_volume(0)
    }

    /// Puts what an arrival brought in the place of the events, where it is the job's.
    fn arrive(
        &mut self,
        alloc: Global,
        mine: bool,
        content: Option<&Content>,
    ) -> Result<(), AllocError>
        ensures { OnOk result
            (self.new ≡ (if mine then option_map_or brought_of (option_copied content.entry) [] else self.old)) }
    {
        if !mine {
            return Ok(());
        }
        let brought = brought_at(alloc, content)?;
        self.volume = volume_after(brought.as_slice());
        self.own = brought;
        Ok(())
    }

    /// Tells what an event, with what stands at it, tells of the job.
    fn step(
        &mut self,
        alloc: Global,
        key: &Key,
        event: &Event,
        content: Option<&Content>,
    ) -> Result<(), AllocError>
        ensures { OnOk result
            (self.new ≡ own_step key.now self.old
            (full event.now (option_copied content.entry))) }
    {
        match event {
            Event::Revise {
                tenant: t,
                job: j,
                ..
            } => self.revise(alloc, is_key(key, t, j), content),
            Event::Arrive { tenant: t, job: j } => self.arrive(alloc, is_key(key, t, j), content),
            _ => self.step_bare(key, event),
        }
    }

    /// Tells what an event at which nothing stands tells of the job.
    fn step_bare(&mut self, key: &Key, event: &Event) -> Result<(), AllocError>
        requires { is_bare event.now ≡ true }
        ensures { OnOk result
            (self.new ≡ own_step key.now self.old (full event.now None)) }
    {
        match event {
            Event::Open {
                tenant: t,
                job: j,
                ask,
            } => self.put(is_key(key, t, j), OwnEvent::Opened(*ask)),
            Event::Reask {
                tenant: t,
                job: j,
                weight,
            } => self.put(is_key(key, t, j), OwnEvent::Reasked(*weight)),
            Event::Close { tenant: t, job: j } => self.put(is_key(key, t, j), OwnEvent::Closed),
            Event::Balance { volumes } => self.put_volume(volume_in(key, volumes.as_slice())),
            Event::Start {
                tenant: t,
                job: j,
                index,
                ..
            } => self.put(is_key(key, t, j), OwnEvent::Started(*index)),
            Event::Finish {
                tenant: t,
                job: j,
                index,
                outcome,
                ..
            } => self.put(is_key(key, t, j), OwnEvent::Finished(*index, *outcome)),
            Event::Exchange { tenant: t, job: j } => self.put(
                is_key(key, t, j),
                OwnEvent::Exchanged,
            ),
            Event::Leave { tenant: t, job: j } => self.leave(is_key(key, t, j)),
            _ => Ok(()),
        }
    }
}

/// The own events of a job: of each of these events, with what stands at it, what it tells of the job.
pub fn own_among(
    alloc: Global,
    key: &Key,
    events: &[Event],
    contents: &[Option<Box<Content>>],
) -> Result<Owned, AllocError>
    requires { length contents.now ≡ length events.now }
    ensures { IfOk result
        (λ o. o ≡ own key.now (filled events.now (unboxed contents.now))) }
{
    let mut told = Telling::new(alloc);
    for (at, event) in events.iter().enumerate() {
        told.step(alloc, key, event, content_at(contents, at))?;
    }
    Ok(told.into_own())
}

/// What stands at the event at a place.
fn content_at(contents: &[Option<Box<Content>>], at: usize) -> Option<&Content>
    ensures { option_copied result ≡ get_or (unboxed contents.now) at None }
{
    match contents.get(at) {
        None => None,
        Some(None) => None,
        Some(Some(content)) => Some(&**content),
    }
}

/// A copy of the revision that stands at an event, one that says nothing where none stands there.
fn posted_at(alloc: Global, content: Option<&Content>) -> Result<Revision, AllocError>
    ensures { IfOk result (λ r. r ≡ option_map_or posted_of (option_copied content.entry) dressed.no_revision) }
{
    match content {
        None => no_revision(alloc),
        Some(Content::Revised(revision)) => revision.copy(),
        Some(Content::Arrived(_)) => no_revision(alloc),
    }
}

/// A revision that says nothing.
fn no_revision(alloc: Global) -> Result<Revision, AllocError>
    ensures { IfOk result (λ r. r ≡ dressed.no_revision) }
{
    match Revision::new(alloc, 0, ClauseList::new(alloc), &[]) {
        Ok(revision) => Ok(revision),
        Err(RevisionFault::OutOfMemory) => Err(AllocError),
        Err(RevisionFault::Opposite { .. }) => unreachable!(),
        Err(RevisionFault::VarTooLarge { .. }) => unreachable!(),
        Err(RevisionFault::Limit { .. }) => unreachable!(),
    }
}

/// A copy of what an arrival brought, of nothing where nothing stands at it.
fn brought_at(alloc: Global, content: Option<&Content>) -> Result<Owned, AllocError>
    ensures { IfOk result (λ o. o ≡ option_map_or brought_of (option_copied content.entry) []) }
{
    match content {
        None => Ok(Owned::new(alloc)),
        Some(Content::Revised(_)) => Ok(Owned::new(alloc)),
        Some(Content::Arrived(brought)) => brought.copy(),
    }
}

/// The volume that a balancing gives a job, 0 where it is not listed.
fn volume_in(key: &Key, volumes: &[Arc<Share>]) -> u32
    ensures { result ≡ spec.volume_in key.now (shared volumes.now) }
{
    for share in volumes {
        if is_key(key, &share.tenant, &share.job) {
            return share.volume;
        }
    }
    0
}

/// The volume after own events, 0 at first.
fn volume_after(events: &[OwnEvent]) -> u32
    ensures { result ≡ spec.volume_after (owned events.now) }
{
    let mut volume = 0;
    for event in events {
        volume = volume_behind(volume, event);
    }
    volume
}

/// The volume after an own event.
fn volume_behind(volume: u32, event: &OwnEvent) -> u32
    ensures { result ≡ volume_step volume (own_of event.now) }
{
    match event {
        OwnEvent::Volume(now) => *now,
        _ => volume,
    }
}
