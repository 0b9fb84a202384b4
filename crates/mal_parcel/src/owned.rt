//! A job's own events.

ghost use Rattle.std.specs.Prelude.{◌≡◌, ◌≤◌, ◌+◌, [], ◌∷◌, ◌++◌, length, IfOk, OnOk, OnErr};
ghost use Rattle.mal_parcel.specs.Owned.{own_of, owned};

use mal_base::{Ask, Outcome, Weight};
use mal_revision::Revision;
use std::alloc::{AllocError, Global};
use std::marker::Model;

/// An own event of a job. A revision shares its lists with its copies. Contracts see it by `own_of`.
#[derive(Drop)]
pub enum OwnEvent {
    Opened(Ask),
    Revised(Revision),
    Reasked(Weight),
    Closed,
    Volume(u32),
    Started(u32),
    Finished(u32, Outcome),
    Exchanged,
}

impl OwnEvent {
    /// An equal event. A revision shares its lists.
    pub fn copy(&self) -> Result<OwnEvent, AllocError>
        ensures { IfOk result (λ e. own_of e ≡ own_of self.now) }
    {
        match self {
            OwnEvent::Opened(ask) => Ok(OwnEvent::Opened(*ask)),
            OwnEvent::Revised(revision) => Ok(OwnEvent::Revised(revision.copy()?)),
            OwnEvent::Reasked(weight) => Ok(OwnEvent::Reasked(*weight)),
            OwnEvent::Closed => Ok(OwnEvent::Closed),
            OwnEvent::Volume(volume) => Ok(OwnEvent::Volume(*volume)),
            OwnEvent::Started(index) => Ok(OwnEvent::Started(*index)),
            OwnEvent::Finished(index, outcome) => Ok(OwnEvent::Finished(*index, *outcome)),
            OwnEvent::Exchanged => Ok(OwnEvent::Exchanged),
        }
    }
}

/// The own events of a job, in order. Contracts see the list.
#[derive(Drop)]
pub struct Owned {
    events: Vec<OwnEvent>,
}

impl Model for Owned {
    ghost use Rattle.std.specs.Prelude.{List};
    ghost use Rattle.spec_job.specs.SoloMachine.{Own};
    ghost use Rattle.mal_parcel.specs.Owned.{owned};

    ghost Value = { List Own };

    ghost view = { λ o. owned o.events.items };
}

impl Owned {
    /// No events. Takes no memory.
    pub fn new(alloc: Global) -> Owned
        ensures { result ≡ [] }
    {
        Owned {
            events: Vec::new(alloc),
        }
    }

    /// Puts an event after the others. If memory runs out, they are as before.
    pub fn push(&mut self, event: OwnEvent) -> Result<(), AllocError>
        ensures ok { OnOk result (self.new ≡ self.old ++ own_of event ∷ []) }
        ensures err { OnErr result (self.new ≡ self.old) }
    {
        self.events.push(event)?;
        Ok(())
    }

    /// Equal events. The revisions share their lists.
    pub fn copy(&self) -> Result<Owned, AllocError>
        ensures { IfOk result (λ o. o ≡ self.now) }
    {
        let alloc = *self.events.allocator();
        let events = copied(alloc, self.events.as_slice())?;
        Ok(Owned { events })
    }

    /// The events, in order.
    pub fn as_slice(&self) -> &[OwnEvent]
        ensures { owned result.now ≡ self.now }
    {
        self.events.as_slice()
    }
}

/// Equal events, in order.
fn copied(alloc: Global, events: &[OwnEvent]) -> Result<Vec<OwnEvent>, AllocError>
    ensures { IfOk result (λ v. owned v.items ≡ owned events.now) }
{
    let mut copies = Vec::with_capacity(alloc, events.len())?;
    for event in events {
        copies.push(event.copy()?)?;
    }
    Ok(copies)
}
