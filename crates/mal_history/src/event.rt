//! The events that a hall enters.

ghost use Rattle.std.specs.Prelude.{◌≡◌, ◌↔◌, [], ◌∷◌, ◌++◌, IsTrue, OnOk, OnErr};
ghost use Rattle.std.specs.Arc.{arc_value};
ghost use Rattle.mal_history.specs.Shared.{shared};

use mal_base::{Ask, Name, Outcome, Weight};
use std::alloc::{AllocError, Global};
use std::marker::Model;
use std::sync::Arc;

/// The volume of one job in a balancing: how many of its solvers may run at a time, from 0 to the greatest demand.
#[derive(Clone, Copy, PartialEq, Eq)]
pub struct Share {
    pub tenant: Name,
    pub job: Name,
    pub volume: u32,
}

impl Share {
    /// Whether these are the same volumes of the same job.
    pub fn is_same(&self, other: &Share) -> bool
        ensures { IsTrue result ↔ (self.now ≡ other.now) }
    {
        self == other
    }
}

/// The volumes of a balancing, of each live job by opening. A volume may be shared with other balancings. Contracts see
/// the list.
#[derive(Drop)]
pub struct Shares {
    // Shared behind an Arc: of 4,096 jobs answered one by one there are as many balancings with eight million volumes,
    // nearly all 0.
    items: Vec<Arc<Share>>,
}

impl Model for Shares {
    ghost use Rattle.std.specs.Prelude.{List};
    ghost use Rattle.mal_history.specs.{declared.event.Share.{Share}, Shared.{shared}};

    ghost Value = { List Share };

    ghost view = { λ s. shared s.items.items };
}

impl Shares {
    /// No volumes. Takes no memory.
    pub fn new(alloc: Global) -> Shares
        ensures { result ≡ [] }
    {
        Shares {
            items: Vec::new(alloc),
        }
    }

    /// Makes room for so many more volumes, and for no others.
    pub fn reserve(&mut self, count: usize) -> Result<(), AllocError>
        ensures { self.new ≡ self.old }
    {
        self.items.reserve_exact(count)
    }

    /// Puts a volume after the others. If memory runs out, they are as before.
    pub fn push(&mut self, share: Share) -> Result<(), AllocError>
        ensures ok { OnOk result (self.new ≡ self.old ++ share ∷ []) }
        ensures err { OnErr result (self.new ≡ self.old) }
    {
        let alloc = *self.items.allocator();
        let share = Arc::new(alloc, share)?;
        self.items.push(share)?;
        Ok(())
    }

    /// Puts a volume after the others that is shared with other balancings. If memory runs out, they are as before.
    pub fn push_shared(&mut self, share: &Arc<Share>) -> Result<(), AllocError>
        ensures ok { OnOk result (self.new ≡ self.old ++ arc_value share.now ∷ []) }
        ensures err { OnErr result (self.new ≡ self.old) }
    {
        let share = Arc::try_clone(share)?;
        self.items.push(share)?;
        Ok(())
    }

    /// The volumes, by opening.
    pub fn as_slice(&self) -> &[Arc<Share>]
        ensures { shared result.now ≡ self.now }
    {
        self.items.as_slice()
    }
}

/// A node of a job's tree and a worker: what the start of a node and its end tell.
#[derive(Clone, Copy)]
pub struct Assignment {
    pub tenant: Name,
    pub job: Name,
    pub index: u32,
    pub worker: u32,
}

impl Assignment {
    /// This node of a job of a tenant, and this worker.
    pub fn of(tenant: Name, job: Name, index: u32, worker: u32) -> Assignment
        ensures { result ≡ record { tenant = tenant; job = job; index = index; worker = worker } }
    {
        Assignment {
            tenant,
            job,
            index,
            worker,
        }
    }
}

/// An event of a hall. Revisions of a job are numbered from 1, nodes of its tree from 0 to
/// [`crate::LAST_NODE`], workers from 1.
#[derive(Drop)]
pub enum Event {
    Open {
        tenant: Name,
        job: Name,
        ask: Ask,
    },
    Revise {
        tenant: Name,
        job: Name,
        number: u32,
    },
    Reask {
        tenant: Name,
        job: Name,
        weight: Weight,
    },
    Close {
        tenant: Name,
        job: Name,
    },
    Balance {
        volumes: Shares,
    },
    Start {
        tenant: Name,
        job: Name,
        index: u32,
        worker: u32,
    },
    Finish {
        tenant: Name,
        job: Name,
        index: u32,
        worker: u32,
        outcome: Outcome,
    },
    Exchange {
        tenant: Name,
        job: Name,
    },
    /// A job left this hall.
    Leave {
        tenant: Name,
        job: Name,
    },
    /// A job arrived here with all that it did.
    Arrive {
        tenant: Name,
        job: Name,
    },
}
