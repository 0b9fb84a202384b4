//! Whom to ask for replies.

ghost use Rattle.std.specs.Prelude.{◌≡◌};

use mal_base::{Key, Name};
use std::alloc::Global;
use std::collections::VecDeque;

/// The jobs of which a revision may have been answered, in the order in which that came, and one to ask about where none
/// is due, since who asks is told the events too. No contract speaks of it: what is left out here is told at the end.
#[derive(Drop)]
pub struct Asking {
    due: VecDeque<Key>,
    idle: Key,
}

impl Asking {
    /// No job is due. Takes no memory.
    pub fn new(alloc: Global) -> Asking {
        let Some(name) = Name::of(b"a") else {
            unreachable!()
        };
        Asking {
            due: VecDeque::new(alloc),
            idle: Key {
                tenant: name,
                job: name,
            },
        }
    }

    /// The job to ask about: the first that is due, or else any.
    pub fn key(&self) -> Key {
        match self.due.front() {
            Some(key) => again(key),
            None => again(&self.idle),
        }
    }

    /// Whether no job is due.
    pub fn is_idle(&self) -> bool {
        self.due.is_empty()
    }

    /// The job that was asked about has no reply now.
    pub fn passed_over(&mut self) {
        self.due.pop_front();
    }

    /// These jobs are due too. Where memory runs out some are not noted.
    pub fn add(&mut self, keys: Vec<Key>) {
        for key in keys {
            if !self.due.contains(&key) && self.due.push_back(key).is_err() {
                return;
            }
        }
    }
}

/// The same key once more.
pub fn again(key: &Key) -> Key
    ensures { result ≡ key.now }
{
    Key {
        tenant: key.tenant,
        job: key.job,
    }
}
