//! Both engines, each beside a trail of its own, on the same clauses.

use super::run::Run;
use mal_base::{Clause, ClauseId, Lit, TrailEntry, Var};
use mal_scan::Scan;
use mal_watch::Watcher;
use std::alloc::{AllocError, Global};

/// The engine that scans its clauses and the one that watches two literals of each.
#[derive(Drop)]
pub struct Both {
    scanned: Run<Scan>,
    watched: Run<Watcher>,
}

impl Both {
    /// Engines without a clause, and trails without an entry.
    pub fn new(alloc: Global) -> Result<Both, AllocError> {
        let scanned = Run::new(alloc)?;
        let watched = Run::new(alloc)?;
        Ok(Both { scanned, watched })
    }

    /// Adds a clause of the variables 1 to 16 under a number that is not held.
    pub fn add(&mut self, id: ClauseId, clause: &Clause) -> Result<(), AllocError> {
        self.scanned.add(id, clause)?;
        self.watched.add(id, clause)
    }

    /// Adds a clause of the variables 1 to 16 as one that was derived, under a number that is not held.
    pub fn learn(&mut self, id: ClauseId, clause: &Clause) -> Result<(), AllocError> {
        self.scanned.learn(id, clause)?;
        self.watched.learn(id, clause)
    }

    /// Gives up the clauses of these numbers.
    pub fn give_up(&mut self, ids: &[ClauseId], alloc: Global) -> Result<(), AllocError> {
        let mut ids = Vec::from_slice(alloc, ids)?;
        self.scanned.give_up(ids.as_mut_slice());
        self.watched.give_up(ids.as_mut_slice());
        Ok(())
    }

    /// Decides a literal of the variables 1 to 16 that has no value.
    pub fn decide(&mut self, lit: Lit) -> Result<(), AllocError> {
        self.scanned.decide(lit)?;
        self.watched.decide(lit)
    }

    /// Goes back to a level.
    pub fn back(&mut self, level: u32) {
        self.scanned.back(level);
        self.watched.back(level);
    }

    /// Handles the next batch with both engines, and gives its conflict. None where all are handled. No answer
    /// where the conflicts or the trails differ then.
    fn batch(&mut self) -> Option<Option<Option<ClauseId>>> {
        let scanned = self.scanned.batch();
        let watched = self.watched.batch();
        if scanned != watched || self.scanned.entries() != self.watched.entries() {
            return None;
        }
        Some(watched)
    }

    /// Handles batches until all are handled or one has a conflict, which it gives. No answer where the engines differ.
    pub fn propagate(&mut self) -> Option<Option<ClauseId>> {
        for _ in 0..20 {
            match self.batch()? {
                None => return Some(None),
                Some(None) => {}
                Some(conflict) => return Some(conflict),
            }
        }
        Some(None)
    }

    /// Whether a clause is held under a number.
    pub fn holds(&self, id: ClauseId) -> bool {
        self.watched.holds(id)
    }

    /// Whether the variable has a value.
    pub fn has_value(&self, var: Var) -> bool {
        self.watched.has_value(var)
    }

    /// The engine that watches.
    pub fn watcher(&self) -> &Watcher {
        self.watched.engine()
    }

    /// The entries of the trail.
    pub fn entries(&self) -> &[TrailEntry] {
        self.watched.entries()
    }
}
