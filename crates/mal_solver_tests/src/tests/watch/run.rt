//! An engine beside a trail that it propagates on.

ghost use Rattle.std.specs.Prelude.{◌≡◌, true, None, OnOk};
ghost use Rattle.mal_base.specs.{Formulas.{is_within}, NumberedClause.{lits_under}};

use mal_base::{Clause, ClauseId, Lit, TrailEntry, Var};
use mal_trail::{Engine, Trail};
use std::alloc::{AllocError, Global};
use std::marker::Model;

/// An engine, and a trail that it has followed. The trail has room for 16 variables, and for those of all clauses. Who
/// asks for what it has no room for is told out of memory too.
#[derive(Drop)]
pub struct Run<E: Engine> {
    engine: E,
    trail: Trail,
}

impl<E: Engine> Model for Run<E> {
    ghost use Rattle.std.specs.Prelude.{ℕ, ◌≡◌, ◌≤◌, true};
    ghost use Rattle.mal_trail.specs.Rooms.{are_within};

    ghost Value = { ℕ };

    ghost view = { λ r. r.trail.room };

    ghost invariant = { λ r. (16 ≤ r.trail.room) × (are_within r.trail.room (E.clauses r.engine) ≡ true)
        × E.fits r.engine r.trail.entries r.trail.processed };
}

impl<E: Engine> Run<E> {
    /// An engine without a clause, and a trail without an entry.
    pub fn new(alloc: Global) -> Result<Run<E>, AllocError> {
        let mut trail = Trail::new(alloc);
        trail.reserve(16)?;
        let engine = E::new(alloc);
        Ok(Run { engine, trail })
    }

    /// Adds a clause of the variables 1 to 16 under a number that is not held.
    pub fn add(&mut self, id: ClauseId, clause: &Clause) -> Result<(), AllocError> {
        check_new(&self.engine, id, clause)?;
        let lits = clause.lits();
        self.engine.reserve(16, 1, lits.len())?;
        self.engine.load(id, lits, &self.trail);
        Ok(())
    }

    /// Adds a clause of the variables 1 to 16 as one that was derived, under a number that is not held.
    pub fn learn(&mut self, id: ClauseId, clause: &Clause) -> Result<(), AllocError> {
        check_new(&self.engine, id, clause)?;
        let lits = clause.lits();
        self.engine.reserve(16, 1, lits.len())?;
        self.engine.learn(id, lits, &self.trail);
        Ok(())
    }

    /// Gives up the clauses of these numbers.
    pub fn give_up(&mut self, ids: &mut [ClauseId]) {
        self.engine.forget(ids);
    }

    /// Decides a literal of the variables 1 to 16 that has no value.
    pub fn decide(&mut self, lit: Lit) -> Result<(), AllocError> {
        if lit.var().number() > 16 || self.trail.has_value(lit.var()) {
            return Err(AllocError);
        }
        let _handled = self.trail.processed();
        let level = self.trail.level() + 1;
        self.trail.push(lit, None, level);
        Ok(())
    }

    /// Goes back to a level.
    pub fn back(&mut self, level: u32) {
        self.trail.back_to(level);
    }

    /// Handles the next batch, and gives its conflict. None where all are handled.
    pub fn batch(&mut self) -> Option<Option<ClauseId>> {
        if self.trail.len() < self.trail.processed() as usize {
            return None;
        }
        Some(self.engine.propagate_one(&mut self.trail))
    }

    /// Whether a clause is held under a number.
    pub fn holds(&self, id: ClauseId) -> bool {
        self.engine.get(id).is_some()
    }

    /// Whether the variable has a value.
    pub fn has_value(&self, var: Var) -> bool {
        self.trail.has_value(var)
    }

    /// The engine.
    pub fn engine(&self) -> &E {
        &self.engine
    }

    /// The entries of the trail.
    pub fn entries(&self) -> &[TrailEntry] {
        self.trail.entries()
    }
}

/// A clause is of the variables 1 to 16, and its number is not held.
fn check_new<E: Engine>(engine: &E, id: ClauseId, clause: &Clause) -> Result<(), AllocError>
    ensures few { OnOk result (is_within 16 clause.now ≡ true) }
    ensures new { OnOk result (lits_under id (E.clauses engine.now) ≡ None) }
{
    if !are_few(clause.lits()) {
        return Err(AllocError);
    }
    match engine.get(id) {
        Some(_) => Err(AllocError),
        None => Ok(()),
    }
}

/// Whether all literals are of the variables 1 to 16.
fn are_few(lits: &[Lit]) -> bool
    ensures { result ≡ is_within 16 lits.now }
{
    lits.iter()
        .all(|l| 1 <= l.var().number() && l.var().number() <= 16)
}
