//! The clauses that were seen.

ghost use Rattle.std.specs.Prelude.{◌≡◌, ℕ, not, ◌||◌, List, [], bytes_eq, OnOk, OnErr};
ghost use Rattle.mal_filter.specs.Noted.{is_noted};

use mal_base::{Clause, Lit};
use std::alloc::{AllocError, Global};
use std::collections::BTreeSet;
use std::marker::Model;

/// The clauses that were noted, by their literals alone. Contracts see the lists of literals.
#[derive(Drop)]
pub struct ClauseSet {
    alloc: Global,
    noted: BTreeSet<Vec<Lit>>,
}

impl Model for ClauseSet {
    ghost use Rattle.std.specs.Prelude.{ℕ, List, map};

    ghost Value = { List (List ℕ) };

    ghost view = { λ s. map (λ v. v.items) s.noted.keys };
}

impl ClauseSet {
    /// A filter that has seen nothing, and lets each clause pass. Takes no memory.
    pub fn new(alloc: Global) -> ClauseSet
        ensures { result ≡ [] }
    {
        ClauseSet {
            alloc,
            noted: BTreeSet::new(alloc),
        }
    }

    /// Whether the clause is new: true exactly where no noted clause has the same literals. Logarithmic in the clauses
    /// noted. Takes no memory.
    pub fn passes(&self, clause: &Clause) -> bool
        ensures { result ≡ not (is_noted clause.now self.now) }
    {
        self.passes_lits(clause.lits())
    }

    /// Whether a clause of these literals is new.
    pub fn passes_lits(&self, lits: &[Lit]) -> bool
        ensures { result ≡ not (is_noted lits.now self.now) }
    {
        !self.noted.contains(lits)
    }

    /// Notes a clause, which then no longer passes. If memory runs out, the filter is as before.
    pub fn note(&mut self, clause: &Clause) -> Result<(), AllocError>
        ensures noted { OnOk result
            ((lits : List ℕ) → is_noted lits self.new ≡ (bytes_eq lits clause.now || is_noted lits self.old)) }
        ensures unchanged { OnErr result (self.new ≡ self.old) }
    {
        self.note_lits(clause.lits())
    }

    /// Notes a clause of these literals.
    pub fn note_lits(&mut self, lits: &[Lit]) -> Result<(), AllocError>
        ensures noted { OnOk result
            ((others : List ℕ) → is_noted others self.new ≡ (bytes_eq others lits.now || is_noted others self.old)) }
        ensures unchanged { OnErr result (self.new ≡ self.old) }
    {
        let lits = Vec::from_slice(self.alloc, lits)?;
        self.noted.insert(lits)?;
        Ok(())
    }
}
