//! Clauses.

ghost use Rattle.std.specs.Prelude.{◌≡◌, ◌≢◌, ℕ, ◌<◌, List, true, IfOk, MatchOption};
ghost use Rattle.mal_base.specs.Clauses.{rises, IsTautology, HaveSame};

use crate::literal::Lit;
use smallvec::SmallVec;
use std::alloc::{AllocError, Global};
use std::marker::Model;

/// A clause: literals with strictly rising variables, so no variable stands twice. Contracts see the list of literals.
#[derive(Debug, Drop)]
pub struct Clause {
    lits: SmallVec<Lit, 4>,
}

impl Model for Clause {
    ghost Value = { List ℕ };

    ghost view = { λ c. c.lits.items };

    ghost invariant = { λ c. rises c.lits.items ≡ true };
}

impl Clause {
    /// The clause of these literals, which stand in clause order. None exactly where the variables do not rise
    /// strictly.
    pub fn of_rising(alloc: Global, lits: &[Lit]) -> Result<Option<Clause>, AllocError>
        ensures { IfOk result
            (λ o. MatchOption o (rises lits.now ≢ true) (λ c. (c ≡ lits.now) × (rises lits.now ≡ true))) }
    {
        if !is_rising(lits) {
            return Ok(None);
        }
        let lits = SmallVec::from_slice(alloc, lits)?;
        Ok(Some(Clause { lits }))
    }

    /// The clause of these literals, in any order and with repeats, which count once. None exactly for a tautology, a
    /// list that has a variable with both signs.
    pub fn of_lits(alloc: Global, lits: &[Lit]) -> Result<Option<Clause>, AllocError>
        ensures none { IfOk result (λ o. MatchOption o (IsTautology lits.now) (λ c. IsTautology lits.now → ⊥)) }
        ensures rising { IfOk result (λ o. MatchOption o (IsTautology lits.now) (λ c. rises c ≡ true)) }
        ensures same { IfOk result (λ o. MatchOption o (IsTautology lits.now) (λ c. HaveSame lits.now c)) }
    {
        let sorted = Lit::sorted(alloc, lits)?;
        Clause::of_rising(alloc, sorted.as_slice())
    }

    /// Puts these literals, in any order and with repeats, in clause order, where each stands once. Whether their
    /// variables then rise strictly; they do not exactly where one stands with both signs. Takes no memory.
    pub fn merge(lits: &mut Vec<Lit>) -> bool
        ensures value { result ≡ rises lits.new.items }
        ensures tautology { rises lits.new.items ≢ true → IsTautology lits.old.items }
        ensures same { HaveSame lits.old.items lits.new.items }
    {
        Lit::sort(lits);
        is_rising(lits.as_slice())
    }

    /// An equal clause.
    pub fn copy(&self) -> Result<Clause, AllocError>
        ensures { IfOk result (λ c. c ≡ self.now) }
    {
        let lits = SmallVec::from_slice(*self.lits.allocator(), self.lits.as_slice())?;
        Ok(Clause { lits })
    }

    /// The literals, by strictly rising variable.
    pub fn lits(&self) -> &[Lit]
        ensures value { result.now ≡ self.now }
        ensures rising { rises self.now ≡ true }
    {
        self.lits.as_slice()
    }
}

/// Whether the variables of the literals rise strictly.
fn is_rising(lits: &[Lit]) -> bool
    ensures { result ≡ rises lits.now }
{
    let Some((first, rest)) = lits.split_first() else {
        return true;
    };
    let mut last = *first;
    for lit in rest {
        if lit.var().number() <= last.var().number() {
            return false;
        }
        last = *lit;
    }
    true
}
