//! Clauses as they are read.

ghost use Rattle.std.specs.Prelude.{◌≡◌, true, false, IfOk, MatchOption};
ghost use Rattle.std.specs.List.{list_all};
ghost use Rattle.mal_freeze.specs.Holding.{can_hold};

use mal_base::{Clause, ClauseId, Lit, NumberedClause};
use smallvec::SmallVec;
use std::alloc::{AllocError, Global};
use std::marker::Model;

/// Literals under a number, in order or not. Contracts see both.
#[derive(Drop)]
pub struct Numbered {
    number: u64,
    lits: SmallVec<Lit, 4>,
}

impl Model for Numbered {
    ghost use Rattle.mal_base.specs.NumberedClause.{NumberedClause};

    ghost Value = { NumberedClause };

    ghost view = { λ c. record { id = c.number; lits = c.lits.items } };
}

impl Numbered {
    /// These literals under this number.
    pub fn new(number: u64, lits: SmallVec<Lit, 4>) -> Numbered
        ensures { result ≡ record { id = number; lits = lits.items } }
    {
        Numbered { number, lits }
    }

    /// The clause that is held so. None exactly where the number is 0 or the literals do not rise by variable.
    fn held(&self) -> Result<Option<NumberedClause>, AllocError>
        ensures { IfOk result
            (λ o. MatchOption o (can_hold self.now ≡ false) (λ h. (h ≡ self.now) × (can_hold self.now ≡ true))) }
    {
        let id = match ClauseId::of(self.number) {
            None => return Ok(None),
            Some(id) => id,
        };
        match Clause::of_rising(*self.lits.allocator(), self.lits.as_slice())? {
            None => Ok(None),
            Some(clause) => Ok(Some(NumberedClause::new(id, clause))),
        }
    }
}

/// The clauses that are held so. None exactly where one of them cannot be held.
pub fn held_of(
    alloc: Global,
    clauses: &[Numbered],
) -> Result<Option<Vec<NumberedClause>>, AllocError>
    ensures { IfOk result
        (λ o. MatchOption o (list_all can_hold clauses.now ≡ false)
        (λ v. (v.items ≡ clauses.now) × (list_all can_hold clauses.now ≡ true))) }
{
    let mut all = Vec::new(alloc);
    for numbered in clauses {
        match numbered.held()? {
            None => return Ok(None),
            Some(held) => all.push(held)?,
        }
    }
    Ok(Some(all))
}
