//! Clauses under their numbers.

ghost use Rattle.std.specs.Prelude.{◌≡◌, IfOk};

use crate::{Clause, ClauseId, Lit};
use std::alloc::AllocError;
use std::marker::Model;

/// A clause under its number.
#[derive(Drop)]
pub struct NumberedClause {
    id: ClauseId,
    clause: Clause,
}

impl Model for NumberedClause {
    ghost use Rattle.mal_base.specs.NumberedClause.{NumberedClause};

    ghost Value = { NumberedClause };

    ghost view = { λ c. record { id = c.id; lits = c.clause } };
}

impl NumberedClause {
    /// This clause under this number.
    pub fn new(id: ClauseId, clause: Clause) -> NumberedClause
        ensures { result ≡ record { id = id; lits = clause } }
    {
        NumberedClause { id, clause }
    }

    /// The number.
    pub fn id(&self) -> ClauseId
        ensures { result ≡ self.now.id }
    {
        self.id
    }

    /// The clause.
    pub fn clause(&self) -> &Clause
        ensures { result.now ≡ self.now.lits }
    {
        &self.clause
    }

    /// The clause's literals, by rising variable.
    pub fn lits(&self) -> &[Lit]
        ensures { result.now ≡ self.now.lits }
    {
        self.clause.lits()
    }

    /// An equal clause under the same number.
    pub fn copy(&self) -> Result<NumberedClause, AllocError>
        ensures { IfOk result (λ c. c ≡ self.now) }
    {
        let clause = self.clause.copy()?;
        Ok(NumberedClause {
            id: self.id,
            clause,
        })
    }
}
