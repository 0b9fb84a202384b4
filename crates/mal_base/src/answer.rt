//! The answers to a revision.

ghost use Rattle.std.specs.Prelude.{◌≡◌, ◌≤◌, length};
ghost use Rattle.mal_base.specs.Limits.{greatest_variable};

use crate::clause_id::ClauseId;
use std::marker::Model;

/// The values of the variables from 1 on, as many as a literal can be of at most. Contracts see the list.
#[derive(Debug, Drop)]
pub struct Values {
    // There are no more than a literal can be of, so each literal of a model is made and written without a further
    // test.
    items: Vec<bool>,
}

impl Model for Values {
    ghost use Rattle.std.specs.Prelude.{◌≤◌, List, Bool, length};
    ghost use Rattle.mal_base.specs.Limits.{greatest_variable};

    ghost Value = { List Bool };

    ghost view = { λ v. v.items.items };

    ghost invariant = { λ v. length v.items.items ≤ greatest_variable };
}

impl Values {
    /// The values of this list. Takes no memory.
    pub fn of(items: Vec<bool>) -> Values
        requires { length items.items ≤ greatest_variable }
        ensures { result ≡ items.items }
    {
        Values { items }
    }

    /// The values, from variable 1 on.
    pub fn as_slice(&self) -> &[bool]
        ensures value { result.now ≡ self.now }
        ensures bound { length self.now ≤ greatest_variable }
    {
        self.items.as_slice()
    }
}

/// The answer to a revision: a model; the derived clause that refutes the clauses under the assumptions; or unknown,
/// since the budget of so many slices is spent or since three starts reported out of memory.
#[derive(Debug, Drop)]
pub enum Answer {
    Satisfied(Values),
    Refuted { goal: ClauseId },
    Spent(u32),
    OutOfStarts,
}
