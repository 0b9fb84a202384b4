//! How a slice of solver steps and a search may end.

use crate::clause_id::ClauseId;

/// What a search found: a model, or a goal, the derived clause that refutes the clauses under the assumptions.
#[derive(Clone, Copy, Debug, PartialEq, Eq)]
pub enum Verdict {
    Satisfiable,
    Unsatisfiable { goal: ClauseId },
}

/// How a start of a solver ended: its slice was run, memory for it ran out, or it never came back.
#[derive(Clone, Copy, Debug, PartialEq, Eq)]
pub enum Outcome {
    Ran,
    Starved,
    Lost,
}
