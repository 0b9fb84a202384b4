//! What a reply tells.

use mal_base::{Lines, Lit, Values};

/// What the reply to a revision tells: a model; where no assignment satisfies the clauses and the assumptions, the
/// assumptions that fail and the lines of the proof; or unknown, since the budget of so many slices is spent or since
/// three starts reported out of memory.
#[derive(Drop)]
pub enum Told {
    Model(Values),
    Proof { failed: Vec<Lit>, lines: Lines },
    Spent(u32),
    Starved,
}

/// Why the answer to a revision is unknown: the budget of so many slices is spent, or three starts reported out of
/// memory.
#[derive(Clone, Copy, Debug, PartialEq, Eq)]
pub enum Cause {
    Spent(u32),
    Starved,
}
