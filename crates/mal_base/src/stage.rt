//! Where in a block a reader is.

/// Where in a block of DIMACS CNF a reader is.
#[derive(Clone, Copy, Debug, PartialEq, Eq, Drop)]
pub enum Stage {
    /// Among the clauses.
    Clauses,
    /// After the line `%`.
    Percent,
    /// After the line `0` that may follow the line `%`.
    Zero,
}
