//! Why a solver answers nothing more.

use thiserror::Error;

/// Why an input was refused. What the solver was given is not whole from then on, so it answers nothing more.
#[derive(Clone, Copy, Debug, PartialEq, Eq, Error, Drop)]
pub enum Refusal {
    /// A number is no literal of a variable from 1 to `LIMITS.variables`, or 0 was assumed.
    #[error("no literal")]
    NoLiteral,
    /// An answer was asked for while a clause was open.
    #[error("a clause is open")]
    OpenClause,
    /// There are more clauses, literals or conflicts than are counted.
    #[error("a limit was passed")]
    Limit,
    /// Memory ran out.
    #[error("out of memory")]
    OutOfMemory,
}
