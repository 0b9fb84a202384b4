//! Why a text or a block of lines is no DIMACS CNF formula.

use crate::LimitKind;
use thiserror::Error;

/// What is wrong with a line of DIMACS CNF, or with the end of one.
#[derive(Clone, Copy, Debug, PartialEq, Eq, Error, Drop)]
pub enum BlockFault {
    /// The first line that counts is no header, there is none, or a line after the header begins with the word `p`.
    #[error("bad header")]
    BadHeader,
    /// A word after the header is no number.
    #[error("bad number")]
    BadNumber,
    /// A literal's variable is above the declared variables.
    #[error("variable too large")]
    VarTooLarge,
    /// So many clauses are declared, and another number of them was found.
    #[error("{declared} clauses are declared, and there are {found}")]
    ClauseCount { declared: u32, found: u64 },
    /// There are more of these than may be.
    #[error("too many {which:?}")]
    Limit { which: LimitKind },
    /// After the last clause stands what may not stand there: literals without a closing 0, or a line after `%`.
    #[error("trailing words")]
    Trailing,
}
