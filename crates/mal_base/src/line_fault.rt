//! Why a text is no script.

use crate::{BlockFault, LimitKind, Name, Var};
use thiserror::Error;

/// What is wrong with a line of a script, or with the end of one.
#[derive(Clone, Copy, Debug, PartialEq, Eq, Error, Drop)]
pub enum LineFault {
    /// The line has another form, or stands where none of its form may stand.
    #[error("bad line")]
    BadLine,
    /// The line is one of a block, and wrong in it.
    #[error(transparent)]
    Dimacs { fault: BlockFault },
    /// This is the least variable that is assumed with both signs.
    #[error("variable {} is assumed with both signs", .var.number())]
    Opposite { var: Var },
    /// The tenant has a job of this name.
    #[error("the tenant has a job of this name")]
    Duplicate { tenant: Name, job: Name },
    /// A number is outside its limits.
    #[error("number out of range")]
    Range,
    /// There are more of these than may be.
    #[error("too many {which:?}")]
    Limit { which: LimitKind },
}
