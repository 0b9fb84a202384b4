//! Why a revision is refused.

use mal_base::{LimitKind, Var};
use thiserror::Error;

/// Why there is no revision of some variables, clauses and assumptions. The causes are tested in the order in which
/// they stand here.
#[derive(Clone, Copy, Debug, PartialEq, Eq, Error, Drop)]
pub enum RevisionFault {
    /// This is the least variable that is assumed with both signs.
    #[error("variable {} is assumed with both signs", .var.number())]
    Opposite { var: Var },
    /// This variable of a clause or of an assumption is above the revision's own.
    #[error("variable {} is above the revision's own", .var.number())]
    VarTooLarge { var: Var },
    /// There are too many of these.
    #[error("more {which:?} than a revision may have")]
    Limit { which: LimitKind },
    /// Memory ran out.
    #[error("out of memory")]
    OutOfMemory,
}
