//! Why a text is no description of jobs.

ghost use Rattle.std.specs.Prelude.{◌≡◌};
ghost use Rattle.spec_json.specs.declared.fault.JsonFault.TheVariants.{OutOfMemory};

use mal_base::{LimitKind, Var};
use std::alloc::AllocError;
use thiserror::Error;

/// Why a text is not read as a description of jobs: the first thing that is wrong with it, or out of memory. Jobs count
/// from 1; 0 is the document itself.
#[derive(Clone, Copy, Debug, PartialEq, Eq, Drop, Error)]
pub enum JsonFault {
    /// The text is no JSON.
    #[error("no JSON")]
    NotJson,
    /// A key lacks, another one stands there, or a value is of another kind.
    #[error("job {job}: wrong shape")]
    Shape { job: usize },
    /// A number is outside its limits.
    #[error("job {job}: number out of range")]
    Range { job: usize },
    /// The tenant has a job of this name.
    #[error("job {job}: the tenant has a job of this name")]
    Duplicate { job: usize },
    /// A literal's variable is above the variables of its step.
    #[error("job {job}: variable too large")]
    VarTooLarge { job: usize },
    /// This is the least variable that is assumed with both signs.
    #[error("job {job}: variable {} is assumed with both signs", .var.number())]
    Opposite { job: usize, var: Var },
    /// There are more of these than may be.
    #[error("job {job}: too many {which:?}")]
    Limit { job: usize, which: LimitKind },
    /// Memory ran out.
    #[error("out of memory")]
    OutOfMemory,
}

impl From<AllocError> for JsonFault {
    ghost from_gives = { λ _ e. e ≡ OutOfMemory };

    fn from(_error: AllocError) -> JsonFault {
        JsonFault::OutOfMemory
    }
}
