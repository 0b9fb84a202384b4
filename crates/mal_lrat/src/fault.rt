//! Why a text is no line of a proof.

ghost use Rattle.std.specs.Prelude.{◌≡◌};
ghost use Rattle.mal_lrat.specs.declared.fault.LineFault.TheVariants.{OutOfMemory};

use std::alloc::AllocError;
use thiserror::Error;

/// Why a text is no line of a proof.
#[derive(Clone, Copy, Debug, PartialEq, Eq, Drop, Error)]
pub enum LineFault {
    /// A word says no number, an id is below 1 or above 2^62, a hint is above 2^62, or a literal has no variable that is
    /// served.
    #[error("bad number")]
    BadNumber,
    /// The words after the id are not two lists that end with a 0, or one list after `d`.
    #[error("missing zero")]
    MissingZero,
    /// The id of an added clause is not above the last one.
    #[error("id {id} not above {last}")]
    IdNotRising { last: u64, id: u64 },
    /// A hint is negative.
    #[error("negative hint")]
    NegativeHint,
    #[error("out of memory")]
    OutOfMemory,
}

impl From<AllocError> for LineFault {
    ghost from_gives = { λ _ e. e ≡ OutOfMemory };

    fn from(_error: AllocError) -> LineFault {
        LineFault::OutOfMemory
    }
}
