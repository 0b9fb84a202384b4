//! Why a line of a proof is refused.

ghost use Rattle.std.specs.Prelude.{◌≡◌};
ghost use Rattle.mal_check.specs.declared.fault.CheckFault.TheVariants.{OutOfMemory};

use mal_base::ClauseId;
use std::alloc::AllocError;
use thiserror::Error;

/// Why a line of a proof is refused.
#[derive(Clone, Copy, Debug, PartialEq, Eq, Drop, Error)]
pub enum CheckFault {
    /// A clause is held under the line's id.
    #[error("id in use")]
    IdUsed { id: ClauseId },
    /// No clause is held under this hint.
    #[error("unknown hint")]
    UnknownHint { id: ClauseId },
    /// Two literals or more of the clause under this hint are left, and none of its literals is true.
    #[error("hint not unit")]
    HintNotUnit { id: ClauseId },
    /// The hints end before a clause without a literal left.
    #[error("no contradiction")]
    NoContradiction,
    #[error("out of memory")]
    OutOfMemory,
}

impl From<AllocError> for CheckFault {
    ghost from_gives = { λ _ e. e ≡ OutOfMemory };

    fn from(_error: AllocError) -> CheckFault {
        CheckFault::OutOfMemory
    }
}
