//! Why the proof of a text's claim is not verified.

ghost use Rattle.std.specs.Prelude.{◌≡◌};
ghost use Rattle.mal_claim.specs.declared.denial.Denial.TheVariants.{NoClaim, NotVerified};
ghost use Rattle.mal_claim.specs.declared.denial.VerifyFault.TheVariants.{OutOfMemory};
ghost use Rattle.mal_claim.specs.declared.fault.ClaimFault.TheVariants.{Proof};

use crate::fault::ClaimFault;
use crate::row::ProofFault;
use mal_check::CheckFault;
use std::alloc::AllocError;

/// Why a proof is not verified.
#[derive(Clone, Copy, Debug, Drop)]
pub enum VerifyFault {
    /// The first line that is refused, by its number, and why.
    Refused { line: u64, fault: CheckFault },
    /// No line is refused, and no added clause has negated assumptions alone.
    NoGoal,
    OutOfMemory,
}

/// Why nothing is verified of a text.
#[derive(Clone, Copy, Debug, Drop)]
pub enum Denial {
    /// The text spells no claim.
    NoClaim { fault: ClaimFault },
    /// The proof of its claim is not verified.
    NotVerified { fault: VerifyFault },
}

impl From<ClaimFault> for Denial {
    ghost from_gives = { λ fault e. e ≡ NoClaim fault };

    fn from(fault: ClaimFault) -> Denial {
        Denial::NoClaim { fault }
    }
}

impl From<ProofFault> for Denial {
    ghost from_gives = { λ fault e. e ≡ NoClaim (Proof fault) };

    fn from(fault: ProofFault) -> Denial {
        Denial::NoClaim {
            fault: ClaimFault::Proof { fault },
        }
    }
}

impl From<AllocError> for Denial {
    ghost from_gives = { λ _ e. e ≡ NotVerified OutOfMemory };

    fn from(_error: AllocError) -> Denial {
        Denial::NotVerified {
            fault: VerifyFault::OutOfMemory,
        }
    }
}
