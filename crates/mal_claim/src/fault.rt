//! Why a text is no claim.

ghost use Rattle.std.specs.Prelude.{◌≡◌};
ghost use Rattle.mal_claim.specs.{declared.fault.ClaimFault.TheVariants.{OutOfMemory}, ReadResult.{of_formula}};

use crate::row::ProofFault;
use mal_base::LineFault;
use mal_dimacs::DimacsFault;
use std::alloc::AllocError;

/// Why a text is no claim: its first fault, or out of memory.
#[derive(Clone, Copy, Debug, Drop)]
pub enum ClaimFault {
    /// No line is the one word `proof`.
    NoProof,
    /// This line before the line `proof` is wrong, counted from 1.
    Formula { line: u64, fault: LineFault },
    /// A line after the line `proof` is wrong.
    Proof { fault: ProofFault },
    /// Memory ran out.
    OutOfMemory,
}

impl From<AllocError> for ClaimFault {
    ghost from_gives = { λ _ e. e ≡ OutOfMemory };

    fn from(_error: AllocError) -> ClaimFault {
        ClaimFault::OutOfMemory
    }
}

impl From<DimacsFault> for ClaimFault {
    ghost from_gives = { λ fault e. e ≡ of_formula fault };

    fn from(fault: DimacsFault) -> ClaimFault {
        match fault {
            DimacsFault::Fault { line, fault } => ClaimFault::Formula {
                line,
                fault: LineFault::Dimacs { fault },
            },
            DimacsFault::OutOfMemory => ClaimFault::OutOfMemory,
        }
    }
}
