//! Why a block or a text is not read.

ghost use Rattle.std.specs.Prelude.{◌≡◌};
ghost use Rattle.mal_dimacs.specs.declared.fault.DimacsError.TheVariants as error;
ghost use Rattle.mal_dimacs.specs.declared.fault.DimacsFault.TheVariants as located;
ghost use Rattle.mal_dimacs.specs.Reads.{on_line_of};

use mal_base::BlockFault;
use std::alloc::AllocError;
use thiserror::Error;

/// Why a line of a block is not read.
#[derive(Clone, Copy, Debug, PartialEq, Eq, Drop, Error)]
pub enum DimacsError {
    /// The line or what stands before it has this fault.
    #[error("{0}")]
    Fault(BlockFault),
    /// Memory ran out.
    #[error("out of memory")]
    OutOfMemory,
}

impl From<AllocError> for DimacsError {
    ghost from_gives = { λ _ e. e ≡ error.OutOfMemory };

    fn from(_error: AllocError) -> DimacsError {
        DimacsError::OutOfMemory
    }
}

/// Why a text is not read.
#[derive(Clone, Copy, Debug, PartialEq, Eq, Drop, Error)]
pub enum DimacsFault {
    /// This is the first fault of the text, at this line, counted from 1.
    #[error("line {line}: {fault}")]
    Fault { line: u64, fault: BlockFault },
    /// Memory ran out.
    #[error("out of memory")]
    OutOfMemory,
}

impl DimacsError {
    /// The same with the line on which it is.
    pub fn on_line(self, line: u64) -> DimacsFault
        ensures { result ≡ on_line_of line self }
    {
        match self {
            DimacsError::Fault(fault) => DimacsFault::Fault { line, fault },
            DimacsError::OutOfMemory => DimacsFault::OutOfMemory,
        }
    }
}
