//! Why a text is not read as a script.

ghost use Rattle.std.specs.Prelude.{◌≡◌};
ghost use Rattle.mal_script.specs.{declared.fault.LineRefusal.TheVariants.{OutOfMemory}, ReadResult.{OfAssumptions}};
ghost use Rattle.mal_script.specs.declared.fault.AssumptionFault.TheVariants as assumption;

use mal_base::{LineFault, Var};
use std::alloc::AllocError;
use thiserror::Error;

/// Why a text is not read as a script: the first fault of the text with its line, counted from 1, or out of memory.
#[derive(Clone, Copy, Debug, PartialEq, Eq, Drop, Error)]
pub enum ScriptFault {
    /// This line has this fault, and no line before it has one. A text that ends inside a job is told with its last line.
    #[error("line {line}: {fault}")]
    Line { line: u64, fault: LineFault },
    /// Memory ran out.
    #[error("out of memory")]
    OutOfMemory,
}

/// Why a line of a script is refused: a fault, or out of memory.
#[derive(Clone, Copy, Debug, PartialEq, Eq, Drop)]
pub enum LineRefusal {
    Fault(LineFault),
    OutOfMemory,
}

impl From<AllocError> for LineRefusal {
    ghost from_gives = { λ _ e. e ≡ OutOfMemory };

    fn from(_error: AllocError) -> LineRefusal {
        LineRefusal::OutOfMemory
    }
}

/// Why the words after the first of a line are no assumptions: the causes stand in the order in which they are tested.
#[derive(Clone, Copy, Debug, PartialEq, Eq, Drop, Error)]
pub enum AssumptionFault {
    /// A word is no number, the last is not 0, or another is 0.
    #[error("bad line")]
    BadLine,
    /// A literal is of a variable above the greatest.
    #[error("number out of range")]
    Range,
    /// This is the least variable that is assumed with both signs.
    #[error("variable {} is assumed with both signs", .var.number())]
    Opposite { var: Var },
    /// Memory ran out.
    #[error("out of memory")]
    OutOfMemory,
}

impl From<AllocError> for AssumptionFault {
    ghost from_gives = { λ _ e. e ≡ assumption.OutOfMemory };

    fn from(_error: AllocError) -> AssumptionFault {
        AssumptionFault::OutOfMemory
    }
}

impl AssumptionFault {
    /// The same as the refusal of a line.
    pub fn refusal(self) -> LineRefusal
        ensures { OfAssumptions self result }
    {
        match self {
            AssumptionFault::BadLine => LineRefusal::Fault(LineFault::BadLine),
            AssumptionFault::Range => LineRefusal::Fault(LineFault::Range),
            AssumptionFault::Opposite { var } => LineRefusal::Fault(LineFault::Opposite { var }),
            AssumptionFault::OutOfMemory => LineRefusal::OutOfMemory,
        }
    }
}
