//! Why a text is no instance.

ghost use Rattle.std.specs.Prelude.{◌≡◌};
ghost use Rattle.mal_instance.specs.declared.fault.InputFault.TheVariants as input;
ghost use Rattle.mal_instance.specs.declared.fault.LitsError.TheVariants as lits;
ghost use Rattle.mal_instance.specs.ReadResult.{IsOnLine, input_fault_of, lits_error_of};

use mal_base::LineFault;
use mal_dimacs::DimacsFault;
use mal_script::AssumptionFault;
use std::alloc::AllocError;

/// Why a text is no instance: its first fault, or out of memory.
#[derive(Clone, Copy, Debug, Drop)]
pub enum InputFault {
    /// No line begins with the word of the literals.
    NoLine,
    /// This line is wrong, counted from 1.
    Formula { line: u64, fault: LineFault },
    /// This line has more literals than may be.
    TooMany { line: u64 },
    /// Memory ran out.
    OutOfMemory,
}

impl From<AllocError> for InputFault {
    ghost from_gives = { λ _ e. e ≡ input.OutOfMemory };

    fn from(_error: AllocError) -> InputFault {
        InputFault::OutOfMemory
    }
}

impl From<DimacsFault> for InputFault {
    ghost from_gives = { λ fault e. e ≡ input_fault_of fault };

    fn from(fault: DimacsFault) -> InputFault {
        match fault {
            DimacsFault::Fault { line, fault } => InputFault::Formula {
                line,
                fault: LineFault::Dimacs { fault },
            },
            DimacsFault::OutOfMemory => InputFault::OutOfMemory,
        }
    }
}

/// Why the words of a line are no literals.
#[derive(Clone, Copy, Debug, Drop)]
pub enum LitsError {
    /// The line has this fault.
    Wrong { fault: LineFault },
    /// There are more literals than may be.
    Exceeds,
    /// Memory ran out.
    OutOfMemory,
}

impl From<AssumptionFault> for LitsError {
    ghost from_gives = { λ fault e. e ≡ lits_error_of fault };

    fn from(fault: AssumptionFault) -> LitsError {
        match fault {
            AssumptionFault::BadLine => LitsError::Wrong {
                fault: LineFault::BadLine,
            },
            AssumptionFault::Range => LitsError::Wrong {
                fault: LineFault::Range,
            },
            AssumptionFault::Opposite { var } => LitsError::Wrong {
                fault: LineFault::Opposite { var },
            },
            AssumptionFault::OutOfMemory => LitsError::OutOfMemory,
        }
    }
}

impl From<AllocError> for LitsError {
    ghost from_gives = { λ _ e. e ≡ lits.OutOfMemory };

    fn from(_error: AllocError) -> LitsError {
        LitsError::OutOfMemory
    }
}

impl LitsError {
    /// The same as a fault of a text, on this line.
    pub fn on_line(self, line: u64) -> InputFault
        ensures { IsOnLine line self result }
    {
        match self {
            LitsError::Wrong { fault } => InputFault::Formula { line, fault },
            LitsError::Exceeds => InputFault::TooMany { line },
            LitsError::OutOfMemory => InputFault::OutOfMemory,
        }
    }
}
