//! The lines that tell why a text is no instance.

ghost use Rattle.std.specs.Prelude.{◌≡◌, None, IfOk, MatchOption};
ghost use Rattle.spec_text.specs.Faults.{TellsBy};
ghost use Rattle.mal_instance.specs.ReadResult.{fault_of};
ghost use Rattle.mal_core.specs.FaultLines.{fault_line};

use mal_instance::InputFault;
use std::alloc::{AllocError, Global};

/// The line that tells a fault of a text, as `fault: no assumptions`, `fault: formula line 3 Opposite 1` or `fault:
/// formula line 3 Limit Assumptions`, with its line end. None exactly when out of memory.
pub fn fault_line(alloc: Global, fault: InputFault) -> Result<Option<Vec<u8>>, AllocError>
    ensures { IfOk result
        (λ o. MatchOption o (fault_of fault ≡ None) (λ text. TellsBy fault_line (fault_of fault) text.items)) }
{
    mal_instance::fault_line(alloc, b"assumptions", b"Assumptions", fault)
}
