//! The lines that tell why a text is no instance.

ghost use Rattle.std.specs.Prelude.{◌≡◌, ◌∷◌, ◌++◌, [], None, codes, IfOk, MatchOption};
ghost use Rattle.spec_text.specs.{Faults.{TellsBy}, Lines.{line_of}};
ghost use Rattle.spec_script.specs.FaultLines.{part_line};
ghost use Rattle.mal_instance.specs.{FaultLines.{fault_line}, ReadResult.{fault_of}};

use crate::fault::InputFault;
use mal_script::line_fault_line;
use mal_text::{end_line, put_decimal, put_word};
use std::alloc::{AllocError, Global};

/// The line that tells a fault of a text, as `fault: no MISSING`, `fault: formula line 3 Range` or `fault: formula line
/// 3 Limit LIMIT`, with its line end. None exactly when out of memory.
pub fn fault_line(
    alloc: Global,
    missing: &[u8],
    limit: &[u8],
    fault: InputFault,
) -> Result<Option<Vec<u8>>, AllocError>
    ensures { IfOk result
        (λ o. MatchOption o (fault_of fault ≡ None)
        (λ text. TellsBy (fault_line missing.now limit.now) (fault_of fault) text.items)) }
{
    match fault {
        InputFault::NoLine => Ok(Some(missing_line(alloc, missing)?)),
        InputFault::Formula { line, fault } => {
            Ok(Some(line_fault_line(alloc, b"formula", line, fault)?))
        }
        InputFault::TooMany { line } => Ok(Some(limit_line(alloc, line, limit)?)),
        InputFault::OutOfMemory => Ok(None),
    }
}

/// The line that tells that no line is there of these.
fn missing_line(alloc: Global, missing: &[u8]) -> Result<Vec<u8>, AllocError>
    ensures { IfOk result (λ text. text.items ≡ line_of (codes "fault:" ∷ codes "no" ∷ missing.now ∷ [])) }
{
    let mut text = Vec::new(alloc);
    text.extend_from_slice(b"fault: no")?;
    put_word(&mut text, missing)?;
    end_line(&mut text)?;
    Ok(text)
}

/// The line that tells that this line has too many of these.
fn limit_line(alloc: Global, line: u64, limit: &[u8]) -> Result<Vec<u8>, AllocError>
    ensures { IfOk result (λ text. text.items ≡ part_line (codes "formula") line (codes "Limit" ∷ limit.now ∷ [])) }
{
    let mut text = Vec::new(alloc);
    text.extend_from_slice(b"fault: formula line")?;
    put_decimal(&mut text, line)?;
    put_word(&mut text, b"Limit")?;
    put_word(&mut text, limit)?;
    end_line(&mut text)?;
    Ok(text)
}
