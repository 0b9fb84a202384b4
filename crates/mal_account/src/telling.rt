//! The lines that tell why a text is no account.

ghost use Rattle.std.specs.Prelude.{◌≡◌, [], ◌∷◌, None, codes, IfOk, MatchOption};
ghost use Rattle.mal_account.specs.ReadResult.{fault_of, in_history, in_script};
ghost use Rattle.spec_text.specs.{Faults.{TellsBy}, Lines.{line_of}};
ghost use Rattle.mal_account.specs.FaultLines.{fault_line, history_line};

use crate::fault::AccountFault;
use itoa::Buffer;
use mal_history::HistoryFault;
use mal_script::ScriptFault;
use mal_text::put_line;
use std::alloc::{AllocError, Global};

/// The line that tells a fault of a text, as `fault: no history`, `fault: script line 3 Range` or
/// `fault: history line 1 BadNumber`, with its line end. None exactly when out of memory.
pub fn fault_line(alloc: Global, fault: AccountFault) -> Result<Option<Vec<u8>>, AllocError>
    ensures { IfOk result
        (λ o. MatchOption o (fault_of fault ≡ None) (λ text. TellsBy fault_line (fault_of fault) text.items)) }
{
    match fault {
        AccountFault::NoHistory => Ok(Some(no_history(alloc)?)),
        AccountFault::Script { fault } => script_line(alloc, fault),
        AccountFault::History { fault } => history_line(alloc, fault),
        AccountFault::OutOfMemory => Ok(None),
    }
}

/// The line that tells that no line is the word `history`.
fn no_history(alloc: Global) -> Result<Vec<u8>, AllocError>
    ensures { IfOk result (λ text. text.items ≡ line_of (codes "fault:" ∷ codes "no" ∷ codes "history" ∷ [])) }
{
    Vec::from_slice(alloc, b"fault: no history\n")
}

/// The line that tells a fault of the script; none when out of memory.
fn script_line(alloc: Global, fault: ScriptFault) -> Result<Option<Vec<u8>>, AllocError>
    ensures { IfOk result
        (λ o. MatchOption o (in_script fault ≡ None) (λ text. TellsBy fault_line (in_script fault) text.items)) }
{
    mal_script::fault_line(alloc, fault)
}

/// The line that tells a fault of the history; none when out of memory.
fn history_line(alloc: Global, fault: HistoryFault) -> Result<Option<Vec<u8>>, AllocError>
    ensures { IfOk result
        (λ o. MatchOption o (in_history fault ≡ None) (λ text. TellsBy fault_line (in_history fault) text.items)) }
{
    match fault {
        HistoryFault::BadLine { line } => Ok(Some(told(alloc, line, b"BadLine")?)),
        HistoryFault::BadNumber { line } => Ok(Some(told(alloc, line, b"BadNumber")?)),
        HistoryFault::TooLong { line } => Ok(Some(told(alloc, line, b"TooLong")?)),
        HistoryFault::OutOfMemory => Ok(None),
    }
}

/// The line that tells this word of a line of the history.
fn told(alloc: Global, line: u64, word: &[u8]) -> Result<Vec<u8>, AllocError>
    ensures { IfOk result (λ text. text.items ≡ history_line line word.now) }
{
    let mut text = Vec::new(alloc);
    text.extend_from_slice(b"fault: history line ")?;
    put_line(&mut text, Buffer::new().format(line).as_bytes(), &[word])?;
    Ok(text)
}
