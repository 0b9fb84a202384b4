//! The lines that tell why a text is no claim, or why its proof is not verified.

ghost use Rattle.std.specs.Prelude.{◌≡◌, ◌∷◌, ◌++◌, [], None, codes, IfOk, MatchOption};
ghost use Rattle.spec_text.specs.{Faults.{TellsBy}, Lines.{line_of}, Numbers.{decimal_word}};
ghost use Rattle.mal_claim.specs.FaultLines.{fault_line, proof_line};
ghost use Rattle.mal_claim.specs.{ReadResult.{TellsVerdict, fault_of, in_line, refused, verdict_in}, Verdicts.{refusal_of}};

use crate::denial::VerifyFault;
use crate::fault::ClaimFault;
use mal_check::CheckFault;
use mal_script::line_fault_line;
use mal_text::{end_line, put_decimal, put_word};
use std::alloc::{AllocError, Global};

/// The line that tells a fault of a text, as `fault: no proof`, `fault: formula line 3 Range` or
/// `fault: proof line 1 MissingZero`, with its line end. None exactly when out of memory.
pub fn fault_line(alloc: Global, fault: ClaimFault) -> Result<Option<Vec<u8>>, AllocError>
    ensures { IfOk result
        (λ o. MatchOption o (fault_of fault ≡ None) (λ text. TellsBy fault_line (fault_of fault) text.items)) }
{
    match fault {
        ClaimFault::NoProof => Ok(Some(no_proof(alloc)?)),
        ClaimFault::Formula { line, fault } => {
            Ok(Some(line_fault_line(alloc, b"formula", line, fault)?))
        }
        ClaimFault::Proof { fault } => proof_line(alloc, fault.line, fault.fault),
        ClaimFault::OutOfMemory => Ok(None),
    }
}

/// The line that tells why a proof is not verified, as `fault: proof line 1 UnknownHint 9` or `fault: proof goal`, with
/// its line end. None exactly when out of memory.
pub fn verdict_line(alloc: Global, fault: VerifyFault) -> Result<Option<Vec<u8>>, AllocError>
    ensures { IfOk result
        (λ o. MatchOption o (verdict_in fault ≡ None) (λ text. TellsVerdict (verdict_in fault) text.items)) }
{
    match fault {
        VerifyFault::Refused { line, fault } => refusal_line(alloc, line, fault),
        VerifyFault::NoGoal => Ok(Some(no_goal(alloc)?)),
        VerifyFault::OutOfMemory => Ok(None),
    }
}

/// The line that tells that no line is the word `proof`.
fn no_proof(alloc: Global) -> Result<Vec<u8>, AllocError>
    ensures { IfOk result (λ text. text.items ≡ line_of (codes "fault:" ∷ codes "no" ∷ codes "proof" ∷ [])) }
{
    Vec::from_slice(alloc, b"fault: no proof\n")
}

/// The line that tells that the lines of a proof do not reach the goal.
fn no_goal(alloc: Global) -> Result<Vec<u8>, AllocError>
    ensures { IfOk result (λ text. text.items ≡ line_of (codes "fault:" ∷ codes "proof" ∷ codes "goal" ∷ [])) }
{
    Vec::from_slice(alloc, b"fault: proof goal\n")
}

/// The line that tells a fault of a line of the proof; none when out of memory.
fn proof_line(
    alloc: Global,
    line: u64,
    fault: mal_lrat::LineFault,
) -> Result<Option<Vec<u8>>, AllocError>
    ensures { IfOk result
        (λ o. MatchOption o (in_line line fault ≡ None) (λ text. TellsBy fault_line (in_line line fault) text.items)) }
{
    match fault {
        mal_lrat::LineFault::BadNumber => Ok(Some(word_line(alloc, line, b"BadNumber")?)),
        mal_lrat::LineFault::MissingZero => Ok(Some(word_line(alloc, line, b"MissingZero")?)),
        mal_lrat::LineFault::IdNotRising { last, id } => {
            Ok(Some(not_rising_line(alloc, line, last, id)?))
        }
        mal_lrat::LineFault::NegativeHint => Ok(Some(word_line(alloc, line, b"NegativeHint")?)),
        mal_lrat::LineFault::OutOfMemory => Ok(None),
    }
}

/// The line that tells that an id is not above the last one.
fn not_rising_line(alloc: Global, line: u64, last: u64, id: u64) -> Result<Vec<u8>, AllocError>
    ensures { IfOk result
        (λ text. text.items ≡ proof_line line (codes "IdNotRising" ∷ decimal_word last ∷ decimal_word id ∷ [])) }
{
    let mut text = told(alloc, line, b"IdNotRising")?;
    put_decimal(&mut text, last)?;
    put_decimal(&mut text, id)?;
    end_line(&mut text)?;
    Ok(text)
}

/// The line that tells why a line of the proof is refused; none when out of memory.
fn refusal_line(alloc: Global, line: u64, fault: CheckFault) -> Result<Option<Vec<u8>>, AllocError>
    ensures { IfOk result
        (λ o. MatchOption o (refused line (refusal_of fault) ≡ None)
        (λ text. TellsVerdict (refused line (refusal_of fault)) text.items)) }
{
    match fault {
        CheckFault::IdUsed { id } => Ok(Some(id_line(alloc, line, b"IdUsed", id.number())?)),
        CheckFault::UnknownHint { id } => {
            Ok(Some(id_line(alloc, line, b"UnknownHint", id.number())?))
        }
        CheckFault::HintNotUnit { id } => {
            Ok(Some(id_line(alloc, line, b"HintNotUnit", id.number())?))
        }
        CheckFault::NoContradiction => Ok(Some(word_line(alloc, line, b"NoContradiction")?)),
        CheckFault::OutOfMemory => Ok(None),
    }
}

/// The line that tells this word and an id of a line of the proof.
fn id_line(alloc: Global, line: u64, word: &[u8], id: u64) -> Result<Vec<u8>, AllocError>
    ensures { IfOk result (λ text. text.items ≡ proof_line line (word.now ∷ decimal_word id ∷ [])) }
{
    let mut text = told(alloc, line, word)?;
    put_decimal(&mut text, id)?;
    end_line(&mut text)?;
    Ok(text)
}

/// The line that tells this word of a line of the proof.
fn word_line(alloc: Global, line: u64, word: &[u8]) -> Result<Vec<u8>, AllocError>
    ensures { IfOk result (λ text. text.items ≡ proof_line line (word.now ∷ [])) }
{
    let mut text = told(alloc, line, word)?;
    end_line(&mut text)?;
    Ok(text)
}

/// What a line that tells of a line of the proof begins with, up to this word.
fn told(alloc: Global, line: u64, word: &[u8]) -> Result<Vec<u8>, AllocError>
    ensures { IfOk result
        (λ text. text.items ≡ codes "fault: proof line" ++ 32 ∷ decimal_word line ++ 32 ∷ word.now) }
{
    let mut text = Vec::new(alloc);
    text.extend_from_slice(b"fault: proof line")?;
    put_decimal(&mut text, line)?;
    put_word(&mut text, word)?;
    Ok(text)
}
