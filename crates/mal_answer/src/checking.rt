//! Checking the proof of a claim.

ghost use Rattle.std.specs.Prelude.{◌≡◌, [], IfOk};
ghost use Rattle.mal_answer.specs.{Answers.{IsAnswerTo, logged}, Commands.{checking}, Claims.{TellsFault, TellsRefusal}};
ghost use Rattle.mal_claim.specs.FaultLines.{verified_line};

use crate::answer::{Complaint, Texts};
use mal_claim::{ClaimFault, Denial, VerifyFault, fault_line, verdict_line};
use std::alloc::{AllocError, Global};

/// Checks the proof of the claim that a text spells: nothing for the log, and the line `s VERIFIED` for the output.
#[tactic(auto, using(crate::proofs::Denials::denial_lemmas))]
pub fn check(alloc: Global, text: Vec<u8>) -> Result<Texts, Complaint>
    ensures { IsAnswerTo checking text.items result }
{
    match mal_claim::check(alloc, text.as_slice()) {
        Ok(()) => match verified(alloc) {
            Ok(texts) => Ok(texts),
            Err(_) => Err(Complaint::OutOfMemory),
        },
        Err(Denial::NoClaim { fault }) => Err(no_claim(alloc, fault)),
        Err(Denial::NotVerified { fault }) => Err(no_proof(alloc, fault)),
    }
}

/// The texts of a verified claim.
fn verified(alloc: Global) -> Result<Texts, AllocError>
    ensures { IfOk result (λ t. (logged t.log.items ≡ []) × (t.out.items ≡ verified_line)) }
{
    Ok(Texts {
        log: Vec::new(alloc),
        out: Vec::from_slice(alloc, b"s VERIFIED\n")?,
    })
}

/// The complaint about a text whose first fault this is.
fn no_claim(alloc: Global, fault: ClaimFault) -> Complaint
    ensures { TellsFault fault result }
{
    match fault_line(alloc, fault) {
        Ok(Some(line)) => Complaint::Refused(line),
        _ => Complaint::OutOfMemory,
    }
}

/// The complaint about a claim whose proof is refused so.
fn no_proof(alloc: Global, fault: VerifyFault) -> Complaint
    ensures { TellsRefusal fault result }
{
    match verdict_line(alloc, fault) {
        Ok(Some(line)) => Complaint::Denied(line),
        _ => Complaint::OutOfMemory,
    }
}
