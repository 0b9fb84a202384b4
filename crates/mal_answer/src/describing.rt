//! The script that a description spells.

ghost use Rattle.std.specs.Prelude.{◌≡◌, [], IfOk};
ghost use Rattle.mal_answer.specs.{Answers.{IsAnswerTo, TellsDescriptionFault, logged}, Commands.{describing}};
ghost use Rattle.spec_script.specs.Script.{spelling};

use crate::answer::{Complaint, Texts};
use mal_json::{JsonFault, fault_line, read};
use mal_script::{Script, write};
use std::alloc::{AllocError, Global};

/// Writes the script that a description in JSON spells: nothing for the log, and its text for the output. The description
/// is let go before that text is made.
#[tactic(auto, using(crate::proofs::Descriptions::description_lemmas))]
pub fn describe(alloc: Global, text: Vec<u8>) -> Result<Texts, Complaint>
    ensures { IsAnswerTo describing text.items result }
{
    match read(alloc, text.as_slice()) {
        Ok(script) => {
            drop(text);
            match texts_of(alloc, &script) {
                Ok(texts) => Ok(texts),
                Err(_) => Err(Complaint::OutOfMemory),
            }
        }
        Err(fault) => Err(no_description(alloc, fault)),
    }
}

/// The text of a script for the output, and nothing for the log.
fn texts_of(alloc: Global, script: &Script) -> Result<Texts, AllocError>
    ensures silent { IfOk result (λ t. logged t.log.items ≡ []) }
    ensures written { IfOk result (λ t. t.out.items ≡ spelling script.now) }
{
    Ok(Texts {
        log: Vec::new(alloc),
        out: write(alloc, script)?,
    })
}

/// The complaint about a text whose first fault this is.
fn no_description(alloc: Global, fault: JsonFault) -> Complaint
    ensures { TellsDescriptionFault fault result }
{
    match fault_line(alloc, fault) {
        Ok(Some(line)) => Complaint::Refused(line),
        _ => Complaint::OutOfMemory,
    }
}
