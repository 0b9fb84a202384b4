//! The script that a text spells.

ghost use Rattle.std.specs.Prelude.{IfOk, IfErr};
ghost use Rattle.mal_answer.specs.Answers.{IsScriptRefusal, TellsScriptFault};
ghost use Rattle.mal_base.specs.Limits.{limits};
ghost use Rattle.spec_script.specs.{Formed.{IsScript}, Grammar.{Spells}};

use crate::answer::Complaint;
use mal_script::{Script, ScriptFault, fault_line, read};
use std::alloc::Global;

/// The script that a text spells; the text is let go.
///
/// Errors: `Refused` with the line that tells the first fault, exactly where the text spells no script; `OutOfMemory`
/// at any time.
#[tactic(auto, using(crate::proofs::ScriptLemmas::script_lemmas))]
pub fn script_of(alloc: Global, text: Vec<u8>) -> Result<Script, Complaint>
    ensures spelled { IfOk result (λ s. Spells limits text.items s) }
    ensures formed { IfOk result (λ s. IsScript limits s) }
    ensures refused { IfErr result (λ e. IsScriptRefusal text.items e) }
{
    match read(alloc, text.as_slice()) {
        Ok(script) => Ok(script),
        Err(fault) => Err(refusal_of(alloc, fault)),
    }
}

/// The complaint about a text whose first fault this is.
fn refusal_of(alloc: Global, fault: ScriptFault) -> Complaint
    ensures { TellsScriptFault fault result }
{
    match fault_line(alloc, fault) {
        Ok(Some(line)) => Complaint::Refused(line),
        _ => Complaint::OutOfMemory,
    }
}
