//! Searching what a text spells.

ghost use Rattle.std.specs.Prelude.{◌≤◌};
ghost use Rattle.mal_base.specs.Limits.{limits};
ghost use Rattle.mal_answer.specs.{Answers.{Complains, IsAnswerTo, NoLine}, Command.{IsRead, reading}};
ghost use Rattle.mal_instance.specs.ReadResult.{fault_of};
ghost use Rattle.spec_text.specs.Faults.{TellsBy};

use mal_answer::{Complaint, Texts};
use mal_instance::InputFault;
use std::alloc::{AllocError, Global};

/// What is searched: an instance that a text spells.
pub trait Task {
    ghost use Rattle.std.specs.Prelude.{◌≡◌, ◌≤◌, ◌<◌, ◌^◌, ℕ, List, [], length, None, IfOk, MatchOption};
    ghost use Rattle.mal_answer.specs.{Command.{Grammar}, Forms.{Form}};
    ghost use Rattle.mal_base.specs.Limits.{limits};
    ghost use Rattle.mal_instance.specs.{Reading.{Fault}, ReadResult.{Gives, fault_of}};
    ghost use Rattle.spec_text.specs.Faults.{TellsBy};

    /// Instances as definitions have them, and what each stands for.
    ghost Given: { Type 0 };

    ghost given: { Self → Given };

    /// The words that ask for the search, the grammar of its input, and which instances are served.
    ghost form: { Form };

    ghost inputs: { Grammar Given Fault };

    ghost served: { Given → Type 0 };

    /// What is written of an instance, each question with so many slices: the texts for the log and for the output.
    ghost written: { ℕ → Given → List ℕ → List ℕ → Type 0 };

    /// The instance that a text spells, or its first fault.
    fn read(alloc: Global, text: &[u8]) -> Result<Self, InputFault>
        requires { length text.now < 2 ^ 63 }
        ensures exact { Gives given result (inputs.read text.now) }
        ensures spelled { IfOk result (λ w. inputs.Spells text.now (given w)) }
        ensures served { IfOk result (λ w. served (given w)) };

    /// The text of what is found, each question with a budget of so many slices. Nothing is for the log.
    fn found(&self, alloc: Global, slices: u32) -> Result<Vec<u8>, AllocError>
        requires served { served (given self.now) }
        requires some { 1 ≤ slices }
        requires bound { slices ≤ limits.slices }
        ensures { IfOk result (λ out. written slices (given self.now) [] out.items) };

    /// The line that tells a fault of a text. None exactly when out of memory.
    fn refusal(alloc: Global, fault: InputFault) -> Result<Option<Vec<u8>>, AllocError>
        ensures { IfOk result (λ o. MatchOption o (fault_of fault ≡ None)
            (λ line. TellsBy inputs.line_of (fault_of fault) line.items)) };
}

/// Searches what a text spells, each question with a budget of so many slices: nothing for the log, and the text of what
/// is found for the output. The input is let go before the search.
#[tactic(auto, using(crate::proofs::SearchLemmas::search_lemmas))]
pub fn search_text<T: Task + Drop>(
    alloc: Global,
    slices: u32,
    text: Vec<u8>,
) -> Result<Texts, Complaint>
    requires lawful { IsRead T.inputs }
    requires some { 1 ≤ slices }
    requires bound { slices ≤ limits.slices }
    ensures { IsAnswerTo (reading T.form T.inputs (T.written slices)) text.items result }
{
    match T::read(alloc, text.as_slice()) {
        Ok(task) => {
            drop(text);
            match task.found(alloc, slices) {
                Ok(out) => Ok(Texts {
                    log: Vec::new(alloc),
                    out,
                }),
                Err(_) => Err(Complaint::OutOfMemory),
            }
        }
        Err(fault) => Err(refused::<T>(alloc, fault)),
    }
}

/// The complaint about a text whose first fault this is.
fn refused<T: Task>(alloc: Global, fault: InputFault) -> Complaint
    ensures { Complains (TellsBy T.inputs.line_of (fault_of fault)) NoLine result }
{
    match T::refusal(alloc, fault) {
        Ok(Some(line)) => Complaint::Refused(line),
        _ => Complaint::OutOfMemory,
    }
}
