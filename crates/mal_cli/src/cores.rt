//! Finding a minimal core of a formula and assumptions.

ghost use Rattle.std.specs.Prelude.{◌≤◌};
ghost use Rattle.mal_base.specs.Limits.{limits};
ghost use Rattle.mal_answer.specs.{Answers.{IsAnswerTo}, Commands.{minimizing}};

use crate::searching::{Task, search_text};
use mal_answer::{Complaint, Texts};
use mal_core::{Instance, fault_line, minimal, minimal_text};
use mal_instance::InputFault;
use mal_learn::Scratch;
use std::alloc::{AllocError, Global};

/// Finds a minimal core of the formula and the assumptions that a text spells, each question with a budget of so many
/// slices: nothing for the log, and the text of what the search came to for the output.
pub fn minimize(alloc: Global, slices: u32, text: Vec<u8>) -> Result<Texts, Complaint>
    requires some { 1 ≤ slices }
    requires bound { slices ≤ limits.slices }
    ensures { IsAnswerTo (minimizing slices) text.items result }
{
    search_text::<Instance>(alloc, slices, text)
}

impl Task for Instance {
    ghost use Rattle.mal_answer.specs.{Commands.{IsMinimized, core_inputs}, Forms.{core_form}};
    ghost use Rattle.mal_core.specs.ReadResult.{seen_instance};
    ghost use Rattle.spec_core.specs.Right.{IsServed};
    ghost use Rattle.spec_core.specs.Core as core;

    ghost Given = { core.Instance };

    ghost given = { seen_instance };

    ghost form = { core_form };

    ghost inputs = { core_inputs };

    ghost served = { IsServed };

    ghost written = { IsMinimized };

    fn read(alloc: Global, text: &[u8]) -> Result<Instance, InputFault> {
        mal_core::read(alloc, text)
    }

    #[tactic(auto, using(crate::proofs::SearchLemmas::found_lemmas))]
    fn found(&self, alloc: Global, slices: u32) -> Result<Vec<u8>, AllocError> {
        let mut scratch = Scratch::new(alloc);
        let assumptions = self.assumptions.as_slice();
        let outcome = minimal(alloc, &self.formula, assumptions, slices, &mut scratch);
        drop(scratch);
        let found = outcome?;
        minimal_text(alloc, &found)
    }

    fn refusal(alloc: Global, fault: InputFault) -> Result<Option<Vec<u8>>, AllocError> {
        fault_line(alloc, fault)
    }
}
