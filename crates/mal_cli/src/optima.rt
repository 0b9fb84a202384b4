//! Finding the optimum of a formula with soft literals.

ghost use Rattle.std.specs.Prelude.{◌≤◌};
ghost use Rattle.mal_base.specs.Limits.{limits};
ghost use Rattle.mal_answer.specs.{Answers.{IsAnswerTo}, Commands.{optimizing}};

use crate::searching::{Task, search_text};
use mal_answer::{Complaint, Texts};
use mal_instance::InputFault;
use mal_learn::Scratch;
use mal_max::{Instance, fault_line, optimum_text, solve};
use std::alloc::{AllocError, Global};

/// Finds the optimum of the formula and the soft literals that a text spells, each question with a budget of so many
/// slices: nothing for the log, and the text of the optimum for the output.
pub fn optimize(alloc: Global, slices: u32, text: Vec<u8>) -> Result<Texts, Complaint>
    requires some { 1 ≤ slices }
    requires bound { slices ≤ limits.slices }
    ensures { IsAnswerTo (optimizing slices) text.items result }
{
    search_text::<Instance>(alloc, slices, text)
}

impl Task for Instance {
    ghost use Rattle.mal_answer.specs.{Commands.{IsOptimized, max_inputs}, Forms.{max_form}};
    ghost use Rattle.mal_max.specs.ReadResult.{seen_instance};
    ghost use Rattle.spec_max.specs.Right.{IsServed};
    ghost use Rattle.spec_max.specs.Optimum as max;

    ghost Given = { max.Instance };

    ghost given = { seen_instance };

    ghost form = { max_form };

    ghost inputs = { max_inputs };

    ghost served = { IsServed };

    ghost written = { IsOptimized };

    fn read(alloc: Global, text: &[u8]) -> Result<Instance, InputFault> {
        mal_max::read(alloc, text)
    }

    #[tactic(auto, using(crate::proofs::SearchLemmas::found_lemmas))]
    fn found(&self, alloc: Global, slices: u32) -> Result<Vec<u8>, AllocError> {
        let mut scratch = Scratch::new(alloc);
        let softs = self.softs.as_slice();
        let optimum = solve(alloc, &self.formula, softs, slices, &mut scratch);
        drop(scratch);
        let found = optimum?;
        optimum_text(alloc, &found)
    }

    fn refusal(alloc: Global, fault: InputFault) -> Result<Option<Vec<u8>>, AllocError> {
        fault_line(alloc, fault)
    }
}
