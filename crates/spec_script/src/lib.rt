//! Scripts: their jobs and revisions, the one text that a script is written as, what a text spells, which fault of a text
//! is the first one, and the scripts that a seed decides. Definitions, and the laws about them as the contracts of
//! functions without a body.
#![tactic(auto)]

mod generated;
mod step;

ghost use Rattle.spec_script.specs.{Differ.{HaveOtherTexts, ScriptsDiffer}, Examples.{HasExamples, ReadingExamples, FaultExamples, LimitExamples}, WordExamples.{WordExamples}, Laws.{SpelledIsRead, SpelledIsWithin, WrittenIsSpelled, WrittenIsRead, SpelledIsScript, SpelledAgain, AskIsRead, AssumptionsAreRead, BlockIsSpelled, FaultIsFirst, JobIsAdmitted, RevisionIsRead, TenantIsRead, WeightIsRead}};

pub use generated::{generated_is_script, generator_examples};
pub use step::Step;

/// The worked examples of a script's text compute to the texts that are known.
pub fn script_examples()
    ensures { HasExamples }
{}

/// What small texts spell.
#[tactic(auto, using(crate::proofs::ExampleLemmas::reading_examples))]
pub fn reading_examples()
    ensures { ReadingExamples }
{}

/// What is wrong with small texts, and where.
#[tactic(auto, using(crate::proofs::ExampleLemmas::fault_examples))]
pub fn fault_examples()
    ensures { FaultExamples }
{}

/// Small texts that pass the limits.
#[tactic(auto, using(crate::proofs::ExampleLemmas::limit_examples))]
pub fn limit_examples()
    ensures { LimitExamples }
{}

/// What the words of a line say, and what they do not.
#[tactic(auto, using(crate::proofs::ExampleLemmas::word_examples))]
pub fn word_examples()
    ensures { WordExamples }
{}

/// The words of the grammar say what reading takes of them: an ask, a priority and a demand, the name of a tenant, a
/// job that may begin, assumptions, and a revision for which there is room.
pub fn words_are_read()
    ensures ask { AskIsRead }
    ensures weight { WeightIsRead }
    ensures tenant { TenantIsRead }
    ensures job { JobIsAdmitted }
    ensures assumptions { AssumptionsAreRead }
    ensures revision { RevisionIsRead }
{}

/// The lines of a block give a formula exactly where a text of which these are the lines that count spells it, by the
/// grammar of formulas.
pub fn block_is_spelled()
    ensures { BlockIsSpelled }
{}

/// Where the first fault of a text is on a line before the last, each text that begins with the same lines, up to this
/// one, has the same first fault.
#[tactic(auto, using(crate::proofs::Firsts::fault_is_first))]
pub fn fault_is_first()
    ensures { FaultIsFirst }
{}

/// A text spells a script exactly where reading gives the script. So no text spells two, and none that has a first
/// fault spells one.
pub fn spelled_is_read()
    ensures { SpelledIsRead }
{}

/// What a text spells has no more jobs and revisions than the limits say.
pub fn spelled_is_within()
    ensures { SpelledIsWithin }
{}

/// A script in form is spelled by the text that it is written as.
pub fn written_is_spelled()
    ensures { WrittenIsSpelled }
{}

/// A script in form is read again from the text that it is written as.
pub fn written_is_read()
    ensures { WrittenIsRead }
{}

/// What a text spells is a script in form.
pub fn spelled_is_script()
    ensures { SpelledIsScript }
{}

/// What a text spells is read again from the one text that it is written as.
pub fn spelled_again()
    ensures { SpelledAgain }
{}

/// Two scripts in form with one text are equal.
pub fn scripts_differ()
    ensures differ { ScriptsDiffer }
    ensures examples { HaveOtherTexts }
{}
