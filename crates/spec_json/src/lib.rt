//! Descriptions of jobs in JSON: which script a description spells, and what is the first fault of one that spells none.
//! Definitions, and the laws about them as the contracts of functions without a body.
#![tactic(auto)]

mod fault;

ghost use Rattle.spec_json.specs.{Examples.{FaultExamples, LimitExamples, ReadingExamples}, Laws.{FaultIsFirst, SpelledIsRead, SpelledIsReadAgain, SpelledIsScript}};

pub use fault::JsonFault;

/// What small texts spell.
#[tactic(auto, using(crate::proofs::ExampleLemmas::reading_examples))]
pub fn reading_examples()
    ensures { ReadingExamples }
{}

/// What is wrong with small texts, and in which job.
#[tactic(auto, using(crate::proofs::ExampleLemmas::fault_examples))]
pub fn fault_examples()
    ensures { FaultExamples }
{}

/// Small texts that pass the limits.
#[tactic(auto, using(crate::proofs::ExampleLemmas::limit_examples))]
pub fn limit_examples()
    ensures { LimitExamples }
{}

/// A text spells a script exactly where reading gives the script. So no text spells two, and none that has a first
/// fault spells one.
pub fn spelled_is_read()
    ensures { SpelledIsRead }
{}

/// What a text spells is a script in form.
pub fn spelled_is_script()
    ensures { SpelledIsScript }
{}

/// What a text spells is read again from the one text that it is written as.
pub fn spelled_is_read_again()
    ensures { SpelledIsReadAgain }
{}

/// Nothing after the first faulty job of a description counts.
#[tactic(auto, using(crate::proofs::Firsts::fault_is_first))]
pub fn fault_is_first()
    ensures { FaultIsFirst }
{}
