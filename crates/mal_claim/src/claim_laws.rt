//! Laws about claims and their texts, as the contracts of functions without a body.

ghost use Rattle.mal_claim.specs.{Examples.{HasExamples}, Laws.{OpeningFaultIsFirst, ProofFaultIsFirst, SpelledIsRead}};

/// What is said of small texts.
pub fn claim_examples()
    ensures { HasExamples }
{}

/// A text spells a claim exactly where reading gives the claim. So no text spells two, and none that has a first fault
/// spells one.
pub fn spelled_is_read()
    ensures { SpelledIsRead }
{}

/// Nothing after the first faulty line of a text counts, whether it stands before the line `proof` or after it.
pub fn nothing_behind_counts()
    ensures opening { OpeningFaultIsFirst }
    ensures proof { ProofFaultIsFirst }
{}
