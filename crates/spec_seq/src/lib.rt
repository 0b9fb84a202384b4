//! Sequences of numbers: Luby's, by which a search restarts, and the draws of a linear congruential generator.
#![tactic(auto)]

ghost use Rattle.spec_seq.specs.Laws.{HasExamples, IsLubys};

/// The worked examples compute to the answers that are known.
pub fn sequence_examples()
    ensures { HasExamples }
{}

/// The numbers by which a node restarts are Luby's sequence (Luby, Sinclair and Zuckerman 1993).
pub fn restarts_are_lubys()
    ensures { IsLubys }
{}
