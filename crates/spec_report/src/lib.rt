//! The texts of replies: how the answer to a revision is written, and worked examples of it. Each law is the contract
//! of a function that does nothing.
#![tactic(auto)]

ghost use Rattle.spec_report.specs.Examples.{ReplyExamples};

/// What the answers to the first revision of a small job are written as.
#[tactic(auto, using(crate::proofs::Examples::reply_examples))]
pub fn reply_examples()
    ensures { ReplyExamples }
{}
