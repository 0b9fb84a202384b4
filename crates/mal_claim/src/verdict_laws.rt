//! Laws about the text of a proof, its lines or its first fault, and the verdict on them, as the contracts of functions
//! without a body.

ghost use Rattle.mal_claim.specs.{VerdictExamples.{HasSpelled, HasVerdicts}, VerdictLaws.{LinesAreRead, RowFaultIsFirst, VerifiedIsRefutation, VerifiedIsUnsatisfiable}};

/// What is said of small proofs, and which lines they spell.
pub fn verdict_examples()
    ensures verdicts { HasVerdicts }
    ensures spelled { HasSpelled }
{}

/// The rows of a proof spell just the lines that are read of them.
#[tactic(auto, using(crate::proofs::LineLemmas::lines_are_read))]
pub fn lines_are_read()
    ensures { LinesAreRead }
{}

/// Rows that begin with the same ones as others, up to the first faulty one, have the same first fault.
#[tactic(auto, using(crate::proofs::LineLemmas::row_fault_is_first))]
pub fn fault_is_first()
    ensures { RowFaultIsFirst }
{}

/// A proof is verified exactly where its lines refute the clauses under the assumptions; then nothing satisfies both.
pub fn verified_is_refutation()
    ensures refutation { VerifiedIsRefutation }
    ensures unsatisfiable { VerifiedIsUnsatisfiable }
{}
