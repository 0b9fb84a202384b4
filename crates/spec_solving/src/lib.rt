//! An incremental solver as a value: what it was given, what it answered, and what an answer promises. Definitions, and
//! the laws about them as the contracts of functions without a body.
#![tactic(auto)]

ghost use Rattle.spec_solving.specs.{Holding.{GivingUpKeepsCovering, LoadsKeepCovering, SlicesKeepCovering, SlicesRefute}, Examples.{HasDialogue, HasPromises}};

mod refusal;

pub use refusal::Refusal;

/// A dialogue of inputs and an answer, step by step; what models and failed assumptions promise, and what they do not.
pub fn solver_examples()
    ensures dialogue { HasDialogue }
    ensures promises { HasPromises }
{}

/// A node and a log that serve clauses serve them and more after a load, and the same ones after a slice, whose lines go
/// after those of the log, and after derived clauses were given up.
pub fn nodes_go_on_serving()
    ensures load { LoadsKeepCovering }
    ensures slice { SlicesKeepCovering }
    ensures less { GivingUpKeepsCovering }
{}

/// Where a slice refutes, the negations of its last line's literals are assumptions, and the lines of the log that the
/// goal needs refute the clauses under these alone.
pub fn slices_refute()
    ensures { SlicesRefute }
{}
