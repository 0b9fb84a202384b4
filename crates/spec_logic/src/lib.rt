//! Propositional logic: satisfaction, entailment, lines derived by unit propagation along hints, and refutations.
//! Definitions, and the laws about them as the contracts of functions without a body.
#![tactic(auto)]

ghost use Rattle.spec_logic.specs.{Examples.{HasExamples, HasDerivations, HasRefusals, HasGoals, HasRefutations}, Laws.{DerivedIsEntailed, DerivedIsSatisfied, ProofIsEntailed, RefutedIsUnsatisfiable}};

/// The worked examples of satisfaction compute to the answers that are known.
pub fn satisfaction_examples()
    ensures { HasExamples }
{}

/// The worked examples of derived lines, of refused lines and of refutations compute to the answers that are known.
pub fn refutation_examples()
    ensures derivations { HasDerivations }
    ensures refusals { HasRefusals }
    ensures goals { HasGoals }
    ensures refutations { HasRefutations }
{}

/// A derived line is entailed by the clauses held.
pub fn derived_is_entailed()
    ensures entailed { DerivedIsEntailed }
    ensures satisfied { DerivedIsSatisfied }
{}

/// What a proof adds, and what is held after it, is entailed by the original clauses.
pub fn proof_is_entailed()
    ensures { ProofIsEntailed }
{}

/// Where a proof refutes clauses under assumptions, no assignment satisfies both.
pub fn refuted_is_unsatisfiable()
    ensures { RefutedIsUnsatisfiable }
{}
