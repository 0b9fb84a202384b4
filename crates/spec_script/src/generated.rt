//! The scripts of the generator, which a seed decides: random formulas of three literals a clause. Definitions, and the
//! laws about them as the contracts of functions without a body.

ghost use Rattle.spec_script.specs.GeneratedLaws.{GeneratedIsScript, HasExamples};

/// The worked examples compute to the values that are known.
pub fn generator_examples()
    ensures { HasExamples }
{}

/// A generated script is in form: it is one that is read from a text.
#[tactic(auto, using(crate::proofs::GeneratedScript::generated_script))]
pub fn generated_is_script()
    ensures { GeneratedIsScript }
{}
