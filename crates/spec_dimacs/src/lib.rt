//! DIMACS CNF: what a text spells, which fault of a text is the first one, and the laws about both as the contracts of
//! functions without a body.
#![tactic(auto)]

ghost use Rattle.spec_dimacs.specs.{Differ.{FormulasDiffer, HaveOtherTexts}, Examples.{SpelledExamples, HeaderExamples, FaultExamples}, Laws.{SpellingIsRead, SpellsOne, SpelledIsFormula, WrittenIsSpelled, WrittenIsRead, LiteralsMakeOne, FaultIsFirst}};

/// A text spells a formula exactly where reading it gives this formula. Reading a text gives a formula or a fault, so
/// each text spells one formula or has a first fault, and never both.
pub fn spelling_is_read()
    ensures { SpellingIsRead }
{}

/// A text spells one formula at most.
pub fn spells_one()
    ensures { SpellsOne }
{}

/// What a text spells is a formula in form.
pub fn spelled_is_formula()
    ensures { SpelledIsFormula }
{}

/// A formula in form is spelled by the text that it is written as.
#[tactic(auto, using(crate::proofs::Laws::written_spelled))]
pub fn written_is_spelled()
    ensures { WrittenIsSpelled }
{}

/// A formula in form is read again from the text that it is written as.
#[tactic(auto, using(crate::proofs::Laws::written_is_read))]
pub fn written_is_read()
    ensures { WrittenIsRead }
{}

/// Literals make one clause, or none where they have a variable with both signs.
#[tactic(auto, using(crate::proofs::Laws::literals_make_one))]
pub fn literals_make_one()
    ensures { LiteralsMakeOne }
{}

/// Where the first fault of a text is on a line before the last, each text that begins with the same lines, up to this
/// one, has the same first fault.
pub fn fault_is_first()
    ensures { FaultIsFirst }
{}

/// What small texts spell.
#[tactic(auto, using(crate::proofs::Examples::spelled_examples))]
pub fn spelled_examples()
    ensures { SpelledExamples }
{}

/// What is wrong with small texts that have no right header, or a second one.
#[tactic(auto, using(crate::proofs::Examples::header_examples))]
pub fn header_examples()
    ensures { HeaderExamples }
{}

/// What is wrong with small texts after their header.
#[tactic(auto, using(crate::proofs::Examples::fault_examples))]
pub fn fault_examples()
    ensures { FaultExamples }
{}

/// Two formulas in form with one text are equal.
pub fn formulas_differ()
    ensures differ { FormulasDiffer }
    ensures examples { HaveOtherTexts }
{}
