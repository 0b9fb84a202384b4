//! Lines of LRAT proofs: the grammar of their words, their first fault, and how they are written. Definitions, and the
//! laws about them as the contracts of functions without a body.
#![tactic(auto)]

ghost use Rattle.spec_lrat.specs.{Examples.{HasLines, HasFaults}, Laws.{MakesOneClause, SpellsWhatIsRead, WrittenIsRead}};

/// What small lines are read as, and what is wrong with others.
#[tactic(auto, using(crate::proofs::ExampleLemmas::lines, crate::proofs::ExampleLemmas::faults))]
pub fn line_examples()
    ensures lines { HasLines }
    ensures faults { HasFaults }
{}

/// Literals make one clause, or none where they have a variable with both signs.
pub fn literals_make_one_clause()
    ensures { MakesOneClause }
{}

/// Words spell the line that they are read as, and no other; where reading finds a fault they spell none.
pub fn words_spell_what_is_read()
    ensures { SpellsWhatIsRead }
{}

/// The words of a written line can stand in a line, and are read again.
pub fn written_is_read()
    ensures { WrittenIsRead }
{}
