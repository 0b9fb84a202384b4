//! Courses of questions to one job: which revision follows what was told, and the evidence of what is told. Definitions,
//! and the laws about them as the contracts of functions without a body.
#![tactic(auto)]

ghost use Rattle.spec_course.specs.Laws.{RefutedUnderMore};

/// What is refuted under some assumptions is refuted under more.
pub fn refuted_under_more()
    ensures { RefutedUnderMore }
{}
