//! Activities of variables and clauses, the pace at which a search restarts and reduces, and the order in which variables
//! are decided. Definitions, and the laws about them as the contracts of functions without a body.
#![tactic(auto)]

ghost use Rattle.spec_activity.specs.{Laws.{StayInForm, PlusCommutes, LittleIsLost, NeverFall, RiseByOne, StaysPace, AveragesStay, OrderIsStrict, RiseIsForward}, Examples.{HasExamples}};

/// Sums and growths of activities are activities, and no exponent rises by more than 1.
pub fn activities_stay_in_form()
    ensures form { StayInForm }
    ensures exponents { RiseByOne }
{}

/// A sum does not depend on the order, and what is far below adds nothing.
pub fn sum_is_of_both()
    ensures commutes { PlusCommutes }
    ensures lost { LittleIsLost }
{}

/// No activity falls where it is added to, or grows.
pub fn activities_never_fall()
    ensures { NeverFall }
{}

/// The bounds of a pace hold at first, and stay.
pub fn pace_keeps_its_bounds()
    ensures bounds { StaysPace }
    ensures averages { AveragesStay }
{}

/// The order of variables is strict and total, and a variable that rises in activity falls after no other.
pub fn order_is_strict()
    ensures strict { OrderIsStrict }
    ensures forward { RiseIsForward }
{}

/// Worked examples.
pub fn activity_examples()
    ensures { HasExamples }
{}
