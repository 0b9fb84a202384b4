//! The optimum: soft literals, what an assignment costs, the counter whose outputs bound the cost, and the search for the
//! least cost. Definitions, and the laws about them as the contracts of functions without a body.
#![tactic(auto)]

ghost use Rattle.spec_max.specs.{Examples.{HasCounters, HasCosts, HasRefutation}, Laws.{CostExtends, CostIsCounted, CostIsBelow, CounterIsInForm, CostBelowIsWithin, NothingIsCheaper, NothingSatisfies}, SearchExamples.{HasSearches}, OptimumLaws.{SearchGoesOn, SearchAsks, SearchIsRight, UnknownIsTold}};

/// The counters and costs of small lists of soft literals, and a refutation of what would be cheaper.
pub fn counter_examples()
    ensures counters { HasCounters }
    ensures costs { HasCosts }
    ensures refutation { HasRefutation }
{}

/// An assignment of a cost below c extends to the counter with -s(n, c).
pub fn cost_extends()
    ensures { CostExtends }
{}

/// What satisfies the counter makes s(i, j) true for each number j up to that of the first i literals which are false;
/// with -s(n, c) it costs less than c.
pub fn cost_is_counted()
    ensures counted { CostIsCounted }
    ensures below { CostIsBelow }
{}

/// The counter and the assumptions about its outputs are of its variables.
pub fn counter_is_in_form()
    ensures clauses { CounterIsInForm }
    ensures assumptions { CostBelowIsWithin }
{}

/// Where formula and counter are refuted under -s(n, c), no assignment that satisfies the formula costs less than c.
pub fn nothing_is_cheaper()
    ensures { NothingIsCheaper }
{}

/// Where formula and counter are refuted without assumptions, no assignment satisfies the formula.
pub fn nothing_satisfies()
    ensures { NothingSatisfies }
{}

/// Searches for small instances: what is asked, and what it comes to.
pub fn search_examples()
    ensures { HasSearches }
{}

/// A search goes on by one question, which may be posted: first for a model of formula and counter, then for one that
/// costs less than the best so far.
pub fn search_goes_on()
    ensures goes_on { SearchGoesOn }
    ensures asks { SearchAsks }
{}

/// Where what is told has its evidence, a search ends with what is right, after one question more than there are soft
/// literals at most; and unknown exactly where the last that was told is.
pub fn search_is_right()
    ensures right { SearchIsRight }
    ensures unknown { UnknownIsTold }
{}
