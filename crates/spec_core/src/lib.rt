//! Minimal cores: the search for failed assumptions of which none can be left out, and a witness for each. Definitions,
//! and the laws about them as the contracts of functions without a body.
#![tactic(auto)]

ghost use Rattle.spec_core.specs.{Examples.{HasSearches}, Laws.{KeptStayFirst, SearchGoesOn, SearchAsks, SearchIsRight, UnknownIsTold}};

/// Searches for small instances, and what they come to.
pub fn search_examples()
    ensures { HasSearches }
{}

/// Kept literals stand first in a rising list that has them and others after them alone.
pub fn kept_stay_first()
    ensures { KeptStayFirst }
{}

/// A search goes on by one question, which may be posted: first under all assumptions, then without one literal of the
/// core so far.
pub fn search_goes_on()
    ensures goes_on { SearchGoesOn }
    ensures asks { SearchAsks }
{}

/// Where what is told has its evidence, a search ends with what is right, after one question more than there are
/// assumptions at most; and unknown exactly where the last that was told is.
pub fn search_is_right()
    ensures right { SearchIsRight }
    ensures unknown { UnknownIsTold }
{}
