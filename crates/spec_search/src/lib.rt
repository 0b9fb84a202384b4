//! Steps and slices of a solver node's search. Definitions, and the laws about them as the contracts of functions
//! without a body.
#![tactic(auto)]

ghost use Rattle.spec_search.specs.{Examples.{HasExamples}, DroppingLaws.{DropKeepsSound, DropsHold, DropsWhenDue, HasDrops, HasProfiles, GivingUpKeepsSound}, Laws.{EmptyRefutes, HeldAreOfLines, LinesAreCounted, LinesAreDerived, LinesHaveRoom, LinesStayWithin, SliceCounts, SliceGoesOn, SliceKeepsModel, SliceKeepsProfile, SliceKeepsSound, SliceLeaves, SliceRefutes, SliceSolves, StepKeepsProfile, StepKeepsSound, StepLeaves, StepsLeave}};

/// The worked examples of steps and slices compute to the answers that are known.
pub fn search_examples()
    ensures { HasExamples }
{}

/// Steps and slices keep a node sound.
pub fn search_is_sound()
    ensures step { StepKeepsSound }
    ensures slice { SliceKeepsSound }
{}

/// Steps and slices leave the index, the profile, the variables, the assumptions and the original clauses, and count
/// for droppings only under a profile that reduces.
pub fn slices_leave()
    ensures step { StepLeaves }
    ensures steps { StepsLeave }
    ensures slice { SliceLeaves }
    ensures step_profile { StepKeepsProfile }
    ensures slice_profile { SliceKeepsProfile }
{}

/// Where a slice of a sound node ends satisfiable, its trail is a model of the clauses and assumptions.
pub fn slice_has_model()
    ensures keeps { SliceKeepsModel }
    ensures solves { SliceSolves }
{}

/// The lines of a slice of a sound node are derived one after another from the clauses held at first and those of the
/// lines before, dropped or not, and have the node's next numbers; what is held after it was held before or is of a
/// line, and the literals of each line are the node's. Where it refutes the clauses under the assumptions, its last
/// line has negations of these alone, and only then it derives an empty clause.
pub fn slice_derives()
    ensures derived { LinesAreDerived }
    ensures held { HeldAreOfLines }
    ensures within { LinesStayWithin }
    ensures counted { LinesAreCounted }
    ensures refutes { SliceRefutes }
    ensures empty { EmptyRefutes }
{}

/// A slice of a sound node without a verdict makes a step; it derives 1,000 lines at the most, for which there is room,
/// and raises each count by 1,000 at the most.
pub fn slice_is_bounded()
    ensures goes_on { SliceGoesOn }
    ensures room { LinesHaveRoom }
    ensures counts { SliceCounts }
{}

/// The worked examples of dropping, and of steps under both profiles, compute to the answers that are known.
pub fn drop_examples()
    ensures drops { HasDrops }
    ensures profiles { HasProfiles }
{}

/// Dropping keeps a node sound, its originals and the reasons on its trail; half of what may go goes. It comes only
/// under a profile that reduces, where it is due.
pub fn drops_keep_sound()
    ensures sound { DropKeepsSound }
    ensures hold { DropsHold }
    ensures due { DropsWhenDue }
{}

/// A sound node in which no conflict waits stays sound when it gives up one derived clause that is no reason. Its
/// originals stay.
pub fn giving_up_keeps_sound()
    ensures { GivingUpKeepsSound }
{}
