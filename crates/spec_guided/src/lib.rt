//! The search of a node that is guided by activities: decisions by score, glue, unit clauses, reductions by activity, and
//! restarts that keep what would be decided again. Definitions, and the laws about them as the contracts of functions
//! without a body.
#![tactic(auto)]

ghost use Rattle.spec_guided.specs.{Examples.{HasExamples, HasPieces, HasSearch}, Laws.{EmptyRefutes, FreshIsGuided, HeldAreOfLines, ImportKeepsGuided, LineIsDerived, LinesAreCounted, LinesAreDerived, LinesHaveRoom, LinesStayWithin, LoadKeepsGuided, SliceGoesOn, SliceKeepsGuided, SliceKeepsModel, SliceLeaves, SliceRefutes, StepKeepsGuided, StepLeaves, StepRefutes}};

/// The worked examples of each piece, and of two whole searches, compute to the answers that are known.
pub fn search_examples()
    ensures pieces { HasPieces }
    ensures searches { HasExamples }
    ensures longer { HasSearch }
{}

/// A guided node is sound at its first start, and loads and imports keep it so.
pub fn guided_is_sound()
    ensures fresh { FreshIsGuided }
    ensures load { LoadKeepsGuided }
    ensures import { ImportKeepsGuided }
{}

/// Steps and slices keep a guided node sound: a score a variable, a mark a derived clause, and all that makes its node
/// sound.
pub fn search_is_sound()
    ensures step { StepKeepsGuided }
    ensures slice { SliceKeepsGuided }
{}

/// Steps and slices leave the index, the profile, the variables, the assumptions and the original clauses.
pub fn slices_leave()
    ensures step { StepLeaves }
    ensures slice { SliceLeaves }
{}

/// Each line that a step of a sound guided node derives is derived from the clauses held along its hints: a learned, an
/// empty, a core and a unit clause. So is each line of a slice, from the clauses held at first and those of the lines before
/// it, and what is held after the slice is one of these. The literals of each line are the node's.
pub fn lines_are_derived()
    ensures line { LineIsDerived }
    ensures lines { LinesAreDerived }
    ensures held { HeldAreOfLines }
    ensures within { LinesStayWithin }
{}

/// The lines of a slice have the next numbers, and are at most as many as its steps; their literals and hints are at most as
/// many as there is room for. One line always has room, so a slice makes a step where no verdict stands.
pub fn lines_have_room()
    ensures counted { LinesAreCounted }
    ensures room { LinesHaveRoom }
    ensures one { SliceGoesOn }
{}

/// Where a slice ends satisfiable, the trail is a model of the clauses and assumptions; a step that refutes the clauses under
/// the assumptions derives the goal, which has negations of these alone, and where a slice refutes them, its last line is that. A slice that
/// refutes nothing derives no empty clause.
pub fn verdicts_have_evidence()
    ensures model { SliceKeepsModel }
    ensures refutes { StepRefutes }
    ensures goal { SliceRefutes }
    ensures empty { EmptyRefutes }
{}
