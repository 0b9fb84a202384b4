//! Conflict analysis and learning: the learned, empty and core clause of a solver node, the decision order with moves
//! to the front, what learning does to a node, and the shorter form of a learned clause. Definitions, and the laws
//! about them as the contracts of functions without a body.
#![tactic(auto)]

ghost use Rattle.spec_learn.specs.{Examples.{HasExamples}, CoreLaws.{CoreIsAssumed, CoreIsDerived, CoreIsSmall, FailedHasReason}, FirstPoint.{HasFirstPoints, ResolvesAboveOne, WayEnds}, Laws.{AnalysisIsSmall, EmptyAtZero, LearnedAsserts, LearnKeepsSound, LineIsDerived}, RefutingExamples.{HasRefutingExamples}, RefutingLaws.{CoreKeepsSound, EmptyKeepsSound, GoalIsHeld, NumberIsNew, OthersStayHeld}, ShorterExamples.{HasShorterExamples}, ShorterLaws.{LearnedIsLesson, LearnedIsTaught, LearnsByProfile, LessonAsserts, LessonKeepsSound, ShorterHintsDiffer, ShorterIsDerived, ShorterIsEmptyAtZero, ShorterIsGoneThrough, ShorterIsLesson, ShorterIsSmall, ShorterIsWithin, ShorterJumpsAlike}};

/// The worked examples of conflict analysis compute to the answers that are known.
pub fn learning_examples()
    ensures { HasExamples }
{}

/// The line of a waiting conflict of a sound node is derived from the clauses held along its hints.
pub fn line_is_derived()
    ensures { LineIsDerived }
{}

/// Above level 0 the clause has one literal of the current level and is unit after the jump; at level 0 it is empty.
pub fn learned_asserts()
    ensures asserts { LearnedAsserts }
    ensures empty { EmptyAtZero }
{}

/// The clause that is learned is that of the first implication point: each time that a reason is resolved with at the
/// current level, above level 0, the clause on its way has two literals of that level or more, and the way ends with
/// the clause that is learned, which has one.
pub fn first_implication_point()
    ensures above_one { ResolvesAboveOne }
    ensures ends { WayEnds }
    ensures examples { HasFirstPoints }
{}

/// An analysis gives no more literals and hints than there are variables, and one more.
pub fn analysis_is_small()
    ensures { AnalysisIsSmall }
{}

/// Learning from a waiting conflict above level 0 keeps a node sound.
pub fn learning_keeps_sound()
    ensures { LearnKeepsSound }
{}

/// Deriving the empty clause from a waiting conflict at level 0 keeps a node sound.
pub fn empty_keeps_sound()
    ensures { EmptyKeepsSound }
{}

/// The worked examples of failed assumptions compute to the answers that are known.
pub fn refuting_examples()
    ensures { HasRefutingExamples }
{}

/// The core clause of a failed assumption is derived from the clauses held along its hints.
pub fn core_is_derived()
    ensures { CoreIsDerived }
{}

/// A failed assumption was refuted by a clause; its core clause has negated assumptions alone, and the negation of it.
pub fn core_is_assumed()
    ensures reason { FailedHasReason }
    ensures core { CoreIsAssumed }
{}

/// The analysis of an assumption gives no more literals and hints than there are variables, and one more.
pub fn core_is_small()
    ensures { CoreIsSmall }
{}

/// Deriving the core clause of a failed assumption keeps a node sound.
pub fn core_keeps_sound()
    ensures { CoreKeepsSound }
{}

/// The number of a derived clause is new; afterwards it is held under that number, and what was held is.
pub fn goal_is_held()
    ensures new { NumberIsNew }
    ensures goal { GoalIsHeld }
    ensures others { OthersStayHeld }
{}

/// Whatever clause is a lesson for a sound node asserts, and learning it keeps the node sound; what each profile
/// learns is one, and learning from a conflict is to be taught it. A profile that minimizes learns the shorter form.
pub fn lesson_keeps_sound()
    ensures asserts { LessonAsserts }
    ensures sound { LessonKeepsSound }
    ensures learned { LearnedIsLesson }
    ensures taught { LearnedIsTaught }
    ensures by_profile { LearnsByProfile }
{}

/// The worked examples of shorter clauses compute to the answers that are known.
pub fn shorter_examples()
    ensures { HasShorterExamples }
{}

/// The shorter clause is a lesson, and so it asserts and keeps a node sound; it is derived from the clauses held along
/// its hints, which differ, and jumps to the level of the longer clause; at level 0 it is empty.
pub fn shorter_is_derived()
    ensures derived { ShorterIsDerived }
    ensures lesson { ShorterIsLesson }
    ensures jumps { ShorterJumpsAlike }
    ensures empty { ShorterIsEmptyAtZero }
    ensures differ { ShorterHintsDiffer }
{}

/// The shorter clause has the literals of the longer one that stay where they are gone through from the latest to the
/// earliest, and no others.
pub fn shorter_is_within()
    ensures stay { ShorterIsGoneThrough }
    ensures within { ShorterIsWithin }
{}

/// The analysis for the shorter clause gives no more literals and hints than there are variables, and one more.
pub fn shorter_is_small()
    ensures { ShorterIsSmall }
{}
