//! Logs of derived lines, the lines of them that a goal needs, and their numbers in a proof. Definitions, and the laws
//! about them as the contracts of functions without a body.
#![tactic(auto)]

ghost use Rattle.spec_proof.specs.{Laws.{DerivedWithMore, LogHolds, LogIsOrderly, EmptyIsLog, LogGrows, LogTakesProof, LogTakesOriginals, ReachedIsReached, GoalIsLast, GoalStaysLast, LaterLinesDoNotMatter, ClosedLinesGrow, LitsStay, NumbersFollow, OthersStay, TrimmedRefutes}, Examples.{HasTrims, HasRefutations}};

/// Worked examples: what is trimmed of logs, and that it refutes.
pub fn trim_examples()
    ensures trims { HasTrims }
    ensures refutations { HasRefutations }
{}

/// A derived line is derived too where more is held.
pub fn derived_with_more()
    ensures { DerivedWithMore }
{}

/// What a log holds, and that its numbers are orderly.
pub fn log_holds_originals_and_lines()
    ensures holds { LogHolds }
    ensures orderly { LogIsOrderly }
{}

/// A log grows by derived lines, by proofs from what it holds, and by originals.
pub fn log_grows()
    ensures empty { EmptyIsLog }
    ensures lines { LogGrows }
    ensures proofs { LogTakesProof }
    ensures originals { LogTakesOriginals }
{}

/// The lines reached from a goal are those that the words say, and the goal's is the last.
pub fn reached_lines_are_needed()
    ensures reached { ReachedIsReached }
    ensures last { GoalIsLast }
    ensures stays_last { GoalStaysLast }
{}

/// What is reached from a goal does not change when lines are entered later, where the hints of the earlier lines
/// stand.
pub fn later_lines_do_not_matter()
    ensures later { LaterLinesDoNotMatter }
    ensures closed { ClosedLinesGrow }
{}

/// What is trimmed has literals of the log.
pub fn literals_stay()
    ensures { LitsStay }
{}

/// Renumbered lines have the numbers after those of the originals, in their order, and other numbers stay.
pub fn new_numbers_follow()
    ensures numbers { NumbersFollow }
    ensures others { OthersStay }
{}

/// What is trimmed of a log for a goal refutes its originals.
pub fn trimmed_lines_refute()
    ensures { TrimmedRefutes }
{}
