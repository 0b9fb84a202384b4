//! Laws about a history that is replayed for a script, as the contracts of functions without a body.

ghost use Rattle.spec_run.specs.{ReplayExamples.{HasEvents}, ReplayLaws.{ReplayIsDecided, RunIsFormed, RunIsReplayed, RunIsReplied}};

/// There is one answer to a replay at most, where memory did not run out.
pub fn replay_is_decided()
    ensures { ReplayIsDecided }
{}

/// A run's own history replays to its output: it is legal and complete for the script, and its replies are the output.
/// It is in form where it has at most 2^24 events. So a replay of it answers nothing else, where memory did not run
/// out.
pub fn run_is_replayed()
    ensures replied { RunIsReplied }
    ensures formed { RunIsFormed }
    ensures replayed { RunIsReplayed }
{}

/// Worked examples of the event that a line stands for.
pub fn event_examples()
    ensures { HasEvents }
{}
