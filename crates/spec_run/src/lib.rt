//! A script that is run: complete histories and the texts of a run, and a history that is replayed for a script.
//! Definitions, and the laws about them as the contracts of functions without a body.
#![tactic(auto)]

mod replay;

ghost use Rattle.spec_run.specs.Run.{RunIsDecided};

pub use replay::{event_examples, replay_is_decided, run_is_replayed};

/// A script and a number of workers decide the history of a sequential run in which no start ran out of memory, and
/// with it the log and the output.
pub fn run_is_decided()
    ensures { RunIsDecided }
{}
