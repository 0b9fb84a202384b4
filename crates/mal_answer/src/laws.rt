//! What is known of the commands, as the contracts of functions without a body.

ghost use Rattle.mal_answer.specs.{Laws.{AreLawful, HaveOwnWords, NoneStopsNoneLost, RunReplays}, Summaries.{RepliesAreCounted}};

/// Each command gives something only for an input as it wants it, which is one in its grammar; and no text in the grammar
/// has a first fault.
pub fn commands_are_lawful()
    ensures { AreLawful }
{}

/// Each command is asked for by its own words.
pub fn commands_have_own_words()
    ensures { HaveOwnWords }
{}

/// Where a script was run by 1 to 64 workers, replaying the text of the script, the line `history` and the log of the run
/// gives the output of the run, if the history has 2^24 events at most.
pub fn run_replays()
    ensures { RunReplays }
{}

/// Where no worker is stopped, a run loses no lease.
pub fn none_is_lost_unstopped()
    ensures { NoneStopsNoneLost }
{}

/// The text of the replies to a script has one line `s ..` a reply, and by these lines it tells how many replies tell a
/// model, how many a refutation, and how many that the answer is unknown.
pub fn replies_are_counted()
    ensures { RepliesAreCounted }
{}
