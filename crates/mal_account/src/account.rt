//! An account of a run.

use mal_history::History;
use mal_script::Script;

/// A script, and the history of a hall that is said to have run it, with the line of each event, counted from 1 after
/// the line `history`.
#[derive(Drop)]
pub struct Account {
    pub script: Script,
    pub history: History,
}
