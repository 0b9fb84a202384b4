//! An engine of unit propagation that watches two literals of each clause.
#![tactic(auto)]

mod batch;
mod found;
mod link;
mod pair;
mod walk;
mod watch_lists;
mod watcher;

pub use watcher::Watcher;
