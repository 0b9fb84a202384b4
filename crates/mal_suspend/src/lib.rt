//! Nodes that are handed out and come back: journals, leases, nodes that are kept as bytes, and nodes
//! that are rebuilt from their journals.
#![tactic(auto)]

mod done;
mod entries;
mod entry;
mod frozen;
mod growing;
mod journal;
mod kept;
mod lease;
mod lending;
mod listed;
mod rebuilding;
mod start;
mod suspended;
mod warm;

pub use done::Done;
pub use entries::Entries;
pub use entry::{Counted, Entry};
pub use frozen::Frozen;
pub use journal::Journal;
pub use kept::{FROZEN_BYTES, Kept};
pub use lease::Lease;
pub use rebuilding::rebuild;
pub use start::Start;
pub use suspended::{Solver, Suspended};
pub use warm::Warm;
