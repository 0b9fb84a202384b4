//! The glue of a clause: how many different decision levels its literals have. Counted in one pass over the literals, by a flag
//! for each level; memory is taken where room is made alone.
#![tactic(auto)]

mod entry;
mod levels;

pub use entry::{entry_of, level_in};
pub use levels::Levels;
