//! Sequences of numbers that take no memory: Luby's, and the draws of a generator.
#![tactic(auto)]

mod draws;
mod lubys;

pub use draws::Draws;
pub use lubys::luby;
