//! The commands of the program.
#![tactic(auto)]

mod clusters;
mod cores;
mod generating;
mod laws;
mod optima;
mod program;
mod replaying;
mod running;
mod searching;
mod serving;

pub use laws::feeds_are_served;
pub use program::top;
