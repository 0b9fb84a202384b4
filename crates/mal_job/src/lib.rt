//! A job: it takes the events of its own, and its nodes go out as leases.
#![tactic(auto)]

mod derivation;
mod exchange;
mod finding;
mod finishing;
mod job;
mod loading;
mod node_slot;
mod questions;
mod told;
mod tree;

pub use finding::Finding;
pub use job::Job;
