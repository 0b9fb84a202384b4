//! Buffers of clauses that the solvers of a job tell each other.
#![tactic(auto)]

mod buffer;
mod order;

pub use buffer::Buffer;
