//! The binary tree of a job's solvers: 64 places, each but the first below another one.
#![tactic(auto)]

mod index;

pub use index::Index;
