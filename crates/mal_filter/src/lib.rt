//! A filter that tells clauses that were seen from new ones.
#![tactic(auto)]

mod clause_set;

pub use clause_set::ClauseSet;
