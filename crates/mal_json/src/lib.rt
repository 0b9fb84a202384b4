//! Reading descriptions of jobs in JSON as scripts.
#![tactic(auto)]

mod clauses;
mod jobs;
mod numbers;
mod parsing;
mod reading;
mod shape;
mod steps;
mod taken;
mod telling;

pub use reading::read;
pub use spec_json::JsonFault;
pub use telling::fault_line;
