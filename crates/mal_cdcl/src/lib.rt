//! A solver node: conflict-driven search over the clauses and assumptions of a job, a slice of steps at a time.
#![tactic(auto)]

mod assuming;
mod copies;
mod import_filter;
mod learning;
mod needs;
mod node;
mod node_load;
mod restart;
mod source;

pub use node::Node;
pub use source::Source;
