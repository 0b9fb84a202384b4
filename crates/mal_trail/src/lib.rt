//! The trail of a solver node, and what an engine of unit propagation has to do on it.
#![tactic(auto)]

mod batch;
mod engine;
mod listed;
mod trail;

pub use batch::{handle_clause, handle_literal};
pub use engine::Engine;
pub use listed::Listed;
pub use trail::Trail;
