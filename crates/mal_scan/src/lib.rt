//! An engine of unit propagation that goes over all its clauses for each batch.
#![tactic(auto)]

mod batch;
mod scan;

pub use scan::Scan;
