//! Revisions: what a job is asked at a time.
#![tactic(auto)]

mod fault;
mod revision;
mod scan;

pub use fault::RevisionFault;
pub use revision::Revision;
pub use scan::opposite;
