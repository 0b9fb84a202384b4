//! The replies to the revisions of a job: what they tell, and its text.
#![tactic(auto)]

mod replies;
mod told;

pub use replies::{put_cause, put_failed, put_model, put_proof, reply};
pub use told::{Cause, Told};
