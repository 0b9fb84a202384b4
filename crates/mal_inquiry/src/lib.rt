//! Inquiries: one job that is asked revision by revision, on this thread, in a hall of its own; searches, whose next
//! question follows from what was told; the parts of questions, and how unknown answers are written.
#![tactic(auto)]

mod inquiry;
mod questions;
mod search;
mod unknown;

pub use inquiry::Inquiry;
pub use mal_job::Finding;
pub use questions::{copied, posted};
pub use search::{Next, Search, run};
pub use unknown::put_unknown;
