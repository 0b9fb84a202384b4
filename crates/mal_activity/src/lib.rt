//! Activities of variables and clauses, and the pace at which a search restarts and reduces. Each function gives what the
//! definition of its name gives; bounds of a pace that keep its numbers within 64 bits are kept by its type.
#![tactic(auto)]

mod activity;
mod pace;

pub use activity::Activity;
pub use pace::Pace;
