//! The clauses of a solver node, in flat storage: their literals stand side by side.
#![tactic(auto)]

mod clause_arena;
mod entry;
mod ids;
mod index;
mod store;

pub use ids::{is_among, sort_ids};
pub use store::Store;
