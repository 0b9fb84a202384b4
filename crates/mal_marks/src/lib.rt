//! What a search that goes by activities notes of each derived clause that it holds: whether it is kept for good, and how
//! active it is. Marks are found by number, counted, and the less active half of those that may go is chosen. Memory is
//! taken where room is made alone. Laws tell what the marks come to for the clauses that they are of.
#![tactic(auto)]

mod choice;
mod laws;
mod mark;
mod marks;
mod search;

pub use laws::{marks_follow, marks_tell};
pub use mark::Mark;
pub use marks::Marks;
