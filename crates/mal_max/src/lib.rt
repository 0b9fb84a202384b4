//! The optimum of a formula with soft literals: reading both, the search over one job, and its text.
#![tactic(auto)]

mod counter;
mod following;
mod input;
mod input_laws;
mod max_laws;
mod optimum;
mod questions;
mod reading;
mod search;
mod solution;
mod telling;
mod text;

pub use input::Instance;
pub use input_laws::{input_examples, spelled_is_read, spelled_is_served};
pub use max_laws::text_examples;
pub use optimum::{Optimum, Solution};
pub use reading::read;
pub use search::solve;
pub use telling::fault_line;
pub use text::optimum_text;
