//! Minimal cores: reading a formula with its assumptions, the search for failed assumptions of which none can be left
//! out, over one job, and its text.
#![tactic(auto)]

mod core_laws;
mod following;
mod input;
mod input_laws;
mod outcome;
mod questions;
mod reading;
mod search;
mod telling;
mod text;

pub use core_laws::text_examples;
pub use input::Instance;
pub use input_laws::{input_examples, spelled_is_read, spelled_is_served};
pub use outcome::{Minimal, Narrowed};
pub use reading::read;
pub use search::minimal;
pub use telling::fault_line;
pub use text::minimal_text;
