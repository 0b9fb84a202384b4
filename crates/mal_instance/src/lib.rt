//! Instances: a formula and the line of literals after it, as texts. What a text spells, which fault of a text is the first
//! one, reading a text up to its line of literals and to its end, and the lines that tell a fault. What the line of literals
//! may say is of the crates above.
#![tactic(auto)]

mod fault;
mod formula;
mod laws;
mod opened;
mod reading;
mod telling;

pub use fault::{InputFault, LitsError};
pub use formula::read_formula;
pub use laws::instance_examples;
pub use opened::Opened;
pub use reading::{ended, read_opening};
pub use telling::fault_line;
