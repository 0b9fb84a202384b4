//! Lines of LRAT proofs, read from text and written to text. Comments and empty lines are the caller's: they are no
//! lines of a proof.
#![tactic(auto)]

mod fault;
mod line;
mod reading;
mod writing;

pub use fault::LineFault;
pub use line::Line;
pub use reading::read_line;
pub use writing::{put_added, put_lits, write_line};
