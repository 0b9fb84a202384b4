//! DIMACS CNF: reading and writing formulas. A reader of one block of lines stands beside the reader of a whole text,
//! for formats that have such blocks among other lines.
#![tactic(auto)]

mod block;
mod fault;
mod header;
mod pending;
mod reading;
mod words;
mod writing;

pub use block::BlockReader;
pub use fault::{DimacsError, DimacsFault};
pub use mal_base::BlockFault;
pub use reading::{after_line, at_end, read};
pub use words::{is_comment, is_passed};
pub use writing::{put_block, put_closed, write};
