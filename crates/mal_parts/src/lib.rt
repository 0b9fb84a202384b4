//! The parts of a live service: one thread reads what comes and posts it, others work, one writes what was entered and
//! what is answered, each at the same desk with a pass of its own.
#![tactic(auto)]

mod asking;
mod heading;
mod parts;
mod reading;
mod working;
mod writing;

pub use parts::{Seat, serve_parts};
pub use reading::{ReadEnd, read_all};
pub use working::work_all;
pub use writing::tell_all;
