//! Logs of derived lines, and the proofs that are trimmed of them.
#![tactic(auto)]

mod chunk;
mod ids;
mod lent;
mod log;
mod numbering;
mod trim;

pub use log::Log;
pub use numbering::renumber;
