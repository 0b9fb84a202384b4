//! Accounts of runs, a script with the history of a hall that ran it: what a text spells, which fault of a text is the
//! first one, reading, and the lines that tell a fault.
#![tactic(auto)]

mod account;
mod fault;
mod laws;
mod reading;
mod telling;

pub use account::Account;
pub use fault::AccountFault;
pub use laws::{account_examples, nothing_behind_counts, spelled_is_read, written_is_read};
pub use reading::read;
pub use telling::fault_line;
