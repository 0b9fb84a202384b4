//! Texts as lines of words: how they are written, what is read in them, and the laws that lead from the one to the
//! other. Each law is the contract of a function that does nothing.
#![tactic(auto)]

mod ask_fault;
pub mod laws;

pub use ask_fault::AskFault;
