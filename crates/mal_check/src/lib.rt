//! A checker of LRAT proofs.
#![tactic(auto)]

mod assumed;
mod checker;
mod effect;
mod fault;
mod held;
mod places;
mod trues;

pub use checker::Checker;
pub use fault::CheckFault;
