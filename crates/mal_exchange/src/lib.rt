//! What the solvers of a job tell each other, merged along their tree.
#![tactic(auto)]

mod broadcasting;
mod climbing;

pub use broadcasting::broadcast;
pub use climbing::up;
