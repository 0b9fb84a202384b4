//! The jobs of a hall in their seats: what is due of them, and which of their nodes starts next.
#![tactic(auto)]

mod counts;
mod filled;
mod numbers;
mod scheduler;
mod seat;
mod seats;
mod volumes;

pub use scheduler::Candidate;
pub use seat::Seat;
pub use seats::Seats;
