//! A cluster: halls between which jobs move, driven on this thread in rounds.
#![tactic(auto)]

mod cluster;
mod finding;
mod moves;
mod moving;
mod rounds;

pub use cluster::Cluster;
pub use moves::Move;
pub use spec_cluster::MoveFault;
