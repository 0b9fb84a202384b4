//! The decision order of a solver node, with moves to the front.
#![tactic(auto)]

mod links;
mod order;
mod ring;

pub use order::Order;
