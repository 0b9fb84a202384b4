//! Fair volumes: how many workers each live job gets.
#![tactic(auto)]

mod balance;

pub use balance::fair;
