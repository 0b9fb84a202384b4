//! A heap of variables by activity, with the place of each. The first one is known at once, others are put in and rise;
//! what comes first, what is inside and what stays is proved, and the shape of the heap is seen by no contract. Memory is
//! taken where room is made alone.
#![tactic(auto)]

mod heap;
mod ranks;
mod row;
mod sift;

pub use heap::Heap;
