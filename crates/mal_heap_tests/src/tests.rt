//! Heaps, marks and paces whose answers are known.

mod heap;
mod marks;
mod pace;
