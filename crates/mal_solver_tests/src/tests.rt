//! Solvers, logs and checkers whose answers are known.

mod buffer;
mod checks;
mod exchange;
mod filter;
mod logs;
mod order;
mod sat;
mod store;
mod trail;
mod tree;
mod values;
mod watch;
