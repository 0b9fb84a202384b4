//! An incremental solver: clauses and assumptions come one literal at a time, an answer is asked for as often as is
//! wanted, and all that was derived stays for the next one. A satisfiable answer has a model of all clauses and all
//! assumptions; an unsatisfiable one has failed assumptions, and where proofs are kept the LRAT lines that refute the
//! clauses under these alone.
#![tactic(auto)]

mod answer;
mod given;
mod kernel;
mod log;
mod solver;

pub use answer::Stage;
pub use solver::Solver;
