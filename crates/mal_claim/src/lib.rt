//! Claims that nothing satisfies a formula and assumptions, each with its proof: what a text spells, which fault of a text
//! is the first one, the verdict on a proof; checking claims, each line of a proof as it is read, and the lines that tell why
//! a text is no claim or why its proof is not verified.
#![tactic(auto)]

mod checking;
mod claim_laws;
mod denial;
mod fault;
mod judging;
mod opened;
mod reading;
mod row;
mod telling;
mod verdict_laws;

pub use claim_laws::{claim_examples, nothing_behind_counts, spelled_is_read};
pub use denial::{Denial, VerifyFault};
pub use fault::ClaimFault;
pub use judging::check;
pub use row::ProofFault;
pub use telling::{fault_line, verdict_line};
pub use verdict_laws::{fault_is_first, lines_are_read, verdict_examples, verified_is_refutation};
