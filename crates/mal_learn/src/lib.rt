//! Conflict analysis: the clause that is learned from a conflict, its hints and the level to jump to; its shorter form,
//! which a profile that minimizes learns; and the core clause of a false assumption. Beside it the choice of the
//! clauses that a dropping gives up, lines in no more room than they need, the way of a conflict to its first
//! implication point, and flags that are cleared all at once.
#![tactic(auto)]

mod dropping;
mod flags;
mod packing;
mod profile;
mod scratch;
mod way;
mod work;

pub use dropping::{choose_longer_half, is_reason};
pub use flags::Flags;
pub use packing::packed;
pub use profile::analyse_in;
pub use scratch::{Scratch, analyse, final_core, shorten};
pub use way::Way;
