//! What is searched: a formula and soft literals.

use mal_base::{Formula, Lit};

/// A formula and soft literals of its variables, in order, 128 at most; formula and counter are within the limits.
#[derive(Drop)]
pub struct Instance {
    pub formula: Formula,
    pub softs: Vec<Lit>,
}
