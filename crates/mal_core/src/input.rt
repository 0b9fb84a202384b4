//! What is searched: a formula and assumptions.

use mal_base::{Formula, Lit};

/// A formula and assumptions of its variables: by rising variable, each once, 255 at most.
#[derive(Drop)]
pub struct Instance {
    pub formula: Formula,
    pub assumptions: Vec<Lit>,
}
