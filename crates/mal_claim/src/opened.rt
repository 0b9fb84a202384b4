//! A claim whose proof is not read yet.

use mal_base::{Formula, Lit};

/// A text up to the line `proof`: the formula, the assumptions, by rising variable, each once, of the formula's
/// variables, and the text after that line.
#[derive(Drop)]
pub struct Opened<'a> {
    pub formula: Formula,
    pub assumptions: Vec<Lit>,
    pub proof: &'a [u8],
}
