//! A text that is read up to its line of literals.

use mal_base::Formula;

/// A text up to its line of literals: the formula, the number of that line, the line itself, and the text after it.
#[derive(Drop)]
pub struct Opened<'a> {
    pub formula: Formula,
    pub line: u64,
    pub row: &'a [u8],
    pub rest: &'a [u8],
}
