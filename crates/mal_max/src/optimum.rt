//! What a search for an optimum comes to.

use mal_base::{Lines, Values};
use mal_report::Cause;

/// Values of the variables of a formula, which they satisfy, and their cost: how many soft literals they make false, each
/// counted as often as it stands (0 to 128).
#[derive(Drop)]
pub struct Solution {
    pub model: Values,
    pub cost: u32,
}

/// What a search for an optimum comes to: the best solution and the lines of the proof that nothing costs less, none
/// where it costs nothing; the lines of the proof that nothing satisfies the formula; or unknown, with the best solution
/// so far, if there is one, and the cause.
#[derive(Drop)]
pub enum Optimum {
    Best {
        solution: Solution,
        lines: Lines,
    },
    NoModel {
        lines: Lines,
    },
    Unknown {
        best: Option<Solution>,
        cause: Cause,
    },
}
