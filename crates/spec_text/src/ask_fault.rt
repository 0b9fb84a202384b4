//! Why words say no ask.

/// Why words say no ask and no weight. Each grammar has faults of its own for the two.
#[derive(Clone, Copy, Debug, PartialEq, Eq, Drop)]
pub enum AskFault {
    /// One of the words is no number.
    NotNumbers,
    /// Each word is a number, and one is outside its range.
    OutOfRange,
}
