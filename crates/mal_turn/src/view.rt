//! What a token knows. No value of these types is made, but for `Recorded`'s own.
use std::collections::LinkedList;

/// A value that stands for lists of entries.
pub trait Recorded {
    ghost use Rattle.std.specs.Prelude.{ℕ, List};

    type Entry;

    // For which lists of entries, each with the number of the token that made it.
    ghost stands: { Self → List (List ℕ × Self.Entry) → Type 0 };

    // The entry that was made last.
    ghost last: { Self → Self.Entry };
}

/// How far a token has come with its turn.
pub enum Stage {
    Idle,
    Drawn(u64),
    Holds(u64),
    Entered(u64),
}

/// The numbers of a token, one of which is its first, how often it was split, and the numbers that it awaits.
pub struct Numbers {
    pub first: LinkedList<u64>,
    pub count: u64,
    pub all: LinkedList<LinkedList<u64>>,
    pub awaited: LinkedList<LinkedList<u64>>,
}

/// What a token knows: its stage, the record that it has seen, what the tokens had seen that it was joined of, and its
/// numbers.
pub struct View<E> {
    pub stage: Stage,
    pub seen: LinkedList<(LinkedList<u64>, E)>,
    pub old: LinkedList<
        (
            LinkedList<LinkedList<u64>>,
            LinkedList<(LinkedList<u64>, E)>,
        ),
    >,
    pub of: Numbers,
}
