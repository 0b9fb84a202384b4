//! What the index keeps of a clause.

use mal_base::{ClauseId, Lit};

/// Where the literals of a clause are: none and one of them here, two and more at a place of the list of the long ones.
#[derive(Clone, Copy)]
pub enum Held {
    Empty,
    One([Lit; 1]),
    Long(u32),
}

/// The number of a clause, and where its literals are.
#[derive(Clone, Copy)]
pub struct Entry {
    pub id: ClauseId,
    pub held: Held,
}
