//! The lines of a proof.

use mal_base::{Clause, ClauseId};

/// A line of a proof. It adds a clause (none where it is a tautology) under an id, with the hints along which it is
/// derived, or deletes the clauses of some ids.
#[derive(Debug, Drop)]
pub enum Line {
    Add {
        id: ClauseId,
        clause: Option<Clause>,
        hints: Vec<ClauseId>,
    },
    Delete {
        ids: Vec<ClauseId>,
    },
}
