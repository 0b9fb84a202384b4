//! A trail and clauses as the layers above see them, whatever keeps them.

ghost use Rattle.std.specs.Prelude.{◌≡◌, ◌<◌, List, length, slice_get, Some, None, MatchOption};
ghost use Rattle.mal_base.specs.{NumberedClause.{NumberedClause, lits_under}, Trails.{value_on}, declared.trail_entry.TrailEntry.{TrailEntry}};

use crate::clause_id::ClauseId;
use crate::literal::{Lit, Var};
use crate::trail_entry::TrailEntry;

/// A trail: the literals that are true, in the order in which they became so.
pub trait TrailView {
    ghost entries: { Self → List TrailEntry };

    /// The number of entries.
    fn len(&self) -> usize
        ensures { result ≡ length (entries self.now) };

    /// The entry at a place, counted from 0.
    fn at(&self, place: usize) -> TrailEntry
        requires { place < length (entries self.now) }
        ensures { slice_get (entries self.now) place ≡ Some result };

    /// The value of a variable. None exactly where no literal of it is on the trail.
    fn value(&self, var: Var) -> Option<bool>
        ensures { result ≡ value_on (entries self.now) var };
}

/// Clauses, each under its number.
pub trait ClauseView {
    ghost clauses: { Self → List NumberedClause };

    /// The literals of the clause of this number. None exactly where the number is not held.
    fn get(&self, id: ClauseId) -> Option<&[Lit]>
        ensures { MatchOption result (lits_under id (clauses self.now) ≡ None)
            (λ lits. lits_under id (clauses self.now) ≡ Some lits.now) };
}
