//! Engines whose clauses can be gone over.

ghost use Rattle.std.specs.Prelude.{◌≡◌, ◌<◌, length, slice_get, Some};

use crate::engine::Engine;
use mal_base::{ClauseId, Lit};

/// An engine that lends its clauses one by one, by rising place.
pub trait Listed: Engine {
    /// The number of clauses.
    fn count(&self) -> usize
        ensures { result ≡ length (Self.clauses self.now) };

    /// The clause at a place, counted from 0: its number and its literals.
    fn clause_at(&self, place: usize) -> (ClauseId, &[Lit])
        requires { place < length (Self.clauses self.now) }
        ensures { slice_get (Self.clauses self.now) place ≡ Some (record { id = result.0; lits = result.1.now }) };
}
