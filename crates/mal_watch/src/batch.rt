//! Handling the clauses of a batch on the trail.

ghost use Rattle.std.specs.Prelude.{◌≡◌, ℕ, ◌≤◌, true, length, take, None, All};
ghost use Rattle.mal_base.specs.Literals.{var_of};
ghost use Rattle.spec_node.specs.Batch.{after_batch};
ghost use Rattle.mal_trail.specs.{Rooms.{are_within}, Trailed.{Grows}};
ghost use Rattle.mal_watch.specs.Finding.{after_found};

use crate::found::Found;
use mal_base::ClauseId;
use mal_store::Store;
use mal_trail::{Trail, handle_clause, handle_literal};

/// Handles the clauses of at most one literal: the batch of no entry. The result is the conflict.
pub fn handle_short(trail: &mut Trail, store: &Store) -> Option<ClauseId>
    requires { are_within trail.old.room store.now.clauses ≡ true }
    ensures progress { after_batch 0 trail.old.entries store.now.clauses
        ≡ record { trail = trail.new.entries; conflict = result } }
    ensures grows { Grows trail.old trail.new }
{
    for place in 0..store.count_short() {
        let (id, lits) = store.short_at(place);
        match handle_clause(trail, 0, id, lits) {
            Some(id) => return Some(id),
            None => {}
        }
    }
    None
}

/// Handles what was found of a batch: pushes the literal left of each clause, one after another. The result is the
/// conflict.
pub fn handle(trail: &mut Trail, found: &[Found]) -> Option<ClauseId>
    requires { All (λ f. var_of f.lit ≤ trail.old.room) found.now }
    ensures progress { after_found
        (record { trail = trail.old.entries; conflict = None }) found.now
        ≡ record { trail = trail.new.entries; conflict = result } }
    ensures prefix { (n : ℕ) → n ≤ length trail.old.entries → take n trail.new.entries ≡ take n trail.old.entries }
    ensures grows { Grows trail.old trail.new }
{
    for next in found {
        match handle_literal(trail, next.id, next.lit) {
            Some(id) => return Some(id),
            None => {}
        }
    }
    None
}
