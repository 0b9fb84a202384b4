//! Propagation: the batch of a prefix of the trail, found by going over all clauses.

ghost use Rattle.std.specs.Prelude.{◌≡◌, ℕ, ◌≤◌, true, length, take, None};
ghost use Rattle.spec_node.specs.{Value.{open_count}, Batch.{is_in_batch, after_batch}};
ghost use Rattle.mal_trail.specs.{Rooms.{are_within}, Trailed.{Grows}};

use mal_base::{ClauseId, Lit};
use mal_store::Store;
use mal_trail::{Trail, handle_clause};

/// How many literals are not false under the first entries of the trail, so many.
fn open_count(trail: &Trail, count: usize, lits: &[Lit]) -> usize
    requires { count ≤ length trail.now.entries }
    ensures { result ≡ open_count (take count trail.now.entries) lits.now }
{
    lits.iter()
        .filter(|l| !trail.is_false_before(count, **l))
        .count()
}

/// Whether a clause of these literals is in the batch of the first entries of the trail, so many.
fn is_in_batch(trail: &Trail, count: usize, lits: &[Lit]) -> bool
    requires { count ≤ length trail.now.entries }
    ensures { (id : ℕ) → result ≡ is_in_batch (take count trail.now.entries) (record { id = id; lits = lits.now }) }
{
    if count == 0 {
        return lits.len() <= 1;
    }
    if open_count(trail, count, lits) != 1 {
        return false;
    }
    1 < open_count(trail, count - 1, lits)
}

/// Handles the batch of the first entries of the trail, so many. The result is the conflict.
pub fn propagate(trail: &mut Trail, count: usize, store: &Store) -> Option<ClauseId>
    requires count { count ≤ length trail.old.entries }
    requires within { are_within trail.old.room store.now.clauses ≡ true }
    ensures progress { after_batch count trail.old.entries store.now.clauses
        ≡ record { trail = trail.new.entries; conflict = result } }
    ensures grows { Grows trail.old trail.new }
{
    for place in 0..store.len() {
        let (id, lits) = store.at(place);
        if is_in_batch(trail, count, lits) {
            match handle_clause(trail, count, id, lits) {
                Some(id) => return Some(id),
                None => {}
            }
        }
    }
    None
}
