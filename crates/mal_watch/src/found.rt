//! What is found of the clauses of a batch.

ghost use Rattle.std.specs.Prelude.{◌≡◌, vec_capacity};
ghost use Rattle.std.specs.List.Sorted.{IsPermutation, IsNonDecreasingBy};

use mal_base::{ClauseId, Lit};

/// A clause of a batch: its number, and the literal of it that is left, so handling it needs no look at the clause.
#[derive(Clone, Copy, Debug, PartialEq, Eq)]
pub struct Found {
    pub id: ClauseId,
    pub lit: Lit,
}

/// Sorts what was found by number. Takes no memory.
pub fn sort(found: &mut Vec<Found>)
    ensures same { IsPermutation found.old.items found.new.items }
    ensures order { IsNonDecreasingBy (λ f. f.id) found.new.items }
    ensures capacity { vec_capacity found.new ≡ vec_capacity found.old }
{
    if found.len() < 2 {
        return;
    }
    found.sort_unstable_by_key(|f| f.id.number());
}
