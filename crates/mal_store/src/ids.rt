//! Numbers of clauses, in rising order.

ghost use Rattle.std.specs.Prelude.{◌≡◌, ℕ, ◌+◌, ◌≤◌, ◌<◌, not, ◌==◌, length, filter, slice_index_or, vec_len, vec_capacity};
ghost use Rattle.std.specs.{List.{list_any}, List.Sorted.{IsNonDecreasing, IsPermutation}};
ghost use Rattle.mal_store.specs.Stored.{with_number};

use mal_base::ClauseId;

/// Puts numbers in rising order. Takes no memory.
pub fn sort_ids(ids: &mut [ClauseId])
    ensures same { IsPermutation ids.old ids.new }
    ensures rising { IsNonDecreasing ids.new }
{
    ids.sort_unstable();
}

/// Whether a number is one of these, which rise.
pub fn is_among(ids: &[ClauseId], id: ClauseId) -> bool
    requires { IsNonDecreasing ids.now }
    ensures { result ≡ list_any (λ i. i == id) ids.now }
{
    ids.binary_search(&id).is_ok()
}

/// How many of numbers in rising order are below this one.
fn place_of(ids: &[ClauseId], id: ClauseId) -> usize
    requires { IsNonDecreasing ids.now }
    ensures bound { result ≤ length ids.now }
    ensures below { (k d : ℕ) → k < result → slice_index_or ids.now k d < id }
    ensures above { (k d : ℕ) → result ≤ k → k < length ids.now → id ≤ slice_index_or ids.now k d }
{
    let number = id.number();
    ids.partition_point(|held| held.number() < number)
}

/// Adds a number to numbers in rising order, where there is room for it. Takes no memory.
pub fn insert_id(ids: &mut Vec<ClauseId>, id: ClauseId)
    requires rising { IsNonDecreasing ids.old.items }
    requires room { vec_len ids.old < vec_capacity ids.old }
    ensures items { ids.new.items ≡ with_number id ids.old.items }
    ensures len { vec_len ids.new ≡ vec_len ids.old + 1 }
    ensures capacity { vec_capacity ids.new ≡ vec_capacity ids.old }
{
    let place = place_of(ids.as_slice(), id);
    let _ = ids.insert(place, id);
}

/// Takes these numbers, which rise, away from a list. Takes no memory.
pub fn take_ids_away(list: &mut Vec<ClauseId>, ids: &[ClauseId])
    requires { IsNonDecreasing ids.now }
    ensures items { list.new.items ≡ filter (λ n. not (list_any (λ i. i == n) ids.now)) list.old.items }
    ensures len { vec_len list.new ≤ vec_len list.old }
    ensures capacity { vec_capacity list.new ≡ vec_capacity list.old }
{
    list.retain(|id| !is_among(ids, *id));
}
