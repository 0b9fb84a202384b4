//! Numbers that rise, and marks of them.

ghost use Rattle.std.specs.Prelude.{◌≡◌, ℕ, ◌<◌, Bool, ◌||◌, ◌==◌, length, slice_index, MatchOption};
ghost use Rattle.std.specs.{List.{list_any}, List.Sorted.{IsStrictlyIncreasing}};
ghost use Rattle.mal_proof.specs.Marks.{AreMarks, IsMissing};

use mal_base::ClauseId;

/// The place of a number among numbers that rise, none where it is not one of them.
pub fn place_of(ids: &[ClauseId], id: ClauseId) -> Option<usize>
    requires { IsStrictlyIncreasing ids.now }
    ensures { MatchOption result (IsMissing ids.now id)
        (λ place. (place < length ids.now) × (slice_index ids.now place ≡ id)) }
{
    ids.binary_search(&id).ok()
}

/// Marks the place of a number among numbers that rise, if it is one of them.
pub fn mark(ids: &[ClauseId], marks: &mut [bool], id: ClauseId)
    requires rising { IsStrictlyIncreasing ids.now }
    requires len { length marks.old ≡ length ids.now }
    ensures { (test : ℕ → Bool) → AreMarks test ids.now marks.old
        → AreMarks (λ i. test i || (id == i)) ids.now marks.new }
{
    match place_of(ids, id) {
        None => {}
        Some(place) => marks[place] = true,
    }
}

/// Marks the places of several numbers.
pub fn mark_all(ids: &[ClauseId], marks: &mut [bool], more: &[ClauseId])
    requires rising { IsStrictlyIncreasing ids.now }
    requires len { length marks.old ≡ length ids.now }
    ensures { (test : ℕ → Bool) → AreMarks test ids.now marks.old
        → AreMarks (λ i. test i || list_any (λ id. id == i) more.now) ids.now marks.new }
{
    for id in more {
        mark(ids, marks, *id);
    }
}
