//! Marks by rising number: where that of a number stands, and changes at its place.

ghost use Rattle.std.specs.Prelude.{◌≡◌, ℕ, ◌+◌, ◌<◌, ◌≤◌, ◌^◌, ◌↔◌, true, map, filter, length, slice_get, slice_index_or, None, MatchOption, vec_len, vec_capacity, if◌then◌else◌};
ghost use Rattle.std.specs.List.Sorted.{IsNonDecreasing};
ghost use Rattle.spec_guided.specs.State.{activity_under};
ghost use Rattle.mal_marks.specs.Marked.{MarksRise, guide_marks, mark_under, with_mark, stays, resolved_at, is_counted, counted_in};

use crate::mark::Mark;
use mal_activity::Activity;
use mal_base::ClauseId;
use mal_store::is_among;

/// How many of the marks have a number below this one.
fn place_of(marks: &[Mark], id: ClauseId) -> usize
    requires { MarksRise 1 marks.now }
    ensures some { 1 ≤ id }
    ensures bound { result ≤ length marks.now }
    ensures below { (k : ℕ) (d : Mark) → k < result → (slice_index_or marks.now k d).id < id }
    ensures above { (k : ℕ) (d : Mark) → result ≤ k → k < length marks.now
        → id ≤ (slice_index_or marks.now k d).id }
{
    let number = id.number();
    if are_below(marks, number) {
        return marks.len();
    }
    marks.partition_point(|mark| mark.id.number() < number)
}

/// Whether all marks have numbers below this one. Only the last is looked at: mostly the newest clause has the greatest
/// number.
fn are_below(marks: &[Mark], number: u64) -> bool
    requires rising { MarksRise 1 marks.now }
    ensures { result ≡ true → (k : ℕ) (d : Mark) → k < length marks.now
        → (slice_index_or marks.now k d).id < number }
{
    if marks.is_empty() {
        return true;
    }
    let last = marks[marks.len() - 1];
    last.id.number() < number
}

/// Where the mark of this number stands. None exactly where there is none.
pub fn position_of(marks: &[Mark], id: ClauseId) -> Option<usize>
    requires { MarksRise 1 marks.now }
    ensures { MatchOption result (mark_under id marks.now ≡ None)
        (λ k. (k < length marks.now) × (mark_under id marks.now ≡ slice_get marks.now k)) }
{
    let place = place_of(marks, id);
    if place < marks.len() && has_id(&marks[place], id) {
        return Some(place);
    }
    None
}

/// Whether a mark has this number.
fn has_id(mark: &Mark, id: ClauseId) -> bool
    ensures { result ≡ true ↔ mark.now.id ≡ id }
{
    mark.id == id
}

/// Adds a mark of a number that has none, where there is room for it. Takes no memory.
pub fn insert_in(marks: &mut Vec<Mark>, mark: Mark)
    requires rising { MarksRise 1 marks.old.items }
    requires new { mark_under mark.id marks.old.items ≡ None }
    requires room { vec_len marks.old < vec_capacity marks.old }
    ensures items { marks.new.items ≡ with_mark mark marks.old.items }
    ensures rising { MarksRise 1 marks.new.items }
    ensures counted { counted_in marks.new.items
        ≡ (if is_counted mark then counted_in marks.old.items + 1 else counted_in marks.old.items) }
    ensures bound { counted_in marks.old.items ≤ vec_len marks.old }
    ensures len { vec_len marks.new ≡ vec_len marks.old + 1 }
    ensures capacity { vec_capacity marks.new ≡ vec_capacity marks.old }
{
    let place = place_of(marks.as_slice(), mark.id);
    let _ = marks.insert(place, mark);
}

/// Notes that a conflict was resolved with the clause of this number, if it has a mark. Tells whether it counted for
/// reductions and does no longer. Takes no memory.
pub fn resolve_in(marks: &mut Vec<Mark>, id: ClauseId, gain: Activity, is_worth: bool) -> bool
    requires rising { MarksRise 1 marks.old.items }
    requires own { activity_under (guide_marks marks.old.items) id < 2 ^ 63 }
    requires gain { gain < 2 ^ 63 }
    ensures items { marks.new.items ≡ map (resolved_at id gain is_worth) marks.old.items }
    ensures rising { MarksRise 1 marks.new.items }
    ensures counted { counted_in marks.old.items
        ≡ (if result then counted_in marks.new.items + 1 else counted_in marks.new.items) }
    ensures len { vec_len marks.new ≡ vec_len marks.old }
    ensures capacity { vec_capacity marks.new ≡ vec_capacity marks.old }
{
    match position_of(marks.as_slice(), id) {
        None => false,
        Some(place) => {
            let mark = marks[place];
            marks[place] = mark.resolved(gain, is_worth);
            mark.is_counted() && is_worth
        }
    }
}

/// Takes the marks of these numbers, which rise, away. Takes no memory.
pub fn take_away(marks: &mut Vec<Mark>, ids: &[ClauseId])
    requires ids { IsNonDecreasing ids.now }
    requires rising { MarksRise 1 marks.old.items }
    ensures items { marks.new.items ≡ filter (stays ids.now) marks.old.items }
    ensures rising { MarksRise 1 marks.new.items }
    ensures len { vec_len marks.new ≤ vec_len marks.old }
    ensures capacity { vec_capacity marks.new ≡ vec_capacity marks.old }
{
    marks.retain(|mark| !is_among(ids, mark.id));
}

/// How many of the marks count for reductions.
pub fn count_in(marks: &[Mark]) -> usize
    ensures { result ≡ counted_in marks.now }
{
    marks.iter().filter(|mark| mark.is_counted()).count()
}
