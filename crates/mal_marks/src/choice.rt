//! Choosing the clauses that a reduction gives up.

ghost use Rattle.std.specs.Prelude.{◌≡◌, ◌≤◌, length, map, filter, vec_len, vec_capacity};
ghost use Rattle.std.specs.List.Sorted.{IsNonDecreasing};
ghost use Rattle.mal_marks.specs.Choosing.{candidate_of, candidate_cmp, may_go, less_active_half};

use crate::mark::Mark;
use mal_activity::Activity;
use mal_base::ClauseId;
use mal_store::is_among;
use std::cmp::Ordering;

/// A clause that may go.
#[derive(Clone, Copy, Debug, PartialEq, Eq)]
pub struct Candidate {
    pub activity: Activity,
    pub id: ClauseId,
}

/// Whether a clause may go: it counts for reductions, and is none of the reasons, whose numbers rise.
fn may_go(mark: &Mark, reasons: &[ClauseId]) -> bool
    requires { IsNonDecreasing reasons.now }
    ensures { result ≡ may_go reasons.now mark.now }
{
    mark.is_counted() && !is_among(reasons, mark.id)
}

/// Gathers the clauses that may go. Takes no memory.
pub fn gather(marks: &[Mark], reasons: &[ClauseId], candidates: &mut Vec<Candidate>)
    requires rising { IsNonDecreasing reasons.now }
    requires room { length marks.now ≤ vec_capacity candidates.old }
    ensures items { candidates.new.items ≡ map candidate_of (filter (may_go reasons.now) marks.now) }
    ensures capacity { vec_capacity candidates.new ≡ vec_capacity candidates.old }
    ensures few { vec_len candidates.new ≤ length marks.now }
{
    candidates.clear();
    for place in 0..marks.len() {
        let mark = marks[place];
        if may_go(&mark, reasons) {
            candidates.push_reserved(Candidate {
                activity: mark.activity,
                id: mark.id,
            });
        }
    }
}

/// How two clauses stand: the less active one first, and of two that are alike the one of the greater number.
fn order(one: &Candidate, other: &Candidate) -> Ordering
    ensures { result ≡ candidate_cmp one.now other.now }
{
    match one.activity.cmp(&other.activity) {
        Ordering::Equal => other.id.cmp(&one.id),
        unequal => unequal,
    }
}

/// Takes the numbers of the less active half, the least active first. Takes no memory.
pub fn take_less_active_half(candidates: &mut Vec<Candidate>, chosen: &mut Vec<ClauseId>)
    requires { vec_len candidates.old ≤ vec_capacity chosen.old }
    ensures chosen { chosen.new.items ≡ map (λ c. c.id) (less_active_half candidates.old.items) }
    ensures candidate_capacity { vec_capacity candidates.new ≡ vec_capacity candidates.old }
    ensures capacity { vec_capacity chosen.new ≡ vec_capacity chosen.old }
{
    candidates.sort_unstable_by(|one, other| order(one, other));
    chosen.clear();
    for place in 0..candidates.len() / 2 {
        chosen.push_reserved(candidates[place].id);
    }
}
