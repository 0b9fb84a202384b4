//! Sets of clauses that were noted.

use super::values::some_clause;
use mal_filter::ClauseSet;
use std::alloc::Global;

/// Whether a set lets the clause of these literals pass.
fn passes(alloc: Global, seen: &ClauseSet, numbers: &[i32]) -> Option<bool> {
    let clause = some_clause(alloc, numbers)?;
    Some(seen.passes(&clause))
}

/// Notes the clause of these literals.
fn note(alloc: Global, seen: &mut ClauseSet, numbers: &[i32]) -> Option<()> {
    let clause = some_clause(alloc, numbers)?;
    seen.note(&clause).ok()
}

/// Whether 1 -2 passes an empty set; then, when it was noted, whether -2 1 passes, and whether 1 2 does.
fn pass_first(alloc: Global, seen: &mut ClauseSet) -> Option<[Option<bool>; 3]> {
    let before = passes(alloc, seen, &[1, -2]);
    note(alloc, seen, &[1, -2])?;
    let again = passes(alloc, seen, &[-2, 1]);
    Some([before, again, passes(alloc, seen, &[1, 2])])
}

/// Whether 1 2, 1 -2 and the empty clause pass when the first two were noted.
fn pass_both(alloc: Global, seen: &mut ClauseSet) -> Option<[Option<bool>; 3]> {
    note(alloc, seen, &[1, 2])?;
    note(alloc, seen, &[1, -2])?;
    let other = passes(alloc, seen, &[1, 2]);
    let first = passes(alloc, seen, &[1, -2]);
    Some([other, first, passes(alloc, seen, &[])])
}

#[test]
fn a_clause_passes_until_one_with_its_literals_is_noted(rt: HostRuntime) {
    let mut seen = ClauseSet::new(rt.alloc());
    let first = pass_first(rt.alloc(), &mut seen);
    assert!(rt; first == Some([Some(true), Some(false), Some(true)]));
    let both = pass_both(rt.alloc(), &mut seen);
    assert!(rt; both == Some([Some(false), Some(false), Some(true)]));
}
