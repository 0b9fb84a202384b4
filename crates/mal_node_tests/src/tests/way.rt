//! Ways of conflicts whose clauses are known.

ghost use Rattle.mal_node_tests.specs.Ways.{HasWays};

use super::going::Going;
use mal_base::{Clause, ClauseId, ClauseList, Lit};
use mal_learn::Scratch;
use mal_revision::Revision;
use mal_scan::Scan;
use mal_trail::Listed;
use mal_watch::Watcher;
use std::alloc::Global;

/// A way has the conflict first, then the reasons from the last entry back, without that of the first implication
/// point.
fn ways_are_known()
    ensures { HasWays }
{}

/// Puts the clause of these literals, as DIMACS has them, after others.
fn push(alloc: Global, clauses: &mut ClauseList, numbers: &[i32]) -> Option<()> {
    let mut lits = Vec::new(alloc);
    for number in numbers {
        lits.push(Lit::of_dimacs(*number)?).ok()?;
    }
    let clause = Clause::of_lits(alloc, lits.as_slice()).ok()?;
    clauses.push(&clause).ok()
}

/// The clauses 1, -1 2 and -1 -2, over three variables.
fn refuted(alloc: Global) -> Option<Revision> {
    let mut clauses = ClauseList::new(alloc);
    push(alloc, &mut clauses, &[1])?;
    push(alloc, &mut clauses, &[-1, 2])?;
    push(alloc, &mut clauses, &[-1, -2])?;
    Revision::new(alloc, 3, clauses, &[]).ok()
}

/// Whether the way of the conflict that refutes these clauses at level 0 has the third clause, the second and the first,
/// and has seen the first two variables.
fn has_way<E: Listed>(alloc: Global) -> Option<bool> {
    let revision = refuted(alloc)?;
    let mut scratch = Scratch::new(alloc);
    let mut going = Going::<E>::new(alloc, &revision, &mut scratch).ok()?;
    let _lines = going.slice(&mut scratch).ok()?;
    let (resolved, seen) = going.way().ok()??;
    let wanted = [
        ClauseId::original(3),
        ClauseId::original(2),
        ClauseId::original(1),
    ];
    Some(resolved.as_slice() == wanted.as_slice() && seen == [true, true, false])
}

#[test]
fn a_way_is_followed_over_both_engines(rt: HostRuntime) {
    assert!(rt; has_way::<Watcher>(rt.alloc()) == Some(true));
    assert!(rt; has_way::<Scan>(rt.alloc()) == Some(true));
}
