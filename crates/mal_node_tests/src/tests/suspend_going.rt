//! A node that is thawed from its bytes goes on like the one that stayed live, over either engine.

use super::going::Going;
use mal_base::{Clause, ClauseList, Lines, Lit};
use mal_learn::Scratch;
use mal_lrat::put_added;
use mal_revision::Revision;
use mal_scan::Scan;
use mal_trail::Listed;
use mal_watch::Watcher;
use std::alloc::Global;

/// How many pigeons there are for one hole less.
const PIGEONS: i32 = 7;

/// The literal that a pigeon from 0 on is in a hole from 0 on.
fn is_in(pigeon: i32, hole: i32) -> Option<Lit> {
    let first = pigeon.checked_mul(PIGEONS - 1)?;
    Lit::of_dimacs(first.checked_add(hole)?.checked_add(1)?)
}

/// Puts the literals that a pigeon is in some hole into a list.
fn put_holes(lits: &mut Vec<Lit>, pigeon: i32) -> Option<()> {
    for hole in 0..PIGEONS - 1 {
        lits.push(is_in(pigeon, hole)?).ok()?;
    }
    Some(())
}

/// The clause that a pigeon is in some hole.
fn some_hole(alloc: Global, pigeon: i32) -> Option<Option<Clause>> {
    let mut lits = Vec::new(alloc);
    let put = put_holes(&mut lits, pigeon);
    let clause = Clause::of_lits(alloc, lits.as_slice()).ok();
    drop(lits);
    put?;
    clause
}

/// The clause that two pigeons are not both in a hole.
fn not_both(alloc: Global, one: i32, other: i32, hole: i32) -> Option<Option<Clause>> {
    let left = is_in(one, hole)?;
    let right = is_in(other, hole)?;
    Clause::of_lits(alloc, &[left.negate(), right.negate()]).ok()
}

/// Puts a clause after others.
fn push(clauses: &mut ClauseList, clause: Option<Clause>) -> Option<()> {
    let pushed = clauses.push(&clause);
    drop(clause);
    pushed.ok()
}

/// Puts the clauses that a pigeon has a hole, and none of those before it, after others.
fn push_pigeon(alloc: Global, clauses: &mut ClauseList, one: i32) -> Option<()> {
    push(clauses, some_hole(alloc, one)?)?;
    for other in 0..one {
        for hole in 0..PIGEONS - 1 {
            push(clauses, not_both(alloc, one, other, hole)?)?;
        }
    }
    Some(())
}

/// Puts the clauses that each pigeon has a hole of its own after others.
fn push_pigeons(alloc: Global, clauses: &mut ClauseList) -> Option<()> {
    for one in 0..PIGEONS {
        push_pigeon(alloc, clauses, one)?;
    }
    Some(())
}

/// The revision of these clauses.
fn pigeon_revision(alloc: Global) -> Option<Revision> {
    let mut clauses = ClauseList::new(alloc);
    if push_pigeons(alloc, &mut clauses).is_some() {
        return Revision::new(alloc, 42, clauses, &[]).ok();
    }
    drop(clauses);
    None
}

/// Puts lines into a text, as a proof has them.
fn put_lines(text: &mut Vec<u8>, lines: &Lines) -> Option<()> {
    for n in 0..lines.count() {
        put_added(text, lines.id(n), lines.lits(n), lines.hints(n)).ok()?;
    }
    Some(())
}

/// The text of lines.
fn text_of(alloc: Global, lines: Lines) -> Option<Vec<u8>> {
    let mut text = Vec::new(alloc);
    let put = put_lines(&mut text, &lines);
    drop(lines);
    if put.is_some() {
        return Some(text);
    }
    drop(text);
    None
}

/// The text of the lines of a node's next slice.
fn sliced<E: Listed>(
    alloc: Global,
    going: &mut Going<E>,
    scratch: &mut Scratch,
) -> Option<Vec<u8>> {
    text_of(alloc, going.slice(scratch).ok()??)
}

/// Whether the lines of a node's next slice are this text.
fn slices_to<E: Listed>(
    alloc: Global,
    going: &mut Going<E>,
    scratch: &mut Scratch,
    known: &[u8],
) -> Option<bool> {
    let text = sliced(alloc, going, scratch)?;
    let is_known = text.as_slice() == known;
    drop(text);
    Some(is_known)
}

/// Whether a slice of each of two nodes derives lines, the same ones.
fn slice_alike<E: Listed>(
    alloc: Global,
    live: &mut Going<E>,
    thawed: &mut Going<E>,
    scratch: &mut Scratch,
) -> Option<bool> {
    let text = sliced(alloc, live, scratch)?;
    let is_alike = slices_to(alloc, thawed, scratch, text.as_slice());
    let derives = !text.is_empty();
    drop(text);
    Some(derives && is_alike?)
}

/// Whether a node has these bytes.
fn has_bytes<E: Listed>(going: &Going<E>, known: &[u8]) -> Option<bool> {
    let bytes = going.bytes().ok()?;
    let are_known = bytes.as_slice() == known;
    drop(bytes);
    Some(are_known)
}

/// Whether two nodes have the same bytes.
fn have_same_bytes<E: Listed>(live: &Going<E>, thawed: &Going<E>) -> Option<bool> {
    let bytes = live.bytes().ok()?;
    let are_same = has_bytes(thawed, bytes.as_slice());
    drop(bytes);
    are_same
}

/// Whether three slices of each of two nodes derive lines, the same ones, and leave both with the same bytes, and the
/// second has not ended.
fn go_alike<E: Listed>(
    alloc: Global,
    live: &mut Going<E>,
    thawed: &mut Going<E>,
    scratch: &mut Scratch,
) -> Option<bool> {
    for _ in 0..3 {
        if !slice_alike(alloc, live, thawed, scratch)? || !have_same_bytes(live, thawed)? {
            return Some(false);
        }
    }
    Some(!thawed.has_ended())
}

/// Runs a slice of a node.
fn run_slice<E: Listed>(going: &mut Going<E>, scratch: &mut Scratch) -> Option<()> {
    let lines = going.slice(scratch).ok()??;
    drop(lines);
    Some(())
}

/// Thaws a node after two slices, and tells whether both nodes go on alike.
fn thaws_alike<E: Listed>(
    alloc: Global,
    live: &mut Going<E>,
    scratch: &mut Scratch,
) -> Option<bool> {
    run_slice(live, scratch)?;
    run_slice(live, scratch)?;
    let mut thawed = live.thawed().ok()?;
    let is_alike = go_alike(alloc, live, &mut thawed, scratch);
    drop(thawed);
    is_alike
}

/// The same of a node that has loaded a revision.
fn loaded_goes_on<E: Listed>(
    alloc: Global,
    revision: &Revision,
    scratch: &mut Scratch,
) -> Option<bool> {
    let mut live: Going<E> = Going::new(alloc, revision, scratch).ok()?;
    let is_alike = thaws_alike(alloc, &mut live, scratch);
    drop(live);
    is_alike
}

/// Whether a node over the clauses of the pigeons that is thawed after two slices goes on like the one that stayed live.
fn goes_on<E: Listed>(alloc: Global) -> Option<bool> {
    let revision = pigeon_revision(alloc)?;
    let mut scratch = Scratch::new(alloc);
    let is_alike = loaded_goes_on::<E>(alloc, &revision, &mut scratch);
    drop(scratch);
    drop(revision);
    is_alike
}

#[test]
fn a_thawed_node_goes_on_over_clauses_that_are_scanned(rt: HostRuntime) {
    assert!(rt; goes_on::<Scan>(rt.alloc()) == Some(true));
}

#[test]
fn a_thawed_node_goes_on_over_clauses_that_are_watched(rt: HostRuntime) {
    assert!(rt; goes_on::<Watcher>(rt.alloc()) == Some(true));
}
