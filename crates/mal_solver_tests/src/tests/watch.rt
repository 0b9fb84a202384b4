//! Trails that are known, and trails on which both engines agree.

use super::values::{has_lits, ids, number_of, some_clause};
use both::Both;
use mal_base::{ClauseId, ClauseView, Lit, TrailEntry};
use mal_trail::Listed;
use random::walk;
use std::alloc::Global;

mod both;
mod random;
mod run;

/// A clause by its number and its literals.
type Row<'a> = (u64, &'a [i32]);

/// Adds a clause.
fn add(both: &mut Both, alloc: Global, row: Row) -> Option<()> {
    let (number, numbers) = row;
    let id = ClauseId::of(number)?;
    let clause = some_clause(alloc, numbers)?;
    both.add(id, &clause).ok()
}

/// Adds these clauses.
fn add_all(both: &mut Both, alloc: Global, rows: &[Row]) -> Option<()> {
    for row in rows {
        add(both, alloc, *row)?;
    }
    Some(())
}

/// Decides a literal, and propagates. The conflict, if there is one.
fn decide(both: &mut Both, number: i32) -> Option<Option<ClauseId>> {
    both.decide(Lit::of_dimacs(number)?).ok()?;
    both.propagate()
}

/// Gives up the clauses of these numbers.
fn give_up(both: &mut Both, alloc: Global, numbers: &[u64]) -> Option<()> {
    let ids = ids(alloc, numbers)?;
    both.give_up(ids.as_slice(), alloc).ok()
}

/// An entry of a trail: the literal as DIMACS CNF writes it, the number of the reason, 0 for none, and the level.
type Entry = (i32, u64, u32);

/// How many entries of a trail are as they are known, from the first on.
fn count_known(entries: &[TrailEntry], known: &[Entry]) -> usize {
    for n in 0..entries.len() {
        let entry = entries[n];
        let shown = (entry.lit.dimacs(), number_of(entry.reason), entry.level);
        if known.get(n) != Some(&shown) {
            return n;
        }
    }
    entries.len()
}

/// Adds these clauses, gives some up and decides 1. How many entries of the trail are as they are known then, and how many
/// there are.
fn decide_one(
    both: &mut Both,
    alloc: Global,
    rows: &[Row],
    given_up: &[u64],
    known: &[Entry],
) -> Option<(usize, usize)> {
    add_all(both, alloc, rows)?;
    give_up(both, alloc, given_up)?;
    decide(both, 1)?;
    let entries = both.entries();
    Some((count_known(entries, known), entries.len()))
}

/// Adds one clause after a trail and one after a cut, and takes the decision that was cut away again. The conflict, if
/// there is one.
fn decide_behind(both: &mut Both, alloc: Global) -> Option<Option<ClauseId>> {
    decide(both, -1)?;
    decide(both, -2)?;
    add(both, alloc, (5, &[1, 2, 3]))?;
    both.back(1);
    add(both, alloc, (6, &[1, 2, -3]))?;
    decide(both, -2)
}

/// The number of the conflict then, 0 for none, and how many entries the trail has.
fn shown_behind(both: &mut Both, alloc: Global) -> Option<(usize, usize)> {
    let conflict = decide_behind(both, alloc)?;
    Some((number_of(conflict) as usize, both.entries().len()))
}

/// Whether the engine that watches lends the clause of these literals under a number.
fn is_lent(both: &Both, row: Row) -> bool {
    let (number, numbers) = row;
    match ClauseId::of(number) {
        None => false,
        Some(id) => match both.watcher().get(id) {
            None => false,
            Some(lits) => has_lits(lits, numbers),
        },
    }
}

/// Adds the clauses 1 -2 and 4 under the numbers 9 and 3. How many of them the engine that watches lends so, and how many
/// clauses it has.
fn lend(both: &mut Both, alloc: Global) -> Option<(usize, usize)> {
    add(both, alloc, (9, &[1, -2]))?;
    add(both, alloc, (3, &[4]))?;
    let first = is_lent(both, (9, &[1, -2]));
    let second = is_lent(both, (3, &[4]));
    if both.holds(ClauseId::original(4)) {
        return None;
    }
    Some((
        usize::from(first) + usize::from(second),
        both.watcher().count(),
    ))
}

/// What is done with engines that are new, and the two numbers that are told of it.
#[derive(Clone, Copy)]
enum Play<'a> {
    /// Adds clauses, gives some up and decides 1: how many entries of the trail are as they are known, and how many there
    /// are.
    DecideOne(&'a [Row<'a>], &'a [u64], &'a [Entry]),
    /// Adds a clause after a trail: the number of the conflict, and how many entries there are.
    Behind,
    /// Has clauses lent: how many are, and how many are held.
    Lend,
    /// Takes random steps of this seed: how many conflicts there are, and how many entries after all steps.
    Walk(u16),
}

/// What is told where engines differ is none.
fn play_with(both: &mut Both, alloc: Global, play: Play) -> Option<(usize, usize)> {
    match play {
        Play::DecideOne(rows, given_up, known) => decide_one(both, alloc, rows, given_up, known),
        Play::Behind => shown_behind(both, alloc),
        Play::Lend => lend(both, alloc),
        Play::Walk(seed) => walk(both, alloc, seed),
    }
}

/// The same over engines that are new.
fn played(alloc: Global, play: Play) -> Option<(usize, usize)> {
    match Both::new(alloc) {
        Err(_) => None,
        Ok(both) => {
            let mut both = both;
            play_with(&mut both, alloc, play)
        }
    }
}

/// The clauses `-1 3` and `-1 2` under the numbers 1 and 2, and under 2 and 1.
const RISING: &[Row<'static>] = &[(1, &[-1, 3]), (2, &[-1, 2])];

const FALLING: &[Row<'static>] = &[(2, &[-1, 3]), (1, &[-1, 2])];

#[test]
fn literals_are_forced_by_rising_number(rt: HostRuntime) {
    let known = [(1, 0, 1), (3, 1, 1), (2, 2, 1)];
    assert!(rt; played(rt.alloc(), Play::DecideOne(RISING, &[], &known)) == Some((3, 3)));
    let known = [(1, 0, 1), (2, 1, 1), (3, 2, 1)];
    assert!(rt; played(rt.alloc(), Play::DecideOne(FALLING, &[], &known)) == Some((3, 3)));
}

/// The clauses `-1 2`, `-1 3 -4` and `-1 4` under the numbers 1, 2 and 3.
const THREE: &[Row<'static>] = &[(1, &[-1, 2]), (2, &[-1, 3, -4]), (3, &[-1, 4])];

#[test]
fn clauses_that_are_given_up_force_nothing(rt: HostRuntime) {
    let known = [(1, 0, 1), (4, 3, 1), (3, 2, 1)];
    assert!(rt; played(rt.alloc(), Play::DecideOne(THREE, &[4, 1], &known)) == Some((3, 3)));
    let known = [(1, 0, 1), (4, 3, 1)];
    assert!(rt; played(rt.alloc(), Play::DecideOne(THREE, &[2, 1], &known)) == Some((2, 2)));
}

#[test]
fn a_clause_behind_a_trail_is_found_after_a_cut(rt: HostRuntime) {
    assert!(rt; played(rt.alloc(), Play::Behind) == Some((6, 3)));
}

#[test]
fn clauses_are_lent_by_their_numbers(rt: HostRuntime) {
    assert!(rt; played(rt.alloc(), Play::Lend) == Some((2, 2)));
}

/// How many sets of random clauses are tried.
const SETS: u16 = 300;

/// How many conflicts and entries there are over all sets.
fn all_walked(alloc: Global) -> Option<(usize, usize)> {
    let mut conflicts: usize = 0;
    let mut entries: usize = 0;
    for seed in 0..SETS {
        let (more, longer) = played(alloc, Play::Walk(seed))?;
        conflicts = conflicts.saturating_add(more);
        entries = entries.saturating_add(longer);
    }
    Some((conflicts, entries))
}

#[test]
fn both_engines_agree_on_random_clauses(rt: HostRuntime) {
    let (conflicts, entries) = all_walked(rt.alloc()).unwrap_or((0, 0));
    assert!(rt; conflicts > 20);
    assert!(rt; entries > 30_000);
}
