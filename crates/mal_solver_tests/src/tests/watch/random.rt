//! Both engines on random clauses, which come and go at random.

use super::both::Both;
use mal_base::{Clause, ClauseId, Lit, Var};
use mal_seq::Draws;
use std::alloc::{AllocError, Global};

/// How many steps a run has, and one more.
const STEPS: u32 = 50;

/// A literal of the variables 1 to 12.
fn some_literal(draws: &mut Draws) -> Lit {
    Var::of(draws.pick(12) + 1).literal(draws.pick(2) == 0)
}

/// One to five literals, some of which may be the same.
fn some_literals(alloc: Global, draws: &mut Draws) -> Result<Vec<Lit>, AllocError> {
    let mut lits = Vec::new(alloc);
    for _ in 0..1 + draws.pick(3) + draws.pick(3) {
        lits.push(some_literal(draws))?;
    }
    Ok(lits)
}

/// The clause of such literals. None for a tautology.
fn some_clause(alloc: Global, draws: &mut Draws) -> Result<Option<Clause>, AllocError> {
    let lits = some_literals(alloc, draws)?;
    Clause::of_lits(alloc, lits.as_slice())
}

/// The number of the clause that a step loads.
fn loaded_at(step: u32) -> ClauseId {
    ClauseId::original(step.max(1))
}

/// The number of the derived clause of this serial of the node of this index.
fn derived(serial: u32, index: u64) -> ClauseId {
    let first = index.saturating_add(4_294_967_296);
    let number = u64::from(serial).saturating_mul(64).saturating_add(first);
    ClauseId::of(number).unwrap_or(ClauseId::original(1))
}

/// Adds a clause under a number of node 5, unless it is held. These numbers may fall, and come again.
fn import(both: &mut Both, clause: &Clause, draws: &mut Draws) -> Result<(), AllocError> {
    let id = derived(draws.pick(30), 5);
    if both.holds(id) {
        return Ok(());
    }
    both.add(id, clause)
}

/// Loads, imports or learns a clause.
fn take(both: &mut Both, clause: &Clause, step: u32, draws: &mut Draws) -> Result<(), AllocError> {
    match draws.pick(4) {
        0 => both.learn(derived(step, 0), clause),
        1 => import(both, clause, draws),
        _ => both.add(loaded_at(step), clause),
    }
}

/// Takes a random clause, where it is no tautology.
fn take_some(
    both: &mut Both,
    alloc: Global,
    step: u32,
    draws: &mut Draws,
) -> Result<(), AllocError> {
    match some_clause(alloc, draws)? {
        None => Ok(()),
        Some(clause) => take(both, &clause, step, draws),
    }
}

/// Decides a random literal, or goes back to a low level where its variable has a value.
fn turn(both: &mut Both, draws: &mut Draws) -> Result<(), AllocError> {
    let lit = some_literal(draws);
    if both.has_value(lit.var()) {
        both.back(draws.pick(4));
        return Ok(());
    }
    both.decide(lit)
}

/// Gives up clauses of numbers below this step, as they come.
fn forget_some(
    both: &mut Both,
    alloc: Global,
    step: u32,
    draws: &mut Draws,
) -> Result<(), AllocError> {
    let ids = [
        derived(draws.pick(step.max(1)), 0),
        loaded_at(draws.pick(step.max(1))),
        derived(draws.pick(30), 5),
        loaded_at(draws.pick(step.max(1))),
    ];
    both.give_up(&ids, alloc)
}

/// Handles all batches, and goes back to a low level where there is a conflict. Whether there was one.
fn settle(both: &mut Both, draws: &mut Draws) -> Option<bool> {
    match both.propagate()? {
        None => Some(false),
        Some(_) => {
            both.back(draws.pick(3));
            Some(true)
        }
    }
}

/// Takes a clause, makes a decision or a cut, and now and then gives clauses up.
fn stir(both: &mut Both, alloc: Global, step: u32, draws: &mut Draws) -> Result<(), AllocError> {
    take_some(both, alloc, step, draws)?;
    turn(both, draws)?;
    if draws.pick(5) == 0 {
        return forget_some(both, alloc, step, draws);
    }
    Ok(())
}

/// A step of a random run, with all batches after it. Whether there was a conflict; no answer where the engines differ.
fn step_on(both: &mut Both, alloc: Global, step: u32, draws: &mut Draws) -> Option<bool> {
    stir(both, alloc, step, draws).ok()?;
    settle(both, draws)
}

/// How many conflicts there are, and how many entries stand on the trail after each step, in a random run of this seed.
pub fn walk(both: &mut Both, alloc: Global, seed: u16) -> Option<(usize, usize)> {
    let mut draws = Draws::new(u32::from(seed));
    let mut conflicts: usize = 0;
    let mut entries: usize = 0;
    for step in 1..STEPS {
        if step_on(both, alloc, step, &mut draws)? {
            conflicts = conflicts.saturating_add(1);
        }
        entries = entries.saturating_add(both.entries().len());
    }
    Some((conflicts, entries))
}
