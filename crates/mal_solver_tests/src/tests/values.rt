//! Values by their numbers in texts, none where a number is out of range or memory runs out.

use mal_base::{Clause, ClauseId, Lit};
use std::alloc::Global;

/// The literals that DIMACS CNF writes as these numbers.
pub fn lits(alloc: Global, numbers: &[i32]) -> Option<Vec<Lit>> {
    let mut lits = Vec::new(alloc);
    for number in numbers {
        lits.push(Lit::of_dimacs(*number)?).ok()?;
    }
    Some(lits)
}

/// Whether literals are those that DIMACS CNF writes as these numbers.
pub fn has_lits(lits: &[Lit], numbers: &[i32]) -> bool {
    if lits.len() != numbers.len() {
        return false;
    }
    for n in 0..lits.len() {
        if lits[n].dimacs() != numbers[n] {
            return false;
        }
    }
    true
}

/// The clauses of these numbers.
pub fn ids(alloc: Global, numbers: &[u64]) -> Option<Vec<ClauseId>> {
    let mut ids = Vec::new(alloc);
    for number in numbers {
        ids.push(ClauseId::of(*number)?).ok()?;
    }
    Some(ids)
}

/// The number of a clause, 0 for none.
pub fn number_of(id: Option<ClauseId>) -> u64 {
    match id {
        None => 0,
        Some(id) => id.number(),
    }
}

/// The clause of these literals. None for a tautology.
pub fn clause(alloc: Global, numbers: &[i32]) -> Option<Option<Clause>> {
    let lits = lits(alloc, numbers)?;
    Clause::of_lits(alloc, lits.as_slice()).ok()
}

/// The clause of these literals, which is no tautology.
pub fn some_clause(alloc: Global, numbers: &[i32]) -> Option<Clause> {
    clause(alloc, numbers)?
}

/// The literals of so many variables from this one on.
fn counted_lits(alloc: Global, first: i32, size: i32) -> Option<Vec<Lit>> {
    let mut lits = Vec::new(alloc);
    for number in 0..size {
        lits.push(Lit::of_dimacs(first.saturating_add(number))?)
            .ok()?;
    }
    Some(lits)
}

/// The clause of so many variables from this one on.
pub fn counted(alloc: Global, first: i32, size: i32) -> Option<Clause> {
    let lits = counted_lits(alloc, first, size)?;
    Clause::of_lits(alloc, lits.as_slice()).ok()?
}
