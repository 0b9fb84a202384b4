//! Names, asks and revisions that tests post.

use mal_base::{Ask, Clause, ClauseList, Lit, Name, Profile};
use mal_revision::Revision;
use std::alloc::Global;

/// What is posted.
#[derive(Clone, Copy)]
pub(crate) enum Posted<'a> {
    /// No clause over so many variables.
    Free(u32),
    /// So many clauses over one variable that are always true.
    Tautologies(usize),
    /// A clause over two variables, and assumptions, by their DIMACS numbers.
    Clause(&'a [i32], &'a [i32]),
    /// No clause over two variables, and assumptions.
    Assuming(&'a [i32]),
}

pub(crate) fn name(text: &[u8]) -> Option<Name> {
    Name::of(text)
}

/// One of many names.
pub(crate) fn numbered(n: u8) -> [u8; 2] {
    [b'a' + n / 26, b'a' + n % 26]
}

pub(crate) fn ask(demand: i64, slices: i64, profile: Profile) -> Option<Ask> {
    Some(Ask::of(1, demand, slices)?.with_profile(profile))
}

fn lits(alloc: Global, numbers: &[i32]) -> Option<Vec<Lit>> {
    let mut lits = Vec::new(alloc);
    for number in numbers {
        lits.push(Lit::of_dimacs(*number)?).ok()?;
    }
    Some(lits)
}

fn clause(alloc: Global, numbers: &[i32]) -> Option<ClauseList> {
    let lits = lits(alloc, numbers)?;
    let clause = Clause::of_lits(alloc, lits.as_slice()).ok();
    drop(lits);
    list_of(alloc, clause?)
}

/// The list of this clause alone.
pub(crate) fn list_of(alloc: Global, clause: Option<Clause>) -> Option<ClauseList> {
    let mut clauses = ClauseList::new(alloc);
    let pushed = clauses.push(&clause);
    drop(clause);
    match pushed {
        Ok(()) => Some(clauses),
        Err(_) => {
            drop(clauses);
            None
        }
    }
}

/// Puts so many clauses into a list that are always true.
fn push_tautologies(clauses: &mut ClauseList, count: usize) -> bool {
    for _ in 0..count {
        if clauses.push_tautology().is_err() {
            return false;
        }
    }
    true
}

fn tautologies(alloc: Global, count: usize) -> Option<ClauseList> {
    let mut clauses = ClauseList::new(alloc);
    if push_tautologies(&mut clauses, count) {
        return Some(clauses);
    }
    drop(clauses);
    None
}

/// A revision of so many variables with these clauses, and assumptions by their DIMACS numbers.
fn assuming(
    alloc: Global,
    variables: u32,
    clauses: ClauseList,
    assumptions: &[i32],
) -> Option<Revision> {
    match lits(alloc, assumptions) {
        Some(lits) => {
            let revision = Revision::new(alloc, variables, clauses, lits.as_slice()).ok();
            drop(lits);
            revision
        }
        None => {
            drop(clauses);
            None
        }
    }
}

pub(crate) fn revision(alloc: Global, posted: Posted) -> Option<Revision> {
    match posted {
        Posted::Free(variables) => assuming(alloc, variables, ClauseList::new(alloc), &[]),
        Posted::Tautologies(count) => assuming(alloc, 1, tautologies(alloc, count)?, &[]),
        Posted::Clause(numbers, assumptions) => {
            assuming(alloc, 2, clause(alloc, numbers)?, assumptions)
        }
        Posted::Assuming(assumptions) => { assuming(alloc, 2, ClauseList::new(alloc), assumptions) }
    }
}
