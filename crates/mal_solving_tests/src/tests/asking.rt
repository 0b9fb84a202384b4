//! What a solver is given, by the numbers of DIMACS CNF.

use mal_base::{Lit, Profile};
use mal_solving::{Solver, Stage};
use std::alloc::Global;

/// A solver that was given nothing.
pub fn solver(alloc: Global, proving: bool) -> Solver {
    Solver::new(alloc, Profile::Lean, proving)
}

/// Gives numbers: literals of clauses, each clause ended by 0. None where one is no literal.
pub fn give(solver: &mut Solver, numbers: &[i32]) -> Option<()> {
    for number in numbers {
        if *number == 0 {
            solver.end_clause();
        } else {
            solver.add(Lit::of_dimacs(*number)?);
        }
    }
    Some(())
}

/// Asks under these assumptions, and runs at most so many slices.
pub fn ask(solver: &mut Solver, assumed: &[i32], slices: u32) -> Option<Stage> {
    for number in assumed {
        solver.assume(Lit::of_dimacs(*number)?);
    }
    solver.begin();
    Some(solver.run(slices))
}

/// Whether the literals of these numbers are true in the model.
pub fn are_true(solver: &Solver, numbers: &[i32]) -> Option<bool> {
    for number in numbers {
        if solver.value(Lit::of_dimacs(*number)?) != Some(true) {
            return Some(false);
        }
    }
    Some(true)
}

/// Whether of these numbers those that are marked are failed assumptions.
pub fn have_failed(solver: &Solver, numbers: &[(i32, bool)]) -> Option<bool> {
    for (number, failed) in numbers {
        if solver.has_failed(Lit::of_dimacs(*number)?) != *failed {
            return Some(false);
        }
    }
    Some(true)
}
