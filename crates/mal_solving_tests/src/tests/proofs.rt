//! Refutations, which the checker takes.

use super::asking::{ask, give, have_failed, solver};
use mal_base::{Clause, ClauseList, Formula, Lines, Lit};
use mal_check::Checker;
use mal_lrat::Line;
use mal_solving::{Solver, Stage};
use std::alloc::Global;

/// The literals of these numbers.
fn lits(alloc: Global, numbers: &[i32]) -> Option<Vec<Lit>> {
    let mut lits = Vec::new(alloc);
    for number in numbers {
        lits.push(Lit::of_dimacs(*number)?).ok()?;
    }
    Some(lits)
}

/// Puts the clause of these literals after others.
fn push(clauses: &mut ClauseList, alloc: Global, numbers: &[i32]) -> Option<()> {
    let lits = lits(alloc, numbers)?;
    let clause = Clause::of_lits(alloc, lits.as_slice()).ok()?;
    clauses.push(&clause).ok()
}

/// The formula of these clauses over four variables.
fn formula(alloc: Global, clauses: &[&[i32]]) -> Option<Formula> {
    let mut all = ClauseList::new(alloc);
    for numbers in clauses {
        push(&mut all, alloc, numbers)?;
    }
    Formula::new(4, all)
}

/// Whether the checker takes these lines.
fn takes(alloc: Global, checker: &mut Checker, lines: &Lines) -> Option<bool> {
    for n in 0..lines.count() {
        let hints = Vec::from_slice(alloc, lines.hints(n)).ok()?;
        match Clause::of_lits(alloc, lines.lits(n)) {
            Err(_) => {
                drop(hints);
                return None;
            }
            Ok(clause) => {
                let id = lines.id(n);
                if checker.line(Line::Add { id, clause, hints }).is_err() {
                    return Some(false);
                }
            }
        }
    }
    Some(true)
}

/// Whether these lines refute clauses under assumptions.
fn refute(alloc: Global, lines: &Lines, clauses: &[&[i32]], assumed: &[i32]) -> Option<bool> {
    let formula = formula(alloc, clauses)?;
    let mut checker = Checker::of_formula(alloc, &formula).ok()?;
    let taken = takes(alloc, &mut checker, lines);
    let assumed = lits(alloc, assumed)?;
    let goal = checker.goal(assumed.as_slice());
    Some(taken? && goal)
}

/// Gives the clauses 1 2, 1 -2, -1 3 and -1 -3 4, and asks under two assumptions.
fn first(solver: &mut Solver) -> Option<Stage> {
    give(solver, &[1, 2, 0, 1, -2, 0, -1, 3, 0, -1, -3, 4, 0])?;
    ask(solver, &[2, -4], 10)
}

/// Gives the clause -4, and asks under no assumption.
fn second(solver: &mut Solver) -> Option<Stage> {
    give(solver, &[-4, 0])?;
    ask(solver, &[], 10)
}

/// Whether the lines of a solver's last answer refute these clauses under these assumptions.
fn is_refuted(alloc: Global, solver: &Solver, clauses: &[&[i32]], assumed: &[i32]) -> Option<bool> {
    refute(alloc, solver.lines()?, clauses, assumed)
}

/// Whether a solver of these clauses, which are refuted, says so again under an assumption, which did not fail.
fn is_refuted_again(
    alloc: Global,
    solver: &mut Solver,
    clauses: &[&[i32]],
    assumed: i32,
) -> Option<bool> {
    let stage = ask(solver, &[assumed], 10)?;
    let spared = have_failed(solver, &[(assumed, false)])?;
    Some(stage == Stage::Core && spared && is_refuted(alloc, solver, clauses, &[])?)
}

#[test]
fn the_checker_takes_what_is_kept(rt: HostRuntime) {
    let alloc = rt.alloc();
    let clauses: [&[i32]; 5] = [&[1, 2], &[1, -2], &[-1, 3], &[-1, -3, 4], &[-4]];
    let mut solver = solver(alloc, true);
    assert!(rt; first(&mut solver) == Some(Stage::Core));
    assert!(rt; is_refuted(alloc, &solver, &clauses[..4], &[2, -4]) == Some(true));
    assert!(rt; second(&mut solver) == Some(Stage::Core));
    assert!(rt; is_refuted(alloc, &solver, &clauses, &[]) == Some(true));
    assert!(rt; is_refuted_again(alloc, &mut solver, &clauses, 2) == Some(true));
    assert!(rt; is_refuted_again(alloc, &mut solver, &clauses, -3) == Some(true));
    assert!(rt; is_refuted_again(alloc, &mut solver, &clauses, 2) == Some(true));
    drop(solver);
}

#[test]
fn no_lines_are_kept_unasked(rt: HostRuntime) {
    let mut solver = solver(rt.alloc(), false);
    assert!(rt; first(&mut solver) == Some(Stage::Core));
    assert!(rt; !solver.is_proving());
    assert!(rt; solver.lines().is_some_and(|lines| lines.count() == 0));
    drop(solver);
}
