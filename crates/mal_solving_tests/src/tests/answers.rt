//! Answers, and what stays between them.

use super::asking::{are_true, ask, give, have_failed, solver};
use mal_base::Lit;
use mal_solving::{Solver, Stage};
use std::alloc::Global;

/// A model under an assumption.
fn first(solver: &mut Solver) -> Option<(Stage, bool)> {
    give(solver, &[1, 2, 0, -1, 3, 0])?;
    let stage = ask(solver, &[-2], 10)?;
    Some((stage, are_true(solver, &[1, -2, 3])?))
}

/// Failed assumptions of the same clauses.
fn second(solver: &mut Solver) -> Option<(Stage, bool)> {
    let stage = ask(solver, &[5, -2, -3], 10)?;
    let known = [(-2, true), (-3, true), (5, false), (2, false)];
    Some((stage, have_failed(solver, &known)?))
}

/// A model again, of one clause more.
fn third(solver: &mut Solver) -> Option<(Stage, bool)> {
    give(solver, &[-2, 0])?;
    let stage = ask(solver, &[], 10)?;
    Some((stage, are_true(solver, &[1, -2, 3])?))
}

#[test]
fn clauses_stay_and_assumptions_go(rt: HostRuntime) {
    let mut solver = solver(rt.alloc(), false);
    assert!(rt; first(&mut solver) == Some((Stage::Model, true)));
    assert!(rt; second(&mut solver) == Some((Stage::Core, true)));
    assert!(rt; third(&mut solver) == Some((Stage::Model, true)));
    drop(solver);
}

/// Both signs of a variable, without a slice.
fn both_signs(solver: &mut Solver) -> Option<(Stage, bool)> {
    give(solver, &[1, 0])?;
    let stage = ask(solver, &[7, -3, 3], 0)?;
    Some((
        stage,
        have_failed(solver, &[(3, true), (-3, true), (7, false)])?,
    ))
}

#[test]
fn both_signs_of_a_variable_fail_without_a_search(rt: HostRuntime) {
    let mut solver = solver(rt.alloc(), false);
    assert!(rt; both_signs(&mut solver) == Some((Stage::Core, true)));
    assert!(rt; ask(&mut solver, &[-3], 10) == Some(Stage::Model));
    drop(solver);
}

/// How far an answer is without a slice, and whether a value is told then.
fn without_a_slice(solver: &mut Solver) -> Option<(Stage, bool)> {
    give(solver, &[1, 2, 0, 1, -2, 0, -1, 2, 0])?;
    let stage = ask(solver, &[], 0)?;
    Some((stage, solver.value(Lit::of_dimacs(1)?).is_some()))
}

#[test]
fn an_answer_is_unknown_until_its_slices_were_run(rt: HostRuntime) {
    let mut solver = solver(rt.alloc(), false);
    assert!(rt; without_a_slice(&mut solver) == Some((Stage::Unknown, false)));
    assert!(rt; solver.run(1) == Stage::Model);
    drop(solver);
}

/// A tautology, and a literal twice.
fn odd_clauses(solver: &mut Solver) -> Option<Stage> {
    give(solver, &[1, -1, 0, 2, 2, 0])?;
    ask(solver, &[-1], 10)
}

/// The empty clause.
fn empty_clause(solver: &mut Solver) -> Option<(Stage, bool)> {
    give(solver, &[0])?;
    let stage = ask(solver, &[1], 10)?;
    Some((stage, have_failed(solver, &[(1, false), (-1, false)])?))
}

#[test]
fn tautologies_are_kept_and_an_empty_clause_is_refuted(rt: HostRuntime) {
    let mut solver = solver(rt.alloc(), false);
    assert!(rt; odd_clauses(&mut solver) == Some(Stage::Model));
    assert!(rt; empty_clause(&mut solver) == Some((Stage::Core, true)));
    drop(solver);
}
