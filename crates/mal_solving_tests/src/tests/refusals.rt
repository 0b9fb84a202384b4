//! Inputs that are refused.

use super::asking::{ask, give, solver};
use mal_base::Lit;
use mal_solving::{Solver, Stage};
use spec_solving::Refusal;

/// How far the answer of a solver is after it is asked, and why it refuses.
fn asked(solver: &mut Solver) -> Option<(Stage, Option<Refusal>)> {
    let stage = ask(solver, &[], 1_000)?;
    Some((stage, solver.refusal()))
}

/// An answer within a clause, and one after its end.
fn within_a_clause(solver: &mut Solver) -> Option<(Stage, Option<Refusal>)> {
    give(solver, &[1, 0, 2])?;
    ask(solver, &[], 10)?;
    give(solver, &[0])?;
    asked(solver)
}

#[test]
fn an_answer_within_a_clause_is_refused_for_good(rt: HostRuntime) {
    let mut solver = solver(rt.alloc(), false);
    let known = Some((Stage::Open, Some(Refusal::OpenClause)));
    assert!(rt; within_a_clause(&mut solver) == known);
    drop(solver);
}

/// The clause of one number, and an answer.
fn clause_of(solver: &mut Solver, number: i32) -> Option<(Stage, Option<Refusal>)> {
    solver.add(Lit::of_dimacs(number)?);
    solver.end_clause();
    asked(solver)
}

/// An assumption, and an answer.
fn assumption_of(solver: &mut Solver, number: i32) -> Option<(Stage, Option<Refusal>)> {
    solver.assume(Lit::of_dimacs(number)?);
    asked(solver)
}

#[test]
fn the_greatest_variable_is_taken_and_no_greater_one(rt: HostRuntime) {
    let mut solver = solver(rt.alloc(), false);
    assert!(rt; clause_of(&mut solver, 65_536) == Some((Stage::Model, None)));
    assert!(rt; assumption_of(&mut solver, -1) == Some((Stage::Model, None)));
    let known = Some((Stage::Open, Some(Refusal::NoLiteral)));
    assert!(rt; clause_of(&mut solver, 65_537) == known);
    drop(solver);
}

#[test]
fn a_greater_variable_is_not_assumed(rt: HostRuntime) {
    let mut solver = solver(rt.alloc(), false);
    let known = Some((Stage::Open, Some(Refusal::NoLiteral)));
    assert!(rt; assumption_of(&mut solver, -65_537) == known);
    drop(solver);
}

#[test]
fn the_first_cause_of_a_refusal_stays(rt: HostRuntime) {
    let mut solver = solver(rt.alloc(), false);
    solver.refuse(Refusal::NoLiteral);
    solver.refuse(Refusal::Limit);
    assert!(rt; asked(&mut solver) == Some((Stage::Open, Some(Refusal::NoLiteral))));
    drop(solver);
}
