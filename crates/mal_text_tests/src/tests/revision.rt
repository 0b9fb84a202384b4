//! Revisions that are posted, and parts that make none.

use super::values::{clauses, has_lits, lits};
use mal_base::{LimitKind, Var};
use mal_revision::{Revision, RevisionFault};
use std::alloc::Global;

/// The revision of these clauses over so many variables, under these assumptions. None where memory runs out.
fn made(
    alloc: Global,
    variables: u32,
    rows: &[&[i32]],
    assumptions: &[i32],
) -> Option<Result<Revision, RevisionFault>> {
    let assumed = lits(alloc, assumptions)?;
    let clauses = clauses(alloc, rows)?;
    Some(Revision::new(alloc, variables, clauses, assumed.as_slice()))
}

/// The revision of the clauses 1 -2 and 1 -1 over 2 variables, under these assumptions.
fn posted(alloc: Global, assumptions: &[i32]) -> Option<Revision> {
    made(alloc, 2, &[&[1, -2], &[1, -1]], assumptions)?.ok()
}

/// How many variables, clauses and literals that revision has, and whether it has these assumptions.
fn parts_of(
    alloc: Global,
    assumptions: &[i32],
    known: &[i32],
) -> Option<((u32, usize, u32), bool)> {
    let revision = posted(alloc, assumptions)?;
    let counts = (
        revision.variables(),
        revision.clauses().len(),
        revision.literals(),
    );
    Some((counts, has_lits(revision.assumptions(), known)))
}

#[test]
fn assumptions_stand_once_by_variable(rt: HostRuntime) {
    assert!(rt; parts_of(rt.alloc(), &[2, -1, 2], &[-1, 2]) == Some(((2, 2, 2), true)));
}

/// Whether a copy of a revision is the same as a revision.
fn is_copy(revision: &Revision, other: &Revision) -> Option<bool> {
    Some(revision.copy().ok()?.same(other))
}

/// Whether a copy of a revision is the same as it, and as one under no assumptions.
fn compared(alloc: Global) -> Option<[bool; 2]> {
    let revision = posted(alloc, &[2, -1, 2])?;
    let other = posted(alloc, &[])?;
    let again = is_copy(&revision, &revision)?;
    Some([again, is_copy(&revision, &other)?])
}

#[test]
fn a_copy_is_the_same_and_another_revision_is_not(rt: HostRuntime) {
    assert!(rt; compared(rt.alloc()) == Some([true, false]));
}

/// Why these parts make no revision.
fn fault_of(
    alloc: Global,
    variables: u32,
    rows: &[&[i32]],
    assumptions: &[i32],
) -> Option<RevisionFault> {
    made(alloc, variables, rows, assumptions)?.err()
}

#[test]
fn the_least_variable_assumed_both_ways_is_named(rt: HostRuntime) {
    let fault = fault_of(rt.alloc(), 1, &[], &[9, 2, -9, -2]);
    assert!(rt; fault == Some(RevisionFault::Opposite { var: Var::of(2) }));
}

#[test]
fn the_first_literal_above_the_variables_is_named(rt: HostRuntime) {
    let fault = fault_of(rt.alloc(), 1, &[&[1, -2], &[1, -1]], &[3]);
    assert!(rt; fault == Some(RevisionFault::VarTooLarge { var: Var::of(2) }));
}

#[test]
fn too_many_variables_pass_a_limit(rt: HostRuntime) {
    let which = LimitKind::Variables;
    let fault = fault_of(rt.alloc(), 65_537, &[], &[]);
    assert!(rt; fault == Some(RevisionFault::Limit { which }));
}
