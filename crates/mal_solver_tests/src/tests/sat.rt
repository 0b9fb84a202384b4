//! Assignments that satisfy a formula, and those that do not.

use super::values::{clause, lits};
use mal_base::{ClauseList, Formula};
use mal_sat::satisfies;
use std::alloc::Global;

/// Adds a clause.
fn push(clauses: &mut ClauseList, alloc: Global, numbers: &[i32]) -> Option<()> {
    let clause = clause(alloc, numbers)?;
    clauses.push(&clause).ok()
}

/// The formula of the clauses 1 2 and -1 and a tautology over three variables.
fn formula(alloc: Global) -> Option<Formula> {
    let mut clauses = ClauseList::new(alloc);
    push(&mut clauses, alloc, &[1, 2])?;
    push(&mut clauses, alloc, &[2, -2])?;
    push(&mut clauses, alloc, &[-1])?;
    Formula::new(3, clauses)
}

/// Whether these values satisfy that formula under these assumptions.
fn is_satisfied(alloc: Global, assumptions: &[i32], values: &[bool]) -> Option<bool> {
    let formula = formula(alloc)?;
    let assumptions = lits(alloc, assumptions)?;
    Some(satisfies(&formula, assumptions.as_slice(), values))
}

/// Assumptions, values, and whether they satisfy that formula.
const VALUES: [(&[i32], &[bool], bool); 5] = [
    (&[], &[false, true, false], true),
    (&[-3, 2], &[false, true], true),
    (&[3], &[false, true], false),
    (&[], &[true, true, true], false),
    (&[], &[], false),
];

#[test]
fn each_clause_and_each_assumption_counts(rt: HostRuntime) {
    for (assumptions, values, known) in &VALUES {
        assert!(rt; is_satisfied(rt.alloc(), assumptions, values) == Some(*known));
    }
}
