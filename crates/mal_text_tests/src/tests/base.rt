//! Values that are made, and what they are made of.

use super::values::{LineRow, clauses, has_lines, has_lits, lines, lits};
use mal_base::{Ask, Clause, ClauseId, ClauseList, Formula, Lit, Name};
use std::alloc::Global;

/// The clause of these literals. None for a tautology.
fn clause(alloc: Global, numbers: &[i32]) -> Option<Option<Clause>> {
    let lits = lits(alloc, numbers)?;
    Clause::of_lits(alloc, lits.as_slice()).ok()
}

/// Whether a clause and a copy of it have these literals.
fn have(clause: &Clause, known: &[i32]) -> Option<[bool; 2]> {
    let again = clause.copy().ok()?;
    Some([
        has_lits(clause.lits(), known),
        has_lits(again.lits(), known),
    ])
}

/// Whether the clause of these literals, and a copy of it, have those.
fn made_have(alloc: Global, numbers: &[i32], known: &[i32]) -> Option<[bool; 2]> {
    let clause = clause(alloc, numbers)??;
    have(&clause, known)
}

#[test]
fn a_clause_has_each_literal_once_in_order(rt: HostRuntime) {
    assert!(rt; made_have(rt.alloc(), &[3, -1, 3, 2], &[-1, 2, 3]) == Some([true; 2]));
}

/// Whether these literals make a tautology.
fn is_tautology(alloc: Global, numbers: &[i32]) -> Option<bool> {
    Some(clause(alloc, numbers)?.is_none())
}

#[test]
fn both_signs_of_a_variable_make_a_tautology(rt: HostRuntime) {
    assert!(rt; is_tautology(rt.alloc(), &[2, 1, -2]) == Some(true));
}

/// Bytes, and whether they are a name.
const NAMES: [(&[u8], bool); 4] = [
    (b"job_7", true),
    (b"Job", false),
    (b"", false),
    (&[97; 33], false),
];

/// Whether these bytes are a name, which then has them.
fn is_name(bytes: &[u8]) -> bool {
    match Name::of(bytes) {
        None => false,
        Some(name) => name.as_bytes() == bytes,
    }
}

#[test]
fn names_are_small_letters_digits_and_underlines(rt: HostRuntime) {
    for (bytes, known) in &NAMES {
        assert!(rt; is_name(bytes) == *known);
    }
}

/// The variable, the code and the number of the literal that DIMACS CNF writes as this number, and the number of its
/// opposite.
fn parts_of(number: i32) -> Option<(u32, u32, [i32; 2])> {
    let lit = Lit::of_dimacs(number)?;
    let numbers = [lit.dimacs(), lit.negate().dimacs()];
    Some((lit.var().number(), lit.code(), numbers))
}

#[test]
fn literals_are_those_of_dimacs(rt: HostRuntime) {
    assert!(rt; parts_of(0).is_none() && parts_of(1_073_741_825).is_none());
    let last = [1_073_741_824, -1_073_741_824];
    assert!(rt; parts_of(last[0]) == Some((1_073_741_824, 2_147_483_648, last)));
    assert!(rt; parts_of(-1) == Some((1, 3, [-1, 1])));
}

/// Variables and clauses, and what their formula counts, if there is one: its variables, its clauses and the literals.
const FORMULAS: [(u32, &[&[i32]], Option<[usize; 3]>); 4] = [
    (2, &[&[2, -1], &[1, -1]], Some([2, 2, 2])),
    (1, &[&[2]], None),
    (0, &[&[1, -1]], None),
    (65_537, &[], None),
];

/// What a formula of these clauses counts, if there is one.
fn counts_of(variables: u32, clauses: ClauseList) -> Option<[usize; 3]> {
    let formula = Formula::new(variables, clauses)?;
    Some([
        formula.variables() as usize,
        formula.clauses().len(),
        formula.literals() as usize,
    ])
}

/// What the formula of these counts, if there is one. None where memory runs out.
fn counted(alloc: Global, variables: u32, rows: &[&[i32]]) -> Option<Option<[usize; 3]>> {
    Some(counts_of(variables, clauses(alloc, rows)?))
}

#[test]
fn a_formula_is_of_its_variables(rt: HostRuntime) {
    for (variables, rows, known) in &FORMULAS {
        assert!(rt; counted(rt.alloc(), *variables, rows) == Some(*known));
    }
}

/// Whether clauses are the same as these.
fn are(alloc: Global, all: &ClauseList, rows: &[&[i32]]) -> Option<bool> {
    Some(all.same(&clauses(alloc, rows)?))
}

/// How many clauses and literals the clause 2 and a tautology have.
fn counts_of_both(alloc: Global) -> Option<[usize; 2]> {
    let all = clauses(alloc, &[&[2], &[1, -1]])?;
    Some([all.len(), all.literals()])
}

/// Whether the clause 2 and a tautology are the same as these.
fn both_are(alloc: Global, rows: &[&[i32]]) -> Option<bool> {
    let all = clauses(alloc, &[&[2], &[1, -1]])?;
    are(alloc, &all, rows)
}

#[test]
fn a_tautology_is_not_the_empty_clause(rt: HostRuntime) {
    assert!(rt; counts_of_both(rt.alloc()) == Some([2, 1]));
    assert!(rt; both_are(rt.alloc(), &[&[2, 2], &[-1, 1]]) == Some(true));
    assert!(rt; both_are(rt.alloc(), &[&[2], &[]]) == Some(false));
    assert!(rt; both_are(rt.alloc(), &[&[2]]) == Some(false));
}

#[test]
fn a_clause_number_is_at_least_one(rt: HostRuntime) {
    assert!(rt; ClauseId::of(0).is_none());
    assert!(rt; ClauseId::of(7) == Some(ClauseId::original(7)));
}

/// Priorities, demands, slices and profiles, and whether there is an ask of them.
const ASKS: [([i64; 4], bool); 7] = [
    ([0, 1, 4, 1], false),
    ([1, 65, 4, 1], false),
    ([1, 1, 4097, 1], false),
    ([1000, 64, 4096, 0], false),
    ([1000, 64, 4096, 1], true),
    ([1000, 64, 4096, 2], true),
    ([1000, 64, 4096, 3], false),
];

/// The ask of a priority, a demand and slices for solvers of a profile.
fn ask_of(terms: [i64; 4]) -> Option<Ask> {
    let [priority, demand, slices, profile] = terms;
    Ask::of_numbers(priority, demand, slices, profile)
}

/// The priority, the demand, the slices and the profile of the ask of these, if there is one.
fn terms_of(terms: [i64; 4]) -> Option<[i64; 4]> {
    let ask = ask_of(terms)?;
    Some([
        i64::from(ask.priority()),
        i64::from(ask.demand()),
        i64::from(ask.slices()),
        i64::from(ask.profile().number()),
    ])
}

/// Whether there is an ask of these, which then has them, or none.
fn is_as_known(terms: [i64; 4], is_ask: bool) -> bool {
    match terms_of(terms) {
        None => !is_ask,
        Some(found) => is_ask && found == terms,
    }
}

#[test]
fn an_ask_names_the_profile_of_its_solvers(rt: HostRuntime) {
    for (terms, is_ask) in &ASKS {
        assert!(rt; is_as_known(*terms, *is_ask));
    }
    assert!(rt; Ask::of(1000, 64, 4096) == ask_of([1000, 64, 4096, 1]));
}

/// How many lines there are of these, whether they are these, and how many are left when they are cleared.
fn lined(alloc: Global, rows: &[LineRow]) -> Option<(usize, bool, usize)> {
    let mut lines = lines(alloc, rows)?;
    let count = lines.count();
    let has_lines = has_lines(&lines, rows);
    lines.clear();
    Some((count, has_lines, lines.count()))
}

#[test]
fn lines_stand_one_behind_another(rt: HostRuntime) {
    let rows: [LineRow; 2] = [(7, &[1, -2], &[4]), (8, &[3], &[4, 5])];
    assert!(rt; lined(rt.alloc(), &rows) == Some((2, true, 0)));
}
