//! Checkers whose answers are known.

use super::values::clause;
use mal_base::{ClauseId, ClauseList, Formula};
use mal_check::{CheckFault, Checker};
use mal_lrat::read_line;
use std::alloc::Global;

/// Adds a clause.
fn push(clauses: &mut ClauseList, alloc: Global, numbers: &[i32]) -> Option<()> {
    let clause = clause(alloc, numbers)?;
    clauses.push(&clause).ok()
}

/// The formula of these clauses over two variables.
fn formula(alloc: Global, clauses: &[&[i32]]) -> Option<Formula> {
    let mut all = ClauseList::new(alloc);
    for numbers in clauses {
        push(&mut all, alloc, numbers)?;
    }
    Formula::new(2, all)
}

/// A checker with the four clauses over two variables under the ids 1 to 4.
fn four(alloc: Global) -> Option<Checker> {
    let formula = formula(alloc, &[&[1, 2], &[1, -2], &[-1, 2], &[-1, -2]])?;
    Checker::of_formula(alloc, &formula).ok()
}

/// The text of a line, and why it is refused, none where it is taken.
type Row<'a> = (&'a [u8], Option<CheckFault>);

/// Whether a checker answers so to a line.
fn answers_one(
    alloc: Global,
    checker: &mut Checker,
    text: &[u8],
    known: Option<CheckFault>,
) -> bool {
    match read_line(alloc, text, 0) {
        Err(_) => false,
        Ok(line) => checker.line(line).err() == known,
    }
}

/// Whether a checker answers so to one line after another.
fn answers(alloc: Global, checker: &mut Checker, rows: &[Row]) -> bool {
    for (text, known) in rows {
        if !answers_one(alloc, checker, text, *known) {
            return false;
        }
    }
    true
}

/// Whether a checker of the four clauses answers so to one line after another, and whether the empty clause was derived
/// then.
fn four_answer(alloc: Global, rows: &[Row]) -> Option<(bool, bool)> {
    let mut checker = four(alloc)?;
    let is_known = answers(alloc, &mut checker, rows);
    Some((is_known, checker.goal(&[])))
}

/// That the number of a clause is used.
fn used(number: u64) -> Option<CheckFault> {
    let id = ClauseId::of(number)?;
    Some(CheckFault::IdUsed { id })
}

/// That no clause of this number is held.
fn unknown(number: u64) -> Option<CheckFault> {
    let id = ClauseId::of(number)?;
    Some(CheckFault::UnknownHint { id })
}

#[test]
fn a_deleted_clause_is_unknown(rt: HostRuntime) {
    let rows: [Row; 3] = [
        (b"1 d 2 77 0", None),
        (b"5 1 0 1 2 0", unknown(2)),
        (b"2 1 -2 0 4 3 0", Some(CheckFault::NoContradiction)),
    ];
    assert!(rt; four_answer(rt.alloc(), &rows) == Some((true, false)));
}

/// A checker with the original clause 1 under the id 7.
fn with_original(alloc: Global) -> Option<Checker> {
    let clause = clause(alloc, &[1])?;
    let mut checker = Checker::new(alloc);
    checker.original(ClauseId::original(7), clause).ok()?;
    Some(checker)
}

/// Whether that checker answers so to one line after another.
fn original_answers(alloc: Global, rows: &[Row]) -> Option<bool> {
    let mut checker = with_original(alloc)?;
    Some(answers(alloc, &mut checker, rows))
}

#[test]
fn an_original_clause_is_held(rt: HostRuntime) {
    let rows: [Row; 2] = [(b"7 1 0 7 0", used(7)), (b"8 1 0 7 0", None)];
    assert!(rt; original_answers(rt.alloc(), &rows) == Some(true));
}

/// What a checker of the four clauses answers to two clauses whose numbers are far apart, which it takes, and to two
/// lines after them.
fn far_apart_answer(
    alloc: Global,
    lines: [&[u8]; 2],
    known: [Option<CheckFault>; 2],
) -> Option<(bool, bool)> {
    let [third, fourth] = lines;
    let [told, last] = known;
    let rows: [Row; 4] = [
        (b"5000000000 1 0 1 2 0", None),
        (b"70 -1 0 3 4 0", None),
        (third, told),
        (fourth, last),
    ];
    four_answer(alloc, &rows)
}

#[test]
fn numbers_far_apart_are_held_and_deleted(rt: HostRuntime) {
    let lines: [&[u8]; 2] = [b"5000000000 2 0 1 2 0", b"75 0 5000000000 70 0"];
    let held = far_apart_answer(rt.alloc(), lines, [used(5_000_000_000), None]);
    assert!(rt; held == Some((true, true)));
    let lines: [&[u8]; 2] = [b"1 d 5000000000 70 0", b"76 0 70 0"];
    let deleted = far_apart_answer(rt.alloc(), lines, [None, unknown(70)]);
    assert!(rt; deleted == Some((true, false)));
}
