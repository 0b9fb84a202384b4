//! Values by their numbers in texts, none where a number is out of range or memory runs out.

use mal_base::{Clause, ClauseId, ClauseList, Lines, Lit, Name};
use std::alloc::{AllocError, Global};

/// The literals that DIMACS CNF writes as these numbers.
pub fn lits(alloc: Global, numbers: &[i32]) -> Option<Vec<Lit>> {
    let mut lits = Vec::new(alloc);
    for number in numbers {
        lits.push(Lit::of_dimacs(*number)?).ok()?;
    }
    Some(lits)
}

/// Whether literals are those that DIMACS CNF writes as these numbers.
pub fn has_lits(lits: &[Lit], numbers: &[i32]) -> bool {
    if lits.len() != numbers.len() {
        return false;
    }
    for n in 0..lits.len() {
        if lits[n].dimacs() != numbers[n] {
            return false;
        }
    }
    true
}

/// Adds the clause of these literals.
fn push_clause(clauses: &mut ClauseList, alloc: Global, numbers: &[i32]) -> Option<()> {
    let lits = lits(alloc, numbers)?;
    let clause = Clause::of_lits(alloc, lits.as_slice()).ok()?;
    clauses.push(&clause).ok()
}

/// These clauses.
pub fn clauses(alloc: Global, rows: &[&[i32]]) -> Option<ClauseList> {
    let mut clauses = ClauseList::new(alloc);
    for row in rows {
        push_clause(&mut clauses, alloc, row)?;
    }
    Some(clauses)
}

/// The clauses of these numbers.
pub fn ids(alloc: Global, numbers: &[u64]) -> Option<Vec<ClauseId>> {
    let mut ids = Vec::new(alloc);
    for number in numbers {
        ids.push(ClauseId::of(*number)?).ok()?;
    }
    Some(ids)
}

/// Whether clauses are those of these numbers.
pub fn has_ids(ids: &[ClauseId], numbers: &[u64]) -> bool {
    if ids.len() != numbers.len() {
        return false;
    }
    for n in 0..ids.len() {
        if ids[n].number() != numbers[n] {
            return false;
        }
    }
    true
}

/// A line by its number, its literals and its hints.
pub type LineRow<'a> = (u64, &'a [i32], &'a [u64]);

/// Adds a line of this number.
fn push(
    lines: &mut Lines,
    id: ClauseId,
    lits: &[Lit],
    hints: &[ClauseId],
) -> Result<(), AllocError> {
    lines.reserve(1, lits.len(), hints.len())?;
    lines.push_reserved(id, lits, hints);
    Ok(())
}

/// Adds a line.
fn push_line(lines: &mut Lines, alloc: Global, row: LineRow) -> Option<()> {
    let (number, numbers, hints) = row;
    let id = ClauseId::of(number)?;
    let lits = lits(alloc, numbers)?;
    let hints = ids(alloc, hints)?;
    push(lines, id, lits.as_slice(), hints.as_slice()).ok()
}

/// These lines.
pub fn lines(alloc: Global, rows: &[LineRow]) -> Option<Lines> {
    let mut lines = Lines::new(alloc);
    for row in rows {
        push_line(&mut lines, alloc, *row)?;
    }
    Some(lines)
}

/// Whether lines are these.
pub fn has_lines(lines: &Lines, rows: &[LineRow]) -> bool {
    if lines.count() != rows.len() {
        return false;
    }
    for n in 0..rows.len() {
        let (number, numbers, hints) = rows[n];
        if lines.id(n).number() != number
            || !has_lits(lines.lits(n), numbers)
            || !has_ids(lines.hints(n), hints)
        {
            return false;
        }
    }
    true
}

/// The name of these bytes.
pub fn name(bytes: &[u8]) -> Option<Name> {
    Name::of(bytes)
}
