//! Lines of proofs that are read and written, and texts that are none.

use super::values::{has_ids, has_lits, ids, lits};
use mal_base::{Clause, ClauseId};
use mal_lrat::{Line, LineFault, put_added, put_lits, read_line, write_line};
use std::alloc::Global;

/// The number of an addition, and whether it has these literals and these hints. None for another line.
fn shown(line: &Line, numbers: &[i32], known: &[u64]) -> Option<(u64, [bool; 2])> {
    match line {
        Line::Add {
            id,
            clause: Some(clause),
            hints,
        } => Some((
            id.number(),
            [
                has_lits(clause.lits(), numbers),
                has_ids(hints.as_slice(), known),
            ],
        )),
        _ => None,
    }
}

/// The same of the line of a text after the number 4.
fn read_so(alloc: Global, text: &[u8], numbers: &[i32], known: &[u64]) -> Option<(u64, [bool; 2])> {
    let line = read_line(alloc, text, 4).ok()?;
    shown(&line, numbers, known)
}

#[test]
fn a_line_has_an_id_literals_and_hints(rt: HostRuntime) {
    let found = read_so(rt.alloc(), b"l 5 2 -1 02 0 1 2 0\r", &[-1, 2], &[1, 2]);
    assert!(rt; found == Some((5, [true; 2])));
}

/// Lines after one of the number 4, with their first faults.
const FAULTS: [(&[u8], LineFault); 2] = [
    (b"1 d -3", LineFault::BadNumber),
    (b"4 1 0 -1 2 0", LineFault::IdNotRising { last: 4, id: 4 }),
];

#[test]
fn the_first_fault_is_told(rt: HostRuntime) {
    for (line, fault) in &FAULTS {
        assert!(rt; read_line(rt.alloc(), line, 4).err() == Some(*fault));
    }
}

/// The addition of the clause of these literals by these hints.
fn addition(alloc: Global, number: u64, numbers: &[i32], hints: &[u64]) -> Option<Line> {
    let id = ClauseId::of(number)?;
    let hints = ids(alloc, hints)?;
    let lits = lits(alloc, numbers)?;
    let clause = Clause::of_lits(alloc, lits.as_slice()).ok()?;
    Some(Line::Add { id, clause, hints })
}

/// A deletion.
fn deletion(alloc: Global, numbers: &[u64]) -> Option<Line> {
    let ids = ids(alloc, numbers)?;
    Some(Line::Delete { ids })
}

/// Whether this is the text of a line.
fn is_written(alloc: Global, line: Option<Line>, known: &[u8]) -> Option<bool> {
    let line = line?;
    let text = write_line(alloc, &line).ok()?;
    Some(text.as_slice() == known)
}

#[test]
fn lines_are_written_with_their_line_end(rt: HostRuntime) {
    let alloc = rt.alloc();
    let hints = [1, 4_611_686_018_427_387_904];
    let line = addition(alloc, 7, &[2, -1], &hints);
    assert!(rt; is_written(alloc, line, b"7 -1 2 0 1 4611686018427387904 0\n") == Some(true));
    let tautology = addition(alloc, 8, &[1, -1], &[]);
    assert!(rt; is_written(alloc, tautology, b"8 1 -1 0 0\n") == Some(true));
    assert!(rt; is_written(alloc, deletion(alloc, &[7]), b"1 d 7 0\n") == Some(true));
}

/// Writes literals.
fn put_some(out: &mut Vec<u8>, alloc: Global, numbers: &[i32]) -> Option<()> {
    let lits = lits(alloc, numbers)?;
    put_lits(out, lits.as_slice()).ok()
}

/// Writes an addition.
fn put_line(
    out: &mut Vec<u8>,
    alloc: Global,
    id: ClauseId,
    numbers: &[i32],
    hints: &[u64],
) -> Option<()> {
    let lits = lits(alloc, numbers)?;
    let hints = ids(alloc, hints)?;
    put_added(out, id, lits.as_slice(), hints.as_slice()).ok()
}

/// Writes literals after a text, and an addition after them.
fn put_behind(out: &mut Vec<u8>, alloc: Global) -> Option<()> {
    put_some(out, alloc, &[2, -1])?;
    out.extend_from_slice(b"\nl ").ok()?;
    put_line(out, alloc, ClauseId::original(5), &[-3], &[1, 4])
}

/// Whether this is the text then.
fn are_put(alloc: Global, known: &[u8]) -> Option<bool> {
    let mut out = Vec::from_slice(alloc, b"k").ok()?;
    let is_put = put_behind(&mut out, alloc).is_some();
    Some(is_put && out.as_slice() == known)
}

#[test]
fn an_addition_is_written_behind_a_text(rt: HostRuntime) {
    assert!(rt; are_put(rt.alloc(), b"k 2 -1 0\nl 5 -3 0 1 4 0\n") == Some(true));
}
