//! Blocks that are read line by line, and lines that are written.

use super::values::lits;
use mal_base::{BlockFault, Formula};
use mal_dimacs::{BlockReader, DimacsError, put_block, put_closed, read, write};
use std::alloc::Global;

/// A block of two variables and one clause after its header.
fn begun(alloc: Global) -> Option<BlockReader> {
    BlockReader::of_header(alloc, b"p cnf 2 1").ok()
}

/// A block with these rows.
fn block_of(alloc: Global, rows: [&[u8]; 3]) -> Option<BlockReader> {
    let [first, second, third] = rows;
    let reader = begun(alloc)?.row(first).ok()?;
    reader.row(second).ok()?.row(third).ok()
}

/// What the formula of a block with these rows is written as.
fn written(alloc: Global, rows: [&[u8]; 3]) -> Option<Vec<u8>> {
    let formula = block_of(alloc, rows)?.finish().ok()?;
    write(alloc, &formula).ok()
}

/// Whether the formula of a block with these rows is written so.
fn is_written(alloc: Global, rows: [&[u8]; 3], known: &[u8]) -> bool {
    match written(alloc, rows) {
        None => false,
        Some(text) => text.as_slice() == known,
    }
}

/// Why a row of a block is refused.
fn fault_of(alloc: Global, row: &[u8]) -> Option<DimacsError> {
    begun(alloc)?.row(row).err()
}

#[test]
fn a_block_is_read_line_by_line(rt: HostRuntime) {
    assert!(rt; is_written(rt.alloc(), [b"c", b"2 1", b"0"], b"p cnf 2 1\n1 2 0\n"));
    let fault = fault_of(rt.alloc(), b"2 x");
    assert!(rt; fault == Some(DimacsError::Fault(BlockFault::BadNumber)));
}

/// Writes a formula, and two lines after it.
fn put_all(text: &mut Vec<u8>, alloc: Global, formula: &Formula) -> Option<()> {
    put_block(text, formula.variables(), formula.clauses()).ok()?;
    let lits = lits(alloc, &[-2])?;
    put_closed(text, lits.as_slice()).ok()?;
    put_closed(text, &[]).ok()
}

/// Whether a formula and two lines after it are written so.
fn are_put(alloc: Global, formula: &Formula, known: &[u8]) -> bool {
    let mut text = Vec::new(alloc);
    put_all(&mut text, alloc, formula).is_some() && text.as_slice() == known
}

/// Whether the formula of a text and two lines after it are written so.
fn are_written(alloc: Global, text: &[u8], known: &[u8]) -> bool {
    match read(alloc, text) {
        Err(_) => false,
        Ok(formula) => are_put(alloc, &formula, known),
    }
}

#[test]
fn lines_are_written_behind_a_text(rt: HostRuntime) {
    assert!(rt;
        are_written(
            rt.alloc(),
            b"p cnf 2 2\n2 -1 0\n1 -1 0\n",
            b"p cnf 2 2\n-1 2 0\n1 -1 0\n-2 0\n0\n"
        )
    );
}
