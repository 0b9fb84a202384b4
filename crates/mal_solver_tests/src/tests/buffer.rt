//! Buffers whose front is known.

use super::values::counted;
use mal_base::ClauseId;
use mal_buffer::Buffer;
use std::alloc::Global;

/// The buffer of the clause of so many variables from this one on.
fn single(alloc: Global, first: i32, size: i32, id: ClauseId) -> Option<Buffer> {
    let clause = counted(alloc, first, size)?;
    Buffer::single(alloc, clause, id).ok()
}

/// A buffer and the clause of 16 variables from this one on.
fn with_more(alloc: Global, all: &Buffer, first: i32) -> Option<Buffer> {
    let next = single(alloc, first, 16, ClauseId::original(2))?;
    Buffer::merge(alloc, all, &next).ok()
}

/// A buffer with one clause of so many literals and so many clauses of 16 literals.
fn one_and_many(alloc: Global, size: i32, count: u32) -> Option<Buffer> {
    let mut all = single(alloc, 1, size, ClauseId::original(1))?;
    let mut first: i32 = 20;
    for _made in 0..count {
        all = with_more(alloc, &all, first)?;
        first = first.saturating_add(16);
    }
    Some(all)
}

/// The literals of all entries.
fn literals(buffer: &Buffer) -> usize {
    let mut sum: usize = 0;
    for entry in buffer.entries() {
        sum = sum.saturating_add(entry.lits().len());
    }
    sum
}

/// How many entries and how many literals such a buffer has after it was cut to 1,500 literals.
fn counts_of_cut(alloc: Global, size: i32, count: u32) -> Option<(usize, usize)> {
    let mut buffer = one_and_many(alloc, size, count)?;
    buffer.cut(1500);
    Some((buffer.entries().len(), literals(&buffer)))
}

#[test]
fn a_buffer_takes_1500_literals(rt: HostRuntime) {
    assert!(rt; counts_of_cut(rt.alloc(), 12, 94) == Some((94, 1500)));
    assert!(rt; counts_of_cut(rt.alloc(), 13, 93) == Some((93, 1485)));
}
