//! Trees whose broadcast is known.

use super::values::counted;
use mal_base::{ClauseId, NumberedClause};
use mal_buffer::Buffer;
use mal_exchange::{broadcast, up};
use std::alloc::Global;

/// The buffer of the clause of so many variables from this one on, under this number.
fn single(alloc: Global, first: i32, size: i32, id: ClauseId) -> Option<Buffer> {
    let clause = counted(alloc, first, size)?;
    Buffer::single(alloc, clause, id).ok()
}

/// How many clauses are told to solvers that export these, 64 solvers at most.
fn told_count(alloc: Global, buffers: &[Buffer]) -> Option<usize> {
    if buffers.len() > 64 {
        return None;
    }
    let told = up(alloc, buffers).ok()?;
    Some(told.entries().len())
}

#[test]
fn nothing_is_told_without_exports(rt: HostRuntime) {
    let none = [Buffer::new(rt.alloc()), Buffer::new(rt.alloc())];
    assert!(rt; told_count(rt.alloc(), &[]) == Some(0));
    assert!(rt; told_count(rt.alloc(), &none) == Some(0));
}

/// A buffer and the clause of 16 variables from this one on.
fn with_more(alloc: Global, own: &Buffer, first: i32) -> Option<Buffer> {
    let more = single(alloc, first, 16, ClauseId::original(2))?;
    Buffer::merge(alloc, own, &more).ok()
}

/// The buffer of a clause of 12 variables from this one on, and of three of 16, which begin 16 variables apart.
fn exported(alloc: Global, first: i32) -> Option<Buffer> {
    let mut own = single(alloc, first, 12, ClauseId::original(1))?;
    for behind in [16, 32, 48] {
        own = with_more(alloc, &own, first.saturating_add(behind))?;
    }
    Some(own)
}

/// What 64 solvers export, no clause twice.
fn exports(alloc: Global) -> Option<Vec<Buffer>> {
    let mut buffers = Vec::new(alloc);
    let mut first: i32 = 1;
    for _ in 0..64 {
        buffers.push(exported(alloc, first)?).ok()?;
        first = first.saturating_add(48);
    }
    Some(buffers)
}

/// How many clauses are told to these solvers.
fn told_to_all(alloc: Global) -> Option<usize> {
    let buffers = exports(alloc)?;
    told_count(alloc, buffers.as_slice())
}

#[test]
fn the_64_solvers_of_a_tree_tell_1500_literals(rt: HostRuntime) {
    // 64 clauses of 12 literals, and 45 of 16
    assert!(rt; told_to_all(rt.alloc()) == Some(109));
}

/// The clause of so many variables from this one on, under this number.
fn numbered(alloc: Global, first: i32, size: i32, id: ClauseId) -> Option<NumberedClause> {
    let clause = counted(alloc, first, size)?;
    Some(NumberedClause::new(id, clause))
}

/// How many clauses are broadcast of three, of which two have the same literals, and the numbers of the first and of
/// the last one.
fn broadcast_of_three(alloc: Global) -> Option<(usize, u64, u64)> {
    let mut entries = Vec::new(alloc);
    entries
        .push(numbered(alloc, 1, 2, ClauseId::original(7))?)
        .ok()?;
    entries
        .push(numbered(alloc, 3, 1, ClauseId::original(5))?)
        .ok()?;
    entries
        .push(numbered(alloc, 1, 2, ClauseId::original(4))?)
        .ok()?;
    let told = broadcast(entries);
    let (first, last) = (told.entries().first()?, told.entries().last()?);
    Some((
        told.entries().len(),
        first.id().number(),
        last.id().number(),
    ))
}

#[test]
fn clauses_are_broadcast_once_and_the_shorter_ones_first(rt: HostRuntime) {
    assert!(rt; broadcast_of_three(rt.alloc()) == Some((2, 5, 4)));
}
