//! Buffers, merging and cutting.

ghost use Rattle.std.specs.Prelude.{◌≡◌, ◌+◌, ◌-◌, ◌<◌, ◌≤◌, List, [], ◌∷◌, ◌++◌, length, take, IfOk, OnOk};
ghost use Rattle.spec_exchange.specs.{Exchange.{union, prefix, lesser, merged}, Order.{IsSorted}};

use crate::order::{clause_order, put_in_order};
use mal_base::{Clause, ClauseId, NumberedClause};
use std::alloc::{AllocError, Global};
use std::cmp::Ordering;
use std::marker::Model;

/// A buffer: clauses with their numbers, the shorter ones first and those of one length by the codes of their literals.
/// No list of literals stands twice. Contracts see the list of entries.
#[derive(Drop)]
pub struct Buffer {
    entries: Vec<NumberedClause>,
}

impl Model for Buffer {
    ghost use Rattle.std.specs.Prelude.{List};
    ghost use Rattle.mal_base.specs.NumberedClause.{NumberedClause};
    ghost use Rattle.spec_exchange.specs.Order.{IsSorted};

    ghost Value = { List NumberedClause };

    ghost view = { λ b. b.entries.items };

    ghost invariant = { λ b. IsSorted b.entries.items };
}

impl Buffer {
    /// The empty buffer. Takes no memory.
    pub fn new(alloc: Global) -> Buffer
        ensures { result ≡ [] }
    {
        Buffer {
            entries: Vec::new(alloc),
        }
    }

    /// The buffer of one clause under its number.
    pub fn single(alloc: Global, clause: Clause, id: ClauseId) -> Result<Buffer, AllocError>
        ensures { IfOk result (λ b. b ≡ record { id = id; lits = clause } ∷ []) }
    {
        let entries = vec![in alloc; NumberedClause::new(id, clause)]?;
        Ok(Buffer { entries })
    }

    /// The buffer of clauses that stand in any order: of those with the same literals one stays, with the least number.
    /// Takes no memory.
    pub fn of(entries: Vec<NumberedClause>) -> Buffer
        ensures { result ≡ union entries.items }
    {
        let mut entries = entries;
        put_in_order(&mut entries);
        Buffer { entries }
    }

    /// The entries, in their order.
    pub fn entries(&self) -> &[NumberedClause]
        ensures value { result.now ≡ self.now }
        ensures sorted { IsSorted self.now }
    {
        self.entries.as_slice()
    }

    /// An equal buffer.
    pub fn copy(&self) -> Result<Buffer, AllocError>
        ensures { IfOk result (λ b. b ≡ self.now) }
    {
        let mut entries = Vec::with_capacity(*self.entries.allocator(), self.entries.len())?;
        push_copies(&mut entries, self.entries.as_slice())?;
        Ok(Buffer { entries })
    }

    /// The union of two buffers: of clauses with the same literals one stays, with the lesser number. Linear in both.
    pub fn merge(alloc: Global, one: &Buffer, other: &Buffer) -> Result<Buffer, AllocError>
        ensures { IfOk result (λ b. b ≡ union (one.now ++ other.now)) }
    {
        let entries = merged(alloc, one.entries.as_slice(), other.entries.as_slice())?;
        Ok(Buffer { entries })
    }

    /// Keeps the longest prefix that has at most so many literals. Takes no memory.
    pub fn cut(&mut self, literals: usize)
        ensures prefix { self.new ≡ prefix literals self.old }
        ensures was_sorted { IsSorted self.old }
    {
        let kept = prefix_len(self.entries.as_slice(), literals);
        self.entries.truncate(kept);
    }
}

/// Copies of entries, put after others.
fn push_copies(all: &mut Vec<NumberedClause>, more: &[NumberedClause]) -> Result<(), AllocError>
    ensures { OnOk result (all.new.items ≡ all.old.items ++ more.now) }
{
    for entry in more {
        all.push(entry.copy()?)?;
    }
    Ok(())
}

/// Two sorted lists merged: the lesser first entry first, and of two with the same literals the one with the lesser
/// number.
fn merged(
    alloc: Global,
    xs: &[NumberedClause],
    ys: &[NumberedClause],
) -> Result<Vec<NumberedClause>, AllocError>
    ensures { IfOk result (λ v. v.items ≡ merged xs.now ys.now) }
{
    let mut all = Vec::with_capacity(alloc, xs.len() + ys.len())?;
    let (mut i, mut j) = (0, 0);
    while i < xs.len() && j < ys.len() {
        let (x, y) = (&xs[i], &ys[j]);
        match clause_order(x, y) {
            Ordering::Less => {
                all.push(x.copy()?)?;
                i += 1;
            }
            Ordering::Greater => {
                all.push(y.copy()?)?;
                j += 1;
            }
            Ordering::Equal => {
                all.push(lesser(x, y).copy()?)?;
                i += 1;
                j += 1;
            }
        }
    }
    push_copies(&mut all, &xs[i..])?;
    push_copies(&mut all, &ys[j..])?;
    Ok(all)
}

/// Of two entries the one with the lesser number.
fn lesser<'a>(x: &'a NumberedClause, y: &'a NumberedClause) -> &'a NumberedClause
    ensures { result.now ≡ lesser x.now y.now }
{
    if x.id().number() <= y.id().number() {
        x
    } else {
        y
    }
}

/// How many entries the longest prefix of at most so many literals has.
fn prefix_len(entries: &[NumberedClause], literals: usize) -> usize
    ensures within { result ≤ length entries.now }
    ensures prefix { take result entries.now ≡ prefix literals entries.now }
{
    let mut room = literals;
    for place in 0..entries.len() {
        let size = entries[place].lits().len();
        if room < size {
            return place;
        }
        room -= size;
    }
    entries.len()
}
