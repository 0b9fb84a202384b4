//! The entries of a journal.

ghost use Rattle.std.specs.Prelude.{◌≡◌, ◌+◌, ◌↔◌, if◌then◌else◌, IsTrue, IfOk};
ghost use Rattle.spec_job.specs.Journal.{is_load};
ghost use Rattle.mal_suspend.specs.{Entries.{entry_of, counted_of}, Replaying.{variables_with}};

use mal_base::{Lit, NumberedClause, grown};
use mal_buffer::Buffer;
use mal_revision::Revision;
use std::alloc::AllocError;
use std::sync::Arc;

/// What a node took: it loaded a revision, of which the first clause has this number, or it imported what was
/// broadcast. The slices that it ran are counted beside these, as `Counted` has them.
#[derive(Drop)]
pub enum Entry {
    Load(Arc<Revision>, u32),
    Import(Arc<Buffer>),
}

impl Entry {
    /// An equal entry. It shares the revision or what was broadcast.
    pub fn copy(&self) -> Result<Entry, AllocError>
        ensures { IfOk result (λ e. entry_of e ≡ entry_of self.now) }
    {
        match self {
            Entry::Load(revision, first) => Ok(Entry::Load(Arc::try_clone(revision)?, *first)),
            Entry::Import(told) => Ok(Entry::Import(Arc::try_clone(told)?)),
        }
    }

    /// Whether the other entry is of the same kind and has the same revision under the same number, or the same
    /// clauses.
    pub fn same(&self, other: &Entry) -> bool
        ensures { IsTrue result ↔ (entry_of self.now ≡ entry_of other.now) }
    {
        match (self, other) {
            (Entry::Load(revision, first), Entry::Load(posted, number)) => {
                is_same_load(revision, *first, posted, *number)
            }
            (Entry::Import(told), Entry::Import(others)) => is_same_buffer(told, others),
            _ => false,
        }
    }

    /// How many loads there are with this entry, where there were so many before it. A count that its type does not
    /// hold is out of memory.
    pub fn loads_with(&self, loads: usize) -> Result<usize, AllocError>
        ensures { IfOk result (λ n. n ≡ (if is_load (entry_of self.now) then loads + 1 else loads)) }
    {
        match self {
            Entry::Load(_, _) => grown(loads, 1, usize::MAX),
            Entry::Import(_) => Ok(loads),
        }
    }

    /// The greatest number of variables after this entry, where this was the greatest before.
    pub fn variables_with(&self, most: u32) -> u32
        ensures { result ≡ variables_with most (entry_of self.now) }
    {
        match self {
            Entry::Load(revision, _) => most.max(revision.variables()),
            Entry::Import(_) => most,
        }
    }
}

/// An entry with the number of slices that were run in a row right before it. It stands for as many entries of a
/// journal that each run a slice, and for itself after them. Each count stands before the entry that ends the row, so
/// no two counts stand side by side and no row can be told in two ways.
#[derive(Drop)]
pub struct Counted {
    pub slices: u64,
    pub entry: Entry,
}

impl Counted {
    /// As many slices before an equal entry. It shares the revision or what was broadcast.
    pub fn copy(&self) -> Result<Counted, AllocError>
        ensures { IfOk result (λ c. counted_of c ≡ counted_of self.now) }
    {
        Ok(Counted {
            slices: self.slices,
            entry: self.entry.copy()?,
        })
    }

    /// Whether the other has as many slices before the same entry.
    pub fn same(&self, other: &Counted) -> bool
        ensures { IsTrue result ↔ (counted_of self.now ≡ counted_of other.now) }
    {
        if self.slices != other.slices {
            return false;
        }
        self.entry.same(&other.entry)
    }
}

/// Whether two loads are of the same revision under the same number.
fn is_same_load(revision: &Revision, first: u32, other: &Revision, number: u32) -> bool
    ensures { IsTrue result ↔ ((revision.now ≡ other.now) × (first ≡ number)) }
{
    if first != number {
        return false;
    }
    revision.same(other)
}

/// Whether these are the same clauses under the same numbers, in the same order.
fn is_same_buffer(one: &Buffer, other: &Buffer) -> bool
    ensures { IsTrue result ↔ (one.now ≡ other.now) }
{
    let entries = one.entries();
    let others = other.entries();
    if entries.len() != others.len() {
        return false;
    }
    for i in 0..entries.len() {
        if !is_same_clause(&entries[i], &others[i]) {
            return false;
        }
    }
    true
}

/// Whether these are the same literals under the same number.
fn is_same_clause(entry: &NumberedClause, other: &NumberedClause) -> bool
    ensures { IsTrue result ↔ (entry.now ≡ other.now) }
{
    if entry.id() != other.id() {
        return false;
    }
    have_same(entry.lits(), other.lits())
}

/// Whether these are the same literals in the same order.
fn have_same(lits: &[Lit], others: &[Lit]) -> bool
    ensures { IsTrue result ↔ (lits.now ≡ others.now) }
{
    lits == others
}
