//! What a node did, with slices in a row counted.

ghost use Rattle.std.specs.Prelude.{◌≡◌, ◌+◌, ◌↔◌, [], ◌∷◌, ◌++◌, map, IsTrue, IfOk};
ghost use Rattle.std.specs.Arc.{arc_value};
ghost use Rattle.spec_job.specs.Journal.{Run, loads_in, imports_in};
ghost use Rattle.mal_suspend.specs.{Entries.{slices_of, counted_of, entries_of}, Counting.{listed_in}, Replaying.{variables_after}};

use crate::entry::Counted;
use crate::growing::Growing;
use crate::listed::Listed;
use mal_base::grown;
use std::alloc::{AllocError, Global};
use std::marker::Model;
use std::sync::Arc;

/// What a node did, in order: the entries that are no slices, each with the number of slices before it, and the number
/// of slices after the last. Contracts see the list, in which each slice is an entry of its own; two lists are equal
/// exactly where these are. So a slice more takes no memory, and a list costs what its loads and imports do. A copy
/// shares them, and a list that has one slice more does; what was counted of them is kept beside them.
#[derive(Drop)]
pub struct Entries {
    alloc: Global,
    listed: Option<Arc<Listed>>,
    slices: u64,
}

impl Model for Entries {
    ghost use Rattle.std.specs.Prelude.{List, ◌++◌};
    ghost use Rattle.spec_job.specs.Journal.{JournalEntry};
    ghost use Rattle.mal_suspend.specs.{Entries.{slices_of, entries_of}, Counting.{listed_in}};

    ghost Value = { List JournalEntry };

    ghost view = { λ e. entries_of (listed_in e.listed) ++ slices_of e.slices };
}

impl Entries {
    /// Nothing done. Takes no memory.
    pub fn new(alloc: Global) -> Entries
        ensures { result ≡ [] }
    {
        Entries {
            alloc,
            listed: None,
            slices: 0,
        }
    }

    /// Entries that may be shared, and so many slices after them. Takes no memory.
    pub(crate) fn of(alloc: Global, listed: Arc<Listed>, slices: u64) -> Entries
        ensures { result ≡ entries_of (arc_value listed) ++ slices_of slices }
    {
        Entries {
            alloc,
            listed: Some(listed),
            slices,
        }
    }

    /// The entries that are no slices, each with the number of slices before it, and the number of slices after the
    /// last.
    pub fn parts(&self) -> (&[Counted], u64)
        ensures { entries_of result.0.now ++ slices_of result.1 ≡ self.now }
    {
        (counted_in(&self.listed), self.slices)
    }

    /// The allocator that the list takes memory from.
    pub fn allocator(&self) -> Global {
        self.alloc
    }

    /// How many revisions were loaded.
    pub fn loads(&self) -> usize
        ensures { result ≡ loads_in self.now }
    {
        match &self.listed {
            None => 0,
            Some(listed) => listed.loads(),
        }
    }

    /// How much of what was broadcast was imported.
    pub fn imports(&self) -> usize
        ensures { result ≡ imports_in self.now }
    {
        match &self.listed {
            None => 0,
            Some(listed) => listed.imports(),
        }
    }

    /// The greatest number of variables of the revisions that were loaded.
    pub fn variables(&self) -> u32
        ensures { result ≡ variables_after 0 self.now }
    {
        match &self.listed {
            None => 0,
            Some(listed) => listed.variables(),
        }
    }

    /// An equal list, which shares the entries that are no slices.
    pub fn copy(&self) -> Result<Entries, AllocError>
        ensures { IfOk result (λ e. e ≡ self.now) }
    {
        Ok(Entries {
            alloc: self.alloc,
            listed: shared(&self.listed)?,
            slices: self.slices,
        })
    }

    /// The list with a slice after it, which shares the entries that are no slices. Is refused where the count would
    /// pass its type's end.
    pub(crate) fn and_slice(&self) -> Result<Entries, AllocError>
        ensures { IfOk result (λ e. e ≡ self.now ++ Run ∷ []) }
    {
        let slices = next(self.slices)?;
        Ok(Entries {
            alloc: self.alloc,
            listed: shared(&self.listed)?,
            slices,
        })
    }

    /// An equal list that is put together further, with room for so many entries more that are no slices. It shares the
    /// revisions and what was broadcast.
    pub(crate) fn growing(&self, more: usize) -> Result<Growing, AllocError>
        ensures { IfOk result (λ g. g ≡ self.now) }
    {
        let listed = copied(self.alloc, &self.listed, more)?;
        Ok(Growing::of(listed, self.slices))
    }

    /// Whether these are the same entries in the same order.
    pub fn same(&self, other: &Entries) -> bool
        ensures { IsTrue result ↔ (self.now ≡ other.now) }
    {
        if self.slices != other.slices {
            return false;
        }
        are_same(counted_in(&self.listed), counted_in(&other.listed))
    }
}

/// The entries that are shared; none where there is nothing to share.
fn counted_in(listed: &Option<Arc<Listed>>) -> &[Counted]
    ensures { result.now ≡ listed_in listed.now }
{
    match listed {
        None => &[],
        Some(listed) => listed.counted(),
    }
}

/// The same entries, shared once more.
fn shared(listed: &Option<Arc<Listed>>) -> Result<Option<Arc<Listed>>, AllocError>
    ensures { IfOk result (λ copy. listed_in copy ≡ listed_in listed.now) }
{
    match listed {
        None => Ok(None),
        Some(listed) => Ok(Some(Arc::try_clone(listed)?)),
    }
}

/// Equal entries that are not shared, with room for so many more.
fn copied(alloc: Global, listed: &Option<Arc<Listed>>, more: usize) -> Result<Listed, AllocError>
    ensures { IfOk result (λ copy. entries_of copy ≡ entries_of (listed_in listed.now)) }
{
    match listed {
        None => Ok(Listed::new(alloc)),
        Some(listed) => listed.copy_with(more),
    }
}

/// One slice more. It is refused where the count would pass its type's end.
pub(crate) fn next(slices: u64) -> Result<u64, AllocError>
    ensures { IfOk result (λ n. n ≡ slices + 1) }
{
    Ok(grown(slices as usize, 1, usize::MAX)? as u64)
}

/// Whether these stand for the same entries, one by one.
fn are_same(counted: &[Counted], others: &[Counted]) -> bool
    ensures { IsTrue result ↔ (map counted_of counted.now ≡ map counted_of others.now) }
{
    if counted.len() != others.len() {
        return false;
    }
    for i in 0..counted.len() {
        if !counted[i].same(&others[i]) {
            return false;
        }
    }
    true
}
