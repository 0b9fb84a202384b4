//! Counted entries, with what is known of them.

ghost use Rattle.std.specs.Prelude.{◌≡◌, [], ◌∷◌, ◌++◌, IfOk, OnOk};
ghost use Rattle.spec_job.specs.Journal.{loads_in, imports_in};
ghost use Rattle.mal_suspend.specs.{Entries.{entry_of, slices_of, entries_of}, Replaying.{variables_after}};

use crate::entry::{Counted, Entry};
use std::alloc::{AllocError, Global};
use std::marker::Model;

/// The entries of a journal that are no slices, each with the number of slices before it. How many of them are loads,
/// and the greatest number of variables of what they load, are kept beside them, so that no call counts them. Contracts
/// see the list.
#[derive(Drop)]
pub struct Listed {
    counted: Vec<Counted>,
    loads: usize,
    variables: u32,
}

impl Model for Listed {
    ghost use Rattle.std.specs.Prelude.{List};
    ghost use Rattle.mal_suspend.specs.declared.entry.Counted.{Counted};
    ghost use Rattle.mal_suspend.specs.Counting.{AreCounts};

    ghost Value = { List Counted };

    ghost view = { λ l. l.counted.items };

    ghost invariant = { λ l. AreCounts l.counted.items l.loads l.variables };
}

impl Listed {
    /// No entries. Takes no memory.
    pub fn new(alloc: Global) -> Listed
        ensures { result ≡ [] }
    {
        Listed {
            counted: Vec::new(alloc),
            loads: 0,
            variables: 0,
        }
    }

    /// The entries.
    pub fn counted(&self) -> &[Counted]
        ensures { result.now ≡ self.now }
    {
        self.counted.as_slice()
    }

    /// How many of them load a revision.
    pub fn loads(&self) -> usize
        ensures { result ≡ loads_in (entries_of self.now) }
    {
        self.loads
    }

    /// How many of them import what was broadcast.
    pub fn imports(&self) -> usize
        ensures { result ≡ imports_in (entries_of self.now) }
    {
        self.counted.len() - self.loads
    }

    /// The greatest number of variables of what they load.
    pub fn variables(&self) -> u32
        ensures { result ≡ variables_after 0 (entries_of self.now) }
    {
        self.variables
    }

    /// An equal list, with room for so many entries more. It shares the revisions and what was broadcast.
    pub fn copy_with(&self, more: usize) -> Result<Listed, AllocError>
        ensures { IfOk result (λ l. entries_of l ≡ entries_of self.now) }
    {
        let alloc = *self.counted.allocator();
        Ok(Listed {
            counted: copies(alloc, self.counted.as_slice(), more)?,
            loads: self.loads,
            variables: self.variables,
        })
    }

    /// Puts an entry after the others, with the number of slices before it.
    pub fn push(&mut self, slices: u64, entry: Entry) -> Result<(), AllocError>
        ensures { OnOk result
            (entries_of self.new ≡ entries_of self.old ++ (slices_of slices ++ entry_of entry ∷ [])) }
    {
        let loads = entry.loads_with(self.loads)?;
        let variables = entry.variables_with(self.variables);
        self.counted.push(Counted { slices, entry })?;
        self.loads = loads;
        self.variables = variables;
        Ok(())
    }
}

/// Equal entries, with room for so many more.
fn copies(alloc: Global, counted: &[Counted], more: usize) -> Result<Vec<Counted>, AllocError>
    ensures { IfOk result (λ v. entries_of v.items ≡ entries_of counted.now) }
{
    let mut all = Vec::new(alloc);
    match push_copies(&mut all, counted, more) {
        Ok(()) => Ok(all),
        Err(error) => {
            // For the proof.
            drop(all);
            Err(error)
        }
    }
}

/// Puts equal entries into an empty list, with room for so many more.
fn push_copies(all: &mut Vec<Counted>, counted: &[Counted], more: usize) -> Result<(), AllocError>
    requires { all.old.items ≡ [] }
    ensures { OnOk result (entries_of all.new.items ≡ entries_of counted.now) }
{
    all.reserve(counted.len())?;
    for one in counted {
        all.reserve(1)?;
        all.push_reserved(one.copy()?);
    }
    all.reserve(more)
}
