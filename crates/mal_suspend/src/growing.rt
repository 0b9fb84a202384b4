//! Entries that are put together.

ghost use Rattle.std.specs.Prelude.{◌≡◌, [], ◌∷◌, ◌++◌, OnOk, IfOk};
ghost use Rattle.spec_job.specs.Journal.{Run};
ghost use Rattle.mal_suspend.specs.Entries.{entry_of, slices_of, entries_of};

use crate::entries::{Entries, next};
use crate::entry::Entry;
use crate::listed::Listed;
use std::alloc::{AllocError, Global};
use std::marker::Model;
use std::sync::Arc;

/// Entries of a journal that are put together, and that nothing shares yet. Contracts see the list, in which each slice
/// is an entry of its own.
#[derive(Drop)]
pub struct Growing {
    listed: Listed,
    slices: u64,
}

impl Model for Growing {
    ghost use Rattle.std.specs.Prelude.{List, ◌++◌};
    ghost use Rattle.spec_job.specs.Journal.{JournalEntry};
    ghost use Rattle.mal_suspend.specs.Entries.{slices_of, entries_of};

    ghost Value = { List JournalEntry };

    ghost view = { λ g. entries_of g.listed ++ slices_of g.slices };
}

impl Growing {
    /// These entries, and so many slices after them. Takes no memory.
    pub fn of(listed: Listed, slices: u64) -> Growing
        ensures { result ≡ entries_of listed ++ slices_of slices }
    {
        Growing { listed, slices }
    }

    /// Puts an entry after the others.
    pub fn push(&mut self, entry: Entry) -> Result<(), AllocError>
        ensures { OnOk result (self.new ≡ self.old ++ entry_of entry ∷ []) }
    {
        self.listed.push(self.slices, entry)?;
        self.slices = 0;
        Ok(())
    }

    /// Puts a slice after the others. Takes no memory; is refused where the count would pass its type's end.
    pub fn push_slice(&mut self) -> Result<(), AllocError>
        ensures { OnOk result (self.new ≡ self.old ++ Run ∷ []) }
    {
        self.slices = next(self.slices)?;
        Ok(())
    }

    /// The entries, which may be shared from now on.
    pub fn share(self, alloc: Global) -> Result<Entries, AllocError>
        ensures { IfOk result (λ e. e ≡ self) }
    {
        let listed = Arc::new(alloc, self.listed)?;
        Ok(Entries::of(alloc, listed, self.slices))
    }
}
