//! The journal of a node.

ghost use Rattle.std.specs.Prelude.{◌≡◌, ◌↔◌, ◌≤◌, [], ◌++◌, IsTrue, IfOk, OnOk};
ghost use Rattle.spec_job.specs.{Journal.{loads_in, imports_in}, Journaled.{replayed, and_entries, started}};
ghost use Rattle.mal_suspend.specs.{Replaying.{IsJournal, MayAllReplay, variables_after}, Starting.{shared_loads, shared_imports, load_entries, import_entries, start_entries}};

use crate::entries::Entries;
use crate::entry::Entry;
use crate::growing::Growing;
use mal_base::Profile;
use mal_buffer::Buffer;
use mal_revision::Revision;
use std::alloc::{AllocError, Global};
use std::marker::Model;
use std::sync::Arc;

/// The journal of a node: the number of its job, the profile of the job's solvers, its index in the job's tree, the
/// number of its last start, and what it did, in order. Contracts see the five; the type keeps that each entry may be
/// replayed after those before it.
#[derive(Drop)]
pub struct Journal {
    job: u64,
    profile: Profile,
    index: u32,
    start: u64,
    entries: Entries,
}

impl Model for Journal {
    ghost use Rattle.spec_job.specs.Journaled.{Journaled};
    ghost use Rattle.mal_suspend.specs.Replaying.{IsJournal};

    ghost Value = { Journaled };

    ghost view = { λ j. record { job = j.job; profile = j.profile; index = j.index; start = j.start; entries = j.entries } };

    ghost invariant = { λ j. IsJournal j.profile j.index j.entries };
}

impl Journal {
    /// The journal of the node of this index (0 to 63) of a job whose solvers have this profile, before its first
    /// start. Takes no memory.
    pub fn new(alloc: Global, job: u64, profile: Profile, index: u32) -> Journal
        requires { index ≤ 63 }
        ensures { result ≡ record { job = job; profile = profile; index = index; start = 0; entries = [] } }
    {
        Journal {
            job,
            profile,
            index,
            start: 0,
            entries: Entries::new(alloc),
        }
    }

    /// The number of the job.
    pub fn job(&self) -> u64
        ensures { result ≡ self.now.job }
    {
        self.job
    }

    /// The profile of the job's solvers.
    pub fn profile(&self) -> Profile
        ensures { result ≡ self.now.profile }
    {
        self.profile
    }

    /// The node's index, from 0 to 63.
    pub fn index(&self) -> u32
        ensures value { result ≡ self.now.index }
        ensures keeps { IsJournal self.now.profile self.now.index self.now.entries }
    {
        self.index
    }

    /// The number of the last start.
    pub fn start(&self) -> u64
        ensures { result ≡ self.now.start }
    {
        self.start
    }

    /// What the node did, in order.
    pub fn entries(&self) -> &Entries
        ensures value { result.now ≡ self.now.entries }
        ensures keeps { IsJournal self.now.profile self.now.index self.now.entries }
    {
        &self.entries
    }

    /// How many revisions the node has loaded.
    pub fn loads(&self) -> usize
        ensures { result ≡ loads_in self.now.entries }
    {
        self.entries.loads()
    }

    /// How much of what was broadcast the node has imported.
    pub fn imports(&self) -> usize
        ensures { result ≡ imports_in self.now.entries }
    {
        self.entries.imports()
    }

    /// The allocator that the journal takes memory from.
    pub fn allocator(&self) -> Global
        ensures { IsJournal self.now.profile self.now.index self.now.entries }
    {
        self.entries.allocator()
    }

    /// An equal journal. It shares the loads and the imports.
    pub fn copy(&self) -> Result<Journal, AllocError>
        ensures { IfOk result (λ j. j ≡ self.now) }
    {
        Ok(Journal {
            job: self.job,
            profile: self.profile,
            index: self.index,
            start: self.start,
            entries: self.entries.copy()?,
        })
    }

    /// Whether the other journal is equal: job, profile, index, number of the last start, and entries.
    pub fn same(&self, other: &Journal) -> bool
        ensures { IsTrue result ↔ (self.now ≡ other.now) }
    {
        if self.job != other.job || self.profile != other.profile {
            return false;
        }
        if self.index != other.index || self.start != other.start {
            return false;
        }
        // By contents: std cannot tell whether two shared values are one.
        self.entries.same(&other.entries)
    }

    /// Gives the journal the number of a new start.
    pub fn set_start(&mut self, start: u64)
        ensures { self.new ≡ started start self.old }
    {
        self.start = start;
    }

    /// The journal after a start of this number that loads, then imports, then runs a slice.
    pub fn grown(
        &self,
        start: u64,
        loads: &[(Arc<Revision>, u32)],
        imports: &[Arc<Buffer>],
    ) -> Result<Journal, AllocError>
        requires { MayAllReplay (replayed self.now)
            (start_entries (shared_loads loads.now) (shared_imports imports.now)) }
        ensures value { IfOk result
            (λ j. j
            ≡ and_entries (started start self.now)
            (start_entries (shared_loads loads.now) (shared_imports imports.now))) }
        ensures keeps { IfOk result (λ j. IsJournal j.profile j.index j.entries) }
    {
        let entries = and_start(&self.entries, loads, imports)?;
        Ok(Journal {
            job: self.job,
            profile: self.profile,
            index: self.index,
            start,
            entries,
        })
    }

    /// The greatest number of variables of the revisions that were loaded.
    pub fn variables(&self) -> u32
        ensures { result ≡ variables_after 0 self.now.entries }
    {
        self.entries.variables()
    }
}

/// The entries with those of a start after them: loads of these revisions, then imports of what was broadcast, then a
/// slice. Where it loads and imports nothing, the entries that are no slices are shared.
fn and_start(
    before: &Entries,
    loads: &[(Arc<Revision>, u32)],
    imports: &[Arc<Buffer>],
) -> Result<Entries, AllocError>
    ensures { IfOk result
        (λ e. e ≡ before.now ++ start_entries (shared_loads loads.now) (shared_imports imports.now)) }
{
    if loads.is_empty() && imports.is_empty() {
        return before.and_slice();
    }
    let mut entries = before.growing(loads.len() + imports.len())?;
    match push_start(&mut entries, loads, imports) {
        Ok(()) => entries.share(before.allocator()),
        Err(error) => {
            // For the proof.
            drop(entries);
            Err(error)
        }
    }
}

/// Puts the entries of a start after the others: loads of these revisions, then imports of what was broadcast, then a
/// slice.
fn push_start(
    entries: &mut Growing,
    loads: &[(Arc<Revision>, u32)],
    imports: &[Arc<Buffer>],
) -> Result<(), AllocError>
    ensures { OnOk result
        (entries.new ≡ entries.old ++ start_entries (shared_loads loads.now) (shared_imports imports.now)) }
{
    push_loads(entries, loads)?;
    push_imports(entries, imports)?;
    entries.push_slice()
}

/// Puts loads of these revisions after the entries.
fn push_loads(entries: &mut Growing, loads: &[(Arc<Revision>, u32)]) -> Result<(), AllocError>
    ensures { OnOk result (entries.new ≡ entries.old ++ load_entries (shared_loads loads.now)) }
{
    for load in loads {
        let (revision, first) = load;
        entries.push(Entry::Load(Arc::try_clone(revision)?, *first))?;
    }
    Ok(())
}

/// Puts imports of what was broadcast after the entries.
fn push_imports(entries: &mut Growing, imports: &[Arc<Buffer>]) -> Result<(), AllocError>
    ensures { OnOk result (entries.new ≡ entries.old ++ import_entries (shared_imports imports.now)) }
{
    for told in imports {
        entries.push(Entry::Import(Arc::try_clone(told)?))?;
    }
    Ok(())
}
