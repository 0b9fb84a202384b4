//! A start of a node.

ghost use Rattle.std.specs.Prelude.{◌≡◌, ◌<◌, ◌≤◌, [], vec_capacity, IfOk, OnOk, OnErr};
ghost use Rattle.spec_node.specs.Sound.{IsSound};
ghost use Rattle.spec_search.specs.Slice.{slice};
ghost use Rattle.mal_cdcl.specs.Sliced.{HasIdRoom, HasLowCounts, HasSliceRoom};
ghost use Rattle.spec_job.specs.{Journaled.{replayed, and_entries, started}, Leased.{HasBecome}};
ghost use Rattle.mal_suspend.specs.{Replaying.{IsJournal, MayAllReplay, after_entries, alone, variables_after}, Starting.{shared_loads, shared_imports, start_entries}};

use crate::done::Done;
use crate::journal::Journal;
use crate::kept::Kept;
use crate::lending::{lend_imports, lend_loads};
use crate::suspended::{Solver, Suspended};
use mal_buffer::Buffer;
use mal_learn::Scratch;
use mal_revision::Revision;
use std::alloc::AllocError;
use std::marker::Model;
use std::sync::Arc;

/// What a start does: it loads, then imports, then runs a slice. It has the journal after the start, and room for the
/// values of a model. Contracts see that journal, and the entries that the start adds.
#[derive(Drop)]
pub struct Start {
    grown: Journal,
    loads: Vec<(Arc<Revision>, u32)>,
    imports: Vec<Arc<Buffer>>,
    values: Vec<bool>,
}

impl Model for Start {
    ghost use Rattle.std.specs.Prelude.{◌≡◌, ◌≤◌, [], vec_capacity};
    ghost use Rattle.spec_job.specs.Leased.{Begun};
    ghost use Rattle.mal_suspend.specs.{Replaying.{IsJournal, variables_after}, Starting.{shared_loads, shared_imports, start_entries}};

    ghost Value = { Begun };

    ghost view = { λ s. record {
      grown = s.grown;
      adds = start_entries (shared_loads s.loads.items)
          (shared_imports s.imports.items);
    } };

    ghost invariant = { λ s. IsJournal s.grown.profile s.grown.index s.grown.entries × (s.values.items ≡ [])
        × (variables_after 0 s.grown.entries ≤ vec_capacity s.values) };
}

impl Start {
    /// The start of this number after a journal that loads these revisions, then imports what was broadcast, then runs
    /// a slice.
    pub fn new(
        journal: &Journal,
        loads: Vec<(Arc<Revision>, u32)>,
        imports: Vec<Arc<Buffer>>,
        start: u64,
    ) -> Result<Start, AllocError>
        requires { MayAllReplay (replayed journal.now)
            (start_entries (shared_loads loads.items) (shared_imports imports.items)) }
        ensures adds { IfOk result
            (λ s. s.adds ≡ start_entries (shared_loads loads.items) (shared_imports imports.items)) }
        ensures grown { IfOk result
            (λ s. s.grown
            ≡ and_entries (started start journal.now)
            (start_entries (shared_loads loads.items) (shared_imports imports.items))) }
    {
        match grown_with_room(journal, loads.as_slice(), imports.as_slice(), start) {
            Err(error) => {
                // For the proof.
                drop(loads);
                drop(imports);
                Err(error)
            }
            Ok((grown, values)) => Ok(Start {
                grown,
                loads,
                imports,
                values,
            }),
        }
    }

    /// The journal after the start.
    pub fn grown(&self) -> &Journal
        ensures { result.now ≡ self.now.grown }
    {
        &self.grown
    }

    /// Starts a node with its journal, and gives it back to this worker's account with what came of it. The scratch
    /// lends the room for the lines and gets it back.
    pub fn run(self, suspended: Suspended, worker: u32, scratch: &mut Scratch) -> Done
        requires { self.grown ≡ and_entries suspended self.adds }
        ensures worker { result.worker ≡ worker }
        ensures became { HasBecome result.outcome suspended self.adds result }
    {
        let (mut node, journal) = suspended.into_parts();
        match self.make_ready(&mut node, scratch) {
            Err(error) => {
                // For the proof.
                drop(self);
                Done::starved(worker, Kept::Live(Suspended::of(node, journal)), error)
            }
            Ok(()) => {
                // For the proof.
                drop(journal);
                drop(self.loads);
                drop(self.imports);
                node.run(scratch);
                Done::ran(worker, node, self.grown, self.values).packed(scratch)
            }
        }
    }

    /// Loads and imports, and makes room for a slice. Where memory runs out the state of the node stays as it was.
    fn make_ready(&self, node: &mut Solver, scratch: &mut Scratch) -> Result<(), AllocError>
        requires { MayAllReplay (alone node.old.state) self.now.adds }
        ensures ready { OnOk result (slice node.new.state ≡ after_entries node.old.state self.now.adds) }
        ensures sound { OnOk result (IsSound node.new.state) }
        ensures counts { OnOk result (HasLowCounts node.new.state) }
        ensures stocked { OnOk result (HasSliceRoom node.new) }
        ensures fitted { OnOk result (node.new.state.variables < scratch.new.room) }
        ensures ids { OnOk result (HasIdRoom 1000 node.new.state scratch.new) }
        ensures unchanged { OnErr result (node.new.state ≡ node.old.state) }
    {
        let alloc = self.grown.allocator();
        let loads = lend_loads(alloc, self.loads.as_slice())?;
        let imports = lend_imports(alloc, self.imports.as_slice())?;
        node.ready(loads.as_slice(), imports.as_slice(), scratch)?;
        Ok(())
    }
}

/// The journal after such a start, with an empty list that has room for the values of a model.
fn grown_with_room(
    journal: &Journal,
    loads: &[(Arc<Revision>, u32)],
    imports: &[Arc<Buffer>],
    start: u64,
) -> Result<(Journal, Vec<bool>), AllocError>
    requires { MayAllReplay (replayed journal.now)
        (start_entries (shared_loads loads.now) (shared_imports imports.now)) }
    ensures grown { IfOk result
        (λ r. r.0
        ≡ and_entries (started start journal.now)
        (start_entries (shared_loads loads.now) (shared_imports imports.now))) }
    ensures keeps { IfOk result (λ r. IsJournal r.0.profile r.0.index r.0.entries) }
    ensures empty { IfOk result (λ r. r.1.items ≡ []) }
    ensures room { IfOk result (λ r. variables_after 0 r.0.entries ≤ vec_capacity r.1) }
{
    let grown = journal.grown(start, loads, imports)?;
    match Vec::with_capacity(journal.allocator(), grown.variables() as usize) {
        Ok(values) => Ok((grown, values)),
        Err(error) => {
            // For the proof.
            drop(grown);
            Err(error)
        }
    }
}
