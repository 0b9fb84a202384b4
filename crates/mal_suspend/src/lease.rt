//! Leases of nodes.

ghost use Rattle.std.specs.Prelude.{◌≡◌, IfOk, IfErr};
ghost use Rattle.spec_job.specs.{Journaled.{replayed, started, and_entries}, Leased.{Becomes, Tells}};
ghost use Rattle.mal_suspend.specs.{Kept.{journal_of, is_gone}, Replaying.{MayAllReplay}, Starting.{shared_loads, shared_imports, start_entries}};

use crate::done::Done;
use crate::journal::Journal;
use crate::kept::Kept;
use crate::start::Start;
use mal_buffer::Buffer;
use mal_learn::Scratch;
use mal_revision::Revision;
use std::alloc::AllocError;
use std::marker::Model;
use std::sync::Arc;

/// A node that is handed out to a worker for one start. Contracts see its journal, whether it is gone, what the start
/// adds to the journal, and the worker; the type keeps that this may be replayed after the journal.
#[derive(Drop)]
pub struct Lease {
    kept: Kept,
    start: Start,
    worker: u32,
}

impl Model for Lease {
    ghost use Rattle.std.specs.Prelude.{◌≡◌};
    ghost use Rattle.spec_job.specs.{Journaled.{and_entries}, Leased.{Leased}};
    ghost use Rattle.mal_suspend.specs.Kept.{journal_of, is_gone};

    ghost Value = { Leased };

    ghost view = { λ l. record {
      journal = journal_of l.kept;
      gone = is_gone l.kept;
      adds = l.start.adds;
      worker = l.worker;
    } };

    ghost invariant = { λ l. l.start.grown ≡ and_entries (journal_of l.kept) l.start.adds };
}

impl Lease {
    /// Hands a node out to a worker for the start of this number: it loads these revisions, each with the number of its
    /// first clause, then imports what was broadcast, then runs a slice. If memory runs out, gives back what is kept
    /// of the node, as it was.
    pub fn new(
        kept: Kept,
        loads: Vec<(Arc<Revision>, u32)>,
        imports: Vec<Arc<Buffer>>,
        start: u64,
        worker: u32,
    ) -> Result<Lease, (Kept, AllocError)>
        requires { MayAllReplay (replayed (journal_of kept))
            (start_entries (shared_loads loads.items) (shared_imports imports.items)) }
        ensures journal { IfOk result (λ l. l.journal ≡ started start (journal_of kept)) }
        ensures gone { IfOk result (λ l. l.gone ≡ is_gone kept) }
        ensures adds { IfOk result
            (λ l. l.adds ≡ start_entries (shared_loads loads.items) (shared_imports imports.items)) }
        ensures worker { IfOk result (λ l. l.worker ≡ worker) }
        ensures refused { IfErr result (λ e. e.0 ≡ kept) }
    {
        match Start::new(kept.journal(), loads, imports, start) {
            Err(error) => Err((kept, error)),
            Ok(begun) => Ok(Lease::of(kept, begun, worker)),
        }
    }

    /// Hands a node out to a worker for a start of its journal. Takes no memory.
    pub fn of(kept: Kept, start: Start, worker: u32) -> Lease
        requires { start.grown ≡ and_entries (started start.grown.start (journal_of kept)) start.adds }
        ensures journal { result.journal ≡ started start.grown.start (journal_of kept) }
        ensures gone { result.gone ≡ is_gone kept }
        ensures adds { result.adds ≡ start.adds }
        ensures worker { result.worker ≡ worker }
    {
        Lease {
            kept: kept.started(start.grown().start()),
            start,
            worker,
        }
    }

    /// The number of the start.
    pub fn start(&self) -> u64
        ensures { result ≡ self.now.journal.start }
    {
        self.kept.journal().start()
    }

    /// The worker.
    pub fn worker(&self) -> u32
        ensures { result ≡ self.now.worker }
    {
        self.worker
    }

    /// The journal of the node, before the start.
    pub fn journal(&self) -> &Journal
        ensures { result.now ≡ self.now.journal }
    {
        self.kept.journal()
    }

    /// Works the lease off: thaws a node that is frozen and rebuilds one that is gone, loads, imports and runs a slice,
    /// and freezes the node where that is cheap. It is never refused; where memory runs out, what comes back has the
    /// journal as before the start, and the error.
    pub fn work(self, scratch: &mut Scratch) -> Done
        ensures worker { result.worker ≡ self.worker }
        ensures becomes { Becomes result.outcome self result }
        ensures tells { Tells result.outcome result }
    {
        match self.kept.wake(scratch) {
            Err((kept, error)) => {
                // For the proof.
                drop(self.start);
                Done::starved(self.worker, kept, error)
            }
            Ok(suspended) => self.start.run(suspended, self.worker, scratch),
        }
    }

    /// Gives up the lease before its start, and away what is kept of the node. Takes no memory.
    pub fn into_kept(self) -> Kept
        ensures journal { journal_of result ≡ self.journal }
        ensures gone { is_gone result ≡ self.gone }
    {
        // For the proof.
        drop(self.start);
        self.kept
    }
}
