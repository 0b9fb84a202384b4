//! A place of a job's tree: a node at home, gone, or out.

ghost use Rattle.std.specs.Prelude.{◌≡◌, ◌↔◌, ◌+◌, ◌≤◌, ◌==◌, not, length, IsTrue, is_some, true, None, IfOk, OnOk, OnErr};
ghost use Rattle.std.specs.Option.{option_map};
ghost use Rattle.spec_job.specs.Journaled.{replayed, started, and_entries};
ghost use Rattle.mal_suspend.specs.{Freezing.{IsFrozen}, Kept.{journal_of}, Replaying.{MayAllReplay}, Starting.{shared_loads, shared_imports, start_entries}};
ghost use Rattle.mal_job.specs.Placing.{fresh_place, sent, ran_home, came_home, IsBackAt, IsKeptAt, adds_of};

use mal_base::{Outcome, Profile, grown};
use mal_buffer::Buffer;
use mal_learn::Scratch;
use mal_revision::Revision;
use mal_suspend::{Done, Entries, FROZEN_BYTES, Frozen, Journal, Kept, Lease, Start, Suspended};
use std::alloc::{AllocError, Global};
use std::marker::Model;
use std::mem;
use std::sync::Arc;

/// Where the node of a place is: at home, with its journal; there as bytes, with its journal; gone, or never started;
/// or out, with the revision that it was started for and the journal that it has once its slice ran.
#[derive(Drop)]
pub enum Whereabouts {
    Home(Suspended),
    Cold(Frozen),
    Gone,
    Out(usize, Journal),
}

/// A place of a job's tree. It keeps a journal of its node, wherever that is.
#[derive(Drop)]
pub struct NodeSlot {
    journal: Journal,
    whereabouts: Whereabouts,
    starts: u64,
    mark: usize,
}

impl Model for NodeSlot {
    ghost use Rattle.mal_job.specs.{Viewed.{PlaceView}, Placing.{out_of, IsNodeAt}};

    ghost Value = { PlaceView };

    ghost view = { λ p. record {
      journal = p.journal;
      out = out_of p.journal.entries p.whereabouts;
      starts = p.starts;
      mark = p.mark;
    } };

    ghost invariant = { λ p. IsNodeAt p.journal p.whereabouts };
}

impl NodeSlot {
    /// The place of this index (0 to 63) of a job, whose solvers have this profile, before its first start. Takes no
    /// memory.
    pub fn fresh(alloc: Global, job: u64, profile: Profile, index: u32) -> NodeSlot
        requires { index ≤ 63 }
        ensures { result ≡ fresh_place job profile index }
    {
        NodeSlot {
            journal: Journal::new(alloc, job, profile, index),
            // A gone node of an empty journal: there is nothing to rebuild.
            whereabouts: Whereabouts::Gone,
            starts: 0,
            mark: 0,
        }
    }

    /// The journal of the node.
    pub fn journal(&self) -> &Journal
        ensures { result.now ≡ self.now.journal }
    {
        &self.journal
    }

    /// Whether the node has run.
    pub fn has_run(&self) -> bool
        ensures { result ≡ not (length self.now.journal.entries == 0) }
    {
        has_entries(self.journal.entries())
    }

    /// The bytes of the image of the node, which is not out: as they are kept, or of the node that is there, or of one
    /// that is rebuilt.
    pub fn image(&self, scratch: &mut Scratch) -> Result<Vec<u8>, AllocError>
        requires { self.now.out ≡ None }
        ensures { IfOk result (λ v. IsFrozen v.items self.now.journal) }
    {
        match &self.whereabouts {
            Whereabouts::Home(suspended) => suspended.bytes(),
            Whereabouts::Cold(frozen) => copied(frozen),
            Whereabouts::Gone => rebuilt(self.journal.copy()?, scratch),
            Whereabouts::Out(_, _) => unreachable!(),
        }
    }

    /// Whether a start is out.
    pub fn is_out(&self) -> bool
        ensures { result ≡ is_some self.now.out }
    {
        match &self.whereabouts {
            Whereabouts::Home(_) => false,
            Whereabouts::Cold(_) => false,
            Whereabouts::Gone => false,
            Whereabouts::Out(_, _) => true,
        }
    }

    /// The revision that the start that is out is for, counted from 0.
    pub fn revision(&self) -> Option<usize>
        ensures { result ≡ option_map (λ l. l.revision) self.now.out }
    {
        match &self.whereabouts {
            Whereabouts::Home(_) => None,
            Whereabouts::Cold(_) => None,
            Whereabouts::Gone => None,
            Whereabouts::Out(revision, _) => Some(*revision),
        }
    }

    /// How often the node was started.
    pub fn starts(&self) -> u64
        ensures { result ≡ self.now.starts }
    {
        self.starts
    }

    /// How long the log was at the last exchange in which the node took part.
    pub fn mark(&self) -> usize
        ensures { result ≡ self.now.mark }
    {
        self.mark
    }

    /// Moves the mark.
    pub fn set_mark(&mut self, mark: usize)
        ensures { self.new ≡ record self.old { mark = mark } }
    {
        self.mark = mark;
    }

    /// Hands the node, which is at home, out to a worker for the start of this number and for a revision: it loads
    /// these revisions, each with the number of its first clause, then imports what was broadcast, then runs a slice.
    /// If memory runs out, and where the count of starts would pass its end, the place is as before.
    pub fn start(
        &mut self,
        revision: usize,
        loads: Vec<(Arc<Revision>, u32)>,
        imports: Vec<Arc<Buffer>>,
        start: u64,
        worker: u32,
    ) -> Result<Lease, AllocError>
        requires home { self.old.out ≡ None }
        requires replays { MayAllReplay (replayed self.old.journal)
            (start_entries (shared_loads loads.items) (shared_imports imports.items)) }
        ensures ok { OnOk result
            (self.new
            ≡ sent revision (start_entries (shared_loads loads.items) (shared_imports imports.items)) start self.old) }
        ensures journal { IfOk result (λ l. l.journal ≡ started start self.old.journal) }
        ensures adds { IfOk result
            (λ l. l.adds ≡ start_entries (shared_loads loads.items) (shared_imports imports.items)) }
        ensures worker { IfOk result (λ l. l.worker ≡ worker) }
        ensures err { OnErr result (self.new ≡ self.old) }
        ensures own_job { self.new.journal.job ≡ self.old.journal.job }
        ensures own_index { self.new.journal.index ≡ self.old.journal.index }
        ensures own_profile { self.new.journal.profile ≡ self.old.journal.profile }
    {
        let starts = next_count(self.starts)?;
        let begun = Start::new(&self.journal, loads, imports, start)?;
        let grown = begun.grown().copy()?;
        let kept = self.hand_out()?;
        move_to(&mut self.whereabouts, Whereabouts::Out(revision, grown));
        self.journal.set_start(start);
        self.starts = starts;
        Ok(Lease::of(kept, begun, worker))
    }

    /// Takes the node from where it is, or a copy of the journal where it is gone.
    fn hand_out(&mut self) -> Result<Kept, AllocError>
        requires home { self.old.out ≡ None }
        ensures kept { IfOk result (λ k. journal_of k ≡ self.old.journal) }
        ensures same { self.new ≡ self.old }
    {
        match mem::replace(&mut self.whereabouts, Whereabouts::Gone) {
            Whereabouts::Home(suspended) => Ok(Kept::Live(suspended)),
            Whereabouts::Cold(frozen) => Ok(Kept::Cold(frozen)),
            Whereabouts::Gone => Ok(Kept::Gone(self.journal.copy()?)),
            Whereabouts::Out(_, _) => unreachable!(),
        }
    }

    /// Whether what came back is that of the start that is out.
    pub fn is_back(&self, back: &Done) -> bool
        ensures { IsTrue result ↔ IsBackAt self.now back.now }
    {
        match &self.whereabouts {
            Whereabouts::Home(_) => false,
            Whereabouts::Cold(_) => false,
            Whereabouts::Gone => false,
            Whereabouts::Out(_, grown) => match back.outcome() {
                Outcome::Ran => grown.same(back.journal()),
                Outcome::Starved => self.journal.same(back.journal()),
                Outcome::Lost => false,
            },
        }
    }

    /// The journal that the start that is out leaves once its slice ran.
    pub fn grown(&self) -> Result<Journal, AllocError>
        requires { is_some self.now.out ≡ true }
        ensures { IfOk result (λ j. j ≡ and_entries self.now.journal (adds_of self.now.out)) }
    {
        match &self.whereabouts {
            Whereabouts::Home(_) => unreachable!(),
            Whereabouts::Cold(_) => unreachable!(),
            Whereabouts::Gone => unreachable!(),
            Whereabouts::Out(_, grown) => grown.copy(),
        }
    }

    /// Puts the node, where it is not out, where its journal is, from the bytes of its image. If memory runs out, the
    /// node is where it was.
    pub fn wake(&mut self, bytes: Vec<u8>) -> Result<(), AllocError>
        requires { IsFrozen bytes.items self.old.journal }
        ensures { self.new ≡ self.old }
    {
        if self.is_out() {
            return Ok(());
        }
        let frozen = Frozen::of(bytes, self.journal.copy()?);
        let awake = awake(frozen)?;
        move_to(&mut self.whereabouts, awake);
        Ok(())
    }

    /// The node comes back from a start that ran. Takes no memory.
    pub fn come_back(&mut self, kept: Kept)
        requires out { is_some self.old.out ≡ true }
        requires back { journal_of kept ≡ and_entries self.old.journal (adds_of self.old.out) }
        ensures { self.new ≡ ran_home self.old }
    {
        match mem::replace(&mut self.whereabouts, whereabouts_of(kept)) {
            // For the proof, which need not tell how each part ends.
            Whereabouts::Home(suspended) => drop(suspended),
            Whereabouts::Cold(frozen) => drop(frozen),
            Whereabouts::Gone => {}
            Whereabouts::Out(_, grown) => drop(mem::replace(&mut self.journal, grown)),
        }
    }

    /// The node comes back from a start that came to nothing. Takes no memory.
    pub fn come_home(&mut self, kept: Kept)
        requires { journal_of kept ≡ self.old.journal }
        ensures { self.new ≡ came_home self.old }
    {
        move_to(&mut self.whereabouts, whereabouts_of(kept));
    }

    /// Gives the node up, live or as bytes, where it is at home: from now on its journal alone is kept. A node that is
    /// out stays out. Takes no memory.
    pub fn give_up(&mut self)
        ensures { self.new ≡ self.old }
    {
        if !self.is_out() {
            self.lose();
        }
    }

    /// The node is gone: its start is lost. Takes no memory.
    pub fn lose(&mut self)
        ensures { self.new ≡ came_home self.old }
    {
        move_to(&mut self.whereabouts, Whereabouts::Gone);
    }
}

/// One start more. Is refused where the count would pass its type's end.
fn next_count(starts: u64) -> Result<u64, AllocError>
    ensures { IfOk result (λ n. n ≡ starts + 1) }
{
    let next = grown(starts as usize, 1, usize::MAX)?;
    Ok(next as u64)
}

/// Whether a journal has entries.
fn has_entries(entries: &Entries) -> bool
    ensures { result ≡ not (length entries.now == 0) }
{
    let (counted, slices) = entries.parts();
    !counted.is_empty() || slices > 0
}

/// A copy of the bytes of a node.
fn copied(frozen: &Frozen) -> Result<Vec<u8>, AllocError>
    ensures { IfOk result (λ v. IsFrozen v.items frozen.now) }
{
    let alloc = frozen.journal().allocator();
    Vec::from_slice(alloc, frozen.bytes())
}

/// The bytes of the image of a journal's node, which is rebuilt.
pub fn rebuilt(journal: Journal, scratch: &mut Scratch) -> Result<Vec<u8>, AllocError>
    ensures { IfOk result (λ v. IsFrozen v.items journal) }
{
    match Kept::Gone(journal).wake(scratch) {
        Err((_, error)) => Err(error),
        Ok(suspended) => suspended.bytes(),
    }
}

/// Sets where a node is. What stood there is let go.
fn move_to(whereabouts: &mut Whereabouts, next: Whereabouts)
    ensures { whereabouts.new ≡ next }
{
    // For the proof, which need not tell how what was there ends.
    drop(mem::replace(whereabouts, next));
}

/// Where a node is of which these bytes are there: as bytes where they are no more than `FROZEN_BYTES`, else live.
fn awake(frozen: Frozen) -> Result<Whereabouts, AllocError>
    ensures { IfOk result (λ w. IsKeptAt frozen w) }
{
    if frozen.bytes().len() <= FROZEN_BYTES {
        return Ok(Whereabouts::Cold(frozen));
    }
    match frozen.thaw() {
        Err((_, error)) => Err(error),
        Ok(suspended) => Ok(Whereabouts::Home(suspended)),
    }
}

/// Where a node is of which this is kept.
fn whereabouts_of(kept: Kept) -> Whereabouts
    ensures { IsKeptAt (journal_of kept) result }
{
    match kept {
        Kept::Live(suspended) => Whereabouts::Home(suspended),
        Kept::Cold(frozen) => Whereabouts::Cold(frozen),
        Kept::Gone(_) => Whereabouts::Gone,
    }
}
