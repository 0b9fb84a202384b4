//! The tree of a job: its nodes at home and out, and what was broadcast to them.

ghost use Rattle.std.specs.Prelude.{◌≡◌, ◌↔◌, ◌+◌, ◌<◌, ◌≤◌, ◌^◌, ◌==◌, not, true, [], ◌++◌, ◌∷◌, length, drop, count_by, get_or, is_some, All, Some, None, IsTrue, IfOk, OnOk, OnErr};
ghost use Rattle.mal_base.specs.Clauses.{rises};
ghost use Rattle.spec_exchange.specs.Exchange.{broadcast};
ghost use Rattle.spec_job.specs.{Counts.{starts_out}, Journal.{loads_in, imports_in}, Journaled.{replayed, started, and_entries}, SoloMachine.{vacant, is_for, exports_from}};
ghost use Rattle.mal_suspend.specs.{Freezing.{IsFrozen}, Kept.{journal_of}, Replaying.{MayAllReplay}, Starting.{shared_loads, shared_imports, start_entries}};
ghost use Rattle.mal_job.specs.{Exports.{marked}, Placing.{IsGrown, IsTree, IsBackAt, fresh_place, placed, with_placed, sent, ran_home, came_home, one_more_ran, revision_of, adds_of}, Viewed.{places_of}};

use crate::exchange::{broadcast_of, move_marks};
use crate::loading::broadcasts_of;
use crate::node_slot::{NodeSlot, rebuilt};
use mal_base::Profile;
use mal_buffer::Buffer;
use mal_learn::Scratch;
use mal_proof::Log;
use mal_revision::Revision;
use mal_suspend::{Done, Journal, Kept, Lease};
use std::alloc::{AllocError, Global};
use std::marker::Model;
use std::sync::Arc;

/// The first places of a job's tree, as many as were ever used, the job's number, the profile of its solvers, its
/// volume, what was broadcast to its nodes, and how many slices were run since the last exchange.
#[derive(Drop)]
pub struct Tree {
    number: u64,
    profile: Profile,
    volume: u32,
    places: Vec<NodeSlot>,
    broadcasts: Vec<Arc<Buffer>>,
    ran: u32,
}

impl Model for Tree {
    ghost use Rattle.mal_job.specs.{Viewed.{TreeView, shared}, Placing.{IsTree}};

    ghost Value = { TreeView };

    ghost view = { λ t. record { number = t.number; profile = t.profile; volume = t.volume; places = t.places.items; broadcasts = shared t.broadcasts.items; ran = t.ran } };

    ghost invariant = { λ t. IsTree
        (record { number = t.number; profile = t.profile; volume = t.volume; places = t.places.items; broadcasts = shared t.broadcasts.items; ran = t.ran }) };
}

impl Tree {
    /// The tree of a job of this number, whose solvers have this profile, of which no node was started. Takes
    /// no memory.
    pub fn fresh(alloc: Global, number: u64, profile: Profile) -> Tree
        ensures value { result
            ≡ record { number = number; profile = profile; volume = 0; places = []; broadcasts = []; ran = 0 } }
        ensures kept { IsTree result }
    {
        Tree {
            number,
            profile,
            volume: 0,
            places: Vec::new(alloc),
            broadcasts: Vec::new(alloc),
            ran: 0,
        }
    }

    /// The job's number.
    pub fn number(&self) -> u64
        ensures { result ≡ self.now.number }
    {
        self.number
    }

    /// How many of the job's nodes may run at a time.
    pub fn volume(&self) -> u32
        ensures value { result ≡ self.now.volume }
        ensures kept { IsTree self.now }
    {
        self.volume
    }

    /// Sets the volume.
    pub fn set_volume(&mut self, volume: u32)
        requires { volume ≤ 64 }
        ensures value { self.new ≡ record self.old { volume = volume } }
        ensures kept { IsTree self.new }
    {
        self.volume = volume;
    }

    /// How many slices were run since the last exchange.
    pub fn ran(&self) -> u32
        ensures { result ≡ self.now.ran }
    {
        self.ran
    }

    /// Whether the start of the node of this index is out.
    pub fn is_out(&self, index: u32) -> bool
        ensures { result ≡ is_some (get_or (places_of self.now.places) index vacant).out }
    {
        match self.places.get(index as usize) {
            None => false,
            Some(place) => place.is_out(),
        }
    }

    /// Whether the node of this index has run.
    pub fn has_run(&self, index: u32) -> bool
        ensures { result ≡ not (length (get_or (places_of self.now.places) index vacant).entries == 0) }
    {
        match self.places.get(index as usize) {
            None => false,
            Some(place) => place.has_run(),
        }
    }

    /// The bytes of the image of the node of this index (0 to 63), which is not out.
    pub fn image(&self, index: u32, scratch: &mut Scratch) -> Result<Vec<u8>, AllocError>
        requires index { index ≤ 63 }
        requires home { (placed self.now index).out ≡ None }
        ensures { IfOk result
            (λ v. IsFrozen v.items
            (get_or self.now.places index (fresh_place self.now.number self.now.profile index)).journal) }
    {
        match self.places.get(index as usize) {
            None => {
                let alloc = *self.places.allocator();
                let journal = Journal::new(alloc, self.number, self.profile, index);
                rebuilt(journal, scratch)
            }
            Some(place) => place.image(scratch),
        }
    }

    /// How often the node of this index was started.
    pub fn starts(&self, index: u32) -> u64
        ensures { result ≡ (get_or (places_of self.now.places) index vacant).starts }
    {
        match self.places.get(index as usize) {
            None => 0,
            Some(place) => place.starts(),
        }
    }

    /// How many starts are out for a revision, counted from 0.
    pub fn out_count(&self, revision: usize) -> usize
        ensures value { result ≡ count_by (λ p. is_for revision p.out) (places_of self.now.places) }
        ensures few { result ≤ 64 }
    {
        let mut count = 0;
        for place in &self.places {
            if place.revision() == Some(revision) {
                count += 1;
            }
        }
        count
    }

    /// How many starts are out.
    pub fn starts_out(&self) -> usize
        ensures value { result ≡ starts_out (places_of self.now.places) }
        ensures few { result ≤ 64 }
    {
        let mut count = 0;
        for place in &self.places {
            if place.is_out() {
                count += 1;
            }
        }
        count
    }

    /// Makes the first so many places, where they are not there yet. If memory runs out, the tree is as before.
    pub fn grow(&mut self, count: usize) -> Result<(), AllocError>
        requires { count ≤ 64 }
        ensures places { IsGrown self.old.number self.old.profile self.old.places self.new.places }
        ensures rest { record self.new { places = [] } ≡ record self.old { places = [] } }
        ensures enough { OnOk result (count ≤ length self.new.places) }
        ensures kept { IsTree self.new }
        ensures err { OnErr result (self.new ≡ self.old) }
    {
        let alloc = *self.places.allocator();
        grow(alloc, self.number, self.profile, &mut self.places, count)
    }

    /// How many revisions the node of this index has loaded.
    pub fn loads(&self, index: u32) -> usize
        requires { index < length self.now.places }
        ensures { result ≡ loads_in (placed self.now index).journal.entries }
    {
        self.places[index as usize].journal().loads()
    }

    /// Hands the node of this index, which is at home, out to a worker for the start of this number and for a revision,
    /// counted from 0: it loads these revisions, each with the number of its first clause, imports what it lacks of
    /// what was broadcast, and runs a slice. If memory runs out, the tree is as before.
    pub fn start(
        &mut self,
        index: u32,
        revision: usize,
        loads: Vec<(Arc<Revision>, u32)>,
        start: u64,
        worker: u32,
    ) -> Result<Lease, AllocError>
        requires place { index < length self.old.places }
        requires home { (placed self.old index).out ≡ None }
        requires replays { MayAllReplay (replayed (placed self.old index).journal)
            (start_entries (shared_loads loads.items)
            (drop (imports_in (placed self.old index).journal.entries) self.old.broadcasts)) }
        ensures ok { OnOk result
            (self.new
            ≡ with_placed self.old index
            (sent revision
            (start_entries (shared_loads loads.items)
            (drop (imports_in (placed self.old index).journal.entries) self.old.broadcasts)) start
            (placed self.old index))) }
        ensures journal { IfOk result (λ l. l.journal ≡ started start (placed self.old index).journal) }
        ensures adds { IfOk result
            (λ l. l.adds
            ≡ start_entries (shared_loads loads.items)
            (drop (imports_in (placed self.old index).journal.entries) self.old.broadcasts)) }
        ensures worker { IfOk result (λ l. l.worker ≡ worker) }
        ensures err { OnErr result (self.new ≡ self.old) }
        ensures kept { IsTree self.new }
    {
        let alloc = *self.places.allocator();
        let imported = self.places[index as usize].journal().imports();
        let imports = missing(alloc, self.broadcasts.as_slice(), imported)?;
        self.places[index as usize].start(revision, loads, imports, start, worker)
    }

    /// Whether what came back is that of the start that is out at this index.
    pub fn is_back(&self, index: u32, back: &Done) -> bool
        ensures { IsTrue result ↔ IsBackAt (placed self.now index) back.now }
    {
        match self.places.get(index as usize) {
            None => false,
            Some(place) => place.is_back(back),
        }
    }

    /// The journal that the start that is out at this index leaves once its slice ran.
    pub fn grown(&self, index: u32) -> Result<Journal, AllocError>
        requires { is_some (placed self.now index).out ≡ true }
        ensures { IfOk result
            (λ j. j ≡ and_entries (placed self.now index).journal (adds_of (placed self.now index).out)) }
    {
        match self.places.get(index as usize) {
            None => unreachable!(),
            Some(place) => place.grown(),
        }
    }

    /// Puts the node of this index, where it is not out, where its journal is, from the bytes of its image. If memory
    /// runs out, the node is where it was.
    pub fn wake(&mut self, index: u32, bytes: Vec<u8>) -> Result<(), AllocError>
        requires { index < length self.old.places → IsFrozen bytes.items (placed self.old index).journal }
        ensures value { self.new ≡ self.old }
        ensures kept { IsTree self.new }
    {
        if index as usize >= self.places.len() {
            return Ok(());
        }
        self.places[index as usize].wake(bytes)
    }

    /// The node of this index comes back from a start that ran. Gives the revision that the start was for, counted from
    /// 0. Takes no memory.
    pub fn come_back(&mut self, index: u32, kept: Kept) -> usize
        requires out { is_some (placed self.old index).out ≡ true }
        requires back { journal_of kept
            ≡ and_entries (placed self.old index).journal (adds_of (placed self.old index).out) }
        requires few { self.old.ran < 2 ^ 31 }
        ensures value { self.new ≡ one_more_ran (with_placed self.old index (ran_home (placed self.old index))) }
        ensures revision { result ≡ revision_of (placed self.old index).out }
        ensures kept { IsTree self.new }
    {
        let revision = self.revision(index);
        self.places[index as usize].come_back(kept);
        self.ran += 1;
        revision
    }

    /// The node of this index comes back from a start that ran out of memory. Gives the revision that the start was
    /// for, counted from 0. Takes no memory.
    pub fn come_home(&mut self, index: u32, kept: Kept) -> usize
        requires out { is_some (placed self.old index).out ≡ true }
        requires back { journal_of kept ≡ (placed self.old index).journal }
        ensures value { self.new ≡ with_placed self.old index (came_home (placed self.old index)) }
        ensures revision { result ≡ revision_of (placed self.old index).out }
        ensures kept { IsTree self.new }
    {
        let revision = self.revision(index);
        self.places[index as usize].come_home(kept);
        revision
    }

    /// The node of this index is gone: its start is lost. Takes no memory.
    pub fn lose(&mut self, index: u32)
        requires out { is_some (placed self.old index).out ≡ true }
        ensures value { self.new ≡ with_placed self.old index (came_home (placed self.old index)) }
        ensures kept { IsTree self.new }
    {
        self.places[index as usize].lose();
    }

    /// Gives the nodes up that are at home: from now on their journals alone are kept. Takes no memory.
    pub fn give_up(&mut self)
        ensures { self.new ≡ self.old }
    {
        give_up(&mut self.places);
    }

    /// The revision of the start that is out at this index, counted from 0.
    pub fn revision(&self, index: u32) -> usize
        requires out { is_some (placed self.now index).out ≡ true }
        ensures place { index < length self.now.places }
        ensures value { result ≡ revision_of (placed self.now index).out }
    {
        match self.places.get(index as usize) {
            None => unreachable!(),
            Some(place) => match place.revision() {
                None => unreachable!(),
                Some(revision) => revision,
            },
        }
    }

    /// Lets the nodes below the volume that are at home tell all what they derived since their last exchange. If
    /// memory runs out, the tree is as before.
    pub fn exchange(&mut self, log: &Log) -> Result<(), AllocError>
        requires rising { All (λ line. rises line.lits ≡ true) log.now.lines }
        requires volume { self.old.volume ≤ length self.old.places }
        ensures ok { OnOk result
            (self.new
            ≡ record self.old {
              broadcasts = self.old.broadcasts
                  ++ broadcast (exports_from self.old.volume log.now.lines 0 (places_of self.old.places))
                  ∷ [];
              places = marked self.old.volume (length log.now.lines) self.old.places;
              ran = 0;
            }) }
        ensures err { OnErr result (self.new ≡ self.old) }
        ensures kept { IsTree self.new }
    {
        let alloc = *self.places.allocator();
        let count = self.volume as usize;
        // A place below the volume that was never started takes part: it exports nothing, and its mark is moved.
        let exported = broadcast_of(alloc, &self.places[..count], log)?;
        let broadcast = Arc::new(alloc, exported)?;
        self.broadcasts.push(broadcast)?;
        move_marks(&mut self.places, count, log.count());
        self.ran = 0;
        Ok(())
    }
}

/// Gives the nodes of these places up that are at home. Takes no memory.
fn give_up(places: &mut Vec<NodeSlot>)
    ensures { places.new.items ≡ places.old.items }
{
    for index in 0..places.len() {
        places[index].give_up();
    }
}

/// What was broadcast after the first so many, shared.
fn missing(
    alloc: Global,
    broadcasts: &[Arc<Buffer>],
    imported: usize,
) -> Result<Vec<Arc<Buffer>>, AllocError>
    ensures { IfOk result (λ v. shared_imports v.items ≡ drop imported (shared_imports broadcasts.now)) }
{
    if imported >= broadcasts.len() {
        return Ok(Vec::new(alloc));
    }
    broadcasts_of(alloc, &broadcasts[imported..])
}

/// Makes the first so many places of a job of this number, whose solvers have this profile, where they are not there
/// yet. If memory runs out, they are as before.
fn grow(
    alloc: Global,
    number: u64,
    profile: Profile,
    places: &mut Vec<NodeSlot>,
    count: usize,
) -> Result<(), AllocError>
    requires count { count ≤ 64 }
    requires few { length places.old.items ≤ 64 }
    ensures grown { IsGrown number profile places.old.items places.new.items }
    ensures few { length places.new.items ≤ 64 }
    ensures ok { OnOk result (count ≤ length places.new.items) }
    ensures err { OnErr result (places.new.items ≡ places.old.items) }
{
    places.reserve(count.saturating_sub(places.len()))?;
    for index in places.len()..count {
        places.push_reserved(NodeSlot::fresh(alloc, number, profile, index as u32));
    }
    Ok(())
}
