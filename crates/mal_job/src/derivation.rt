//! The log of a job.

ghost use Rattle.std.specs.Prelude.{◌≡◌, ◌+◌, ◌<◌, ◌≤◌, [], ◌∷◌, ◌++◌, length, slice_get, Some, OnOk};
ghost use Rattle.spec_job.specs.SoloMachine.{first_empty};
ghost use Rattle.mal_job.specs.Viewed.{MayAppend};

use mal_base::{ClauseId, Lines};
use mal_proof::Log;
use std::alloc::{AllocError, Global};
use std::marker::Model;

/// The derived lines of a job, with the number of the first empty clause among them.
#[derive(Drop)]
pub struct Derivation {
    log: Log,
    empty: Option<ClauseId>,
}

impl Model for Derivation {
    ghost use Rattle.std.specs.Prelude.{◌≡◌, map};
    ghost use Rattle.spec_job.specs.SoloMachine.{first_empty};
    ghost use Rattle.mal_job.specs.Viewed.{LogView, slice_of};

    ghost Value = { LogView };

    ghost view = { λ d. record { lines = d.log.lines; slices = map slice_of d.log.parts; chunk_room = d.log.chunk_room } };

    ghost invariant = { λ d. d.empty ≡ first_empty d.log.lines };
}

impl Derivation {
    /// No lines. Takes no memory.
    pub fn new(alloc: Global) -> Derivation
        ensures lines { result.lines ≡ [] }
        ensures slices { result.slices ≡ [] }
    {
        Derivation {
            log: Log::new(alloc),
            empty: None,
        }
    }

    /// The lines.
    pub fn log(&self) -> &Log
        ensures { result.now.lines ≡ self.now.lines }
    {
        &self.log
    }

    /// The number of slices.
    pub fn slice_count(&self) -> usize
        ensures { result ≡ length self.now.slices }
    {
        self.log.part_count()
    }

    /// The lines of a slice, and whether it answered a revision, the slices counted from 0.
    pub fn slice(&self, n: usize) -> (&Lines, bool)
        requires { n < length self.now.slices }
        ensures { slice_get self.now.slices n ≡ Some (record { lines = result.0.now.lines; ends = result.1 }) }
    {
        self.log.part(n)
    }

    /// The number of the first empty clause.
    pub fn empty(&self) -> Option<ClauseId>
        ensures { result ≡ first_empty self.now.lines }
    {
        self.empty
    }

    /// Makes room for the lines of so many slices.
    pub fn reserve(&mut self, slices: usize) -> Result<(), AllocError>
        ensures lines { self.new.lines ≡ self.old.lines }
        ensures slices { self.new.slices ≡ self.old.slices }
        ensures room { OnOk result (slices ≤ self.new.chunk_room) }
        ensures more { self.old.chunk_room ≤ self.new.chunk_room }
    {
        self.log.reserve_chunks(slices)
    }

    /// Puts the lines of a slice after the others, for which there is room, with whether the slice answered a
    /// revision. With those before them they have numbers of derived clauses, each once and above all its hints. Takes
    /// no memory.
    pub fn append(&mut self, lines: Lines, ends: bool)
        requires { MayAppend self.old lines.lines }
        ensures lines { self.new.lines ≡ self.old.lines ++ lines.lines }
        ensures slices { self.new.slices ≡ self.old.slices ++ record { lines = lines.lines; ends = ends } ∷ [] }
        ensures less { self.new.chunk_room + 1 ≡ self.old.chunk_room }
    {
        self.empty = self.empty.or(empty_among(&lines));
        self.log.append_chunk(lines, ends);
    }
}

/// The number of the first of these lines that is empty.
fn empty_among(lines: &Lines) -> Option<ClauseId>
    ensures { result ≡ first_empty lines.now.lines }
{
    for n in 0..lines.count() {
        if lines.lits(n).is_empty() {
            return Some(lines.id(n));
        }
    }
    None
}
