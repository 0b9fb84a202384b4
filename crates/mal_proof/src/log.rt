//! The log.

ghost use Rattle.std.specs.Prelude.{◌≡◌, ◌≢◌, ◌+◌, ◌<◌, ◌≤◌, ◌^◌, [], ◌∷◌, ◌++◌, length, slice_get, Some, All, IfOk, OnOk, OnErr};
ghost use Rattle.mal_base.specs.NumberedClause.{Line};
ghost use Rattle.spec_proof.specs.{Log.{IsAbove, IsOrderly}, Trimmed.{IsTrimmed, reached}};
ghost use Rattle.mal_proof.specs.Goals.{up_to, goal_lits, last_lits};

use crate::chunk::{Chunk, chunks_before, place_among};
use crate::lent::{LentLine, lend_up_to, sort};
use crate::trim::trimmed;
use mal_base::{ClauseId, Lines, Lit, grown};
use std::alloc::{AllocError, Global};
use std::marker::Model;
use std::mem;

/// The lines that a chunk takes at least.
const LEAST_LINES: usize = 64;

/// The literals, and the hints, that a chunk takes at least.
const LEAST_NUMBERS: usize = 1_024;

/// The derived lines of a job in the order in which they were entered. They stand in chunks, and what stands never
/// moves. Contracts see the lines, the chunks in which they were entered, for how many more lines and numbers, which
/// are literals and hints, there is room, and for how many more chunks; the lines have the numbers of derived clauses,
/// each once and above all its hints.
#[derive(Drop)]
pub struct Log {
    full: Vec<Chunk>,
    last: Lines,
    ends: bool,
    count: usize,
    room: usize,
    number_room: usize,
}

impl Model for Log {
    ghost use Rattle.std.specs.Prelude.{◌-◌, vec_len, vec_capacity};
    ghost use Rattle.mal_proof.specs.Logged.{Logged, lines_in, parts_in, LogInvariant};

    ghost Value = { Logged };

    ghost view = { λ l. record {
      lines = lines_in l.full.items l.last;
      parts = parts_in l.full.items l.last l.ends;
      room = l.room;
      number_room = l.number_room;
      chunk_room = vec_capacity l.full - vec_len l.full;
    } };

    ghost invariant = { λ l. LogInvariant l.full.items l.last l.count l.room l.number_room };
}

impl Log {
    /// No lines. Takes no memory.
    pub fn new(alloc: Global) -> Log
        ensures lines { result.lines ≡ [] }
        ensures parts { result.parts ≡ [] }
    {
        Log {
            full: Vec::new(alloc),
            last: Lines::new(alloc),
            ends: false,
            count: 0,
            room: 0,
            number_room: 0,
        }
    }

    /// Makes room for so many more lines with so many literals and hints. Where there is not enough, a new chunk is
    /// begun that has room for twice as many, and for some at least. The room in one respect may be less than before:
    /// each time all that is still to come is to be asked for. If memory runs out, the lines and the room for more are
    /// as before.
    pub fn reserve(&mut self, lines: usize, numbers: usize) -> Result<(), AllocError>
        ensures lines { self.new.lines ≡ self.old.lines }
        ensures room { OnOk result (lines ≤ self.new.room) }
        ensures number_room { OnOk result (numbers ≤ self.new.number_room) }
        ensures err { OnErr result ((self.new.room ≡ self.old.room) × (self.new.number_room ≡ self.old.number_room)) }
    {
        if lines <= self.room && numbers <= self.number_room {
            return Ok(());
        }
        let room = lines.saturating_mul(2).max(LEAST_LINES);
        let number_room = numbers.saturating_mul(2).max(LEAST_NUMBERS);
        grown(self.count, room, usize::MAX)?;
        let mut fresh = Lines::new(*self.full.allocator());
        fresh.reserve(room, number_room, number_room)?;
        self.full.reserve(1)?;
        self.full.push_reserved(Chunk {
            lines: mem::replace(&mut self.last, fresh),
            end: self.count,
            ends: self.ends,
        });
        self.ends = false;
        self.room = room;
        self.number_room = number_room;
        Ok(())
    }

    /// Puts a line after the others, for which there is room. It has the number of a derived clause that is not in the
    /// log and is above all its hints. Takes no memory.
    pub fn append_reserved(&mut self, id: ClauseId, lits: &[Lit], hints: &[ClauseId])
        requires room { 1 ≤ self.old.room }
        requires number_room { length lits.now + length hints.now ≤ self.old.number_room }
        requires fresh { All (λ other. other.id ≢ id) self.old.lines }
        requires above { IsAbove (record { id = id; lits = lits.now; hints = hints.now }) }
        ensures lines { self.new.lines ≡ self.old.lines ++ record { id = id; lits = lits.now; hints = hints.now } ∷ [] }
        ensures less { self.new.room + 1 ≡ self.old.room }
        ensures less_numbers { self.new.number_room + (length lits.now + length hints.now) ≡ self.old.number_room }
    {
        self.last.push_reserved(id, lits, hints);
        self.count += 1;
        self.room -= 1;
        self.number_room -= lits.len() + hints.len();
    }

    /// Makes room for so many more chunks.
    pub fn reserve_chunks(&mut self, chunks: usize) -> Result<(), AllocError>
        ensures lines { self.new.lines ≡ self.old.lines }
        ensures parts { self.new.parts ≡ self.old.parts }
        ensures room { OnOk result (chunks ≤ self.new.chunk_room) }
        ensures more { self.old.chunk_room ≤ self.new.chunk_room }
    {
        self.full.reserve(chunks)?;
        Ok(())
    }

    /// Puts lines after the others as a chunk of their own, for which there is room, with a mark: they are moved. With
    /// those before them they have numbers of derived clauses, each once and above all its hints, so that proofs can be
    /// trimmed of them. No room is left for further single lines. A chunk without lines keeps no room. Takes no memory.
    pub fn append_chunk(&mut self, lines: Lines, ends: bool)
        requires room { 1 ≤ self.old.chunk_room }
        requires countable { length self.old.lines + length lines.lines < 2 ^ 64 }
        requires orderly { IsOrderly (self.old.lines ++ lines.lines) }
        ensures lines { self.new.lines ≡ self.old.lines ++ lines.lines }
        ensures parts { self.new.parts ≡ self.old.parts ++ record { lines = lines.lines; ends = ends } ∷ [] }
        ensures less { self.new.chunk_room + 1 ≡ self.old.chunk_room }
    {
        let end = self.count;
        self.count += lines.count();
        let lines = kept(*self.full.allocator(), lines);
        let last = mem::replace(&mut self.last, lines);
        self.full.push_reserved(Chunk {
            lines: last,
            end,
            ends: self.ends,
        });
        self.ends = ends;
        self.room = 0;
        self.number_room = 0;
    }

    /// The number of parts.
    pub fn part_count(&self) -> usize
        ensures { result ≡ length self.now.parts }
    {
        self.full.len()
    }

    /// The lines of a part, and its mark, the parts counted from 0.
    pub fn part(&self, n: usize) -> (&Lines, bool)
        requires { n < length self.now.parts }
        ensures { slice_get self.now.parts n ≡ Some (record { lines = result.0.now.lines; ends = result.1 }) }
    {
        match self.full.get(n + 1) {
            Some(chunk) => (&chunk.lines, chunk.ends),
            None => (&self.last, self.ends),
        }
    }

    /// The number of lines.
    pub fn count(&self) -> usize
        ensures value { result ≡ length self.now.lines }
        ensures orderly { IsOrderly self.now.lines }
    {
        self.count
    }

    /// The number of the clause of a line, the lines counted from 0.
    pub fn id(&self, n: usize) -> ClauseId
        requires { n < length self.now.lines }
        ensures { (line : Line) → slice_get self.now.lines n ≡ Some line → result ≡ line.id }
    {
        let (chunk, place) = self.place(n);
        chunk.id(place)
    }

    /// The literals of a line, the lines counted from 0.
    pub fn lits(&self, n: usize) -> &[Lit]
        requires { n < length self.now.lines }
        ensures { (line : Line) → slice_get self.now.lines n ≡ Some line → result.now ≡ line.lits }
    {
        let (chunk, place) = self.place(n);
        chunk.lits(place)
    }

    /// The hints of a line, the lines counted from 0.
    pub fn hints(&self, n: usize) -> &[ClauseId]
        requires { n < length self.now.lines }
        ensures { (line : Line) → slice_get self.now.lines n ≡ Some line → result.now ≡ line.hints }
    {
        let (chunk, place) = self.place(n);
        chunk.hints(place)
    }

    /// The chunk of a line and the line's place there.
    fn place(&self, n: usize) -> (&Lines, usize)
        requires { n < length self.now.lines }
        ensures within { result.1 < length result.0.now.lines }
        ensures same { slice_get result.0.now.lines result.1 ≡ slice_get self.now.lines n }
    {
        match self.full.get(chunks_before(&self.full, n)) {
            Some(chunk) => (&chunk.lines, place_among(&chunk.lines, chunk.end, n)),
            None => (&self.last, place_among(&self.last, self.count, n)),
        }
    }

    /// The lines that are reached backwards from a goal over hints, by rising number. Where no line has the goal's
    /// number there are none; else the goal's is the last.
    pub fn trim(&self, goal: ClauseId) -> Result<Lines, AllocError>
        ensures reached { IfOk result (λ out. out.lines ≡ reached goal self.now.lines) }
        ensures trimmed { IfOk result (λ out. IsTrimmed out.lines) }
        ensures goal { IfOk result (λ out. last_lits out.lines ≡ goal_lits goal self.now.lines) }
    {
        let mut lines = self.lend_up_to(goal)?;
        // Lines of several nodes are entered in the order of their slices, not of their numbers.
        sort(&mut lines);
        trimmed(*self.full.allocator(), lines.as_slice(), goal)
    }

    /// The lines with numbers up to this one, lent.
    fn lend_up_to(&self, most: ClauseId) -> Result<Vec<LentLine<'_>>, AllocError>
        ensures lines { IfOk result (λ lines. lines.items ≡ up_to most self.now.lines) }
        ensures orderly { IsOrderly self.now.lines }
    {
        let mut lines = Vec::with_capacity(*self.full.allocator(), self.count)?;
        for chunk in &self.full {
            lend_up_to(&mut lines, &chunk.lines, most)?;
        }
        lend_up_to(&mut lines, &self.last, most)?;
        Ok(lines)
    }
}

/// These lines; where there is none, without the room that they have. Takes no memory.
fn kept(alloc: Global, lines: Lines) -> Lines
    ensures { result.lines ≡ lines.lines }
{
    if lines.count() == 0 {
        return Lines::new(alloc);
    }
    lines
}
