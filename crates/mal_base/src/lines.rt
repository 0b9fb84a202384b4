//! Lists of derived lines.

ghost use Rattle.std.specs.Prelude.{◌≡◌, ◌+◌, ◌<◌, ◌≤◌, [], ◌∷◌, ◌++◌, length, slice_get, vec_len, vec_capacity, Some, OnOk};
ghost use Rattle.mal_base.specs.NumberedClause.{Line};

use crate::clause_id::ClauseId;
use crate::line_head::{LineHead, Span};
use crate::literal::Lit;
use std::alloc::{AllocError, Global};
use std::marker::Model;

/// Derived clauses in the order in which they were derived, each with its number, its literals and the clauses that it
/// follows from, in the order in which unit propagation uses them. Literals and hints stand side by side. Contracts see
/// the lines, and for how many more lines, literals and hints there is room.
#[derive(Drop)]
pub struct Lines {
    heads: Vec<LineHead>,
    lits: Vec<Lit>,
    hints: Vec<ClauseId>,
}

impl Model for Lines {
    ghost use Rattle.std.specs.Prelude.{◌-◌, vec_len, vec_capacity};
    ghost use Rattle.mal_base.specs.Lined.{Lined, lines_at, AreWithin};

    ghost Value = { Lined };

    ghost view = { λ l. record {
      lines = lines_at l.lits.items l.hints.items l.heads.items;
      room = vec_capacity l.heads - vec_len l.heads;
      lit_room = vec_capacity l.lits - vec_len l.lits;
      hint_room = vec_capacity l.hints - vec_len l.hints;
    } };

    ghost invariant = { λ l. AreWithin l.lits.items l.hints.items l.heads.items };
}

impl Lines {
    /// No lines. Takes no memory.
    pub fn new(alloc: Global) -> Lines
        ensures { result.lines ≡ [] }
    {
        Lines {
            heads: Vec::new(alloc),
            lits: Vec::new(alloc),
            hints: Vec::new(alloc),
        }
    }

    /// Makes room for so many more lines, literals and hints. If memory runs out, the lines are as before.
    pub fn reserve(&mut self, lines: usize, lits: usize, hints: usize) -> Result<(), AllocError>
        ensures lines { self.new.lines ≡ self.old.lines }
        ensures room { OnOk result (lines ≤ self.new.room) }
        ensures lit_room { OnOk result (lits ≤ self.new.lit_room) }
        ensures hint_room { OnOk result (hints ≤ self.new.hint_room) }
        ensures more { self.old.room ≤ self.new.room }
        ensures more_lits { self.old.lit_room ≤ self.new.lit_room }
        ensures more_hints { self.old.hint_room ≤ self.new.hint_room }
    {
        self.heads.reserve(lines)?;
        self.lits.reserve(lits)?;
        self.hints.reserve(hints)?;
        Ok(())
    }

    /// Puts a line after the others, for which there is room. Takes no memory.
    pub fn push_reserved(&mut self, id: ClauseId, lits: &[Lit], hints: &[ClauseId])
        requires room { 1 ≤ self.old.room }
        requires lit_room { length lits.now ≤ self.old.lit_room }
        requires hint_room { length hints.now ≤ self.old.hint_room }
        ensures lines { self.new.lines ≡ self.old.lines ++ record { id = id; lits = lits.now; hints = hints.now } ∷ [] }
        ensures less { self.new.room + 1 ≡ self.old.room }
        ensures less_lits { self.new.lit_room + length lits.now ≡ self.old.lit_room }
        ensures less_hints { self.new.hint_room + length hints.now ≡ self.old.hint_room }
    {
        let lits = push_all(&mut self.lits, lits);
        let hints = push_all(&mut self.hints, hints);
        self.heads.push_reserved(LineHead { id, lits, hints });
    }

    /// Takes all lines away; their room stays.
    pub fn clear(&mut self)
        ensures lines { self.new.lines ≡ [] }
        ensures more { self.old.room ≤ self.new.room }
        ensures more_lits { self.old.lit_room ≤ self.new.lit_room }
        ensures more_hints { self.old.hint_room ≤ self.new.hint_room }
    {
        self.heads.clear();
        self.lits.clear();
        self.hints.clear();
    }

    /// The number of lines.
    pub fn count(&self) -> usize
        ensures { result ≡ length self.now.lines }
    {
        self.heads.len()
    }

    /// The number of the clause of a line, the lines counted from 0.
    pub fn id(&self, n: usize) -> ClauseId
        requires { n < length self.now.lines }
        ensures { (line : Line) → slice_get self.now.lines n ≡ Some line → result ≡ line.id }
    {
        self.heads[n].id
    }

    /// The literals of a line, the lines counted from 0.
    pub fn lits(&self, n: usize) -> &[Lit]
        requires { n < length self.now.lines }
        ensures { (line : Line) → slice_get self.now.lines n ≡ Some line → result.now ≡ line.lits }
    {
        let span = self.heads[n].lits;
        &self.lits[span.start..span.end]
    }

    /// The hints of a line, the lines counted from 0.
    pub fn hints(&self, n: usize) -> &[ClauseId]
        requires { n < length self.now.lines }
        ensures { (line : Line) → slice_get self.now.lines n ≡ Some line → result.now ≡ line.hints }
    {
        let span = self.heads[n].hints;
        &self.hints[span.start..span.end]
    }
}

/// Puts items after the others, for which there is room, and tells where they stand.
fn push_all<T: Copy>(all: &mut Vec<T>, more: &[T]) -> Span
    requires { vec_len all.old + length more.now ≤ vec_capacity all.old }
    ensures items { all.new.items ≡ all.old.items ++ more.now }
    ensures capacity { vec_capacity all.new ≡ vec_capacity all.old }
    ensures start { result.start ≡ length all.old.items }
    ensures end { result.end ≡ length all.new.items }
{
    let start = all.len();
    for item in more {
        all.push_reserved(*item);
    }
    Span {
        start,
        end: all.len(),
    }
}
