//! The marks of the derived clauses held.

ghost use Rattle.std.specs.Prelude.{◌≡◌, ◌+◌, ◌≤◌, ◌<◌, ◌^◌, false, [], length, map, filter, vec_capacity, None, Some, MatchOption, OnOk};
ghost use Rattle.std.specs.{List.Sorted.{IsNonDecreasing}, Option.{option_map_or}};
ghost use Rattle.spec_guided.specs.State.{activity_under};
ghost use Rattle.mal_marks.specs.{Marked.{guide_marks, mark_under, with_mark, stays, resolved_at, is_counted, counted_in}, Choosing.{less_active}};

use crate::choice::{Candidate, gather, take_less_active_half};
use crate::mark::Mark;
use crate::search::{count_in, insert_in, position_of, resolve_in, take_away};
use mal_activity::Activity;
use mal_base::ClauseId;
use std::alloc::{AllocError, Global};
use std::marker::Model;

/// The marks of the derived clauses held, by rising number, each number once. Contracts see the marks, and for how many
/// more there is room.
#[derive(Drop)]
pub struct Marks {
    items: Vec<Mark>,
    counted: usize,
    candidates: Vec<Candidate>,
}

impl Model for Marks {
    ghost use Rattle.std.specs.Prelude.{◌-◌, min};
    ghost use Rattle.std.specs.Vec.{vec_len, vec_capacity};
    ghost use Rattle.mal_marks.specs.Marked.{Marked, IsMarked};

    ghost Value = { Marked };

    ghost view = { λ m. record {
      items = m.items.items;
      room = min (vec_capacity m.items - vec_len m.items) (vec_capacity m.candidates - vec_len m.items);
    } };

    ghost invariant = { λ m. IsMarked m.items.items m.counted (vec_len m.items) (vec_capacity m.candidates) };
}

impl Marks {
    /// No mark, and no room. Takes no memory.
    pub fn new(alloc: Global) -> Marks
        ensures { result ≡ record { items = []; room = 0 } }
    {
        Marks {
            items: Vec::new(alloc),
            counted: 0,
            candidates: Vec::new(alloc),
        }
    }

    /// Makes room for n more marks. The marks stay as they are.
    pub fn reserve(&mut self, n: usize) -> Result<(), AllocError>
        ensures items { self.new.items ≡ self.old.items }
        ensures room { OnOk result (n ≤ self.new.room) }
        ensures more { self.old.room ≤ self.new.room }
    {
        self.items.reserve(n)?;
        self.candidates.clear();
        self.candidates.reserve(self.items.capacity())?;
        Ok(())
    }

    /// The number of marks.
    pub fn len(&self) -> usize
        ensures { result ≡ length self.now.items }
    {
        self.items.len()
    }

    /// The marks, by rising number.
    pub fn items(&self) -> &[Mark]
        ensures { result.now ≡ self.now.items }
    {
        self.items.as_slice()
    }

    /// The mark of this number. None exactly where there is none.
    pub fn get(&self, id: ClauseId) -> Option<&Mark>
        ensures { MatchOption result (mark_under id self.now.items ≡ None)
            (λ m. mark_under id self.now.items ≡ Some m.now) }
    {
        match position_of(self.items.as_slice(), id) {
            None => None,
            Some(place) => Some(&self.items[place]),
        }
    }

    /// The activity of the clause of this number, none where it has no mark.
    pub fn activity(&self, id: ClauseId) -> Activity
        ensures { result ≡ activity_under (guide_marks self.now.items) id }
    {
        match self.get(id) {
            None => Activity::none(),
            Some(mark) => mark.activity,
        }
    }

    /// Whether the clause of this number has three literals or more and is not kept for good: of no other does the glue
    /// matter.
    pub fn needs_glue(&self, id: ClauseId) -> bool
        ensures { result ≡ option_map_or is_counted (mark_under id self.now.items) false }
    {
        match self.get(id) {
            None => false,
            Some(mark) => mark.is_counted(),
        }
    }

    /// How many clauses count for reductions: those of three literals or more that are not kept for good.
    pub fn counted(&self) -> usize
        ensures { result ≡ counted_in self.now.items }
    {
        self.counted
    }

    /// Adds the mark of a number that has none, where there is room for it. Takes no memory.
    pub fn insert_reserved(&mut self, mark: Mark)
        requires new { mark_under mark.id self.old.items ≡ None }
        requires room { 1 ≤ self.old.room }
        ensures items { self.new.items ≡ with_mark mark self.old.items }
        ensures room { self.new.room + 1 ≡ self.old.room }
    {
        insert_in(&mut self.items, mark);
        if mark.is_counted() {
            self.counted += 1;
        }
    }

    /// Notes that a conflict was resolved with the clause of this number, if it has a mark: it gains, and where it is worth
    /// it, it is kept for good. Takes no memory.
    pub fn resolve_with(&mut self, id: ClauseId, gain: Activity, is_worth: bool)
        requires own { activity_under (guide_marks self.old.items) id < 2 ^ 63 }
        requires gain { gain < 2 ^ 63 }
        ensures items { self.new.items ≡ map (resolved_at id gain is_worth) self.old.items }
        ensures room { self.new.room ≡ self.old.room }
    {
        if resolve_in(&mut self.items, id, gain, is_worth) {
            self.counted -= 1;
        }
    }

    /// Chooses the less active half of the clauses that count for reductions and are none of the reasons, whose numbers
    /// rise: the least active first, of two that are alike the one of the greater number. Leaves their numbers in a list
    /// that has room for as many as there are marks, in place of what is there. Takes no memory.
    pub fn choose(&mut self, reasons: &[ClauseId], chosen: &mut Vec<ClauseId>)
        requires rising { IsNonDecreasing reasons.now }
        requires place { length self.old.items ≤ vec_capacity chosen.old }
        ensures chosen { chosen.new.items ≡ less_active reasons.now self.old.items }
        ensures items { self.new.items ≡ self.old.items }
        ensures room { self.new.room ≡ self.old.room }
        ensures capacity { vec_capacity chosen.new ≡ vec_capacity chosen.old }
    {
        gather(self.items.as_slice(), reasons, &mut self.candidates);
        take_less_active_half(&mut self.candidates, chosen);
    }

    /// Takes the marks of these numbers, which rise, away. Takes no memory.
    pub fn forget(&mut self, ids: &[ClauseId])
        requires { IsNonDecreasing ids.now }
        ensures items { self.new.items ≡ filter (stays ids.now) self.old.items }
        ensures room { self.old.room ≤ self.new.room }
    {
        take_away(&mut self.items, ids);
        self.counted = count_in(self.items.as_slice());
    }
}
