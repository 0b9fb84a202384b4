//! Choosing the clauses that a dropping gives up.

ghost use Rattle.std.specs.Prelude.{◌≡◌, ◌≤◌, List, [], length, map, filter, vec_len, vec_capacity, OnOk};
ghost use Rattle.mal_base.specs.NumberedClause.{NumberedClause};
ghost use Rattle.spec_learn.specs.Dropping.{is_reason, may_go, longer_half, to_drop};
ghost use Rattle.mal_learn.specs.Choosing.{droppable_of, has_reason};

use crate::scratch::Scratch;
use mal_base::{ClauseId, Lit, TrailEntry, TrailView};
use mal_trail::Listed;
use std::alloc::{AllocError, Global};
use std::marker::Model;

/// A clause that may be dropped. They compare by their number of literals, then by their own number.
#[derive(Clone, Copy, Debug, PartialEq, Eq, PartialOrd, Ord)]
struct Droppable {
    len: usize,
    id: ClauseId,
}

/// What clauses are chosen in, and the numbers of those that were chosen last. Contracts see among how many clauses
/// there is room to choose, and these numbers.
#[derive(Drop)]
pub struct Choice {
    droppables: Vec<Droppable>,
    chosen: Vec<ClauseId>,
}

impl Model for Choice {
    ghost use Rattle.std.specs.Prelude.{min};
    ghost use Rattle.std.specs.Vec.{vec_capacity};
    ghost use Rattle.mal_learn.specs.Shown.{Choice};

    ghost Value = { Choice };

    ghost view = { λ c. record {
      ids = min (vec_capacity c.droppables)
          (vec_capacity c.chosen);
      chosen = c.chosen.items;
    } };
}

impl Choice {
    ghost use Rattle.std.specs.Borrow.{sem};
    ghost use Rattle.mal_learn.specs.Lending.{ChoiceLends};

    /// No clause chosen, and no room. Takes no memory.
    pub fn new(alloc: Global) -> Choice
        ensures { result.chosen ≡ [] }
    {
        Choice {
            droppables: Vec::new(alloc),
            chosen: Vec::new(alloc),
        }
    }

    /// Makes room to choose among so many clauses. What was chosen is forgotten.
    pub fn fit(&mut self, ids: usize) -> Result<(), AllocError>
        ensures ids { OnOk result (ids ≤ self.new.ids) }
        ensures more { self.old.ids ≤ self.new.ids }
        ensures chosen { self.new.chosen ≡ [] }
    {
        self.droppables.clear();
        self.chosen.clear();
        self.droppables.reserve(ids)?;
        self.chosen.reserve(ids)?;
        Ok(())
    }

    /// The numbers of those that were chosen last, to be put in another order.
    pub fn chosen_mut(&mut self) -> &mut [ClauseId]
        ensures* writes_back { sem 𝓛 (ChoiceLends self.entry result) }
        ensures value { result.now ≡ self.old.chosen }
    {
        self.chosen.as_mut_slice()
    }

    /// Chooses the longer half of the derived clauses that may go, the longest first.
    fn choose<T: TrailView, E: Listed>(&mut self, trail: &T, engine: &E)
        requires { length (E.clauses engine.now) ≤ self.old.ids }
        ensures chosen { self.new.chosen ≡ to_drop (T.entries trail.now) (E.clauses engine.now) }
        ensures ids { self.new.ids ≡ self.old.ids }
    {
        gather(trail, engine, &mut self.droppables);
        take_longer_half(&mut self.droppables, &mut self.chosen);
    }
}

/// Chooses which of an engine's clauses a dropping gives up: the longer half of the derived clauses of three literals
/// or more that are no entry's reason, of equal length those of the greater numbers. Leaves their numbers in a scratch
/// that has room for all of the engine's clauses. Takes no memory. The time is that of a sort, and for each derived
/// clause of three literals or more that of a walk over the trail.
pub fn choose_longer_half<T: TrailView, E: Listed>(trail: &T, engine: &E, scratch: &mut Scratch)
    requires { length (E.clauses engine.now) ≤ scratch.old.ids }
    ensures chosen { scratch.new.chosen ≡ to_drop (T.entries trail.now) (E.clauses engine.now) }
    ensures room { scratch.new.room ≡ scratch.old.room }
    ensures id_room { scratch.new.ids ≡ scratch.old.ids }
{
    scratch.choice.choose(trail, engine);
}

/// Whether an entry has the clause of this number as its reason.
pub fn is_reason<T: TrailView>(trail: &T, id: ClauseId, lits: &[Lit]) -> bool
    ensures { result ≡ is_reason (T.entries trail.now) (record { id = id; lits = lits.now }) }
{
    // Asked of the trail, which has level 0 alone in a dropping and is short; marks would need a place for each number.
    for place in 0..trail.len() {
        if has_reason(trail.at(place), id) {
            return true;
        }
    }
    false
}

/// Whether the clause of this number is the reason of an entry.
fn has_reason(entry: TrailEntry, id: ClauseId) -> bool
    ensures { result ≡ has_reason id entry }
{
    entry.reason == Some(id)
}

/// Whether a clause may go: it is derived, has three literals or more, and is no entry's reason.
fn may_go<T: TrailView>(trail: &T, id: ClauseId, lits: &[Lit]) -> bool
    ensures { result ≡ may_go (T.entries trail.now) (record { id = id; lits = lits.now }) }
{
    1 << 32 <= id.number() && 3 <= lits.len() && !is_reason(trail, id, lits)
}

/// Gathers the clauses that may go.
fn gather<T: TrailView, E: Listed>(trail: &T, engine: &E, droppables: &mut Vec<Droppable>)
    requires { length (E.clauses engine.now) ≤ vec_capacity droppables.old }
    ensures droppables { droppables.new.items
        ≡ map droppable_of (filter (may_go (T.entries trail.now)) (E.clauses engine.now)) }
    ensures capacity { vec_capacity droppables.new ≡ vec_capacity droppables.old }
    ensures short { vec_len droppables.new ≤ length (E.clauses engine.now) }
{
    droppables.clear();
    for place in 0..engine.count() {
        let (id, lits) = engine.clause_at(place);
        if may_go(trail, id, lits) {
            droppables.push_reserved(Droppable {
                len: lits.len(),
                id,
            });
        }
    }
}

/// Takes the numbers of the longer half of those that may be dropped, the longest first.
fn take_longer_half(droppables: &mut Vec<Droppable>, chosen: &mut Vec<ClauseId>)
    requires { vec_len droppables.old ≤ vec_capacity chosen.old }
    ensures chosen { (clauses : List NumberedClause) → droppables.old.items ≡ map droppable_of clauses
        → chosen.new.items ≡ map (λ c. c.id) (longer_half clauses) }
    ensures droppable_capacity { vec_capacity droppables.new ≡ vec_capacity droppables.old }
    ensures capacity { vec_capacity chosen.new ≡ vec_capacity chosen.old }
{
    droppables.sort_unstable();
    droppables.as_mut_slice().reverse();
    chosen.clear();
    for place in 0..droppables.len() / 2 {
        chosen.push_reserved(droppables[place].id);
    }
}
