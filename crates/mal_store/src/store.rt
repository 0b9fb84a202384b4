//! A map from numbers to clauses.

ghost use Rattle.std.specs.Prelude.{◌≡◌, ℕ, ◌+◌, ◌≤◌, ◌<◌, [], length, map, slice_get, slice_index_or, Some, None, OnOk, MatchOption, vec_len, vec_capacity};
ghost use Rattle.std.specs.List.Sorted.{IsNonDecreasing, IsPermutation};
ghost use Rattle.mal_base.specs.NumberedClause.{lits_under};
ghost use Rattle.spec_node.specs.Adding.{with_clause, forgetting};
ghost use Rattle.mal_store.specs.{Arena.{no_clause, listed_count}, Stored.{lits_held, IsPlaced, settled_in, literal_count, with_long, with_short, short_clauses}};

use crate::clause_arena::ClauseArena;
use crate::entry::{Entry, Held};
use crate::ids;
use crate::index::Index;
use mal_base::{ClauseId, ClauseView, Lit, grown};
use std::alloc::{AllocError, Global};
use std::marker::Model;

/// Clauses by rising number, and those of two and more literals, the long ones, also in the order in which they came:
/// only there their literals stand, and the index says where. A place in that list stays what it is while clauses are
/// added, whatever their numbers are, since new ones stand after; where clauses are forgotten, the others move up, and
/// the index is told. The numbers of the other clauses, the short ones, rise in a list of their own. Contracts see both
/// lists of clauses, and how many clauses and literals there is room for.
#[derive(Drop)]
pub struct Store {
    long: ClauseArena,
    short: Vec<ClauseId>,
    index: Index,
}

impl Model for Store {
    ghost use Rattle.std.specs.Prelude.{◌+◌, ◌-◌, min};
    ghost use Rattle.std.specs.Vec.{vec_len, vec_capacity};
    ghost use Rattle.mal_store.specs.{Arena.{listed_count}, Stored.{Stored, IsStore, held_in, literal_count}};

    ghost Value = { Stored };

    ghost view = { λ s. record {
      clauses = held_in s.long.clauses s.index.entries;
      long = s.long.clauses;
      clause_room = min (min s.long.clause_room s.index.room) (vec_capacity s.short - vec_len s.short);
      literal_room = listed_count s.long.clauses + s.long.literal_room - literal_count (held_in s.long.clauses s.index.entries);
    } };

    ghost invariant = { λ s. IsStore s.long.clauses s.long.literal_room s.index.entries s.short.items };
}

impl Store {
    /// The store without a clause and without room. Takes no memory.
    pub fn new(alloc: Global) -> Store
        ensures clauses { result.clauses ≡ [] }
        ensures long { result.long ≡ [] }
    {
        Store {
            long: ClauseArena::new(alloc),
            short: Vec::new(alloc),
            index: Index::new(alloc),
        }
    }

    /// Makes room for so many clauses and literals more. There are fewer than 2^32 of either.
    pub fn reserve(&mut self, clauses: usize, literals: usize) -> Result<(), AllocError>
        ensures clauses { self.new.clauses ≡ self.old.clauses }
        ensures long { self.new.long ≡ self.old.long }
        ensures for_clauses { OnOk result (clauses ≤ self.new.clause_room) }
        ensures for_literals { OnOk result (literals ≤ self.new.literal_room) }
        ensures more_clauses { self.old.clause_room ≤ self.new.clause_room }
        ensures more_literals { self.old.literal_room ≤ self.new.literal_room }
    {
        // Of no clause more than three literals stand elsewhere than in the list of literals; there is room in it for
        // these too, so that what any clause leaves after when it goes is room for any other.
        let held = self.index.len();
        let twice = grown(held, held, usize::MAX)?;
        let beside = grown(twice, held, usize::MAX)?;
        let total = grown(literals, beside, usize::MAX)?;
        self.index.reserve(clauses)?;
        self.short.reserve(clauses)?;
        self.long.reserve(clauses, total)
    }

    /// Adds a clause under a number that is not held, where there is room for it. Takes no memory.
    pub fn add_reserved(&mut self, id: ClauseId, lits: &[Lit])
        requires new { lits_under id self.old.clauses ≡ None }
        requires clause_room { 1 ≤ self.old.clause_room }
        requires literal_room { length lits.now ≤ self.old.literal_room }
        ensures clauses { self.new.clauses ≡ with_clause (record { id = id; lits = lits.now }) self.old.clauses }
        ensures long { self.new.long ≡ with_long (record { id = id; lits = lits.now }) self.old.long }
        ensures clause_room { self.old.clause_room ≤ self.new.clause_room + 1 }
        ensures literal_room { self.old.literal_room ≤ self.new.literal_room + length lits.now }
    {
        add_short(&mut self.short, id, lits);
        let held = hold(&mut self.long, id, lits);
        self.index.insert_reserved(Entry { id, held });
    }

    /// Forgets the clauses of these numbers, which it puts in rising order. The room of their literals is room again.
    /// Takes no memory.
    pub fn forget(&mut self, ids: &mut [ClauseId])
        ensures clauses { self.new.clauses ≡ forgetting ids.old self.old.clauses }
        ensures long { self.new.long ≡ forgetting ids.old self.old.long }
        ensures clause_room { self.old.clause_room ≤ self.new.clause_room }
        ensures literal_room { self.old.literal_room ≤ self.new.literal_room }
        ensures won { literal_count self.old.clauses + self.old.literal_room
            ≤ literal_count self.new.clauses + self.new.literal_room }
        ensures same { IsPermutation ids.old ids.new }
        ensures rising { IsNonDecreasing ids.new }
    {
        ids::sort_ids(ids);
        ids::take_ids_away(&mut self.short, ids);
        self.long.forget(ids);
        self.index.forget(ids);
        renumber(&mut self.index, &self.long);
    }

    /// The number of clauses.
    pub fn len(&self) -> usize
        ensures { result ≡ length self.now.clauses }
    {
        self.index.len()
    }

    /// The clause at a place, counted from 0: its number and its literals.
    pub fn at(&self, place: usize) -> (ClauseId, &[Lit])
        requires { place < length self.now.clauses }
        ensures { slice_get self.now.clauses place ≡ Some (record { id = result.0; lits = result.1.now }) }
    {
        let entry = self.index.at(place);
        (entry.id, lits_of(&self.long, &entry.held))
    }

    /// The literals of the clause of this number. None exactly where the number is not held.
    pub fn get(&self, id: ClauseId) -> Option<&[Lit]>
        ensures { MatchOption result (lits_under id self.now.clauses ≡ None)
            (λ lits. lits_under id self.now.clauses ≡ Some lits.now) }
    {
        match self.index.get(id) {
            None => None,
            Some(entry) => Some(lits_of(&self.long, &entry.held)),
        }
    }

    /// The number of short clauses, those of at most one literal.
    pub fn count_short(&self) -> usize
        ensures { result ≡ length (short_clauses self.now.clauses) }
    {
        self.short.len()
    }

    /// The short clause at a place among them, counted from 0 by rising number.
    pub fn short_at(&self, place: usize) -> (ClauseId, &[Lit])
        requires { place < length (short_clauses self.now.clauses) }
        ensures { slice_get (short_clauses self.now.clauses) place ≡ Some
            (record { id = result.0; lits = result.1.now }) }
    {
        let id = self.short[place];
        match self.get(id) {
            Some(lits) => (id, lits),
            None => (id, &[]),
        }
    }

    /// The number of long clauses.
    pub fn count_long(&self) -> usize
        ensures { result ≡ length self.now.long }
    {
        self.long.len()
    }

    /// The number of the long clause at a place, counted from 0 in the order in which they came.
    pub fn long_id(&self, place: usize) -> ClauseId
        requires { place < length self.now.long }
        ensures { result ≡ (slice_index_or self.now.long place no_clause).id }
    {
        self.long.id(place)
    }

    /// The literals of the long clause at a place.
    pub fn long_lits(&self, place: usize) -> &[Lit]
        requires { place < length self.now.long }
        ensures { result.now ≡ (slice_index_or self.now.long place no_clause).lits }
    {
        self.long.lits(place)
    }

    /// At which of its literals a search in the long clause at a place begins, as it was kept last; the first of a
    /// clause of three.
    pub fn search_start(&self, place: usize) -> usize
        requires { place < length self.now.long }
    {
        self.long.search_start(place)
    }

    /// Keeps at which of its literals the next search in the long clause at a place begins. Nothing is kept of a clause
    /// of three.
    pub fn keep_search_start(&mut self, place: usize, search_start: usize)
        requires { place < length self.old.long }
        ensures { self.new ≡ self.old }
    {
        self.long.keep_search_start(place, search_start);
    }
}

impl ClauseView for Store {
    ghost clauses = { λ s. s.clauses };

    fn get(&self, id: ClauseId) -> Option<&[Lit]> {
        Store::get(self, id)
    }
}

/// Adds the number of a clause to those of the short ones, which rise, if it is short. Takes no memory.
fn add_short(short: &mut Vec<ClauseId>, id: ClauseId, lits: &[Lit])
    requires rising { IsNonDecreasing short.old.items }
    requires room { vec_len short.old < vec_capacity short.old }
    ensures items { short.new.items ≡ with_short (record { id = id; lits = lits.now }) short.old.items }
    ensures len { vec_len short.new ≤ vec_len short.old + 1 }
    ensures capacity { vec_capacity short.new ≡ vec_capacity short.old }
{
    if lits.len() <= 1 {
        ids::insert_id(short, id);
    }
}

/// Takes the literals of a clause in, after those of the long ones if it is long. Tells where they are.
fn hold(long: &mut ClauseArena, id: ClauseId, lits: &[Lit]) -> Held
    requires clause_room { 1 ≤ long.old.clause_room }
    requires literal_room { length lits.now ≤ long.old.literal_room }
    ensures lits { lits_held long.new.clauses result ≡ lits.now }
    ensures long { long.new.clauses ≡ with_long (record { id = id; lits = lits.now }) long.old.clauses }
    ensures placed { IsPlaced long.new.clauses id result }
    ensures clause_room { long.old.clause_room ≤ long.new.clause_room + 1 }
    ensures total { listed_count long.old.clauses + long.old.literal_room
        ≤ listed_count long.new.clauses + long.new.literal_room }
{
    match lits {
        [] => Held::Empty,
        [lit] => Held::One([*lit]),
        _ => {
            let place = long.len() as u32;
            long.add_reserved(id, lits);
            Held::Long(place)
        }
    }
}

/// The literals that are there.
fn lits_of<'a>(long: &'a ClauseArena, held: &'a Held) -> &'a [Lit]
    requires { (id : ℕ) × IsPlaced long.now.clauses id held.now }
    ensures { result.now ≡ lits_held long.now.clauses held.now }
{
    match held {
        Held::Empty => &[],
        Held::One(lits) => lits,
        Held::Long(place) => long.lits(*place as usize),
    }
}

/// Tells the index where each long clause stands now.
fn renumber(index: &mut Index, long: &ClauseArena)
    ensures entries { index.new.entries
        ≡ map (settled_in long.now.clauses (length long.now.clauses)) index.old.entries }
    ensures room { index.new.room ≡ index.old.room }
{
    for place in 0..long.len() {
        index.settle(long.id(place), place as u32);
    }
}
