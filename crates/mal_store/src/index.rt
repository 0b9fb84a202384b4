//! The way from a number to a clause.

ghost use Rattle.std.specs.Prelude.{◌≡◌, ℕ, ◌+◌, ◌↔◌, ◌≤◌, ◌<◌, true, [], length, map, filter, slice_get, slice_index_or, Some, None, OnOk, MatchOption, vec_len, vec_capacity};
ghost use Rattle.std.specs.List.Sorted.{IsNonDecreasing};
ghost use Rattle.mal_store.specs.{declared.entry.Entry.{Entry}, Indexed.{EntriesRise, entry_under, with_entry, is_kept, moved, settled}};

use crate::entry::{Entry, Held};
use crate::ids;
use mal_base::ClauseId;
use std::alloc::{AllocError, Global};
use std::marker::Model;

/// The numbers of derived clauses begin here, after those of all original clauses.
const FIRST_DERIVED: u64 = 4_294_967_296;

/// The entries of clauses by rising number. The original clauses, whose numbers are the smaller ones, have a list of
/// their own: new ones come also when derived clauses are held, and then nothing is shifted, since the newest of either
/// kind has mostly the greatest number of its kind. Contracts see one list, and how many entries there is room for.
#[derive(Drop)]
pub struct Index {
    originals: Vec<Entry>,
    derived: Vec<Entry>,
}

impl Model for Index {
    ghost use Rattle.std.specs.Prelude.{◌-◌, ◌++◌, min};
    ghost use Rattle.std.specs.Vec.{vec_len, vec_capacity};
    ghost use Rattle.mal_store.specs.Indexed.{Indexed, IsIndex};

    ghost Value = { Indexed };

    ghost view = { λ s. record {
      entries = s.originals.items ++ s.derived.items;
      room = min (vec_capacity s.originals - vec_len s.originals) (vec_capacity s.derived - vec_len s.derived);
    } };

    ghost invariant = { λ s. IsIndex s.originals.items s.derived.items };
}

impl Index {
    /// No entry, and no room. Takes no memory.
    pub fn new(alloc: Global) -> Index
        ensures { result ≡ record { entries = []; room = 0 } }
    {
        Index {
            originals: Vec::new(alloc),
            derived: Vec::new(alloc),
        }
    }

    /// Makes room for so many entries more.
    pub fn reserve(&mut self, entries: usize) -> Result<(), AllocError>
        ensures entries { self.new.entries ≡ self.old.entries }
        ensures room { OnOk result (entries ≤ self.new.room) }
        ensures more { self.old.room ≤ self.new.room }
    {
        self.originals.reserve(entries)?;
        self.derived.reserve(entries)?;
        Ok(())
    }

    /// The number of entries.
    pub fn len(&self) -> usize
        ensures { result ≡ length self.now.entries }
    {
        self.originals.len() + self.derived.len()
    }

    /// The entry at a place, counted from 0.
    pub fn at(&self, place: usize) -> &Entry
        requires { place < length self.now.entries }
        ensures { slice_get self.now.entries place ≡ Some result.now }
    {
        let before = self.originals.len();
        if place < before {
            return &self.originals[place];
        }
        &self.derived[place - before]
    }

    /// The entry of this number. None exactly where there is none.
    pub fn get(&self, id: ClauseId) -> Option<&Entry>
        ensures { MatchOption result (entry_under id self.now.entries ≡ None)
            (λ e. entry_under id self.now.entries ≡ Some e.now) }
    {
        if id.number() < FIRST_DERIVED {
            return get_in(self.originals.as_slice(), id);
        }
        get_in(self.derived.as_slice(), id)
    }

    /// Adds an entry under a number that has none, where there is room for it. Takes no memory.
    pub fn insert_reserved(&mut self, entry: Entry)
        requires new { entry_under entry.id self.old.entries ≡ None }
        requires room { 1 ≤ self.old.room }
        ensures entries { self.new.entries ≡ with_entry entry self.old.entries }
        ensures room { self.old.room ≤ self.new.room + 1 }
    {
        if entry.id.number() < FIRST_DERIVED {
            insert_in(&mut self.originals, entry);
        } else {
            insert_in(&mut self.derived, entry);
        }
    }

    /// Takes the entries of these numbers, which rise, away. Takes no memory.
    pub fn forget(&mut self, ids: &[ClauseId])
        requires { IsNonDecreasing ids.now }
        ensures entries { self.new.entries ≡ filter (is_kept ids.now) self.old.entries }
        ensures rising { EntriesRise 1 self.old.entries }
        ensures room { self.old.room ≤ self.new.room }
    {
        take_away(&mut self.originals, ids);
        take_away(&mut self.derived, ids);
    }

    /// The literals of the long clause of this number stand at this place now.
    pub fn settle(&mut self, id: ClauseId, place: u32)
        ensures entries { self.new.entries ≡ map (settled id place) self.old.entries }
        ensures room { self.new.room ≡ self.old.room }
    {
        if id.number() < FIRST_DERIVED {
            settle_in(&mut self.originals, id, place);
        } else {
            settle_in(&mut self.derived, id, place);
        }
    }
}

/// How many of the entries, by rising number, have a number below this one.
fn place_of(entries: &[Entry], id: ClauseId) -> usize
    requires { EntriesRise 1 entries.now }
    ensures some { 1 ≤ id }
    ensures bound { result ≤ length entries.now }
    ensures below { (k : ℕ) (d : Entry) → k < result → (slice_index_or entries.now k d).id < id }
    ensures above { (k : ℕ) (d : Entry) → result ≤ k → k < length entries.now
        → id ≤ (slice_index_or entries.now k d).id }
{
    let number = id.number();
    if are_below(entries, number) {
        return entries.len();
    }
    entries.partition_point(|entry| entry.id.number() < number)
}

/// Whether entries, by rising number, have numbers below this one. Only the last is looked at.
fn are_below(entries: &[Entry], number: u64) -> bool
    requires rising { EntriesRise 1 entries.now }
    ensures { result ≡ true → (k : ℕ) (d : Entry) → k < length entries.now
        → (slice_index_or entries.now k d).id < number }
{
    if entries.is_empty() {
        return true;
    }
    let last = entries[entries.len() - 1];
    last.id.number() < number
}

/// Where the entry of a number stands if numbers are dense: those of the original clauses, which begin with 1, and
/// those that one solver derives, each 64 above the one before it, up to the last.
fn guess_of(entries: &[Entry], number: u64) -> usize {
    if number < FIRST_DERIVED {
        return number.saturating_sub(1) as usize;
    }
    match entries.last() {
        None => 0,
        Some(last) => {
            let back = last.id.number().saturating_sub(number) / 64;
            (entries.len() - 1).saturating_sub(back as usize)
        }
    }
}

/// Where the entry of this number stands among entries by rising number. None exactly where there is none.
fn position_of(entries: &[Entry], id: ClauseId) -> Option<usize>
    requires { EntriesRise 1 entries.now }
    ensures { MatchOption result (entry_under id entries.now ≡ None)
        (λ k. (k < length entries.now) × (entry_under id entries.now ≡ slice_get entries.now k)) }
{
    let guess = guess_of(entries, id.number());
    if guess < entries.len() && has_id(&entries[guess], id) {
        return Some(guess);
    }
    let place = place_of(entries, id);
    if place < entries.len() && has_id(&entries[place], id) {
        return Some(place);
    }
    None
}

/// Whether an entry has this number.
fn has_id(entry: &Entry, id: ClauseId) -> bool
    ensures { result ≡ true ↔ entry.now.id ≡ id }
{
    entry.id == id
}

/// The entry of this number among entries by rising number. None exactly where there is none.
fn get_in(entries: &[Entry], id: ClauseId) -> Option<&Entry>
    requires { EntriesRise 1 entries.now }
    ensures { MatchOption result (entry_under id entries.now ≡ None) (λ e. entry_under id entries.now ≡ Some e.now) }
{
    match position_of(entries, id) {
        None => None,
        Some(place) => Some(&entries[place]),
    }
}

/// Adds an entry to entries by rising number, under a number that has none, where there is room for it. Takes no
/// memory.
fn insert_in(entries: &mut Vec<Entry>, entry: Entry)
    requires rising { EntriesRise 1 entries.old.items }
    requires new { entry_under entry.id entries.old.items ≡ None }
    requires room { vec_len entries.old < vec_capacity entries.old }
    ensures some { 1 ≤ entry.id }
    ensures items { entries.new.items ≡ with_entry entry entries.old.items }
    ensures len { vec_len entries.new ≡ vec_len entries.old + 1 }
    ensures capacity { vec_capacity entries.new ≡ vec_capacity entries.old }
{
    let place = place_of(entries.as_slice(), entry.id);
    let _ = entries.insert(place, entry);
}

/// Takes the entries of these numbers, which rise, away. Takes no memory.
fn take_away(entries: &mut Vec<Entry>, ids: &[ClauseId])
    requires { IsNonDecreasing ids.now }
    ensures items { entries.new.items ≡ filter (is_kept ids.now) entries.old.items }
    ensures capacity { vec_capacity entries.new ≡ vec_capacity entries.old }
    ensures len { vec_len entries.new ≤ vec_len entries.old }
{
    entries.retain(|entry| !ids::is_among(ids, entry.id));
}

/// The literals of the long clause of this number, among entries by rising number, stand at this place now.
fn settle_in(entries: &mut Vec<Entry>, id: ClauseId, place: u32)
    requires { EntriesRise 1 entries.old.items }
    ensures items { entries.new.items ≡ map (settled id place) entries.old.items }
    ensures len { vec_len entries.new ≡ vec_len entries.old }
    ensures capacity { vec_capacity entries.new ≡ vec_capacity entries.old }
{
    match position_of(entries.as_slice(), id) {
        None => {}
        Some(at) => {
            let held = moved_to(entries[at].held, place);
            entries[at] = Entry { id, held };
        }
    }
}

/// A long clause's literals at this place; a short one's where they are.
fn moved_to(held: Held, place: u32) -> Held
    ensures { result ≡ moved place held }
{
    match held {
        Held::Long(_) => Held::Long(place),
        Held::One(lits) => Held::One(lits),
        Held::Empty => Held::Empty,
    }
}
