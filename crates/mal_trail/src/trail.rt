//! The trail: the literals that are true, in the order in which they became so.

ghost use Rattle.std.specs.Prelude.{vec_len, vec_capacity, All, ◌≡◌, ℕ, ◌+◌, ◌-◌, ◌≤◌, ◌<◌, false, [], ◌∷◌, ◌++◌, length, take, drop, map, min, nat_lt, true, slice_get, slice_set, Some, None, OnOk};
ghost use Rattle.mal_base.specs.{Limits.{greatest_variable}, Literals.{var_of, literal, negated, IsLiteral}, Trails.{value_on}, declared.trail_entry.TrailEntry.{TrailEntry}};
ghost use Rattle.spec_node.specs.{Load.{counted}, Cut.{kept, removed}, Value.{is_true, is_false, has_value, level_of}};
ghost use Rattle.mal_trail.specs.Trailed.{false_place, cleared};

use mal_base::{ClauseId, Lit, TrailEntry, TrailView, Var};
use std::alloc::{AllocError, Global};
use std::marker::Model;

/// A trail, on which no variable stands twice and no level falls, and how many of its propagation batches count as
/// handled: at most one more than it has entries. Contracts see its entries, the batches and the greatest variable that
/// it has room for. Beside the entries stands for each literal, by its code, the index of the entry that makes it
/// false, and the greatest number where there is none.
#[derive(Drop)]
pub struct Trail {
    entries: Vec<TrailEntry>,
    false_places: Vec<u32>,
    processed: u32,
    room: u32,
}

impl Model for Trail {
    ghost use Rattle.std.specs.Vec.{vec_capacity};
    ghost use Rattle.mal_trail.specs.Trailed.{Trailed, IsTrail};

    ghost Value = { Trailed };

    ghost view = { λ t. record { entries = t.entries.items; processed = t.processed; room = t.room } };

    ghost invariant = { λ t. IsTrail t.room t.processed t.entries.items (vec_capacity t.entries) t.false_places.items };
}

impl Trail {
    /// The trail without an entry, which has room for no variable.
    pub fn new(alloc: Global) -> Trail
        ensures { result ≡ record { entries = []; processed = 0; room = 0 } }
    {
        Trail {
            entries: Vec::new(alloc),
            false_places: Vec::new(alloc),
            processed: 0,
            room: 0,
        }
    }

    /// Makes room for the variables up to this one, which a literal can be of.
    pub fn reserve(&mut self, variables: u32) -> Result<(), AllocError>
        requires { variables ≤ greatest_variable }
        ensures entries { self.new.entries ≡ self.old.entries }
        ensures processed { self.new.processed ≡ self.old.processed }
        ensures room { OnOk result (variables ≤ self.new.room) }
        ensures more { self.old.room ≤ self.new.room }
    {
        if variables <= self.room {
            return Ok(());
        }
        self.entries.reserve(variables as usize)?;
        self.false_places
            .resize(2 * variables as usize + 2, u32::MAX)?;
        self.room = variables;
        Ok(())
    }

    /// The entries, in the order in which they came.
    pub fn entries(&self) -> &[TrailEntry]
        ensures { result.now ≡ self.now.entries }
    {
        self.entries.as_slice()
    }

    /// The number of entries, at most that of the variables that literals can be of.
    pub fn len(&self) -> usize
        ensures value { result ≡ length self.now.entries }
        ensures bound { result ≤ greatest_variable }
    {
        self.entries.len()
    }

    /// Whether the literal is true.
    pub fn is_true(&self, lit: Lit) -> bool
        ensures { result ≡ is_true self.now.entries lit }
    {
        self.is_true_before(self.entries.len(), lit)
    }

    /// Whether the literal is false.
    pub fn is_false(&self, lit: Lit) -> bool
        ensures { result ≡ is_false self.now.entries lit }
    {
        self.is_false_before(self.entries.len(), lit)
    }

    /// Whether the literal is true under the first entries alone, so many.
    pub fn is_true_before(&self, count: usize, lit: Lit) -> bool
        requires { count ≤ length self.now.entries }
        ensures { result ≡ is_true (take count self.now.entries) lit }
    {
        (place_at(self.false_places.as_slice(), negation_code(lit)) as usize) < count
    }

    /// Whether the literal is false under the first entries alone, so many.
    pub fn is_false_before(&self, count: usize, lit: Lit) -> bool
        requires { count ≤ length self.now.entries }
        ensures { result ≡ is_false (take count self.now.entries) lit }
    {
        self.open_until(lit) < count
    }

    /// How many of the first entries leave the literal not false: under more of them it is false.
    pub fn open_until(&self, lit: Lit) -> usize
        ensures { (n : ℕ) → n ≤ length self.now.entries
            → is_false (take n self.now.entries) lit ≡ nat_lt result n }
    {
        let code = lit.code() as usize;
        place_at(self.false_places.as_slice(), code) as usize
    }

    /// No literal is true and false. There is nothing to be done for it.
    pub fn is_consistent(&self)
        ensures { (lit : ℕ) → is_true self.now.entries lit ≡ true → is_false self.now.entries lit ≡ false }
    {
        let _count = self.entries.len();
    }

    /// Whether the variable has a value.
    pub fn has_value(&self, var: Var) -> bool
        ensures { result ≡ has_value self.now.entries var }
    {
        self.is_true(var.literal(true)) || self.is_true(var.literal(false))
    }

    /// Writes into an empty list with room for them whether the variables, so many, are true, in rising order. Takes no
    /// memory.
    pub fn truth_values(&self, variables: u32, values: &mut Vec<bool>)
        requires bound { variables ≤ greatest_variable }
        requires empty { values.old.items ≡ [] }
        requires room { variables ≤ vec_capacity values.old }
        ensures items { values.new.items ≡ map (λ v. is_true self.now.entries (literal v true)) (counted 1 variables) }
        ensures len { length values.new.items ≡ variables }
    {
        for place in 0..variables {
            values.push_reserved(self.is_true(Var::of(place + 1).literal(true)));
        }
    }

    /// The decision level that the trail has reached, at most the number of its entries.
    pub fn level(&self) -> u32
        ensures value { result ≡ level_of self.now.entries }
        ensures bound { result ≤ length self.now.entries }
        ensures limit { result ≤ greatest_variable }
    {
        match self.entries.last() {
            None => 0,
            Some(entry) => entry.level,
        }
    }

    /// The value of a variable. None exactly where it is not on the trail.
    pub fn value(&self, var: Var) -> Option<bool>
        ensures { result ≡ value_on self.now.entries var }
    {
        let count = self.entries.len();
        if self.is_true_before(count, var.literal(true)) {
            return Some(true);
        }
        if self.is_true_before(count, var.literal(false)) {
            return Some(false);
        }
        None
    }

    /// How many propagation batches count as handled: at most one more than the trail has entries.
    pub fn processed(&self) -> u32
        ensures value { result ≡ self.now.processed }
        ensures bound { result ≤ length self.now.entries + 1 }
        ensures limit { result ≤ greatest_variable + 1 }
    {
        self.processed
    }

    /// Says how many propagation batches count as handled: at most one more than the trail has entries.
    pub fn set_processed(&mut self, processed: u32)
        requires { processed ≤ length self.old.entries + 1 }
        ensures entries { self.new.entries ≡ self.old.entries }
        ensures processed { self.new.processed ≡ processed }
        ensures room { self.new.room ≡ self.old.room }
    {
        self.processed = processed;
    }

    /// Makes a literal true whose variable has no value, by a clause or, where there is none, as a decision. Its level
    /// is that of the last entry (0 on an empty trail) or the next. Takes no memory.
    pub fn push(&mut self, lit: Lit, reason: Option<ClauseId>, level: u32)
        requires room { var_of lit ≤ self.old.room }
        requires free { has_value self.old.entries (var_of lit) ≡ false }
        requires last { level_of self.old.entries ≤ level }
        requires next { level ≤ level_of self.old.entries + 1 }
        ensures entries { self.new.entries
            ≡ self.old.entries ++ record { lit = lit; reason = reason; level = level } ∷ [] }
        ensures processed { self.new.processed ≡ self.old.processed }
        ensures room { self.new.room ≡ self.old.room }
    {
        let code = negation_code(lit);
        self.false_places[code] = self.entries.len() as u32;
        self.entries
            .push_reserved(TrailEntry { lit, reason, level });
    }

    /// Gives the entry at a place another reason: a clause that forces its literal too.
    pub fn set_reason(&mut self, place: usize, reason: ClauseId)
        requires { place < length self.old.entries }
        ensures entries { (e : TrailEntry) → slice_get self.old.entries place ≡ Some e
            → self.new.entries ≡ slice_set self.old.entries place (record { lit = e.lit; reason = Some reason; level = e.level }) }
        ensures processed { self.new.processed ≡ self.old.processed }
        ensures room { self.new.room ≡ self.old.room }
    {
        let entry = self.entries[place];
        self.entries[place] = TrailEntry {
            reason: Some(reason),
            ..entry
        };
    }

    /// Leaves the first entries, so many. No more batches count as handled than the trail then has prefixes.
    fn cut(&mut self, count: usize)
        requires { count ≤ length self.old.entries }
        ensures entries { self.new.entries ≡ take count self.old.entries }
        ensures processed { self.new.processed ≡ min self.old.processed (count + 1) }
        ensures room { self.new.room ≡ self.old.room }
    {
        let removed = behind(self.entries.as_slice(), count);
        clear_places(&mut self.false_places, removed);
        self.entries.truncate(count);
        self.processed = self.processed.min(count as u32 + 1);
    }

    /// How many entries are of this level or of one below it: these stand in front.
    fn count_up_to(&self, level: u32) -> usize
        ensures count { result ≡ length (kept level self.now.entries) }
        ensures bound { result ≤ length self.now.entries }
    {
        self.entries.partition_point(|entry| entry.level <= level)
    }

    /// The entries above this level: those that a cut back to it takes away.
    pub fn above(&self, level: u32) -> &[TrailEntry]
        ensures { result.now ≡ removed level self.now.entries }
    {
        let count = self.count_up_to(level);
        behind(self.entries.as_slice(), count)
    }

    /// Takes away the entries above this level. No more batches count as handled than the trail then has prefixes.
    pub fn back_to(&mut self, level: u32)
        ensures entries { self.new.entries ≡ kept level self.old.entries }
        ensures processed { self.new.processed ≡ min self.old.processed (length (kept level self.old.entries) + 1) }
        ensures room { self.new.room ≡ self.old.room }
    {
        let count = self.count_up_to(level);
        self.cut(count);
    }
}

impl TrailView for Trail {
    ghost entries = { λ t. t.entries };

    fn len(&self) -> usize {
        Trail::len(self)
    }

    fn at(&self, place: usize) -> TrailEntry {
        self.entries[place]
    }

    fn value(&self, var: Var) -> Option<bool> {
        Trail::value(self, var)
    }
}

/// The entries after the first, so many.
fn behind(entries: &[TrailEntry], count: usize) -> &[TrailEntry]
    requires { count ≤ length entries.now }
    ensures { result.now ≡ drop count entries.now }
{
    &entries[count..]
}

/// Makes it so that no entry makes the literals false that these entries make false.
fn clear_places(places: &mut Vec<u32>, entries: &[TrailEntry])
    requires { All (λ e. negated e.lit < vec_len places.old) entries.now }
    ensures { places.new.items ≡ cleared entries.now places.old.items }
{
    for entry in entries {
        places[negation_code(entry.lit)] = u32::MAX;
    }
}

/// The place of the entry that makes the literal of a code false, the greatest number where there is none.
fn place_at(places: &[u32], code: usize) -> u32
    ensures { result ≡ false_place places.now code }
{
    if code < places.len() {
        places[code]
    } else {
        u32::MAX
    }
}

/// The code of a literal's negation.
fn negation_code(lit: Lit) -> usize
    ensures value { result ≡ negated lit }
    ensures range { IsLiteral lit }
{
    // A literal and its negation differ in the last bit.
    (lit.code() ^ 1) as usize
}
