//! A ring of numbers, linked in both directions.

ghost use Rattle.mal_base.specs.Limits.{greatest_variable};
ghost use Rattle.std.specs.Prelude.{◌≡◌, ◌≢◌, ◌==◌, ℕ, ◌+◌, ◌≤◌, ◌<◌, true, length, [], ◌∷◌, ◌++◌, get_or, set, OnOk};
ghost use Rattle.std.specs.List.{list_any};
ghost use Rattle.spec_learn.specs.Order.{moved};
ghost use Rattle.mal_order.specs.Rings.{IsApart};

use crate::links::Links;
use std::alloc::{AllocError, Global};
use std::marker::Model;

/// Numbers in order, each once, linked by index in both directions from the place 0 back to it. Contracts see how many
/// places there are, the numbers in order, and for how many more places there is room.
#[derive(Drop)]
pub struct Ring {
    after: Links,
    before: Links,
    count: u32,
    spare: u32,
}

impl Model for Ring {
    ghost use Rattle.std.specs.Prelude.{length};
    ghost use Rattle.mal_order.specs.Rings.{Ringed, IsRing, walk};

    ghost Value = { Ringed };

    ghost view = { λ r. record {
      places = length r.after.numbers;
      list = walk r.after.numbers 0 r.count;
      room = r.spare;
    } };

    ghost invariant = { λ r. IsRing r.after r.before (walk r.after.numbers 0 r.count) r.spare };
}

impl Ring {
    /// The place 0 alone. Takes no memory.
    pub fn new(alloc: Global) -> Ring
        ensures places { result.places ≡ 1 }
        ensures list { result.list ≡ [] }
    {
        Ring {
            after: Links::new(alloc),
            before: Links::new(alloc),
            count: 0,
            spare: 0,
        }
    }

    /// Where its memory comes from.
    pub fn allocator(&self) -> Global {
        self.after.allocator()
    }

    /// How many numbers there are.
    pub fn len(&self) -> u32
        ensures { result ≡ length self.now.list }
    {
        self.count
    }

    /// Makes room for n more places. The ring stays as it is.
    pub fn reserve(&mut self, n: u32) -> Result<(), AllocError>
        ensures places { self.new.places ≡ self.old.places }
        ensures list { self.new.list ≡ self.old.list }
        ensures room { OnOk result (n ≤ self.new.room) }
        ensures more { self.old.room ≤ self.new.room }
    {
        self.after.reserve(n)?;
        self.before.reserve(n)?;
        self.spare = self.spare.max(n);
        Ok(())
    }

    /// Appends n places, for which there is room. Takes no memory.
    pub fn grow_reserved(&mut self, n: u32)
        requires { n ≤ self.old.room }
        ensures places { self.new.places ≡ self.old.places + n }
        ensures list { self.new.list ≡ self.old.list }
        ensures new { (v : ℕ) → self.old.places ≤ v → IsApart v self.new.list }
        ensures room { self.new.room + n ≡ self.old.room }
    {
        self.after.grow_reserved(n);
        self.before.grow_reserved(n);
        self.spare -= n;
    }

    /// Puts a number that has a place and is not there after the others.
    pub fn push(&mut self, number: u32)
        requires some { 1 ≤ number }
        requires place { number < self.old.places }
        requires new { IsApart number self.old.list }
        requires bound { length self.old.list < greatest_variable }
        ensures places { self.new.places ≡ self.old.places }
        ensures list { self.new.list ≡ self.old.list ++ number ∷ [] }
        ensures room { self.new.room ≡ self.old.room }
    {
        let last = self.before.get(0);
        tie(&mut self.after, &mut self.before, last, number);
        tie(&mut self.after, &mut self.before, number, 0);
        self.count += 1;
    }

    /// Moves a number of the ring to the front.
    pub fn bump(&mut self, number: u32)
        requires { list_any (λ w. w == number) self.old.list ≡ true }
        ensures places { self.new.places ≡ self.old.places }
        ensures list { self.new.list ≡ moved number self.old.list }
        ensures len { length self.new.list ≡ length self.old.list }
        ensures room { self.new.room ≡ self.old.room }
    {
        let left = self.before.get(number);
        let right = self.after.get(number);
        tie(&mut self.after, &mut self.before, left, right);
        let first = self.after.get(0);
        tie(&mut self.after, &mut self.before, number, first);
        tie(&mut self.after, &mut self.before, 0, number);
    }

    /// The number after this one, or the first after 0: 0 after the last, and where the number is not in the ring.
    pub fn next(&self, number: u32) -> u32
        ensures within { (p : ℕ) → number ≡ get_or (0 ∷ self.now.list) p 0 → p < length self.now.list
            → (result ≡ get_or self.now.list p 0) × (1 ≤ result) × (result < self.now.places) }
        ensures last { number ≡ get_or (0 ∷ self.now.list) (length self.now.list) 0 → result ≡ 0 }
        ensures others { number ≢ 0 → IsApart number self.now.list → result ≡ 0 }
    {
        self.after.get(number)
    }
}

/// Makes one place the next of another.
fn tie(after: &mut Links, before: &mut Links, place: u32, next: u32)
    requires here { place < length after.old.numbers }
    requires there { next < length before.old.numbers }
    ensures after { after.new.numbers ≡ set after.old.numbers place next }
    ensures before { before.new.numbers ≡ set before.old.numbers next place }
    ensures room_after { after.new.room ≡ after.old.room }
    ensures room_before { before.new.room ≡ before.old.room }
{
    after.set(place, next);
    before.set(next, place);
}
