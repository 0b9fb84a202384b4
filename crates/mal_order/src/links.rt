//! Links from place to place.

ghost use Rattle.std.specs.Prelude.{◌≡◌, ◌+◌, ◌≤◌, ◌<◌, length, [], ◌∷◌, ◌++◌, replicate, set, vec_len, vec_capacity, OnOk};
ghost use Rattle.mal_order.specs.Rings.{link};

use std::alloc::{AllocError, Global};
use std::marker::Model;

/// A number at each place from 0 on, where the place 0 always stands. Contracts see the numbers, and for how many more
/// places there is room.
#[derive(Drop)]
pub struct Links {
    first: u32,
    rest: Vec<u32>,
}

impl Model for Links {
    ghost use Rattle.std.specs.Prelude.{◌-◌, ◌∷◌};
    ghost use Rattle.std.specs.Vec.{vec_len, vec_capacity};
    ghost use Rattle.mal_order.specs.Rings.{Linked};

    ghost Value = { Linked };

    ghost view = { λ l. record {
      numbers = l.first ∷ l.rest.items;
      room = vec_capacity l.rest - vec_len l.rest;
    } };
}

impl Links {
    /// The number 0 at the place 0. Takes no memory.
    pub fn new(alloc: Global) -> Links
        ensures { result.numbers ≡ 0 ∷ [] }
    {
        Links {
            first: 0,
            rest: Vec::new(alloc),
        }
    }

    /// Where its memory comes from.
    pub fn allocator(&self) -> Global {
        *self.rest.allocator()
    }

    /// The number at a place, 0 where there is none.
    pub fn get(&self, place: u32) -> u32
        ensures { result ≡ link self.now.numbers place }
    {
        if place == 0 {
            return self.first;
        }
        let behind = place as usize - 1;
        if behind < self.rest.len() {
            self.rest[behind]
        } else {
            0
        }
    }

    /// Puts a number at a place.
    pub fn set(&mut self, place: u32, number: u32)
        requires { place < length self.old.numbers }
        ensures numbers { self.new.numbers ≡ set self.old.numbers place number }
        ensures room { self.new.room ≡ self.old.room }
    {
        if place == 0 {
            self.first = number;
        } else {
            self.rest[place as usize - 1] = number;
        }
    }

    /// Makes room for n more places. The numbers stay as they are.
    pub fn reserve(&mut self, n: u32) -> Result<(), AllocError>
        ensures numbers { self.new.numbers ≡ self.old.numbers }
        ensures room { OnOk result (n ≤ self.new.room) }
        ensures more { self.old.room ≤ self.new.room }
    {
        self.rest.reserve(n as usize)?;
        Ok(())
    }

    /// Appends n places, for which there is room, with the number 0. Takes no memory.
    pub fn grow_reserved(&mut self, n: u32)
        requires { n ≤ self.old.room }
        ensures numbers { self.new.numbers ≡ self.old.numbers ++ replicate n 0 }
        ensures room { self.new.room + n ≡ self.old.room }
    {
        push_zeros(&mut self.rest, n);
    }
}

/// Appends n times the number 0.
fn push_zeros(list: &mut Vec<u32>, n: u32)
    requires { vec_len list.old + n ≤ vec_capacity list.old }
    ensures items { list.new.items ≡ list.old.items ++ replicate n 0 }
    ensures len { vec_len list.new ≡ vec_len list.old + n }
    ensures capacity { vec_capacity list.new ≡ vec_capacity list.old }
{
    for _place in 0..n {
        list.push_reserved(0);
    }
}
