//! Flags that are cleared all at once.

ghost use Rattle.std.specs.Prelude.{◌≡◌, ◌≤◌, ◌<◌, true, false, length, replicate, slice_index_or, slice_set, OnOk, []};

use std::alloc::{AllocError, Global};
use std::marker::Model;

/// A flag for each number below a bound. A flag is set where its stamp is the current one, so that all are cleared by
/// the next stamp. Contracts see the flags.
#[derive(Drop)]
pub struct Flags {
    stamps: Vec<u64>,
    stamp: u64,
}

impl Model for Flags {
    ghost use Rattle.std.specs.Prelude.{List, Bool};
    ghost use Rattle.mal_learn.specs.Stamps.{flags_at, AreStamped};

    ghost Value = { List Bool };

    ghost view = { λ f. flags_at f.stamp f.stamps.items };

    ghost invariant = { λ f. AreStamped f.stamp f.stamps.items };
}

impl Flags {
    /// No flags. Takes no memory.
    pub fn new(alloc: Global) -> Flags
        ensures { result ≡ [] }
    {
        Flags {
            stamps: Vec::new(alloc),
            stamp: 1,
        }
    }

    /// Makes so many flags, if there are fewer. An error means that memory ran out, and that there are no fewer flags
    /// than before.
    pub fn fit(&mut self, count: usize) -> Result<(), AllocError>
        ensures len { OnOk result (count ≤ length self.new) }
        ensures more { length self.old ≤ length self.new }
    {
        if count <= self.stamps.len() {
            return Ok(());
        }
        self.stamps.resize(count, 0)?;
        Ok(())
    }

    /// Clears all flags, as many as there are. Takes no memory, and a constant time but once in 2^64 calls.
    pub fn clear(&mut self)
        ensures { self.new ≡ replicate (length self.old) false }
    {
        if self.stamp == u64::MAX {
            wipe(&mut self.stamps);
            self.stamp = 1;
        } else {
            self.stamp += 1;
        }
    }

    /// Sets the flag of a number, which must be below the number of flags.
    pub fn insert(&mut self, place: usize)
        requires { place < length self.old }
        ensures { self.new ≡ slice_set self.old place true }
    {
        self.stamps[place] = self.stamp;
    }

    /// Clears the flag of a number, which must be below the number of flags.
    pub fn remove(&mut self, place: usize)
        requires { place < length self.old }
        ensures { self.new ≡ slice_set self.old place false }
    {
        self.stamps[place] = 0;
    }

    /// Whether the flag of a number, which must be below the number of flags, is set.
    pub fn has(&self, place: usize) -> bool
        requires { place < length self.now }
        ensures { result ≡ slice_index_or self.now place false }
    {
        self.stamps[place] == self.stamp
    }
}

/// Makes all stamps 0.
fn wipe(stamps: &mut Vec<u64>)
    ensures { stamps.new.items ≡ replicate (length stamps.old.items) 0 }
{
    stamps.as_mut_slice().fill(0);
}
