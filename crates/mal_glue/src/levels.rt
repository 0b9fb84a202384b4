//! Counting the levels of literals.

ghost use Rattle.std.specs.Prelude.{◌≡◌, ◌≤◌, ◌<◌, All, length, OnOk};
ghost use Rattle.spec_guided.specs.Glue.{glue};

use crate::entry::level_in;
use mal_base::Lit;
use mal_learn::Flags;
use mal_trail::Trail;
use std::alloc::{AllocError, Global};
use std::marker::Model;

/// What the levels of literals are counted in: a flag for each level. Contracts see below which level there is room.
#[derive(Drop)]
pub struct Levels {
    flags: Flags,
}

impl Model for Levels {
    ghost use Rattle.std.specs.Prelude.{ℕ, length};

    ghost Value = { ℕ };

    ghost view = { λ l. length l.flags };
}

impl Levels {
    /// Room for no level. Takes no memory.
    pub fn new(alloc: Global) -> Levels
        ensures { result ≡ 0 }
    {
        Levels {
            flags: Flags::new(alloc),
        }
    }

    /// Makes room for the levels below this one.
    pub fn fit(&mut self, levels: usize) -> Result<(), AllocError>
        ensures room { OnOk result (levels ≤ self.new) }
        ensures more { self.old ≤ self.new }
    {
        self.flags.fit(levels)
    }

    /// The glue of literals: how many different levels they have on the trail, for whose levels there is room. A variable
    /// that is not on the trail counts as of level 0. Takes no memory.
    pub fn glue(&mut self, trail: &Trail, lits: &[Lit]) -> usize
        requires some { 1 ≤ self.old }
        requires room { All (λ e. e.level < self.old) trail.now.entries }
        ensures value { result ≡ glue trail.now.entries lits.now }
        ensures few { result ≤ length lits.now }
        ensures room { self.new ≡ self.old }
    {
        self.flags.clear();
        let mut count = 0;
        for lit in lits {
            let level = level_in(trail, lit.var()) as usize;
            if !self.flags.has(level) {
                self.flags.insert(level);
                count += 1;
            }
        }
        count
    }
}
