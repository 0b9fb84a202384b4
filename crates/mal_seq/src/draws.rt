//! The draws of a linear congruential generator.

ghost use Rattle.std.specs.Prelude.{◌≡◌, ◌%◌, ◌^◌, ◌<◌, ◌≤◌};
ghost use Rattle.spec_seq.specs.Draws.{next, drawn};

use std::marker::Model;

/// A generator of numbers from 0 to 32,767. Contracts see its state, a number below 2^31.
#[derive(Clone, Copy, Debug, PartialEq, Eq)]
pub struct Draws {
    state: u32,
}

impl Model for Draws {
    ghost use Rattle.std.specs.Prelude.{ℕ, ◌<◌, ◌^◌};

    ghost Value = { ℕ };

    ghost view = { λ d. d.state };

    ghost invariant = { λ d. d.state < 2 ^ 31 };

    ghost inverse = { λ n. record { state = n } };
}

impl Draws {
    /// The generator at this seed, which is below 2^31.
    pub fn new(seed: u32) -> Draws
        requires { seed < 2 ^ 31 }
        ensures { result ≡ seed }
    {
        Draws { state: seed }
    }

    /// The next draw, from 0 to 32,767.
    pub fn next(&mut self) -> u32
        ensures state { self.new ≡ next self.old }
        ensures value { result ≡ drawn self.new }
        ensures bound { result < 32768 }
    {
        let state = (u64::from(self.state) * 1_103_515_245 + 12_345) % (1 << 31);
        self.state = state as u32;
        self.state / 65_536
    }

    /// The next draw modulo n, which is at least 1. It is not even for an n that does not divide 32,768.
    pub fn pick(&mut self, n: u32) -> u32
        requires { 1 ≤ n }
        ensures state { self.new ≡ next self.old }
        ensures value { result ≡ drawn self.new % n }
        ensures bound { result < n }
    {
        self.next() % n
    }
}
