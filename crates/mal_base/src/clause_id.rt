//! The numbers of clauses.

ghost use Rattle.std.specs.Prelude.{◌≡◌, ℕ, ◌+◌, ◌*◌, ◌^◌, ◌<◌, ◌≤◌, MatchOption};

use std::marker::Model;

/// The number of a clause. The original clauses of a job are 1 to 2^32 - 1 over all its revisions; the clause that the
/// solver with this index derives with this serial is `2^32 + 64 * serial + index`. Contracts see the number.
#[derive(Clone, Copy, Debug, PartialEq, Eq, PartialOrd, Ord)]
pub struct ClauseId {
    number: u64,
}

impl Model for ClauseId {
    ghost Value = { ℕ };

    ghost view = { λ c. c.number };

    ghost invariant = { λ c. 1 ≤ c.number };

    ghost inverse = { λ n. record { number = n } };
}

impl ClauseId {
    /// The number of a clause. None exactly for 0.
    pub fn of(number: u64) -> Option<ClauseId>
        ensures { MatchOption result (number ≡ 0) (λ id. (id ≡ number) × (1 ≤ number)) }
    {
        if number == 0 {
            None
        } else {
            Some(ClauseId { number })
        }
    }

    /// The number of an original clause, at least 1.
    pub fn original(number: u32) -> ClauseId
        requires { 1 ≤ number }
        ensures { result ≡ number }
    {
        ClauseId {
            number: u64::from(number),
        }
    }

    /// The number of the clause that a solver derives. The serial is below 2^57, the index at most 63.
    pub fn derived(serial: u64, index: u32) -> ClauseId
        requires serial_bound { serial < 2 ^ 57 }
        requires index_bound { index ≤ 63 }
        ensures { result ≡ 2 ^ 32 + serial * 64 + index }
    {
        ClauseId {
            number: (1 << 32) + serial * 64 + u64::from(index),
        }
    }

    /// The number itself, at least 1.
    pub fn number(self) -> u64
        ensures value { result ≡ self }
        ensures some { 1 ≤ result }
    {
        self.number
    }
}
