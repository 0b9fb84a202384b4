//! Places of the tree.

ghost use Rattle.std.specs.Prelude.{◌≡◌, ℕ, ◌+◌, ◌-◌, ◌*◌, ◌/◌, ◌<◌, ◌≤◌, nat_lt, MatchOption};

use std::marker::Model;

/// The greatest index.
const LAST: u32 = 63;

/// The place of a solver in its job's tree, from 0 (the root) to 63. Contracts see the number.
#[derive(Clone, Copy, Debug)]
pub struct Index {
    number: u32,
}

impl Model for Index {
    ghost Value = { ℕ };

    ghost view = { λ i. i.number };

    ghost invariant = { λ i. i.number ≤ 63 };

    ghost inverse = { λ n. record { number = n } };
}

impl Index {
    /// The place of this number, at most 63.
    pub fn of(number: u32) -> Index
        requires { number ≤ 63 }
        ensures { result ≡ number }
    {
        Index { number }
    }

    /// The number of the place, at most 63.
    pub fn number(self) -> u32
        ensures value { result ≡ self }
        ensures bound { result ≤ 63 }
    {
        self.number
    }

    /// The place above. None exactly for the root.
    pub fn parent(self) -> Option<Index>
        ensures { MatchOption result (self ≡ 0) (λ p. (1 ≤ self) × (p ≡ (self - 1) / 2) × (p < self)) }
    {
        if self.number == 0 {
            None
        } else {
            Some(Index {
                number: (self.number - 1) / 2,
            })
        }
    }

    /// The two places below, `2x + 1` and `2x + 2` for place x. None exactly above 63.
    pub fn children(self) -> (Option<Index>, Option<Index>)
        ensures left { MatchOption result.0 (63 < 2 * self + 1) (λ c. c ≡ 2 * self + 1) }
        ensures right { MatchOption result.1 (63 < 2 * self + 2) (λ c. c ≡ 2 * self + 2) }
    {
        (
            Index::within(2 * self.number + 1),
            Index::within(2 * self.number + 2),
        )
    }

    /// Whether a job of this volume has a solver at the place: exactly where the number is below the volume.
    pub fn is_active(self, volume: u32) -> bool
        ensures { result ≡ nat_lt self volume }
    {
        self.number < volume
    }

    /// The place of this number. None exactly above 63.
    fn within(number: u32) -> Option<Index>
        ensures { MatchOption result (63 < number) (λ i. (i ≡ number) × (number ≤ 63)) }
    {
        if number <= LAST {
            Some(Index { number })
        } else {
            None
        }
    }
}
