//! An activity.

ghost use Rattle.std.specs.Prelude.{◌≡◌, ◌<◌, ◌≤◌, ◌*◌, ◌^◌, MatchOption, false};
ghost use Rattle.spec_activity.specs.Activity.{unit, exponent, mantissa, is_activity, one, carried, raised, plus, grown};

use std::marker::Model;

/// The bits of a mantissa.
const BITS: u64 = 24;

/// What follows the greatest mantissa.
const UNIT: u64 = 1 << 24;

/// How often and how lately a variable or a clause took part in conflicts: an exponent above the 24 bits of a mantissa,
/// whose upper bit is set, or 0. They are compared as numbers. Contracts see the number.
#[derive(Clone, Copy, Debug, PartialEq, Eq, PartialOrd, Ord)]
pub struct Activity {
    number: u64,
}

impl Model for Activity {
    ghost use Rattle.std.specs.Prelude.{ℕ, ◌≡◌, true};
    ghost use Rattle.spec_activity.specs.Activity.{is_activity};

    ghost Value = { ℕ };

    ghost view = { λ a. a.number };

    ghost invariant = { λ a. is_activity a.number ≡ true };

    ghost inverse = { λ n. record { number = n } };
}

impl Activity {
    /// The activity of what took part in no conflict.
    pub fn none() -> Activity
        ensures { result ≡ 0 }
    {
        Activity { number: 0 }
    }

    /// What activities begin to rise by.
    pub fn one() -> Activity
        ensures { result ≡ one }
    {
        Activity {
            number: UNIT + UNIT / 2,
        }
    }

    /// The activity with this number. None exactly where the number is out of form.
    pub fn of(number: u64) -> Option<Activity>
        ensures { MatchOption result (is_activity number ≡ false) (λ a. a ≡ number) }
    {
        if number == 0 || UNIT / 2 <= number % UNIT {
            Some(Activity { number })
        } else {
            None
        }
    }

    /// The number.
    pub fn number(self) -> u64
        ensures { result ≡ self }
    {
        self.number
    }

    /// The sum. Below 2^63 are activities of 2^39 conflicts.
    pub fn plus(self, other: Activity) -> Activity
        requires own { self < 2 ^ 63 }
        requires other { other < 2 ^ 63 }
        ensures { result ≡ plus self other }
    {
        if self.number < other.number {
            Activity {
                number: raised(other.number, self.number),
            }
        } else {
            Activity {
                number: raised(self.number, other.number),
            }
        }
    }

    /// The activity that grew by an nth.
    pub fn grown(self, n: u64) -> Activity
        requires some { 1 ≤ n }
        requires own { self < 2 ^ 63 }
        ensures { result ≡ grown self n }
    {
        let mantissa = self.number % UNIT;
        Activity {
            number: carried(self.number / UNIT, mantissa + mantissa / n),
        }
    }
}

/// The sum of two numbers, the greater one first.
fn raised(greater: u64, lesser: u64) -> u64
    requires bound { greater < 2 ^ 63 }
    requires order { lesser ≤ greater }
    ensures { result ≡ raised greater lesser }
{
    let distance = greater / UNIT - lesser / UNIT;
    let more = if distance < BITS {
        (lesser % UNIT) >> distance
    } else {
        0
    };
    carried(greater / UNIT, greater % UNIT + more)
}

/// An exponent and a mantissa as a number, with a carry where the mantissa is above its bits.
fn carried(exponent: u64, mantissa: u64) -> u64
    requires exponent { exponent < 2 ^ 39 }
    requires mantissa { mantissa < 2 * unit }
    ensures { result ≡ carried exponent mantissa }
{
    if mantissa < UNIT {
        exponent * UNIT + mantissa
    } else {
        (exponent + 1) * UNIT + mantissa / 2
    }
}
