//! A total.
ghost use Rattle.std.specs.Prelude.{◌≡◌, ◌+◌, map, sum};

use mal_turn::Recorded;

/// A total, with the amount that was added last.
#[derive(Drop)]
pub(crate) struct Tally {
    total: u64,
    last: u64,
}

impl Recorded for Tally {
    type Entry = u64;

    ghost stands = { λ t log. t.total ≡ sum (map (λ e. e.1) log) };

    ghost last = { λ t. t.last };
}

impl Tally {
    pub(crate) fn new() -> Tally
        ensures { result.total ≡ 0 }
    {
        Tally { total: 0, last: 0 }
    }

    pub(crate) fn total(&self) -> u64
        ensures { result ≡ self.now.total }
    {
        self.total
    }

    /// Adds an amount, or none where the total would not fit.
    pub(crate) fn add(&mut self, amount: u64)
        ensures { self.new.total ≡ self.old.total + self.new.last }
    {
        match self.total.checked_add(amount) {
            Some(total) => {
                self.total = total;
                self.last = amount;
            }
            None => self.last = 0,
        }
    }
}
