//! The pace of restarts and reductions.

ghost use Rattle.mal_base.specs.Limits.{greatest_variable};
ghost use Rattle.std.specs.Prelude.{◌≡◌, ◌<◌, ◌≤◌, ◌^◌, ◌*◌, ◌+◌, ◌/◌};
ghost use Rattle.spec_activity.specs.Activity.{unit};
ghost use Rattle.spec_activity.specs.Pace.{at_first, toward, counted, eased, after_conflict, is_restart_due, after_restart, limit_for, after_load};

use std::marker::Model;

/// What a level counts in an average.
const UNIT: u64 = 1 << 24;

/// Of so many conflicts the slow average is one, at most.
const SLOW: u64 = 8192;

/// Of so many conflicts the fast average is one.
const FAST: u64 = 32;

/// When a search restarts and reduces: its conflicts, ever and since the last restart, a fast and a slow average of the
/// glue of what it learns, the limit of the clauses that it keeps, by how many conflicts the next rise of the limit is put
/// off, and the conflict at which it comes. Contracts see these numbers.
#[derive(Clone, Copy, Debug, PartialEq, Eq)]
pub struct Pace {
    conflicts: u64,
    since: u64,
    fast: u64,
    slow: u64,
    limit: u64,
    adjust: u64,
    next: u64,
}

impl Model for Pace {
    ghost use Rattle.spec_activity.specs.Pace as paces;
    ghost use Rattle.spec_activity.specs.Laws.{IsPace};

    ghost Value = { paces.Pace };

    ghost view = { λ p. record {
      conflicts = p.conflicts;
      since = p.since;
      fast = p.fast;
      slow = p.slow;
      limit = p.limit;
      adjust = p.adjust;
      next = p.next;
    } };

    ghost invariant = { λ p. IsPace (record {
      conflicts = p.conflicts;
      since = p.since;
      fast = p.fast;
      slow = p.slow;
      limit = p.limit;
      adjust = p.adjust;
      next = p.next;
    }) };

    ghost inverse = { λ p. record {
      conflicts = p.conflicts;
      since = p.since;
      fast = p.fast;
      slow = p.slow;
      limit = p.limit;
      adjust = p.adjust;
      next = p.next;
    } };
}

impl Pace {
    /// The pace before the first conflict.
    pub fn new() -> Pace
        ensures { result ≡ at_first }
    {
        Pace {
            conflicts: 0,
            since: 0,
            fast: 0,
            slow: 0,
            limit: 100,
            adjust: 100,
            next: 100,
        }
    }

    /// How many conflicts there were.
    pub fn conflicts(&self) -> u64
        ensures { result ≡ self.now.conflicts }
    {
        self.conflicts
    }

    /// How many there were since the last restart.
    pub fn since(&self) -> u64
        ensures { result ≡ self.now.since }
    {
        self.since
    }

    /// The fast average of the glue, times 2^24.
    pub fn fast(&self) -> u64
        ensures { result ≡ self.now.fast }
    {
        self.fast
    }

    /// The slow average of the glue, times 2^24.
    pub fn slow(&self) -> u64
        ensures { result ≡ self.now.slow }
    {
        self.slow
    }

    /// How many learned clauses stay without a reduction, at least 100.
    pub fn limit(&self) -> u64
        ensures value { result ≡ self.now.limit }
        ensures bound { 100 ≤ result }
    {
        self.limit
    }

    /// By how many conflicts the last rise of the limit was put off.
    pub fn adjust(&self) -> u64
        ensures { result ≡ self.now.adjust }
    {
        self.adjust
    }

    /// At how many conflicts the limit rises next.
    pub fn next(&self) -> u64
        ensures { result ≡ self.now.next }
    {
        self.next
    }

    /// Counts a conflict of which a clause with this glue was learned.
    pub fn after_conflict(self, glue: u32) -> Pace
        requires glue { glue ≤ greatest_variable }
        requires conflicts { self.conflicts < 2 ^ 35 }
        ensures { result ≡ after_conflict glue self }
    {
        let counted = self.counted(glue);
        if counted.next <= counted.conflicts {
            counted.eased()
        } else {
            counted
        }
    }

    /// Counts the conflict and its glue.
    fn counted(self, glue: u32) -> Pace
        requires glue { glue ≤ greatest_variable }
        requires conflicts { self.conflicts < 2 ^ 35 }
        ensures { result ≡ counted glue self }
    {
        let conflicts = self.conflicts + 1;
        let level = u64::from(glue) * UNIT;
        Pace {
            conflicts,
            since: self.since + 1,
            fast: if conflicts == 1 {
                level
            } else {
                toward(self.fast, level, FAST)
            },
            slow: toward(self.slow, level, conflicts.min(SLOW)),
            ..self
        }
    }

    /// Raises the limit, and puts off its next rise.
    fn eased(self) -> Pace
        requires conflicts { self.conflicts ≤ 2 ^ 35 }
        requires time { self.next ≤ self.conflicts }
        ensures { result ≡ eased self }
    {
        let adjust = self.adjust + self.adjust / 2;
        Pace {
            limit: self.limit + self.limit / 10,
            adjust,
            next: self.next + adjust,
            ..self
        }
    }

    /// Whether a restart is due: two conflicts and more since the last one, and the fast average above the slow one by a
    /// tenth and more.
    pub fn is_restart_due(&self) -> bool
        ensures { result ≡ is_restart_due self.now }
    {
        2 <= self.since && self.slow * 110 < self.fast * 100
    }

    /// Counts from a restart on.
    pub fn after_restart(self) -> Pace
        ensures { result ≡ after_restart self }
    {
        Pace { since: 0, ..self }
    }

    /// Raises the limit to what so many original clauses call for.
    pub fn after_load(self, originals: u32) -> Pace
        ensures { result ≡ after_load originals self }
    {
        Pace {
            limit: self.limit.max(limit_for(originals)),
            ..self
        }
    }
}

/// From a towards x by an nth of the distance.
fn toward(a: u64, x: u64, n: u64) -> u64
    requires { 1 ≤ n }
    ensures { result ≡ toward a x n }
{
    if a <= x {
        a + (x - a) / n
    } else {
        a - (a - x) / n
    }
}

/// A third of so many original clauses, from 100 to 100,000.
fn limit_for(originals: u32) -> u64
    ensures { result ≡ limit_for originals }
{
    u64::from((originals / 3).max(100).min(100_000))
}
