//! A mark.

ghost use Rattle.std.specs.Prelude.{◌≡◌, ◌<◌, ◌^◌};
ghost use Rattle.mal_marks.specs.Marked.{is_counted, resolved};

use mal_activity::Activity;
use mal_base::ClauseId;

/// What is noted of a derived clause: its number, whether it is kept for good, whether it has three literals or more, and
/// its activity.
#[derive(Clone, Copy, Debug, PartialEq, Eq)]
pub struct Mark {
    pub id: ClauseId,
    pub is_kept: bool,
    pub is_long: bool,
    pub activity: Activity,
}

impl Mark {
    /// Whether the clause counts for reductions: it has three literals or more, and is not kept for good.
    pub fn is_counted(&self) -> bool
        ensures { result ≡ is_counted self.now }
    {
        self.is_long && !self.is_kept
    }

    /// The mark after a conflict was resolved with the clause, which is kept for good from here on where it is worth it.
    pub fn resolved(self, gain: Activity, is_worth: bool) -> Mark
        requires own { self.activity < 2 ^ 63 }
        requires gain { gain < 2 ^ 63 }
        ensures { result ≡ resolved gain is_worth self }
    {
        Mark {
            id: self.id,
            is_kept: self.is_kept || is_worth,
            is_long: self.is_long,
            activity: self.activity.plus(gain),
        }
    }
}
