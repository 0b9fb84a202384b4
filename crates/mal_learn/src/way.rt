//! The way of a conflict to its first implication point.

ghost use Rattle.std.specs.Prelude.{◌≡◌, ◌≤◌, ◌<◌, ◌∷◌, ℕ, false, reverse, slice_index_or, OnOk};
ghost use Rattle.mal_base.specs.Limits.{greatest_variable};
ghost use Rattle.spec_learn.specs.Analysis.{has_var};
ghost use Rattle.mal_learn.specs.{Shown.{HasRoom}, Ways.{way}};

use crate::scratch::current_level;
use crate::work::Work;
use mal_base::{ClauseId, ClauseView, TrailView, Var};
use std::alloc::{AllocError, Global};
use std::marker::Model;

/// The way of a conflict to its first implication point: the clauses resolved with over the entries of the current
/// level, and the variables that were seen in them. Contracts see both, and the bound below which there is room for
/// each variable, 0 before the first `fit`.
#[derive(Drop)]
pub struct Way {
    work: Work,
}

impl Model for Way {
    ghost use Rattle.mal_learn.specs.Ways.{Way};

    ghost Value = { Way };

    ghost view = { λ w. record {
      resolved = w.work.state.hints;
      seen = w.work.state.seen;
      room = w.work.room;
    } };
}

impl Way {
    /// A way without room. Takes no memory.
    pub fn new(alloc: Global) -> Way
        ensures { result.room ≡ 0 }
    {
        Way {
            work: Work::new(alloc),
        }
    }

    /// Makes room for the variables up to this one, which a literal can be of. An error means that memory ran out.
    pub fn fit(&mut self, variables: u32) -> Result<(), AllocError>
        requires { variables ≤ greatest_variable }
        ensures room { OnOk result (variables < self.new.room) }
        ensures more { self.old.room ≤ self.new.room }
    {
        self.work.fit(variables + 1)
    }

    /// Follows a conflict over the entries of the current level, from the last one back, and forgets the way before.
    /// Takes no memory. The time is linear in the trail and the literals of the reasons used.
    pub fn follow<T: TrailView, C: ClauseView>(
        &mut self,
        trail: &T,
        clauses: &C,
        conflict: ClauseId,
    )
        requires { HasRoom 1 self.old.room (T.entries trail.now) (C.clauses clauses.now) }
        ensures resolved { self.new.resolved
            ≡ conflict ∷ reverse (way (C.clauses clauses.now) (reverse (T.entries trail.now)) conflict).hints }
        ensures seen { (v : ℕ) → v < self.new.room →
            slice_index_or self.new.seen v false
            ≡ has_var (way (C.clauses clauses.now) (reverse (T.entries trail.now)) conflict).seen v }
        ensures room { self.new.room ≡ self.old.room }
    {
        let level = current_level(trail);
        self.work.begin(trail, clauses, conflict, level);
        self.work.walk_level(trail, clauses, level);
    }

    /// The numbers of the clauses resolved with, in the order of the way: the conflict, then the reasons.
    pub fn resolved(&self) -> &[ClauseId]
        ensures { result.now ≡ self.now.resolved }
    {
        self.work.hints.as_slice()
    }

    /// Whether a variable is in one of the clauses resolved with.
    pub fn has_seen(&self, var: Var) -> bool
        requires { var < self.now.room }
        ensures { result ≡ slice_index_or self.now.seen var false }
    {
        self.work.has_seen(var)
    }
}
