//! The clause that a solver learns, by its profile.

ghost use Rattle.std.specs.Prelude.{reverse};
ghost use Rattle.spec_learn.specs.Learning.{analysed_in};
ghost use Rattle.mal_learn.specs.Shown.{HasRoom, HasLeft};

use crate::scratch::{Scratch, analyse, analyse_shorter};
use mal_base::{ClauseId, ClauseView, Profile, TrailView};

/// Analyses a conflict as the solvers of a profile do: leaves in a fitted scratch the clause of the first unique
/// implication point, or its shorter form where the profile minimizes, with its hints in trail order and the level to
/// jump to. Takes no memory.
pub fn analyse_in<T: TrailView, C: ClauseView>(
    profile: Profile,
    trail: &T,
    clauses: &C,
    conflict: ClauseId,
    scratch: &mut Scratch,
)
    requires { HasRoom 1 scratch.old.room (T.entries trail.now) (C.clauses clauses.now) }
    ensures { HasLeft
        (analysed_in profile (C.clauses clauses.now) (reverse (T.entries trail.now)) conflict) scratch.old scratch.new }
{
    if profile.policy().minimizes {
        analyse_shorter(trail, clauses, conflict, scratch);
    } else {
        analyse(trail, clauses, conflict, scratch);
    }
}
