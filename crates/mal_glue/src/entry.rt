//! The entry of a variable on a trail.

ghost use Rattle.std.specs.Prelude.{◌≡◌, ◌==◌, find};
ghost use Rattle.mal_base.specs.Literals.{var_of};
ghost use Rattle.spec_node.specs.Sound.{level_in};

use mal_base::{TrailEntry, TrailView, Var};
use mal_trail::Trail;

/// The entry of a variable, whichever of its literals is true. None exactly where the variable is not on the trail.
pub fn entry_of(trail: &Trail, var: Var) -> Option<TrailEntry>
    ensures { result ≡ find (λ e. var == var_of e.lit) trail.now.entries }
{
    let positive = trail.open_until(var.literal(true));
    let negative = trail.open_until(var.literal(false));
    let place = positive.min(negative);
    if place < trail.len() {
        Some(trail.at(place))
    } else {
        None
    }
}

/// The level of a variable, 0 where it is not on the trail.
pub fn level_in(trail: &Trail, var: Var) -> u32
    ensures { result ≡ level_in trail.now.entries var }
{
    match entry_of(trail, var) {
        None => 0,
        Some(entry) => entry.level,
    }
}
