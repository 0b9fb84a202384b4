//! Trails whose cuts and values are known.

ghost use Rattle.std.specs.Prelude.{◌≡◌, ◌<◌, All, true};

use mal_base::{ClauseId, Lit, TrailView, Var};
use mal_glue::Levels;
use mal_trail::Trail;
use std::alloc::Global;

/// Makes a variable from 1 to 3 true or false, by a clause or by a decision, at a level that the trail may have then.
fn push(
    trail: &mut Trail,
    number: u32,
    positive: bool,
    reason: Option<ClauseId>,
    level: u32,
) -> Option<()> {
    if number < 1 || number > 3 || trail.has_value(Var::of(number)) {
        return None;
    }
    if level < trail.level() || level > trail.level() + 1 {
        return None;
    }
    trail.reserve(3).ok()?;
    trail.push(Var::of(number).literal(positive), reason, level);
    Some(())
}

/// Decides 2, forces -1 at the same level, and decides -3 at the next one. All batches count as handled then.
fn fill(trail: &mut Trail) -> Option<()> {
    push(trail, 2, true, None, 1)?;
    push(trail, 1, false, Some(ClauseId::original(7)), 1)?;
    push(trail, 3, false, None, 2)?;
    if trail.len() != 3 {
        return None;
    }
    trail.set_processed(4);
    Some(())
}

/// What a trail shows: its length, its level, the batches handled, and how many entries are above level 1.
fn counts(trail: &Trail) -> [u32; 4] {
    let above = trail.above(1).len();
    [
        trail.len() as u32,
        trail.level(),
        trail.processed(),
        above as u32,
    ]
}

/// The values of the variables 1 to 3.
fn values(trail: &Trail) -> [Option<bool>; 3] {
    [
        trail.value(Var::of(1)),
        trail.value(Var::of(2)),
        trail.value(Var::of(3)),
    ]
}

/// Whether a literal of variable 1 is true before the second entry.
fn is_first(trail: &Trail, positive: bool) -> bool {
    trail.len() > 0 && trail.is_true_before(1, Var::of(1).literal(positive))
}

/// What a trail shows, the values, and whether -1 is true before the second entry.
fn shown(trail: &Trail) -> ([u32; 4], [Option<bool>; 3], bool) {
    (counts(trail), values(trail), is_first(trail, false))
}

/// What a filled trail shows, and again when it was cut to level 1.
fn cut(trail: &mut Trail) -> Option<[([u32; 4], [Option<bool>; 3], bool); 2]> {
    fill(trail)?;
    let before = shown(trail);
    trail.back_to(1);
    Some([before, shown(trail)])
}

/// What a trail shows that is filled and cut to level 1.
const CUT: [([u32; 4], [Option<bool>; 3], bool); 2] = [
    ([3, 2, 4, 1], [Some(false), Some(true), Some(false)], false),
    ([2, 1, 3, 0], [Some(false), Some(true), None], false),
];

#[test]
fn a_cut_takes_levels_away_and_lowers_what_is_handled(rt: HostRuntime) {
    let mut trail = Trail::new(rt.alloc());
    assert!(rt; cut(&mut trail) == Some(CUT));
    trail.back_to(0);
    assert!(rt; trail.level() == 0 && TrailView::len(&trail) == 0);
}

/// The reason of the entry at a place, if there is one.
fn reason_at(trail: &Trail, place: usize) -> Option<ClauseId> {
    if place < trail.len() {
        return trail.at(place).reason;
    }
    None
}

/// The reasons of a filled trail, once the second entry has got another one.
fn reasons(trail: &mut Trail) -> Option<[Option<ClauseId>; 3]> {
    fill(trail)?;
    if trail.len() < 2 {
        return None;
    }
    trail.set_reason(1, ClauseId::original(9));
    Some([
        reason_at(trail, 0),
        reason_at(trail, 1),
        reason_at(trail, 2),
    ])
}

#[test]
fn an_entry_gets_another_reason(rt: HostRuntime) {
    let mut trail = Trail::new(rt.alloc());
    let reasons = reasons(&mut trail);
    assert!(rt; reasons == Some([None, Some(ClauseId::original(9)), None]));
    assert!(rt; shown(&trail) == CUT[0]);
}

/// Whether each entry of a trail has a level below this one.
fn has_levels_below(trail: &Trail, levels: u32) -> bool
    ensures { result ≡ true → All (λ e. e.level < levels) trail.now.entries }
{
    for entry in trail.entries() {
        if levels <= entry.level {
            return false;
        }
    }
    true
}

/// The glue of literals on a trail of fewer than three levels.
fn glue_on(alloc: Global, trail: &Trail, lits: &[Lit]) -> Option<usize> {
    let mut levels = Levels::new(alloc);
    levels.fit(3).ok()?;
    if !has_levels_below(trail, 3) {
        return None;
    }
    Some(levels.glue(trail, lits))
}

/// The glue of three literals on a filled trail, of two of one level, and of none.
fn glues(alloc: Global) -> Option<[usize; 3]> {
    let mut trail = Trail::new(alloc);
    fill(&mut trail)?;
    let first = Var::of(1).literal(true);
    let second = Var::of(2).literal(false);
    let third = Var::of(3).literal(false);
    Some([
        glue_on(alloc, &trail, &[first, second, third])?,
        glue_on(alloc, &trail, &[first, second])?,
        glue_on(alloc, &trail, &[])?,
    ])
}

#[test]
fn each_level_counts_once(rt: HostRuntime) {
    assert!(rt; glues(rt.alloc()) == Some([2, 1, 0]));
}
