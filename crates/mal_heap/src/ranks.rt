//! Who comes before whom.

ghost use Rattle.mal_base.specs.Limits.{greatest_variable};
ghost use Rattle.std.specs.Prelude.{◌≡◌, ◌<◌, ◌≤◌, length};
ghost use Rattle.spec_activity.specs.Rank.{tie};
ghost use Rattle.mal_heap.specs.Heaps.{outranks};

use mal_activity::Activity;

/// Whether a number comes before another one: variable `first + 1` before `second + 1`.
pub fn outranks(index: u32, activities: &[Activity], first: u32, second: u32) -> bool
    requires first { first < length activities.now }
    requires second { second < length activities.now }
    requires few { length activities.now ≤ greatest_variable }
    ensures { result ≡ outranks index activities.now first second }
{
    let one = activities[first as usize].number();
    let other = activities[second as usize].number();
    if one != other {
        return other < one;
    }
    let (v, w) = (first + 1, second + 1);
    let (near, far) = (tie(index, v), tie(index, w));
    near < far || (near == far && v < w)
}

/// What tells variables of one activity apart.
fn tie(index: u32, v: u32) -> u64
    ensures { result ≡ tie index v }
{
    u64::from(index) * u64::from(v) % 64
}
