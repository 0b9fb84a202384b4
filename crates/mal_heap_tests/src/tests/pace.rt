//! Activities and paces that are known.

use mal_activity::{Activity, Pace};

/// That number for 1, 2 and 40 turns.
const TURNED: [u64; 3] = [42_384_545, 47_264_344, 143_616_146];

/// The number of the activity that 1 is after so many sums with itself and growths by a 19th, in turn.
fn turned(turns: u32) -> u64 {
    let mut activity = Activity::one();
    for _turn in 0..turns {
        if activity.number() >= 1 << 40 {
            return 0;
        }
        activity = activity.plus(Activity::one()).grown(19);
    }
    activity.number()
}

#[test]
fn activities_carry(rt: HostRuntime) {
    assert!(rt; turned(1) == TURNED[0]);
    assert!(rt; turned(2) == TURNED[1]);
    assert!(rt; turned(40) == TURNED[2]);
}

/// Whether numbers are activities.
const FORMS: [(u64, bool); 5] = [
    (0, true),
    (1, false),
    (8_388_607, false),
    (8_388_608, true),
    (16_777_216, false),
];

#[test]
fn numbers_out_of_form_are_no_activities(rt: HostRuntime) {
    for (number, known) in &FORMS {
        assert!(rt; Activity::of(*number).is_some() == *known);
    }
}

/// The numbers of that pace after 110 and 1,000 conflicts.
const PACED: [[u64; 7]; 2] = [
    [110, 110, 77_714_462, 59_482_852, 110, 150, 250],
    [1_000, 1_000, 150_994_913, 140_928_377, 146, 505, 1_317],
];

/// The pace after so many conflicts of which the first hundred have the glue 3, and the others 9.
fn paced(conflicts: u32) -> Option<Pace> {
    let mut pace = Pace::new();
    for conflict in 0..conflicts {
        if pace.conflicts() > 1_000_000 {
            return None;
        }
        pace = pace.after_conflict(if conflict < 100 { 3 } else { 9 });
    }
    Some(pace)
}

/// The numbers of a pace.
fn numbers(pace: Pace) -> [u64; 7] {
    [
        pace.conflicts(),
        pace.since(),
        pace.fast(),
        pace.slow(),
        pace.limit(),
        pace.adjust(),
        pace.next(),
    ]
}

#[test]
fn the_limit_rises_with_conflicts(rt: HostRuntime) {
    assert!(rt; paced(110).map(numbers) == Some(PACED[0]));
    assert!(rt; paced(1_000).map(numbers) == Some(PACED[1]));
}

/// Whether a restart is due, and after it, and the limit after loads of many and of few clauses.
fn restarts(pace: Pace) -> (bool, bool, u64, u64) {
    let again = pace.after_restart();
    (
        pace.is_restart_due(),
        again.is_restart_due(),
        pace.after_load(3_000).limit(),
        pace.after_load(12).limit(),
    )
}

#[test]
fn a_restart_is_due_where_glue_rose(rt: HostRuntime) {
    assert!(rt; paced(99).map(restarts) == Some((false, false, 1_000, 100)));
    assert!(rt; paced(110).map(restarts) == Some((true, false, 1_000, 110)));
}
