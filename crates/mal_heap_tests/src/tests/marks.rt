//! Marks of which it is known how many count and which are chosen.

use mal_activity::Activity;
use mal_base::ClauseId;
use mal_marks::{Mark, Marks};
use mal_store::sort_ids;
use std::alloc::Global;

/// The number of the derived clause of node 0 with this serial.
fn id_of(serial: u32) -> ClauseId {
    ClauseId::derived(u64::from(serial), 0)
}

/// The activity of this exponent and the least mantissa.
fn activity_of(exponent: u32) -> Option<Activity> {
    Activity::of((u64::from(exponent) << 24) + (1 << 23))
}

/// Adds a mark.
fn insert(marks: &mut Marks, mark: Mark) -> Option<()> {
    marks.reserve(1).ok()?;
    if marks.get(mark.id).is_some() {
        return None;
    }
    marks.insert_reserved(mark);
    Some(())
}

/// Adds the mark of the clause with this serial.
fn add(marks: &mut Marks, serial: u32, is_kept: bool, is_long: bool, exponent: u32) -> Option<()> {
    insert(
        marks,
        Mark {
            id: id_of(serial),
            is_kept,
            is_long,
            activity: activity_of(exponent)?,
        },
    )
}

/// Four clauses of three literals, one of them kept for good, and one of two literals, not in the order of their numbers.
fn five(alloc: Global) -> Option<Marks> {
    let mut marks = Marks::new(alloc);
    add(&mut marks, 3, false, true, 2)?;
    add(&mut marks, 0, false, true, 3)?;
    add(&mut marks, 4, false, false, 0)?;
    add(&mut marks, 1, true, true, 1)?;
    add(&mut marks, 2, false, true, 2)?;
    Some(marks)
}

/// How many of five count, and the numbers of those that are chosen where this clause is a reason.
fn chosen(alloc: Global, reason: u32) -> Option<(usize, Vec<ClauseId>)> {
    let mut marks = five(alloc)?;
    let mut list = Vec::with_capacity(alloc, marks.len()).ok()?;
    let mut reasons = [id_of(reason)];
    sort_ids(&mut reasons);
    marks.choose(&reasons, &mut list);
    Some((marks.counted(), list))
}

/// Whether one clause is chosen of five, of which three count: that with the second serial, where the first is a reason.
fn is_chosen(alloc: Global, reason: u32, serial: u32) -> Option<bool> {
    let (counted, list) = chosen(alloc, reason)?;
    Some(counted == 3 && list.len() == 1 && list[0] == id_of(serial))
}

#[test]
fn the_later_of_two_that_are_alike_is_chosen(rt: HostRuntime) {
    assert!(rt; is_chosen(rt.alloc(), 9, 3) == Some(true));
    assert!(rt; is_chosen(rt.alloc(), 3, 2) == Some(true));
    assert!(rt; is_chosen(rt.alloc(), 0, 3) == Some(true));
}

/// How many count of five without that of the serial 3, and whether it and that of the serial 2 have a mark.
fn forgotten(alloc: Global) -> Option<(usize, [bool; 2])> {
    let mut marks = five(alloc)?;
    let mut ids = [id_of(3)];
    sort_ids(&mut ids);
    marks.forget(&ids);
    let found = [marks.get(id_of(3)).is_some(), marks.get(id_of(2)).is_some()];
    Some((marks.counted(), found))
}

#[test]
fn what_is_forgotten_counts_no_longer(rt: HostRuntime) {
    assert!(rt; forgotten(rt.alloc()) == Some((2, [false, true])));
}

/// Notes that a conflict was resolved with a clause, and gives its activity then, how many count, and whether the clause
/// still needs its glue.
fn resolve(marks: &mut Marks, serial: u32, is_worth: bool) -> Option<(u64, usize, bool)> {
    let id = id_of(serial);
    if 1 << 63 <= marks.activity(id).number() {
        return None;
    }
    marks.resolve_with(id, Activity::one(), is_worth);
    Some((
        marks.activity(id).number(),
        marks.counted(),
        marks.needs_glue(id),
    ))
}

/// What is noted of a clause with which conflicts were resolved that were not worth it and worth it, of one that was kept
/// for good before, and of one without a mark.
fn resolved(alloc: Global) -> Option<[(u64, usize, bool); 4]> {
    let mut marks = five(alloc)?;
    Some([
        resolve(&mut marks, 2, false)?,
        resolve(&mut marks, 2, true)?,
        resolve(&mut marks, 1, true)?,
        resolve(&mut marks, 9, true)?,
    ])
}

#[test]
fn a_clause_that_is_worth_it_counts_no_longer(rt: HostRuntime) {
    let two = 2 * (1 << 24);
    let known = [
        (two + (1 << 23) + (1 << 22), 3, true),
        (two + (1 << 24) + (1 << 23), 2, false),
        (two + (1 << 23), 2, false),
        (0, 2, false),
    ];
    assert!(rt; resolved(rt.alloc()) == Some(known));
}
