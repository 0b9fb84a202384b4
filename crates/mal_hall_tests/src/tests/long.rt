//! A job of some four hundred slices, whose two nodes are kept from lease to lease.

use super::calling::{P, Told, given, open, pick, revise, unrun, worked_off};
use super::making::{Posted, ask};
use mal_base::Profile;
use mal_hall::Hall;
use mal_suspend::{Done, Kept};
use std::alloc::Global;

/// How many revisions the job has. Each takes three slices: two of the node that answers, and one of the other.
const ROUNDS: u32 = 134;

/// How many leases were found whose node was gone, and how many slices were run.
#[derive(Clone, Copy)]
struct Counts {
    gone: u32,
    slices: u32,
}

/// Whether nothing is kept of the node.
fn is_gone(done: &Done) -> bool {
    match done.kept() {
        Kept::Live(_) => false,
        Kept::Cold(_) => false,
        Kept::Gone(_) => true,
    }
}

/// Whether the node of the lease that worker 1 picks is gone. The lease is given back as one that ran out of memory, so
/// that its node is as it was.
fn look(hall: &mut Hall) -> Option<bool> {
    let done = unrun(pick(hall, 1).ok()?);
    let is_gone = is_gone(&done);
    if given(hall.finish(done)) == Told::Done {
        Some(is_gone)
    } else {
        None
    }
}

/// Has worker 1 run a slice. False where there is none to run.
fn slice(alloc: Global, hall: &mut Hall) -> Option<bool> {
    match pick(hall, 1) {
        Ok(lease) => {
            if given(hall.finish(worked_off(alloc, lease))) == Told::Done {
                Some(true)
            } else {
                None
            }
        }
        Err(told) => {
            if told == Told::Idle {
                Some(false)
            } else {
                None
            }
        }
    }
}

/// Looks at two leases, and counts those whose node is gone. A third that runs out of memory would leave the revision
/// unknown.
fn look_twice(hall: &mut Hall, counts: &mut Counts) -> Option<()> {
    for _ in 0..2 {
        if look(hall)? {
            counts.gone = counts.gone.saturating_add(1);
        }
    }
    Some(())
}

/// Posts a revision that takes some slices, looks at two leases, and runs slices until there is none to run.
fn go_round(alloc: Global, hall: &mut Hall, counts: &mut Counts) -> Option<()> {
    if revise(alloc, hall, P, Posted::Free(600)) != Told::Done {
        return None;
    }
    look_twice(hall, counts)?;
    for _ in 0..8 {
        if !slice(alloc, hall)? {
            return Some(());
        }
        counts.slices = counts.slices.saturating_add(1);
    }
    None
}

/// Opens a job of demand 2, and goes all rounds.
fn go_all(alloc: Global, hall: &mut Hall) -> Option<Counts> {
    let mut counts = Counts { gone: 0, slices: 0 };
    if open(alloc, hall, P, ask(2, 8, Profile::Plain)) != Told::Done {
        return None;
    }
    for _ in 0..ROUNDS {
        go_round(alloc, hall, &mut counts)?;
    }
    Some(counts)
}

/// How many leases were found in a hall of its own whose node was gone, and whether 400 slices were run.
fn gone_and_long(alloc: Global) -> Option<(u32, bool)> {
    let mut hall = Hall::new(alloc, 2).ok()?;
    let counted = go_all(alloc, &mut hall);
    drop(hall);
    let counts = counted?;
    Some((counts.gone, counts.slices >= 400))
}

#[test]
fn a_node_is_gone_at_its_first_lease_alone(rt: HostRuntime) {
    assert!(rt; gone_and_long(rt.alloc()) == Some((2, true)));
}
