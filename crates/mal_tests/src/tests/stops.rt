//! Runs whose gate stops workers: what they held is lost, and the replies are the same.

ghost use Rattle.std.specs.Prelude.{ℕ};
ghost use Rattle.mal_pool.specs.Posts.{HasRun};

use super::scripts::{Answered, THREE_REVISIONS};
use mal_base::Outcome;
use mal_hall::Hall;
use mal_history::{Event, History};
use mal_pool::{Gate, PlainGate, Point, Step, replies, run_all};
use mal_script::{Script, read};
use std::alloc::Global;
use std::sync::Wait;
use std::thread::Threads;

/// A gate that stops everyone at a point, of the starts from one to another.
#[derive(Clone, Copy)]
struct StopAt {
    point: Point,
    first: u64,
    last: u64,
}

impl StopAt {
    /// Stops each start.
    fn each(point: Point) -> StopAt {
        StopAt {
            point,
            first: 0,
            last: u64::MAX,
        }
    }

    /// Stops one start alone.
    fn one(point: Point, start: u64) -> StopAt {
        StopAt {
            point,
            first: start,
            last: start,
        }
    }
}

impl Gate for StopAt {
    ghost use Rattle.std.specs.Prelude.{◌&&◌, nat_le};
    ghost use Rattle.mal_pool.specs.Gates.{at_point};

    ghost stops = { λ gate point start worker. at_point gate.point point && (nat_le gate.first start && nat_le start gate.last) };

    fn at(&self, point: Point, start: u64, _worker: u32) -> Step {
        if self.point == point && self.first <= start && start <= self.last {
            Step::Stop
        } else {
            Step::Go
        }
    }
}

/// How many starts stand before the recall, and how many leases were lost.
fn started_and_lost(history: &History) -> (usize, usize) {
    let mut started: usize = 0;
    let mut lost: usize = 0;
    for event in history.events() {
        match event {
            Event::Start { .. } => {
                if lost == 0 {
                    started = started.saturating_add(1);
                }
            }
            Event::Finish {
                outcome: Outcome::Lost,
                ..
            } => lost = lost.saturating_add(1),
            _ => {}
        }
    }
    (started, lost)
}

/// How many starts of a hall that has run a script stand before the recall, and how many leases were lost. None where it
/// does not reply like this.
fn replied(alloc: Global, hall: &Hall, script: &Script, known: &[u8]) -> Option<(usize, usize)>
    requires { (workers : ℕ) × HasRun workers script.now hall.now }
{
    let text = replies(alloc, hall, script).ok()?;
    let is_known = text.as_slice() == known;
    drop(text);
    if is_known {
        Some(started_and_lost(hall.history()))
    } else {
        None
    }
}

/// The same of four workers who run a script.
fn stopped<R: Threads + Wait + Sync, G: Gate>(
    rt: &R,
    alloc: Global,
    script: &Script,
    known: &[u8],
    gate: &G,
) -> Option<(usize, usize)> {
    let hall = run_all(rt, alloc, script, 4, gate).ok()?;
    let counts = replied(alloc, &hall, script, known);
    drop(hall);
    counts
}

/// The same of a script that is read.
fn stops<R: Threads + Wait + Sync, G: Gate>(
    rt: &R,
    alloc: Global,
    known: Answered,
    gate: &G,
) -> Option<(usize, usize)> {
    let script = read(alloc, known.script).ok()?;
    let counts = stopped(rt, alloc, &script, known.replies, gate);
    drop(script);
    counts
}

/// Whether three revisions are replied to alike where a gate stops each slice at a point, and each lease before the recall
/// is lost.
fn loses_each<R: Threads + Wait + Sync>(rt: &R, alloc: Global, point: Point) -> bool {
    match stops(rt, alloc, THREE_REVISIONS, &StopAt::each(point)) {
        Some((started, lost)) => started > 0 && lost == started,
        None => false,
    }
}

#[test]
fn who_stops_at_each_slice_loses_each_lease(rt: HostRuntime) {
    assert!(rt; loses_each(&rt, rt.alloc(), Point::Before));
    assert!(rt; loses_each(&rt, rt.alloc(), Point::After));
}

/// Eight jobs of two tenants.
const EIGHT: Answered = Answered {
    script: b"t a\nj p 1 1 4\np cnf 2 1\n1 2 0\na 0\ne\nj q 1 1 4\np cnf 2 4\n1 2 0\n1 -2 0\n-1 2 0\n-1 -2 0\na 0\ne\nj r 1 1 4\np cnf 2 1\n-1 -2 0\na 1 2 0\ne\nj s 1 1 4\np cnf 0 0\na 0\ne\nt b\nj p 1 1 4\np cnf 2 1\n1 2 0\na 0\ne\nj q 1 1 4\np cnf 2 4\n1 2 0\n1 -2 0\n-1 2 0\n-1 -2 0\na 0\ne\nj r 1 1 4\np cnf 2 1\n-1 -2 0\na 1 2 0\ne\nj s 1 1 4\np cnf 0 0\na 0\ne\n",
    replies: b"r a p 1\ns SATISFIABLE\nv -1 2 0\nr a q 1\ns UNSATISFIABLE\nk 0\nl 5 1 0 1 2 0\nl 6 0 5 3 4 0\nr a r 1\ns UNSATISFIABLE\nk 1 2 0\nl 2 -1 -2 0 1 0\nr a s 1\ns SATISFIABLE\nv 0\nr b p 1\ns SATISFIABLE\nv -1 2 0\nr b q 1\ns UNSATISFIABLE\nk 0\nl 5 1 0 1 2 0\nl 6 0 5 3 4 0\nr b r 1\ns UNSATISFIABLE\nk 1 2 0\nl 2 -1 -2 0 1 0\nr b s 1\ns SATISFIABLE\nv 0\n",
};

/// How many leases are lost where eight jobs are run with a gate that stops one point at most. None where the replies are
/// others, or more than one is lost.
fn eight_reply_alike<R: Threads + Wait + Sync, G: Gate>(
    rt: &R,
    alloc: Global,
    gate: &G,
) -> Option<usize> {
    let (_, lost) = stops(rt, alloc, EIGHT, gate)?;
    if lost <= 1 { Some(lost) } else { None }
}

#[test]
fn no_stop_loses_no_lease(rt: HostRuntime) {
    assert!(rt; eight_reply_alike(&rt, rt.alloc(), &PlainGate) == Some(0));
}

/// Whether each of eight starts that is stopped at a point, in a run of its own, changes no reply, and some of them lose a
/// lease.
fn stops_any_one<R: Threads + Wait + Sync>(rt: &R, alloc: Global, point: Point) -> Option<bool> {
    let mut lost: usize = 0;
    for start in 1..9 {
        let one = eight_reply_alike(rt, alloc, &StopAt::one(point, start))?;
        lost = lost.saturating_add(one);
    }
    Some(lost > 0)
}

#[test]
fn a_stop_at_any_one_slice_changes_no_reply(rt: HostRuntime) {
    assert!(rt; stops_any_one(&rt, rt.alloc(), Point::Before) == Some(true));
    assert!(rt; stops_any_one(&rt, rt.alloc(), Point::After) == Some(true));
}
