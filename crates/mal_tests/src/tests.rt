//! Runs of the program in real threads.
//!
//! Each test asserts one small value. What owns much (a script, a hall, a history, a text) is made in a function of its
//! own, which lends it and then hands it to `drop`: letting go of it by the way, at each way out, would be proved field by
//! field.

ghost use Rattle.std.specs.Prelude.{ℕ};
ghost use Rattle.mal_pool.specs.Posts.{HasRun};

mod alone;
mod boards;
mod devices;
mod gates;
mod programs;
mod scripts;
mod slow;
mod stops;

use gates::{Together, last_worker, losses};
use mal_hall::Hall;
use mal_history::History;
use mal_pool::{PlainGate, replies, replies_by, run_alone};
use mal_script::Script;
use programs::{RunTexts, run};
use scripts::{FOUR_JOBS, FOUR_TENANTS, TWO_JOBS, mixed_jobs};
use std::alloc::Global;
use std::sync::Wait;
use std::thread::Threads;

/// Whether the history of a run tells that the workers of a gate ran together, and that one besides the first had a start.
fn tells_together(alloc: Global, ran: &RunTexts, gate: &Together) -> Option<bool> {
    let history = mal_history::read(alloc, ran.log.as_slice()).ok()?;
    let is_told = last_worker(&history) > 1 && gate.has_held(&history);
    drop(history);
    Some(is_told && ran.status == 0)
}

/// Whether jobs of demand 1, of which there are as many as workers, start together: their first slices wait for one
/// another before they begin and again before they are given back. It fails where a lock is held in a slice, and where no
/// worker but the first has a start.
fn start_together<R: Threads + Wait + Sync>(
    rt: &R,
    alloc: Global,
    workers: (u64, &str),
    text: &[u8],
) -> Option<bool> {
    let gate = Together::of(workers.0);
    let ran = run(rt, alloc, workers.1, text, &gate)?;
    let is_told = tells_together(alloc, &ran, &gate);
    drop(ran);
    is_told
}

#[test]
fn slices_run_at_the_same_time(rt: HostRuntime) {
    assert!(rt; start_together(&rt, rt.alloc(), (2, "2"), TWO_JOBS) == Some(true));
    assert!(rt; start_together(&rt, rt.alloc(), (4, "4"), FOUR_JOBS) == Some(true));
}

/// Whether four workers reply to four tenants as it is known.
fn four_reply<R: Threads + Wait + Sync>(rt: &R, alloc: Global) -> Option<bool> {
    let ran = run(rt, alloc, "4", FOUR_TENANTS.script, &PlainGate)?;
    let is_known = ran.status == 0 && ran.out.as_slice() == FOUR_TENANTS.replies;
    drop(ran);
    Some(is_known)
}

#[test]
fn four_workers_reply_to_four_tenants(rt: HostRuntime) {
    assert!(rt; four_reply(&rt, rt.alloc()) == Some(true));
}

/// How often a script is run with each number of workers.
const TIMES: u32 = 6;

/// The script of a text.
fn script_of(alloc: Global, text: Option<Vec<u8>>) -> Option<Script> {
    let text = text?;
    let script = mal_script::read(alloc, text.as_slice()).ok();
    drop(text);
    script
}

/// The replies of one worker to a script.
fn one_replies(alloc: Global, script: &Script) -> Option<Vec<u8>> {
    let hall = run_alone(alloc, script, 1).ok()?;
    let text = replies(alloc, &hall, script).ok();
    drop(hall);
    text
}

/// The replies to the jobs of demand 1, which stand first in the script.
fn single_replies(alloc: Global) -> Option<Vec<u8>> {
    let script = script_of(alloc, mixed_jobs(alloc, 1))?;
    let text = one_replies(alloc, &script);
    drop(script);
    text
}

/// The replies that a history replays to, for the script of a text.
fn replayed<R: Threads + Sync>(
    rt: &R,
    alloc: Global,
    text: &[u8],
    history: &History,
) -> Option<Vec<u8>> {
    let script = mal_script::read(alloc, text).ok()?;
    let replies = mal_replay::replay(rt, alloc, &script, history).ok();
    drop(script);
    replies
}

/// Whether the log of a run replays to its replies, and no lease was lost.
fn replays<R: Threads + Sync>(rt: &R, alloc: Global, text: &[u8], ran: &RunTexts) -> Option<bool> {
    let history = mal_history::read(alloc, ran.log.as_slice()).ok()?;
    let again = replayed(rt, alloc, text, &history);
    let lost = losses(&history);
    drop(history);
    Some(again?.as_slice() == ran.out.as_slice() && lost == 0)
}

/// Whether a run of the script of a text replays, and its replies begin with these.
fn run_once<R: Threads + Wait + Sync>(
    rt: &R,
    alloc: Global,
    workers: &str,
    text: &[u8],
    known: &[u8],
) -> Option<bool> {
    let ran = run(rt, alloc, workers, text, &PlainGate)?;
    let is_replayed = replays(rt, alloc, text, &ran);
    let is_known = ran.status == 0 && ran.out.as_slice().starts_with(known);
    drop(ran);
    Some(is_replayed? && is_known)
}

/// Whether all runs are so, with any number of workers.
fn run_all_often<R: Threads + Wait + Sync>(
    rt: &R,
    alloc: Global,
    text: &[u8],
    known: &[u8],
) -> bool {
    for workers in ["2", "4", "16", "64"] {
        for _ in 0..TIMES {
            if run_once(rt, alloc, workers, text, known) != Some(true) {
                return false;
            }
        }
    }
    known.len() > 200
}

/// The same of a script of 16 jobs of demands 1 to 4: each log replays to the replies, no lease is lost, and the replies
/// to the jobs of demand 1 are the same each time.
fn run_often<R: Threads + Wait + Sync>(rt: &R, alloc: Global) -> Option<bool> {
    let text = mixed_jobs(alloc, 4)?;
    let known = single_replies(alloc)?;
    Some(run_all_often(rt, alloc, text.as_slice(), known.as_slice()))
}

#[test]
fn logs_of_any_number_of_workers_replay(rt: HostRuntime) {
    assert!(rt; run_often(&rt, rt.alloc()) == Some(true));
}

/// Whether so many threads make these replies of a hall that has run a script.
fn make_alike<R: Threads + Sync>(
    rt: &R,
    alloc: Global,
    hall: &Hall,
    script: &Script,
    threads: u32,
    known: &[u8],
) -> bool
    requires { (workers : ℕ) × HasRun workers script.now hall.now }
{
    match replies_by(rt, alloc, hall, script, threads) {
        Ok(text) => {
            let is_known = text.as_slice() == known;
            drop(text);
            is_known
        }
        Err(_) => false,
    }
}

/// Whether any number of threads makes the replies that one does.
fn all_make_alike<R: Threads + Sync>(
    rt: &R,
    alloc: Global,
    hall: &Hall,
    script: &Script,
) -> Option<bool>
    requires { (workers : ℕ) × HasRun workers script.now hall.now }
{
    let known = replies(alloc, hall, script).ok()?;
    let is_alike = make_alike(rt, alloc, hall, script, 1, known.as_slice())
        && make_alike(rt, alloc, hall, script, 4, known.as_slice())
        && make_alike(rt, alloc, hall, script, 64, known.as_slice());
    drop(known);
    Some(is_alike)
}

/// The same of a hall in which one worker runs a script.
fn reply_by_threads<R: Threads + Sync>(rt: &R, alloc: Global, script: &Script) -> Option<bool> {
    let hall = run_alone(alloc, script, 1).ok()?;
    let is_alike = all_make_alike(rt, alloc, &hall, script);
    drop(hall);
    is_alike
}

/// The same of the script of 16 jobs.
fn threads_reply<R: Threads + Sync>(rt: &R, alloc: Global) -> Option<bool> {
    let script = script_of(alloc, mixed_jobs(alloc, 4))?;
    let is_alike = reply_by_threads(rt, alloc, &script);
    drop(script);
    is_alike
}

#[test]
fn threads_reply_as_one_does(rt: HostRuntime) {
    assert!(rt; threads_reply(&rt, rt.alloc()) == Some(true));
}
