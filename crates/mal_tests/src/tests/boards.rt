//! Scripts that threads run over a service.

ghost use Rattle.std.specs.Prelude.{◌≡◌, ◌≤◌, IfOk};
ghost use Rattle.mal_pool.specs.Posts.{HasRun};
ghost use Rattle.mal_turn.specs.Tokens.{IsOf};

use super::gates::{Together, has_replied};
use super::scripts::{Answered, FOUR_JOBS, FOUR_TENANTS, TWO_JOBS};
use mal_hall::{Hall, Post, Size};
use mal_pool::{PlainGate, Served, run_all, run_with};
use mal_script::{Script, ScriptJob, read};
use mal_service::{Pass, Service};
use std::alloc::{AllocError, Global};
use std::marker::Brand;
use std::sync::Wait;
use std::thread::Threads;

/// Whether as many jobs of demand 1 as there are workers start together: their first slices wait for one another, so no
/// worker has the turn while it works.
fn holds_together<R: Threads + Wait + Sync>(
    rt: &R,
    alloc: Global,
    workers: u32,
    script: &Script,
) -> Option<bool>
    requires some { 1 ≤ workers }
    requires bound { workers ≤ 64 }
{
    let gate = Together::of(u64::from(workers));
    let hall = run_all(rt, alloc, script, workers, &gate).ok()?;
    let has_held = gate.has_held(hall.history());
    drop(hall);
    Some(has_held)
}

/// The same of the script of a text.
fn start_together<R: Threads + Wait + Sync>(
    rt: &R,
    alloc: Global,
    workers: u32,
    text: &[u8],
) -> Option<bool>
    requires some { 1 ≤ workers }
    requires bound { workers ≤ 64 }
{
    let script = read(alloc, text).ok()?;
    let has_held = holds_together(rt, alloc, workers, &script);
    drop(script);
    has_held
}

#[test]
fn workers_start_before_one_finishes(rt: HostRuntime) {
    let alloc = rt.alloc();
    assert!(rt; start_together(&rt, alloc, 2, TWO_JOBS) == Some(true));
    assert!(rt; start_together(&rt, alloc, 4, FOUR_JOBS) == Some(true));
}

/// Whether workers who run a script reply like this, and lose no lease.
fn run_replies<R: Threads + Wait + Sync>(
    rt: &R,
    alloc: Global,
    workers: u32,
    script: &Script,
    known: &[u8],
) -> Option<bool>
    requires some { 1 ≤ workers }
    requires bound { workers ≤ 64 }
{
    let hall = run_all(rt, alloc, script, workers, &PlainGate).ok()?;
    let is_known = has_replied(alloc, &hall, script, known);
    drop(hall);
    Some(is_known)
}

/// Whether workers reply to a script as it is known.
fn reply_alike<R: Threads + Wait + Sync>(
    rt: &R,
    alloc: Global,
    workers: u32,
    known: Answered,
) -> Option<bool>
    requires some { 1 ≤ workers }
    requires bound { workers ≤ 64 }
{
    let script = read(alloc, known.script).ok()?;
    let is_known = run_replies(rt, alloc, workers, &script, known.replies);
    drop(script);
    is_known
}

#[test]
fn any_number_of_workers_replies_alike(rt: HostRuntime) {
    let alloc = rt.alloc();
    assert!(rt; reply_alike(&rt, alloc, 1, FOUR_TENANTS) == Some(true));
    assert!(rt; reply_alike(&rt, alloc, 4, FOUR_TENANTS) == Some(true));
    assert!(rt; reply_alike(&rt, alloc, 64, FOUR_TENANTS) == Some(true));
}

/// Three revisions of a job of one tenant, beside jobs of two others.
const THREE: Answered = Answered {
    script: b"t a\nj p 1 1 4\np cnf 2 1\n1 2 0\na 0\np cnf 2 1\n-1 0\na -2 0\np cnf 2 0\na 0\ne\nt b\nj p 1 2 4\np cnf 0 0\na 0\ne\nt c\nj p 1 1 4\np cnf 2 4\n1 2 0\n1 -2 0\n-1 2 0\n-1 -2 0\na 0\ne\n",
    replies: b"r a p 1\ns SATISFIABLE\nv -1 2 0\nr a p 2\ns UNSATISFIABLE\nk -2 0\nl 3 2 0 2 1 0\nr a p 3\ns SATISFIABLE\nv -1 2 0\nr b p 1\ns SATISFIABLE\nv 0\nr c p 1\ns UNSATISFIABLE\nk 0\nl 5 1 0 1 2 0\nl 6 0 5 3 4 0\n",
};

#[test]
fn any_number_of_workers_replies_alike_to_revisions(rt: HostRuntime) {
    let alloc = rt.alloc();
    assert!(rt; reply_alike(&rt, alloc, 1, THREE) == Some(true));
    assert!(rt; reply_alike(&rt, alloc, 2, THREE) == Some(true));
    assert!(rt; reply_alike(&rt, alloc, 4, THREE) == Some(true));
    assert!(rt; reply_alike(&rt, alloc, 64, THREE) == Some(true));
}

/// Opens a job at a service.
fn opened<S: Size, R: Wait>(rt: &R, service: &Service<S>, pass: Pass<S>, job: &ScriptJob) -> Pass<S>
    requires { IsOf service.now.turn pass }
    ensures { IsOf service.now.turn result }
{
    let post = Post::Open {
        tenant: job.tenant(),
        job: job.name(),
        ask: job.ask(),
    };
    service.post(rt, pass, post).0
}

/// Runs a script over a service that has its first job already, and so refuses it.
fn run_refused<S: Size + Send + Sync, R: Threads + Wait + Sync>(
    rt: &R,
    alloc: Global,
    script: &Script,
    workers: u32,
) -> Result<Hall, AllocError>
    requires some { 1 ≤ workers }
    requires bound { workers ≤ 64 }
    requires size { workers ≡ S.workers }
    ensures { IfOk result (λ h. HasRun workers script.now h) }
{
    let (service, pass) = Service::<S>::new(alloc, workers)?;
    let pass = match script.jobs().first() {
        Some(job) => opened(rt, &service, pass, job),
        None => pass,
    };
    let board = Served::new(service);
    run_with(rt, alloc, board, pass, script, workers, &PlainGate)
}

/// Whether a hall that refuses a job is given up, and a new one replies to the script of the four tenants.
fn refused_replies<R: Threads + Wait + Sync>(
    rt: &R,
    alloc: Global,
    script: &Script,
) -> Option<bool> {
    let workers = 4;
    let hall = run_refused::<Brand, R>(rt, alloc, script, workers).ok()?;
    let is_known = has_replied(alloc, &hall, script, FOUR_TENANTS.replies);
    drop(hall);
    Some(is_known)
}

/// The same of the script that is read.
fn reply_refused<R: Threads + Wait + Sync>(rt: &R, alloc: Global) -> Option<bool> {
    let script = read(alloc, FOUR_TENANTS.script).ok()?;
    let is_known = refused_replies(rt, alloc, &script);
    drop(script);
    is_known
}

#[test]
fn a_refused_job_is_no_want_of_memory(rt: HostRuntime) {
    assert!(rt; reply_refused(&rt, rt.alloc()) == Some(true));
}
