//! A board whose posts are slow.

ghost use Rattle.std.specs.Prelude.{◌≡◌, ◌≤◌, IfOk};
ghost use Rattle.mal_pool.specs.Posts.{HasRun};

use super::gates::has_replied;
use super::scripts::FOUR_TENANTS;
use mal_hall::{Desk, FinishAnswer, Hall, PickAnswer, Post, PostFault, Size};
use mal_pool::{Board, InUse, PlainGate, Served, run_alone, run_with};
use mal_script::Script;
use mal_service::Service;
use mal_suspend::Done;
use std::alloc::{AllocError, Global};
use std::marker::Brand;
use std::sync::Wait;
use std::thread::{self, Threads};

/// A board at which a poster waits so many turns before each post.
#[derive(Drop)]
struct Slow<B: Board> {
    board: B,
    turns: u32,
}

impl<B: Board> Desk for Slow<B> {
    type Pass = B::Pass;

    ghost workers = { λ desk. B.workers desk.board };

    ghost is_of = { λ desk pass. B.is_of desk.board pass };

    ghost calls = { λ pass. B.calls pass };

    fn pick<R: Wait>(&self, rt: &R, pass: B::Pass, worker: u32) -> (B::Pass, PickAnswer) {
        self.board.pick(rt, pass, worker)
    }

    fn finish<R: Wait>(&self, rt: &R, pass: B::Pass, back: Done) -> (B::Pass, FinishAnswer) {
        self.board.finish(rt, pass, back)
    }
}

impl<B: Board> Board for Slow<B> {
    ghost is_whole = { λ pass. B.is_whole pass };

    ghost leaves = { λ pass history. B.leaves pass history };

    fn post<R: Wait>(&self, rt: &R, pass: B::Pass, post: Post) -> (B::Pass, Result<(), PostFault>) {
        for _ in 0..self.turns {
            thread::yield_now();
        }
        self.board.post(rt, pass, post)
    }

    fn split(&self, pass: B::Pass) -> (B::Pass, B::Pass) {
        self.board.split(pass)
    }

    fn join(&self, pass: B::Pass, other: B::Pass) -> B::Pass {
        self.board.join(pass, other)
    }

    fn begin(&self) {
        self.board.begin();
    }

    fn end(&self) {
        self.board.end();
    }

    fn close(self, pass: B::Pass) -> Result<Hall, InUse> {
        let Slow { board, turns: _ } = self;
        board.close(pass)
    }
}

/// Runs a script over a service, whose posts are slow.
fn run_slowly<S: Size + Send + Sync, R: Threads + Wait + Sync>(
    rt: &R,
    alloc: Global,
    script: &Script,
    workers: u32,
    turns: u32,
) -> Result<Hall, AllocError>
    requires some { 1 ≤ workers }
    requires bound { workers ≤ 64 }
    requires size { workers ≡ S.workers }
    ensures { IfOk result (λ h. HasRun workers script.now h) }
{
    let (service, pass) = Service::<S>::new(alloc, workers)?;
    let board = Served::new(service);
    let slow = Slow { board, turns };
    run_with(rt, alloc, slow, pass, script, workers, &PlainGate)
}

/// Whether those who post a script slowly are replied to as if they were quick.
fn slow_replies<R: Threads + Wait + Sync>(
    rt: &R,
    alloc: Global,
    script: &Script,
    turns: u32,
) -> Option<bool> {
    let workers = 4;
    let hall = run_slowly::<Brand, R>(rt, alloc, script, workers, turns).ok()?;
    let is_known = has_replied(alloc, &hall, script, FOUR_TENANTS.replies);
    drop(hall);
    Some(is_known)
}

/// The same of four tenants.
fn reply_slowly<R: Threads + Wait + Sync>(rt: &R, alloc: Global, turns: u32) -> Option<bool> {
    let script = mal_script::read(alloc, FOUR_TENANTS.script).ok()?;
    let is_known = slow_replies(rt, alloc, &script, turns);
    drop(script);
    is_known
}

#[test]
fn slow_posters_are_waited_for(rt: HostRuntime) {
    assert!(rt; reply_slowly(&rt, rt.alloc(), 50) == Some(true));
    assert!(rt; reply_slowly(&rt, rt.alloc(), 20_000) == Some(true));
}

/// The text of the history of one worker's run over a slow board.
fn slow_history<R: Threads + Wait + Sync>(
    rt: &R,
    alloc: Global,
    script: &Script,
) -> Option<Vec<u8>> {
    let workers = 1;
    let hall = run_slowly::<Brand, R>(rt, alloc, script, workers, 50).ok()?;
    let text = mal_history::write(alloc, hall.history()).ok();
    drop(hall);
    text
}

/// The text of the history of a run without a board.
fn alone_history(alloc: Global, script: &Script) -> Option<Vec<u8>> {
    let hall = run_alone(alloc, script, 1).ok()?;
    let text = mal_history::write(alloc, hall.history()).ok();
    drop(hall);
    text
}

/// Whether one worker, for whom no thread is made, waits for no poster: the history is that of a run without a board.
fn runs_one_slowly<R: Threads + Wait + Sync>(rt: &R, alloc: Global) -> Option<bool> {
    let script = mal_script::read(alloc, FOUR_TENANTS.script).ok()?;
    let slow = slow_history(rt, alloc, &script);
    let known = alone_history(alloc, &script);
    drop(script);
    Some(slow?.as_slice() == known?.as_slice())
}

#[test]
fn one_worker_waits_for_no_poster(rt: HostRuntime) {
    assert!(rt; runs_one_slowly(&rt, rt.alloc()) == Some(true));
}
