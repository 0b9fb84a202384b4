//! The parts of threads in a run.

ghost use Rattle.std.specs.Prelude.{◌≡◌, ◌≤◌, List, ◌++◌, true};
ghost use Rattle.mal_hall.specs.Desks.{DeskCall};
ghost use Rattle.mal_pool.specs.{Gates.{StopsSomewhere}, Parts.{AreLoops, Fits, HasPlayed, is_idle, is_stop}};

use crate::board::Board;
use crate::gate::Gate;
use crate::posting::{Hindered, post_all};
use crate::working::{End, work_loop};
use mal_learn::Scratch;
use mal_script::ScriptJob;
use std::alloc::Global;
use std::sync::Wait;

/// What a thread is to do: post for the tenant of the job at this place of the script, or work as a worker of this
/// number.
#[derive(Clone, Copy)]
pub enum Part {
    Poster(usize),
    Worker(u32),
}

/// How many turns a worker's loop is given.
const TURNS: u64 = 1 << 20;

/// How many loops a worker has, one after another as long as there was nothing for it.
const LOOPS: u32 = 33;

/// A part with its pass.
#[derive(Drop)]
pub struct Role<P> {
    pub pass: P,
    pub part: Part,
}

/// A part that was played: its pass, how far it posted where it was hindered, and whether the gate stopped it.
#[derive(Drop)]
pub struct Played<P> {
    pub part: Part,
    pub pass: P,
    pub hindered: Option<Hindered>,
    pub stopped: bool,
}

/// Plays a part to its end.
pub fn play<R: Wait, B: Board, G: Gate>(
    rt: &R,
    alloc: Global,
    board: &B,
    jobs: &[ScriptJob],
    gate: &G,
    role: Role<B::Pass>,
) -> Played<B::Pass>
    requires of { B.is_of board.now role.pass }
    requires fits { Fits (B.workers board.now) jobs.now role.part }
    ensures of { B.is_of board.now result.pass }
    ensures part { result.part ≡ role.part }
    ensures played { (mine : List DeskCall) × (B.calls result.pass ≡ B.calls role.pass ++ mine)
        × HasPlayed (G.stops gate.now) jobs.now role.part result.hindered result.stopped mine }
    ensures stopped { result.stopped ≡ true → StopsSomewhere (G.stops gate.now) }
{
    board.begin();
    let played = play_part(rt, alloc, board, jobs, gate, role);
    board.end();
    played
}

/// Plays a part at a board that was told of it.
fn play_part<R: Wait, B: Board, G: Gate>(
    rt: &R,
    alloc: Global,
    board: &B,
    jobs: &[ScriptJob],
    gate: &G,
    role: Role<B::Pass>,
) -> Played<B::Pass>
    requires of { B.is_of board.now role.pass }
    requires fits { Fits (B.workers board.now) jobs.now role.part }
    ensures of { B.is_of board.now result.pass }
    ensures part { result.part ≡ role.part }
    ensures played { (mine : List DeskCall) × (B.calls result.pass ≡ B.calls role.pass ++ mine)
        × HasPlayed (G.stops gate.now) jobs.now role.part result.hindered result.stopped mine }
    ensures stopped { result.stopped ≡ true → StopsSomewhere (G.stops gate.now) }
{
    match role.part {
        Part::Poster(place) => {
            let tenant = jobs[place].tenant();
            let (pass, hindered) = post_all(rt, board, role.pass, tenant, jobs);
            Played {
                part: role.part,
                pass,
                hindered,
                stopped: false,
            }
        }
        Part::Worker(number) => {
            let mut scratch = Scratch::new(alloc);
            let (pass, stopped) = work(rt, board, role.pass, number, &mut scratch, gate);
            drop(scratch);
            Played {
                part: role.part,
                pass,
                hindered: None,
                stopped,
            }
        }
    }
}

/// Works as long as there is work: in loops, each after one that ended idle. True where the gate stopped the worker in
/// the last of them.
fn work<R: Wait, B: Board, G: Gate>(
    rt: &R,
    board: &B,
    pass: B::Pass,
    number: u32,
    scratch: &mut Scratch,
    gate: &G,
) -> (B::Pass, bool)
    requires of { B.is_of board.now pass }
    requires low { 1 ≤ number }
    requires high { number ≤ B.workers board.now }
    ensures of { B.is_of board.now result.0 }
    ensures calls { (mine : List DeskCall) × (B.calls result.0 ≡ B.calls pass ++ mine)
        × AreLoops (G.stops gate.now) number 1048576 33 mine result.1 }
    ensures stopped { result.1 ≡ true → StopsSomewhere (G.stops gate.now) }
{
    let mut pass = pass;
    for _made in 0..LOOPS {
        let (back, end) = work_loop(rt, board, pass, number, scratch, gate, TURNS);
        pass = back;
        if !is_idle(end) {
            return (pass, is_stop(end));
        }
    }
    (pass, false)
}

/// Whether a loop ended idle.
fn is_idle(end: End) -> bool
    ensures { result ≡ is_idle end }
{
    match end {
        End::AllDone => false,
        End::Idle => true,
        End::Spent => false,
        End::Busy => false,
        End::Strange => false,
        End::Stopped => false,
        End::OutOfMemory => false,
    }
}

/// Whether a loop ended where the gate stopped its worker.
fn is_stop(end: End) -> bool
    ensures { result ≡ is_stop end }
{
    match end {
        End::AllDone => false,
        End::Idle => false,
        End::Spent => false,
        End::Busy => false,
        End::Strange => false,
        End::Stopped => true,
        End::OutOfMemory => false,
    }
}
