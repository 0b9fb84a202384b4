//! A worker of a live service.

ghost use Rattle.std.specs.Prelude.{◌≡◌, ◌≤◌};

use mal_learn::Scratch;
use mal_live::{LiveDesk, Worked};
use std::alloc::Global;
use std::sync::Wait;
use std::thread;

/// How often in a row memory may run out before a worker leaves.
const PATIENCE: u32 = 1000;

/// Works as a worker, 1 to the number of workers, until nothing more is posted and all is done, and sleeps while there
/// is nothing to do. Leaves before that where a sink has failed, and where memory runs out again and again.
pub fn work_all<R: Wait, P: Send + Drop, D: LiveDesk<P>>(
    rt: &R,
    alloc: Global,
    desk: &D,
    pass: P,
    worker: u32,
) -> P
    requires of { D.is_of desk.now pass }
    requires low { 1 ≤ worker }
    requires high { worker ≤ D.workers desk.now }
    ensures of { D.is_of desk.now result }
    ensures numbers { D.numbers result ≡ D.numbers pass }
    ensures said { D.said result ≡ D.said pass }
{
    desk.signals().begin();
    let pass = work_on(rt, alloc, desk, pass, worker);
    desk.signals().leave();
    pass
}

/// The turns of a worker, until it leaves.
fn work_on<R: Wait, P: Send + Drop, D: LiveDesk<P>>(
    rt: &R,
    alloc: Global,
    desk: &D,
    pass: P,
    worker: u32,
) -> P
    requires of { D.is_of desk.now pass }
    requires low { 1 ≤ worker }
    requires high { worker ≤ D.workers desk.now }
    ensures of { D.is_of desk.now result }
    ensures numbers { D.numbers result ≡ D.numbers pass }
    ensures said { D.said result ≡ D.said pass }
{
    let signals = desk.signals();
    let mut scratch = Scratch::new(alloc);
    let mut pass = pass;
    let mut patience = PATIENCE;
    for _ in rt.forever() {
        // What rings from here on is not slept through.
        let heard = signals.work.heard();
        if signals.is_broken() {
            return pass;
        }
        let ended = signals.has_ended();
        let (back, worked) = desk.work(rt, pass, worker, &mut scratch);
        pass = back;
        match worked {
            Worked::Slice => signals.entered(),
            Worked::Idle => signals.rest(rt, heard),
            Worked::AllDone => {
                if ended {
                    return pass;
                }
                signals.rest(rt, heard);
            }
            Worked::OutOfMemory => {
                if patience == 0 {
                    return pass;
                }
                patience -= 1;
                thread::yield_now();
                continue;
            }
        }
        patience = PATIENCE;
    }
    unreachable!()
}
