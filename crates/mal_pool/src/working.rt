//! What a worker does at a desk.

ghost use Rattle.std.specs.Prelude.{◌≡◌, ◌≤◌, List, [], ◌∷◌, ◌++◌, None, Ok, false};
ghost use Rattle.mal_hall.specs.{Desks.{DeskCall, Picked, Gave}, Offered.{handed_of}};
ghost use Rattle.mal_pool.specs.{Gates.{StopsSomewhere}, declared.gate.Point.TheVariants.{Before}, Works.{IsTurn, Works, turned_by}, declared.working.End.TheVariants.{Stopped}};
ghost use Rattle.spec_hall.specs.Calls.{Leased, Return};

use crate::gate::{Gate, Point, Step};
use mal_base::PickFault;
use mal_hall::{Desk, Pick};
use mal_learn::Scratch;
use mal_suspend::{Done, Lease};
use std::sync::Wait;
use std::thread;

/// How many answers in a row may be that there is nothing now.
const PATIENCE: u32 = 1_000;

/// How a worker's loop ends.
#[derive(Clone, Copy, PartialEq, Eq, Debug)]
pub enum End {
    /// Every job is closed and answered and nothing is out.
    AllDone,
    /// 1,000 answers in a row were that there is nothing now.
    Idle,
    /// So many picks were made as the loop had turns.
    Spent,
    /// The worker has a lease out.
    Busy,
    /// What came of a lease was not taken back.
    Strange,
    /// The gate stopped the worker.
    Stopped,
    /// A pick ran out of memory.
    OutOfMemory,
}

/// What one turn of the loop came to.
#[derive(Clone, Copy)]
pub enum Turned {
    Worked,
    Idle,
    Ended(End),
}

/// Works at a desk as a worker, 1 to the number of workers, for so many turns at most: each turn picks, works the lease
/// and gives back what came of it. The calls that were made decide the end. After each answer that there is nothing now
/// it yields once.
pub fn work_loop<R: Wait, D: Desk, G: Gate>(
    rt: &R,
    desk: &D,
    pass: D::Pass,
    worker: u32,
    scratch: &mut Scratch,
    gate: &G,
    turns: u64,
) -> (D::Pass, End)
    requires of { D.is_of desk.now pass }
    requires low { 1 ≤ worker }
    requires high { worker ≤ D.workers desk.now }
    ensures of { D.is_of desk.now result.0 }
    ensures calls { (mine : List DeskCall) × (D.calls result.0 ≡ D.calls pass ++ mine)
        × Works (G.stops gate.now) worker turns 0 None mine result.1 }
    ensures stopped { result.1 ≡ Stopped → StopsSomewhere (G.stops gate.now) }
{
    let station = Station {
        rt,
        desk,
        worker,
        gate,
    };
    let mut pass = pass;
    let mut idles = 0;
    for _made in 0..turns {
        let (back, turned) = station.turn(pass, scratch);
        pass = back;
        match turned {
            Turned::Worked => idles = 0,
            Turned::Idle => {
                idles += 1;
                // A worker that no node is left for ends, and one that waits for a poster lets the others run.
                thread::yield_now();
                if idles == PATIENCE {
                    return (pass, End::Idle);
                }
            }
            Turned::Ended(end) => return (pass, end),
        }
    }
    (pass, End::Spent)
}

/// Where a worker works: a desk, its number there, and the gate that it passes.
#[derive(Drop)]
struct Station<'a, R, D, G> {
    rt: &'a R,
    desk: &'a D,
    worker: u32,
    gate: &'a G,
}

impl<'a, R: Wait, D: Desk, G: Gate> Station<'a, R, D, G> {
    /// Picks once, works what was leased off, and gives it back.
    fn turn(&self, pass: D::Pass, scratch: &mut Scratch) -> (D::Pass, Turned)
        requires of { D.is_of self.now.desk.now pass }
        requires low { 1 ≤ self.now.worker }
        requires high { self.now.worker ≤ D.workers self.now.desk.now }
        ensures of { D.is_of self.now.desk.now result.0 }
        ensures calls { (mine : List DeskCall) × (D.calls result.0 ≡ D.calls pass ++ mine)
            × IsTurn (G.stops self.now.gate.now) self.now.worker mine result.1 }
    {
        let (pass, answer) = self.desk.pick(self.rt, pass, self.worker);
        match answer {
            Ok(Pick::Leased(lease)) => self.work_off(pass, lease, scratch),
            Ok(Pick::Idle) => (pass, Turned::Idle),
            Ok(Pick::AllDone) => (pass, Turned::Ended(End::AllDone)),
            Err(PickFault::Busy) => (pass, Turned::Ended(End::Busy)),
            Err(PickFault::OutOfMemory) => (pass, Turned::Ended(End::OutOfMemory)),
        }
    }

    /// Works a lease off that the worker has just picked, and gives it back. Where the gate stops the worker, the lease
    /// or what came of it is let go.
    fn work_off(&self, pass: D::Pass, lease: Lease, scratch: &mut Scratch) -> (D::Pass, Turned)
        requires of { D.is_of self.now.desk.now pass }
        ensures of { D.is_of self.now.desk.now result.0 }
        ensures calls { (mine : List DeskCall) × (D.calls result.0 ≡ D.calls pass ++ mine)
            × IsTurn (G.stops self.now.gate.now) self.now.worker
            (Picked self.now.worker (Ok (Leased (handed_of lease))) ∷ mine) result.1 }
    {
        let start = lease.start();
        match self.gate.at(Point::Before, start, self.worker) {
            Step::Stop => {
                drop(lease);
                (pass, Turned::Ended(End::Stopped))
            }
            Step::Go => self.work_on(pass, lease, scratch),
        }
    }

    /// Works a lease off with which the gate let the worker pass, and gives back what came of it.
    fn work_on(&self, pass: D::Pass, lease: Lease, scratch: &mut Scratch) -> (D::Pass, Turned)
        requires of { D.is_of self.now.desk.now pass }
        requires passed { G.stops self.now.gate.now Before lease.journal.start self.now.worker ≡ false }
        ensures of { D.is_of self.now.desk.now result.0 }
        ensures calls { (mine : List DeskCall) × (D.calls result.0 ≡ D.calls pass ++ mine)
            × IsTurn (G.stops self.now.gate.now) self.now.worker
            (Picked self.now.worker (Ok (Leased (handed_of lease))) ∷ mine) result.1 }
    {
        let start = lease.start();
        let back = lease.work(scratch);
        match self.gate.at(Point::After, start, self.worker) {
            Step::Stop => {
                drop(back);
                (pass, Turned::Ended(End::Stopped))
            }
            Step::Go => give_back(self.rt, self.desk, pass, back),
        }
    }
}

/// Gives back what came of a lease.
fn give_back<R: Wait, D: Desk>(rt: &R, desk: &D, pass: D::Pass, back: Done) -> (D::Pass, Turned)
    requires of { D.is_of desk.now pass }
    ensures of { D.is_of desk.now result.0 }
    ensures calls { (answer : Return) × (D.calls result.0 ≡ D.calls pass ++ Gave back answer ∷ [])
        × (result.1 ≡ turned_by answer) }
{
    let (pass, answer) = desk.finish(rt, pass, back);
    match answer {
        Ok(_) => (pass, Turned::Worked),
        Err(strange) => {
            drop(strange);
            (pass, Turned::Ended(End::Strange))
        }
    }
}
