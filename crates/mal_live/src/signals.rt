//! How the parts of a live service wake each other, and for whom the reader waits.

use mal_bell::Bell;
use std::sync::Wait;
use std::sync::atomic::{AtomicBool, AtomicU32, AtomicU64, Ordering};

/// The reader waits before a revision where this many have no reply that was told, and every worker is at work.
const BACKLOG: u64 = 4_096;

/// It goes on where this many are left: so it sleeps once for many replies.
const LEFT: u64 = 3_072;

/// What the parts tell each other, beside what the desk says: that there may be work, that there may be news, that the
/// input has ended, that a sink has failed, and how far the reader is ahead. No contract speaks of it.
#[derive(Drop)]
pub struct Signals {
    /// Workers sleep by it: rung by a post and by what came back.
    pub work: Bell,
    /// The writer sleeps by it: rung by the same, and by a worker that ends.
    pub news: Bell,
    /// The reader sleeps by it: rung by replies that are told, by a worker that there is nothing for, and by one that
    /// ends.
    room: Bell,
    ended: AtomicBool,
    broken: AtomicBool,
    workers: AtomicU32,
    begun: AtomicU32,
    resting: AtomicU32,
    posted: AtomicU64,
    told: AtomicU64,
}

impl Signals {
    /// Nothing was told yet; so many workers will work.
    pub fn new(workers: u32) -> Signals {
        Signals {
            work: Bell::new(),
            news: Bell::new(),
            room: Bell::new(),
            ended: AtomicBool::new(false),
            broken: AtomicBool::new(false),
            workers: AtomicU32::new(workers),
            begun: AtomicU32::new(0),
            resting: AtomicU32::new(0),
            posted: AtomicU64::new(0),
            told: AtomicU64::new(0),
        }
    }

    /// Something was entered: there may be work and news.
    pub fn entered(&self) {
        self.work.ring();
        self.news.ring();
    }

    /// Nothing more will be posted.
    pub fn end_input(&self) {
        self.ended.store(true, Ordering::SeqCst);
        self.work.ring_all();
        self.news.ring_all();
    }

    /// Whether nothing more will be posted.
    pub fn has_ended(&self) -> bool {
        self.ended.load(Ordering::SeqCst)
    }

    /// A sink failed: nothing more is told.
    pub fn break_off(&self) {
        self.broken.store(true, Ordering::SeqCst);
        self.work.ring_all();
        self.news.ring_all();
        self.room.ring_all();
    }

    /// Whether a sink failed.
    pub fn is_broken(&self) -> bool {
        self.broken.load(Ordering::SeqCst)
    }

    /// A worker begins to work.
    pub fn begin(&self) {
        self.begun.fetch_add(1, Ordering::SeqCst);
    }

    /// A worker that there is nothing for sleeps, while the bell of work has not rung since it had rung so often.
    pub fn rest<R: Wait>(&self, rt: &R, heard: u64) {
        self.resting.fetch_add(1, Ordering::SeqCst);
        self.room.ring();
        self.work.sleep(rt, heard);
        self.resting.fetch_sub(1, Ordering::SeqCst);
    }

    /// A worker that had begun works no more.
    pub fn leave(&self) {
        self.begun.fetch_sub(1, Ordering::SeqCst);
        self.workers.fetch_sub(1, Ordering::SeqCst);
        self.work.ring_all();
        self.news.ring_all();
        self.room.ring_all();
    }

    /// Whether no worker works any more.
    pub fn is_deserted(&self) -> bool {
        self.workers.load(Ordering::SeqCst) == 0
    }

    /// A reply was told.
    pub fn reply_told(&self) {
        self.told.fetch_add(1, Ordering::SeqCst);
        if self.backlog() <= LEFT {
            self.room.ring();
        }
    }

    /// Counts a revision that is posted next, after waiting while too many have no reply and every worker is at work.
    /// The workers end the wait, however little the client reads: once they have done what was posted one rests.
    pub fn await_room<R: Wait>(&self, rt: &R) {
        if self.must_wait(BACKLOG) {
            self.wait_for_room(rt);
        }
        self.posted.fetch_add(1, Ordering::SeqCst);
    }

    /// Sleeps until there is room.
    fn wait_for_room<R: Wait>(&self, rt: &R) {
        for _ in rt.forever() {
            // What rings from here on is not slept through.
            let heard = self.room.heard();
            if !self.must_wait(LEFT + 1) {
                return;
            }
            self.room.sleep(rt, heard);
        }
        unreachable!()
    }

    /// Whether this many revisions have no reply that was told, and something that is under way will end a wait.
    fn must_wait(&self, many: u64) -> bool {
        self.backlog() >= many && self.all_work() && !self.is_broken()
    }

    /// How many revisions were posted without a reply that was told.
    fn backlog(&self) -> u64 {
        let told = self.told.load(Ordering::SeqCst);
        self.posted.load(Ordering::SeqCst).saturating_sub(told)
    }

    /// Whether some worker has begun, and none of those that have rests.
    fn all_work(&self) -> bool {
        self.begun.load(Ordering::SeqCst) > 0 && self.resting.load(Ordering::SeqCst) == 0
    }
}
