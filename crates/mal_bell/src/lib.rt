//! A bell, by which threads that wait for work are woken.
#![tactic(auto)]

use std::sync::Wait;
use std::sync::atomic::{AtomicU64, Ordering};

/// A bell. Who waits notes how often it rang before looking for work, and sleeps only while it has not rung since: a
/// sleeper is counted before it looks at the bell a last time, so a ring in between either sees it and wakes it, or has
/// changed the number, and then it does not fall asleep. No contract speaks of it: who is woken for nothing looks once
/// more.
#[derive(Drop)]
pub struct Bell {
    rings: AtomicU64,
    sleepers: AtomicU64,
}

impl Bell {
    /// A bell that did not ring yet.
    pub fn new() -> Bell {
        Bell {
            rings: AtomicU64::new(0),
            sleepers: AtomicU64::new(0),
        }
    }

    /// How often it rang.
    pub fn heard(&self) -> u64 {
        self.rings.load(Ordering::SeqCst)
    }

    /// Wakes one sleeper, where there is one.
    pub fn ring(&self) {
        self.rings.fetch_add(1, Ordering::SeqCst);
        if self.sleepers.load(Ordering::SeqCst) > 0 {
            self.rings.wake_one();
        }
    }

    /// Wakes all sleepers.
    pub fn ring_all(&self) {
        self.rings.fetch_add(1, Ordering::SeqCst);
        self.rings.wake_all();
    }

    /// Sleeps while the bell has not rung since it had rung so often. It may return for no reason.
    pub fn sleep<R: Wait>(&self, rt: &R, heard: u64) {
        self.sleepers.fetch_add(1, Ordering::SeqCst);
        self.rings.park(rt, (heard % (1 << 32)) as u32);
        self.sleepers.fetch_sub(1, Ordering::SeqCst);
    }
}
