//! A gate that holds workers until others have come, and what a history tells of who ran when.

ghost use Rattle.std.specs.Prelude.{ℕ};
ghost use Rattle.mal_pool.specs.Posts.{HasRun};

use mal_base::Outcome;
use mal_hall::Hall;
use mal_history::{Event, History};
use mal_pool::{Gate, Point, Step, replies};
use mal_script::Script;
use std::alloc::Global;
use std::sync::atomic::{AtomicU64, Ordering};
use std::thread;

/// A gate that holds everyone before the first slice, and again after it, until so many have come. It counts those whom
/// another let go; who has looked a million times goes uncounted.
#[derive(Drop)]
pub struct Together {
    wanted: u64,
    before: AtomicU64,
    after: AtomicU64,
    let_go: AtomicU64,
}

impl Together {
    pub fn of(wanted: u64) -> Together {
        Together {
            wanted,
            before: AtomicU64::new(0),
            after: AtomicU64::new(0),
            let_go: AtomicU64::new(0),
        }
    }

    /// Whether all whom it waits for started before any of them finished, each was let go by another, and no lease was
    /// lost.
    pub fn has_held(&self, history: &History) -> bool {
        starts_at_once(history) as u64 == self.wanted
            && self.let_go.load(Ordering::SeqCst) == self.wanted.saturating_add(self.wanted)
            && losses(history) == 0
    }
}

impl Gate for Together {
    ghost use Rattle.std.specs.Prelude.{false};

    ghost stops = { λ gate point start worker. false };

    fn at(&self, point: Point, start: u64, _worker: u32) -> Step {
        if start > self.wanted {
            return Step::Go;
        }
        let arrived = match point {
            Point::Before => &self.before,
            Point::After => &self.after,
        };
        if arrived.fetch_add(1, Ordering::SeqCst).wrapping_add(1) == self.wanted {
            self.let_go.fetch_add(1, Ordering::SeqCst);
            return Step::Go;
        }
        for _ in 0..1_000_000 {
            if self.wanted <= arrived.load(Ordering::SeqCst) {
                self.let_go.fetch_add(1, Ordering::SeqCst);
                return Step::Go;
            }
            thread::yield_now();
        }
        Step::Go
    }
}

/// How many starts stand before the first finish.
fn starts_at_once(history: &History) -> usize {
    let mut count: usize = 0;
    for event in history.events() {
        match event {
            Event::Start { .. } => count = count.saturating_add(1),
            Event::Finish { .. } => return count,
            _ => {}
        }
    }
    count
}

/// The greatest number of a worker that has a start.
pub fn last_worker(history: &History) -> u32 {
    let mut last = 0;
    for event in history.events() {
        match event {
            Event::Start { worker, .. } => last = last.max(*worker),
            _ => {}
        }
    }
    last
}

/// How many leases were lost.
pub fn losses(history: &History) -> usize {
    let mut count: usize = 0;
    for event in history.events() {
        match event {
            Event::Finish { outcome, .. } => {
                if *outcome == Outcome::Lost {
                    count = count.saturating_add(1);
                }
            }
            _ => {}
        }
    }
    count
}

/// Whether a hall that has run a script replies like this, and no lease of it was lost.
pub fn has_replied(alloc: Global, hall: &Hall, script: &Script, known: &[u8]) -> bool
    requires { (workers : ℕ) × HasRun workers script.now hall.now }
{
    match replies(alloc, hall, script) {
        Ok(text) => {
            let is_known = text.as_slice() == known;
            drop(text);
            is_known && losses(hall.history()) == 0
        }
        Err(_) => false,
    }
}
