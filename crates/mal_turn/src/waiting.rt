//! Waiting for the turn. Who waits has drawn no ticket yet: a ticket is drawn where the turn is free. 1,000,000 turns
//! take 0.03 to 0.07 s with 4 threads and 0.04 to 0.16 with 16; handed on strictly in the order of waiting they took
//! 4.8 and 50.
ghost use Rattle.std.specs.Prelude.{◌≡◌, ◌+◌, ◌^◌, ◌<◌, [], ◌∷◌, length, IfSome, IfNone, Some};
ghost use Rattle.mal_turn.specs.{declared.view.Stage.TheVariants.{Idle, Drawn, Holds}, Rule.{Begins, Has, IsUnborn, at_stage, seeing}};

use crate::steps::{Draw, Look};
use crate::table::{Place, SERVING, TICKET, Turn};
use crate::view::Recorded;
use std::sync::Wait;
use std::sync::atomic::{AtomicU64, Ordering};
use std::{hint, thread};

// How often a caller looks before it gives its time slice away, and before it sleeps.
const SPINS: u32 = 20;

const LOOKS: u32 = 40;

/// How many callers wait for the turn: those that look again and again, and those that sleep until they are woken.
#[derive(Drop)]
pub(crate) struct Waiting {
    lookers: AtomicU64,
    sleepers: AtomicU64,
}

impl Waiting {
    pub(crate) fn new() -> Waiting {
        Waiting {
            lookers: AtomicU64::new(0),
            sleepers: AtomicU64::new(0),
        }
    }

    // Somebody sleeps, and nobody looks.
    fn all_sleep(&self) -> bool {
        self.sleepers.load(Ordering::SeqCst) > 0 && self.lookers.load(Ordering::SeqCst) == 0
    }

    fn begin_looking(&self) {
        self.lookers.fetch_add(1, Ordering::SeqCst);
    }

    fn end_looking(&self) {
        self.lookers.fetch_sub(1, Ordering::SeqCst);
    }

    fn begin_sleeping(&self) {
        self.sleepers.fetch_add(1, Ordering::SeqCst);
    }

    fn end_sleeping(&self) {
        self.sleepers.fetch_sub(1, Ordering::SeqCst);
    }
}

impl<T: Recorded + Drop> Turn<T> {
    /// Draws a ticket.
    pub(crate) fn draw<R: Wait>(&self, rt: &R, place: &mut Place<T, T::Entry>) -> u64
        requires { (place.old.table_id ≡ self.now.table.shared.table_id)
            × (place.old.me ≡ (at_stage Idle place.old.me.0, [])) × Has place.old.me.0.of place.old.me.0.of.first }
        ensures same { (place.new.table_id ≡ place.old.table_id) × (result + 1 < 2 ^ 64) }
        ensures view { place.new.me ≡ (at_stage (Drawn result) place.old.me.0, []) }
    {
        let mut looks = 0;
        for _ in rt.forever() {
            let serving = self.table.shared.peek(SERVING);
            match self.try_draw(place, serving) {
                Some(ticket) => {
                    if looks > 0 {
                        self.waiting.end_looking();
                    }
                    return ticket;
                }
                None => looks = self.pause(rt, serving, looks),
            }
        }
        unreachable!()
    }

    // Draws this ticket, if it is the next. At 2^64 - 1 none is drawn any more, and a caller that would need one waits.
    fn try_draw(&self, place: &mut Place<T, T::Entry>, next: u64) -> Option<u64>
        requires { (place.old.table_id ≡ self.now.table.shared.table_id)
            × (place.old.me ≡ (at_stage Idle place.old.me.0, [])) × Has place.old.me.0.of place.old.me.0.of.first }
        ensures same { place.new.table_id ≡ place.old.table_id }
        ensures some { IfSome result
            (λ t. (place.new.me ≡ (at_stage (Drawn t) place.old.me.0, [])) × (t + 1 < 2 ^ 64)) }
        ensures none { IfNone result (place.new.me ≡ place.old.me) }
    {
        if next == u64::MAX || self.table.shared.peek(TICKET) != next {
            return None;
        }
        let shared = &self.table.shared;
        let found = shared.compare_exchange::<Draw>(place, TICKET, next, next + 1);
        if found != next {
            return None;
        }
        Some(next)
    }

    /// Waits until the ticket is served.
    pub(crate) fn wait<R: Wait>(&self, rt: &R, place: &mut Place<T, T::Entry>, ticket: u64)
        requires { (place.old.table_id ≡ self.now.table.shared.table_id)
            × (place.old.me ≡ (at_stage (Drawn ticket) place.old.me.0, [])) }
        ensures same { place.new.table_id ≡ place.old.table_id }
        ensures slot { (x : T)
            × (place.new.me ≡ (seeing (Holds ticket) place.new.me.0.seen place.old.me.0, (0, Some x) ∷ []))
            × T.stands x place.new.me.0.seen }
        ensures seen { Begins place.new.me.0.seen place.old.me.0.of.all place.old.me.0.seen }
        ensures count { length place.new.me.0.seen ≡ ticket }
        ensures unborn { IsUnborn place.old.me.0.of place.new.me.0.seen }
    {
        for _ in rt.forever() {
            if self.table.shared.load::<Look>(place, SERVING) == ticket {
                return;
            }
            thread::yield_now();
        }
        unreachable!()
    }

    // What a caller does between two looks, after so many: it spins, then gives its time slice away, then sleeps until
    // a holder passes on. It answers after how many looks it is then.
    fn pause<R: Wait>(&self, rt: &R, serving: u64, looks: u32) -> u32 {
        if looks == 0 {
            self.waiting.begin_looking();
        }
        if looks < SPINS {
            hint::spin_loop();
            return looks + 1;
        }
        if looks < LOOKS {
            thread::yield_now();
            return looks + 1;
        }
        self.sleep(rt, serving);
        1
    }

    // Sleeps while this ticket is served. It is counted as a sleeper before it is no looker any more, so a holder that
    // passes on in between either wakes it or has changed the word, and then it does not fall asleep.
    fn sleep<R: Wait>(&self, rt: &R, serving: u64) {
        self.waiting.begin_sleeping();
        self.waiting.end_looking();
        let low = (serving % (1 << 32)) as u32;
        self.table.shared.park(rt, SERVING, low);
        self.waiting.begin_looking();
        self.waiting.end_sleeping();
    }

    /// Wakes a sleeper, unless somebody looks anyway.
    pub(crate) fn wake(&self) {
        if self.waiting.all_sleep() {
            self.table.shared.wake_one(SERVING);
        }
    }
}
