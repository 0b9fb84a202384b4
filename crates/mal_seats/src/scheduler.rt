//! Picking the node that starts next.

ghost use Rattle.std.specs.Prelude.{◌≡◌, None};
ghost use Rattle.spec_hall.specs.States as states;
ghost use Rattle.spec_hall.specs.Seats as spec;
ghost use Rattle.mal_seats.specs.Filled as filled;

use crate::seat::Seat;
use std::marker::Model;

/// A node that may start: the place of its job by opening, its index, and how often it was started.
#[derive(Clone, Copy)]
pub struct Candidate {
    job: usize,
    index: u32,
    starts: u64,
}

impl Model for Candidate {
    ghost use Rattle.spec_hall.specs.States.{Candidate};

    ghost Value = { Candidate };

    ghost view = { λ c. record { job = c.job; index = c.index; starts = c.starts } };

    ghost inverse = { λ c. record { job = c.job; index = c.index; starts = c.starts } };
}

impl Candidate {
    /// The place of the node's job.
    pub fn job(self) -> usize
        ensures { result ≡ self.job }
    {
        self.job
    }

    /// The node's index.
    pub fn index(self) -> u32
        ensures { result ≡ self.index }
    {
        self.index
    }
}

/// The node with fewer starts, of equals the earlier one.
fn fewer(best: Option<Candidate>, next: Candidate) -> Option<Candidate>
    ensures { result ≡ states.fewer best next }
{
    match best {
        None => Some(next),
        Some(earlier) if next.starts < earlier.starts => Some(next),
        Some(earlier) => Some(earlier),
    }
}

/// What was picked so far, or a node of the job at this place.
fn pick_of_job(seat: &Seat, job: usize, best: Option<Candidate>) -> Option<Candidate>
    ensures { result ≡ spec.pick_job job seat.now.job.titled.state best }
{
    let mut best = best;
    for index in 0..seat.volume() {
        if seat.is_startable(index) {
            let starts = seat.starts(index);
            best = fewer(best, Candidate { job, index, starts });
        }
    }
    best
}

/// What was picked so far, or a node of the job at this place.
fn pick_at(seats: &[Seat], at: usize, best: Option<Candidate>) -> Option<Candidate>
    ensures { result ≡ filled.pick_at seats.now best at }
{
    match seats.get(at) {
        None => best,
        Some(seat) => pick_of_job(seat, at, best),
    }
}

/// The node that starts next of the jobs at these places, which rise: that with the fewest starts, then by its job's
/// opening, then by index.
pub fn pick_among(seats: &[Seat], places: &[usize]) -> Option<Candidate>
    ensures { result ≡ filled.pick_among seats.now None places.now }
{
    let mut best = None;
    for at in places {
        best = pick_at(seats, *at, best);
    }
    best
}
