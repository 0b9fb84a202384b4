//! Where the leases are that are out.

ghost use Rattle.std.specs.Prelude.{◌≡◌, ◌+◌, ◌-◌, ◌<◌, ◌≤◌, ◌^◌, get_or, length, replicate, IfOk, None};
ghost use Rattle.mal_hall.specs.HallView.{out_in};

use crate::event_list::EventList;
use mal_seats::Seats;
use std::alloc::{AllocError, Global};
use std::marker::Model;

/// Where a worker's lease is: the number of its job, the index of its node, and the number of its start.
#[derive(Clone, Copy)]
pub struct Spot {
    job: u64,
    index: u32,
    start: u64,
}

impl Model for Spot {
    ghost use Rattle.spec_hall.specs.Spots.{Spot};

    ghost Value = { Spot };

    ghost view = { λ s. record { job = s.job; index = s.index; start = s.start } };

    ghost inverse = { λ s. record { job = s.job; index = s.index; start = s.start } };
}

impl Spot {
    /// The spot of the start of this number of a node.
    pub fn new(job: u64, index: u32, start: u64) -> Spot
        ensures { result ≡ record { job = job; index = index; start = start } }
    {
        Spot { job, index, start }
    }

    /// The number of the job.
    pub fn job(self) -> u64
        ensures { result ≡ self.job }
    {
        self.job
    }

    /// The node's index.
    pub fn index(self) -> u32
        ensures { result ≡ self.index }
    {
        self.index
    }

    /// The number of the start.
    pub fn start(self) -> u64
        ensures { result ≡ self.start }
    {
        self.start
    }
}

/// Room for what is kept of the leases of so many workers, without a lease.
pub fn no_leases<T: Drop>(alloc: Global, workers: u32) -> Result<Vec<Option<T>>, AllocError>
    ensures { IfOk result (λ v. v.items ≡ replicate workers None) }
{
    // A place for each worker, so recall goes over it by rising worker and no lease needs memory of its own.
    let mut leases = Vec::new(alloc);
    for worker in 0..workers {
        // For the proof.
        let _ = worker;
        leases.push(None)?;
    }
    Ok(leases)
}

/// The spot of a worker, None where it has no lease or is no worker of the hall.
pub fn spot_of(spots: &[Option<Spot>], worker: u32) -> Option<Spot>
    requires { 1 ≤ worker }
    ensures { result ≡ get_or spots.now (worker - 1) None }
{
    match spots.get(worker as usize - 1) {
        None => None,
        Some(spot) => *spot,
    }
}

/// How many leases are out.
pub fn count_out(spots: &[Option<Spot>]) -> usize
    ensures value { result ≡ out_in spots.now }
    ensures few { result ≤ length spots.now }
{
    let mut count = 0;
    for spot in spots {
        if spot.is_some() {
            count += 1;
        }
    }
    count
}

/// For how many events room is kept: the closing of each job that is not closed, the finish of each lease, and the leave
/// of each job that is there.
pub fn owed(entries: &EventList, seats: &Seats, unclosed: usize, spots: &[Option<Spot>]) -> usize
    requires { unclosed + out_in spots.now + length seats.now ≤ entries.now.room }
    ensures value { result ≡ unclosed + out_in spots.now + length seats.now }
    ensures bound { result < 2 ^ 63 }
{
    // For the proof.
    let _ = entries.workers();
    unclosed + count_out(spots) + seats.len()
}
