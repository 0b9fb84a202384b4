//! The seats of a hall, with what saves going over all of them.

ghost use Rattle.std.specs.Prelude.{◌≡◌, ℕ, ◌+◌, ◌<◌, ◌≤◌, ◌^◌, [], ◌∷◌, ◌++◌, true, not, length, slice_index_or, Some, IfOk, OnOk, OnErr};
ghost use Rattle.std.specs.{Fn.{FnOnceReturnsAtMut, FnOnceTakesAtMut}, List.{list_all, remove}};
ghost use Rattle.mal_base.specs.Limits.{limits};
ghost use Rattle.mal_base.specs.declared.verdict.Outcome.TheVariants.{Starved};
ghost use Rattle.mal_job.specs.Finishing.{outcome_of, MayFinish, MayStarve};
ghost use Rattle.mal_seats.specs.{Changed.{OfSeat, IsChanged, IsSteady, HasStepped}, Coming.{seat_of}, Numbered.{IsAbove, place_numbered}};
ghost use Rattle.spec_balance.specs.Fair.{IsFair, volume_at};
ghost use Rattle.spec_job.specs.{SoloMachine.{Revised, Reasked, Closed, Finished, Exchanged, startable, clauses_in}, Viewed.{and_own, and_start, IsLeaseOf}};
ghost use Rattle.spec_hall.specs.{Dressed.{keyed}, States.{live_asks}};
ghost use Rattle.spec_hall.specs.Driven as driven;
ghost use Rattle.spec_hall.specs.Seats as spec;

use crate::counts::Counts;
use crate::filled::{close_up, first_among};
use crate::numbers::place_of_number;
use crate::scheduler::{Candidate, pick_among};
use crate::seat::Seat;
use crate::volumes::{balance, filled_by, shares, volumes};
use mal_base::{Ask, Name, Weight};
use mal_history::Shares;
use mal_job::Job;
use mal_revision::Revision;
use mal_suspend::{Done, Kept, Lease};
use std::alloc::{AllocError, Global};
use std::marker::Model;

/// The jobs of a hall in their seats, by opening or last arrival. The type keeps that their numbers rise, and beside them
/// how many were changed so that a balancing is due, how many are not closed or not answered, and the places of those
/// that have a volume: what is due, which node starts next and where a job sits is found without going over all jobs.
/// Contracts see the seats.
#[derive(Drop)]
pub struct Seats {
    seats: Vec<Seat>,
    counts: Counts,
    filled: Vec<usize>,
}

impl Model for Seats {
    ghost use Rattle.std.specs.Prelude.{List};
    ghost use Rattle.spec_hall.specs.Seats.{Seat};
    ghost use Rattle.mal_seats.specs.Kept.{AreKept};

    ghost Value = { List Seat };

    ghost view = { λ s. s.seats.items };

    ghost invariant = { λ s. AreKept s.seats.items s.counts s.filled.items };
}

impl Seats {
    /// Seats without a job.
    pub fn new(alloc: Global) -> Seats
        ensures { result ≡ [] }
    {
        Seats {
            seats: Vec::new(alloc),
            counts: Counts {
                changed: 0,
                unfinished: 0,
            },
            filled: Vec::new(alloc),
        }
    }

    /// How many jobs there are.
    pub fn len(&self) -> usize
        ensures len { result ≡ length self.now }
        ensures few { result < 2 ^ 63 }
    {
        self.seats.len()
    }

    /// The seat at a place.
    pub fn at(&self, place: usize) -> &Seat
        requires { place < length self.now }
        ensures { result.now ≡ slice_index_or self.now place result.now }
    {
        &self.seats[place]
    }

    /// The place of the job that has this number.
    pub fn place_of_number(&self, number: u64) -> Option<usize>
        ensures { result ≡ place_numbered number self.now }
    {
        place_of_number(&self.seats, number)
    }

    /// Whether a balancing is due.
    pub fn is_due(&self) -> bool
        ensures { result ≡ spec.is_due self.now }
    {
        self.counts.changed > 0
    }

    /// Whether every job is closed and answered.
    pub fn is_done(&self) -> bool
        ensures { result ≡ driven.is_done (spec.jobs_in self.now) }
    {
        self.counts.unfinished == 0
    }

    /// Whether no job is live.
    pub fn is_answered(&self) -> bool
        ensures { result ≡ list_all (λ s. not (spec.is_live_seat s)) self.now }
    {
        self.seats.iter().all(|seat| !seat.is_live())
    }

    /// The place of the first job of which an exchange is due.
    pub fn first_exchange(&self) -> Option<usize>
        ensures { result ≡ spec.first_exchange self.now }
    {
        first_among(&self.seats, &self.filled)
    }

    /// The node that starts next: that with the fewest starts, then by its job's opening, then by index.
    pub fn pick(&self) -> Option<Candidate>
        ensures { result ≡ spec.pick self.now }
    {
        pick_among(&self.seats, &self.filled)
    }

    /// Fair volumes of the live jobs for 1 to 64 workers, by opening.
    pub fn volumes(&self, workers: u32) -> Result<Vec<u32>, AllocError>
        requires some { 1 ≤ workers }
        requires bound { workers ≤ 64 }
        ensures fair { IfOk result (λ v. IsFair workers (live_asks (spec.jobs_in self.now)) v.items) }
    {
        volumes(*self.seats.allocator(), &self.seats, workers)
    }

    /// What a balancing notes of the live jobs that gives them these volumes, by opening.
    pub fn shares(&self, volumes: &[u32]) -> Result<Shares, AllocError>
        ensures { IfOk result (λ v. v ≡ spec.shares_by volumes.now self.now) }
    {
        shares(*self.seats.allocator(), &self.seats, volumes)
    }

    /// Gives the live jobs these volumes, by opening, and all others none. If memory runs out, the seats are as
    /// before.
    pub fn balance(&mut self, volumes: &[u32]) -> Result<(), AllocError>
        requires { (n : ℕ) → volume_at volumes.now n ≤ 64 }
        ensures ok { OnOk result (self.new ≡ spec.balanced_by volumes.now self.old) }
        ensures err { OnErr result (self.new ≡ self.old) }
    {
        let filled = match filled_by(*self.seats.allocator(), &self.seats, volumes) {
            Ok(filled) => filled,
            Err(error) => return Err(error),
        };
        balance(&mut self.seats, volumes);
        self.counts.changed = 0;
        self.filled = filled;
        Ok(())
    }

    /// Opens a job under a number above all others. If memory runs out, the seats are as before.
    pub fn open(&mut self, number: u64, tenant: Name, job: Name, ask: Ask) -> Result<(), AllocError>
        requires { IsAbove number self.old }
        ensures ok { OnOk result (self.new ≡ self.old ++ spec.opened_seat number (keyed tenant job) ask ∷ []) }
        ensures err { OnErr result (self.new ≡ self.old) }
    {
        let seat = match Seat::fresh(*self.seats.allocator(), number, tenant, job, ask) {
            Ok(seat) => seat,
            Err(error) => return Err(error),
        };
        self.push(seat)
    }

    /// Takes a job in that comes with a number above all others and without a volume. If memory runs out, the seats are
    /// as before.
    pub fn admit(&mut self, job: Job) -> Result<(), AllocError>
        requires above { IsAbove job.number self.old }
        requires still { job.titled.state.volume ≡ 0 }
        ensures ok { OnOk result (self.new ≡ self.old ++ seat_of job ∷ []) }
        ensures err { OnErr result (self.new ≡ self.old) }
    {
        let seat = match Seat::of(*self.seats.allocator(), job) {
            Ok(seat) => seat,
            Err(error) => return Err(error),
        };
        self.push(seat)
    }

    /// Puts a seat after all others, of a job that has no volume. If memory runs out, the seats are as before.
    fn push(&mut self, seat: Seat) -> Result<(), AllocError>
        requires above { IsAbove seat.job.number self.old }
        requires still { seat.job.titled.state.volume ≡ 0 }
        ensures ok { OnOk result (self.new ≡ self.old ++ seat ∷ []) }
        ensures err { OnErr result (self.new ≡ self.old) }
    {
        match self.seats.reserve(1) {
            Ok(()) => {}
            Err(error) => return Err(error),
        }
        let marks = seat.marks();
        self.counts.add(marks);
        self.seats.push_reserved(seat);
        Ok(())
    }

    /// Lets the job at a place go. Takes no memory.
    pub fn leave(&mut self, at: usize)
        requires { at < length self.old }
        ensures { self.new ≡ remove self.old at }
    {
        let seat = self.seats.remove(at);
        let marks = seat.marks();
        self.counts.take_away(marks);
        close_up(&mut self.filled, at);
    }

    /// Changes the seat at a place so that its job keeps its number and its volume, and counts the job anew.
    fn change<T, F: FnOnce(&mut Seat) -> T>(&mut self, at: usize, step: F) -> T
        requires place { at < length self.old }
        requires may { OfSeat self.old at (λ s. FnOnceTakesAtMut F.FnOnce step s) }
        requires steady { OfSeat self.old at
            (λ s. (r : T) (now : spec.Seat) → FnOnceReturnsAtMut F.FnOnce step s r now → IsSteady s now) }
        ensures { HasStepped (λ s now. FnOnceReturnsAtMut F.FnOnce step s result now) at self.old self.new }
    {
        let seat = &mut self.seats[at];
        let before = seat.marks();
        let result = step(seat);
        let after = seat.marks();
        self.counts.change(before, after);
        result
    }

    /// Posts the next revision of the job at a place. If memory runs out, the seats are as before.
    pub fn revise(&mut self, at: usize, revision: Revision) -> Result<(), AllocError>
        requires place { at < length self.old }
        requires few { OfSeat self.old at (λ s. length s.job.titled.state.revisions < limits.revisions) }
        requires clauses { OfSeat self.old at
            (λ s. clauses_in s.job.titled.state.revisions + length revision.clauses ≤ limits.clauses) }
        ensures ok { OnOk result
            (IsChanged (λ s. record s { job = and_own s.job (Revised revision) }) at self.old self.new) }
        ensures err { OnErr result (self.new ≡ self.old) }
    {
        self.change(at, |seat| seat.revise(revision))
    }

    /// Changes the ask of the job at a place. Takes no memory.
    pub fn reask(&mut self, at: usize, weight: Weight)
        requires { at < length self.old }
        ensures { IsChanged (λ s. record s { job = and_own s.job (Reasked weight) }) at self.old self.new }
    {
        self.change(at, |seat| seat.reask(weight));
    }

    /// Closes the job at a place. Takes no memory.
    pub fn close(&mut self, at: usize)
        requires { at < length self.old }
        ensures { IsChanged (λ s. record s { job = and_own s.job Closed }) at self.old self.new }
    {
        self.change(at, |seat| seat.close());
    }

    /// Starts a node of the job at a place, as the start of this number: hands it out to a worker. If memory runs out,
    /// the seats are as before.
    pub fn start(
        &mut self,
        at: usize,
        index: u32,
        worker: u32,
        start: u64,
    ) -> Result<Lease, AllocError>
        requires place { at < length self.old }
        requires startable { OfSeat self.old at (λ s. startable s.job.titled.state index ≡ true) }
        ensures ok { OnOk result
            (IsChanged (λ s. record s { job = and_start s.job index start }) at self.old self.new) }
        ensures lease { IfOk result (λ l. OfSeat self.old at (λ s. IsLeaseOf s.job index start worker l)) }
        ensures err { OnErr result (self.new ≡ self.old) }
    {
        self.change(at, |seat| seat.start(index, worker, start))
    }

    /// Ends the start of the job at a place that is out at this index (0 to 63): it is lost where nothing came back.
    /// Takes no memory.
    pub fn finish(&mut self, at: usize, index: u32, back: Option<Done>)
        requires place { at < length self.old }
        requires index { index ≤ 63 }
        requires back { OfSeat self.old at (λ s. MayFinish s.job index back) }
        ensures { IsChanged
            (λ s. record s { job = and_own s.job (Finished index (outcome_of back)) }) at self.old self.new }
    {
        self.change(at, |seat| seat.finish(index, back));
    }

    /// Ends the start of the job at a place that is out at this index as one that ran out of memory, of which this is
    /// kept of the node. Takes no memory.
    pub fn starve(&mut self, at: usize, index: u32, kept: Kept)
        requires place { at < length self.old }
        requires kept { OfSeat self.old at (λ s. MayStarve s.job index (Some kept)) }
        ensures { IsChanged (λ s. record s { job = and_own s.job (Finished index Starved) }) at self.old self.new }
    {
        self.change(at, |seat| seat.starve(index, kept));
    }

    /// Lets the nodes of the job at a place tell one another what they derived. If memory runs out, the seats are as
    /// before.
    pub fn exchange(&mut self, at: usize) -> Result<(), AllocError>
        requires { at < length self.old }
        ensures ok { OnOk result (IsChanged (λ s. record s { job = and_own s.job Exchanged }) at self.old self.new) }
        ensures err { OnErr result (self.new ≡ self.old) }
    {
        self.change(at, |seat| seat.exchange())
    }
}
