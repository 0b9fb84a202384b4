//! A job of a hall in its seat.

ghost use Rattle.std.specs.Prelude.{◌≡◌, ◌↔◌, ◌+◌, ◌<◌, ◌≤◌, [], ◌∷◌, ◌++◌, true, Some, IfOk, IsTrue, OnOk, OnErr, length};
ghost use Rattle.mal_base.specs.{Asks.{IsAsk}, Limits.{limits}};
ghost use Rattle.mal_base.specs.declared.verdict.Outcome.TheVariants.{Starved};
ghost use Rattle.mal_job.specs.Finishing.{outcome_of, MayFinish, MayStarve};
ghost use Rattle.spec_job.specs.{SoloMachine.{Revised, Reasked, Closed, Finished, Exchanged, is_exchange_due, place_at, startable, clauses_in}, Viewed.{and_own, and_start, IsLeaseOf, IsBack}};
ghost use Rattle.spec_hall.specs.{Dressed.{keyed}, Own.{is_key}};
ghost use Rattle.spec_hall.specs.Seats as spec;
ghost use Rattle.mal_seats.specs.{Coming.{seat_of}, Counted.{is_unfinished, marks_of}};

use crate::counts::Marks;
use mal_base::{Ask, Name, Weight};
use mal_history::{Share, Shares};
use mal_job::Job;
use mal_revision::Revision;
use mal_suspend::{Done, Kept, Lease};
use std::alloc::{AllocError, Global};
use std::marker::Model;
use std::sync::Arc;

/// A job of a hall, with whether the last balancing listed it and the ask that it had then. The share without a volume,
/// which most balancings list of it, is made once.
#[derive(Drop)]
pub struct Seat {
    job: Job,
    listed: bool,
    noted: Ask,
    none: Arc<Share>,
}

impl Model for Seat {
    ghost use Rattle.std.specs.Prelude.{◌≡◌};
    ghost use Rattle.std.specs.Arc.{arc_value};
    ghost use Rattle.spec_hall.specs.Seats.{Seat, share_of};

    ghost Value = { Seat };

    ghost view = { λ s. record { job = s.job; listed = s.listed; noted = s.noted } };

    ghost invariant = { λ s. arc_value s.none ≡ share_of 0
        (record { job = s.job; listed = s.listed; noted = s.noted }) };
}

impl Seat {
    /// The seat of a job of this number that was just opened.
    pub(crate) fn fresh(
        alloc: Global,
        number: u64,
        tenant: Name,
        name: Name,
        ask: Ask,
    ) -> Result<Seat, AllocError>
        ensures { IfOk result (λ s. s ≡ spec.opened_seat number (keyed tenant name) ask) }
    {
        let none = Share {
            tenant,
            job: name,
            volume: 0,
        };
        Ok(Seat {
            job: Job::fresh(alloc, number, tenant, name, ask)?,
            listed: false,
            noted: ask,
            none: Arc::new(alloc, none)?,
        })
    }

    /// The seat of a job that no balancing has listed.
    pub(crate) fn of(alloc: Global, job: Job) -> Result<Seat, AllocError>
        ensures { IfOk result (λ s. s ≡ seat_of job) }
    {
        let none = Share {
            tenant: job.tenant(),
            job: job.name(),
            volume: 0,
        };
        let noted = job.ask();
        Ok(Seat {
            job,
            listed: false,
            noted,
            none: Arc::new(alloc, none)?,
        })
    }

    /// The job.
    pub fn job(&self) -> &Job
        ensures { result.now ≡ self.now.job }
    {
        &self.job
    }

    /// The job's number.
    pub fn number(&self) -> u64
        ensures { result ≡ self.now.job.number }
    {
        self.job.number()
    }

    /// Whether the job has this key.
    pub fn is_named(&self, tenant: Name, name: Name) -> bool
        ensures { result ≡ is_key (keyed tenant name) self.now.job.titled.key }
    {
        tenant == self.job.tenant() && name == self.job.name()
    }

    /// Whether the job is live.
    pub fn is_live(&self) -> bool
        ensures { result ≡ spec.is_live_seat self.now }
    {
        self.job.is_live()
    }

    /// What the job asks for.
    pub(crate) fn ask(&self) -> Ask
        ensures value { result ≡ self.now.job.titled.state.ask }
        ensures form { IsAsk self.now.job.titled.state.ask }
    {
        // For the proof.
        let _ = self.job.ask().priority();
        self.job.ask()
    }

    /// Whether the job is live and the last balancing did not list it or noted another ask, or the other way round.
    fn has_changed(&self) -> bool
        ensures { result ≡ spec.has_changed self.now }
    {
        if !self.job.is_live() {
            return self.listed;
        }
        !(self.listed && are_alike(self.job.ask(), self.noted))
    }

    /// Whether the job is not closed, or not answered.
    fn is_unfinished(&self) -> bool
        ensures { result ≡ is_unfinished self.now }
    {
        !self.job.is_closed() || self.job.is_live()
    }

    /// What is counted of the job.
    pub(crate) fn marks(&self) -> Marks
        ensures { result ≡ marks_of self.now }
    {
        Marks {
            changed: self.has_changed(),
            unfinished: self.is_unfinished(),
        }
    }

    /// Puts what a balancing notes of the job that gives it this volume after the shares of others.
    pub(crate) fn note_share(&self, volume: u32, shares: &mut Shares) -> Result<(), AllocError>
        ensures { OnOk result (shares.new ≡ shares.old ++ spec.share_of volume self.now ∷ []) }
    {
        if volume == 0 {
            return shares.push_shared(&self.none);
        }
        shares.push(Share {
            tenant: self.job.tenant(),
            job: self.job.name(),
            volume,
        })
    }

    /// Posts the job's next revision. If memory runs out, the job is as before.
    pub(crate) fn revise(&mut self, revision: Revision) -> Result<(), AllocError>
        requires few { length self.old.job.titled.state.revisions < limits.revisions }
        requires clauses { clauses_in self.old.job.titled.state.revisions + length revision.clauses ≤ limits.clauses }
        ensures ok { OnOk result (self.new ≡ record self.old { job = and_own self.old.job (Revised revision) }) }
        ensures err { OnErr result (self.new ≡ self.old) }
    {
        self.job.revise(revision)
    }

    /// Changes the job's ask.
    pub(crate) fn reask(&mut self, weight: Weight)
        ensures { self.new ≡ record self.old { job = and_own self.old.job (Reasked weight) } }
    {
        self.job.reask(weight);
    }

    /// Closes the job.
    pub(crate) fn close(&mut self)
        ensures { self.new ≡ record self.old { job = and_own self.old.job Closed } }
    {
        self.job.close();
    }

    /// The volume that a balancing leaves the job which gives it this one if it is live.
    pub(crate) fn balanced_volume(&self, volume: u32) -> u32
        ensures { result ≡ (spec.balanced_seat volume self.now).job.titled.state.volume }
    {
        if self.job.is_live() {
            return volume;
        }
        0
    }

    /// Gives the job its volume in a balancing if it is live, and else none, and notes whether it is listed.
    pub(crate) fn balance(&mut self, volume: u32)
        requires { volume ≤ 64 }
        ensures { self.new ≡ spec.balanced_seat volume self.old }
    {
        let is_live = self.job.is_live();
        let volume = self.balanced_volume(volume);
        if self.is_noted(is_live, volume) {
            return;
        }
        self.listed = is_live;
        self.noted = self.job.ask();
        self.job.set_volume(volume);
    }

    /// Whether the last balancing listed the job so, with what it asks for now, and its volume is this one: nothing of
    /// it has to be written again.
    fn is_noted(&self, listed: bool, volume: u32) -> bool
        ensures listed { IsTrue result → self.now.listed ≡ listed }
        ensures noted { IsTrue result → self.now.noted ≡ self.now.job.titled.state.ask }
        ensures volume { IsTrue result → self.now.job.titled.state.volume ≡ volume }
    {
        if self.listed != listed {
            return false;
        }
        if self.job.volume() != volume {
            return false;
        }
        are_same(self.noted, self.job.ask())
    }

    /// How many of the job's nodes may run at a time.
    pub(crate) fn volume(&self) -> u32
        ensures value { result ≡ self.now.job.titled.state.volume }
        ensures few { result ≤ 64 }
    {
        self.job.volume()
    }

    /// Whether the node of this index (0 to 63) may start.
    pub(crate) fn is_startable(&self, index: u32) -> bool
        requires { index ≤ 63 }
        ensures { result ≡ startable self.now.job.titled.state index }
    {
        self.job.startable(index)
    }

    /// How often the node of this index (0 to 63) was started.
    pub(crate) fn starts(&self, index: u32) -> u64
        requires { index ≤ 63 }
        ensures { result ≡ (place_at self.now.job.titled.state index).starts }
    {
        self.job.starts(index)
    }

    /// Starts the node of this index, as the start of this number: hands it out to a worker. If memory runs out, the
    /// job is as before.
    pub(crate) fn start(&mut self, index: u32, worker: u32, start: u64) -> Result<Lease, AllocError>
        requires { startable self.old.job.titled.state index ≡ true }
        ensures ok { OnOk result (self.new ≡ record self.old { job = and_start self.old.job index start }) }
        ensures lease { IfOk result (λ l. IsLeaseOf self.old.job index start worker l) }
        ensures err { OnErr result (self.new ≡ self.old) }
    {
        self.job.start(index, worker, start)
    }

    /// Whether what came back is that of the lease that is out at this index (0 to 63).
    pub fn is_back(&self, index: u32, back: &Done) -> bool
        requires { index ≤ 63 }
        ensures { IsTrue result ↔ IsBack self.now.job index back.now }
    {
        self.job.is_back(index, back)
    }

    /// Ends the start that is out at this index (0 to 63): it is lost where nothing came back. Takes no memory.
    pub(crate) fn finish(&mut self, index: u32, back: Option<Done>)
        requires index { index ≤ 63 }
        requires back { MayFinish self.old.job index back }
        ensures { self.new ≡ record self.old { job = and_own self.old.job (Finished index (outcome_of back)) } }
    {
        self.job.finish(index, back);
    }

    /// Ends the start that is out at this index as one that ran out of memory, of which this is kept of the node. Takes
    /// no memory.
    pub(crate) fn starve(&mut self, index: u32, kept: Kept)
        requires { MayStarve self.old.job index (Some kept) }
        ensures { self.new ≡ record self.old { job = and_own self.old.job (Finished index Starved) } }
    {
        self.job.starve(index, Some(kept));
    }

    /// Whether an exchange of the job is due.
    pub(crate) fn is_exchange_due(&self) -> bool
        ensures { result ≡ is_exchange_due self.now.job.titled.state }
    {
        self.job.exchange_due()
    }

    /// Lets the job's nodes tell one another what they derived. If memory runs out, the job is as before.
    pub(crate) fn exchange(&mut self) -> Result<(), AllocError>
        ensures ok { OnOk result (self.new ≡ record self.old { job = and_own self.old.job Exchanged }) }
        ensures err { OnErr result (self.new ≡ self.old) }
    {
        self.job.exchange()
    }
}

/// Whether two asks are the same to a balancing.
fn are_alike(one: Ask, other: Ask) -> bool
    ensures { result ≡ spec.asks_alike one other }
{
    one.priority() == other.priority() && one.demand() == other.demand()
}

/// Whether two asks are the same.
fn are_same(one: Ask, other: Ask) -> bool
    ensures { IsTrue result → one ≡ other }
{
    are_alike(one, other) && one.slices() == other.slices() && one.profile() == other.profile()
}
