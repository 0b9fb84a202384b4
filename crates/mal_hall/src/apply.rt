//! Entering an event that was written down.

ghost use Rattle.std.specs.Prelude.{◌≡◌, ◌↔◌, ◌≤◌, false, Some, Err, MatchOption, IfOk, OnOk, IsErrOf};
ghost use Rattle.mal_base.specs.Asks.{Terms, Weighed};
ghost use Rattle.mal_base.specs.declared.verdict.Outcome.TheVariants.{Starved};
ghost use Rattle.mal_hall.specs.{Applied.{Enters, HasApplied, IsInside, IsLodged, IsRefused, MayNotEnter, StartsAt, unrun}, Offered.{HasEnded, MayEnd}};
ghost use Rattle.mal_revision.specs.Posted.{Posted};
ghost use Rattle.spec_hall.specs.{Calls.{Opens, Revises, Reasks, wanted}, Dressed.{keyed}, Events.{Open, Revise, Reask, Close, Balance, Start, Finish, Exchange}, Legal.{Allowed}};
ghost use Rattle.spec_job.specs.KeyedJob.{Key};

use crate::enter::enter_starved;
use crate::hall::Hall;
use crate::lodging::ran;
use crate::spots::spot_of;
use mal_base::{ApplyFault, Ask, Name, OpenFault, Outcome, ReaskFault, ReviseFault, Weight};
use mal_history::{Event, Shares};
use mal_learn::Scratch;
use mal_revision::Revision;
use mal_suspend::{Kept, Lease};
use std::alloc::AllocError;

impl Hall {
    /// Enters this one event, a Revise with the revision that is given. It is not allowed exactly where it may not come
    /// after the events before it, a Revise without a revision among them. The lease of a start stays inside the hall:
    /// where the event says that the start ran it is worked there, where it says that memory ran out it is given
    /// back as it was, and where it says that the start was lost it is dropped. Each lease that is out has to be
    /// inside, as it is in a new hall, after each event that was entered so, and wherever none is out and none inside.
    /// The hall is given up where the event is not entered.
    pub fn apply(
        self,
        event: &Event,
        revision: Option<Revision>,
        scratch: &mut Scratch,
    ) -> Result<Hall, ApplyFault>
        requires { IsInside self }
        ensures workers { IfOk result (λ h. h.workers ≡ self.workers) }
        ensures applied { IfOk result (λ h. HasApplied self.workers self.events revision event.now h.events) }
        ensures inside { IfOk result (λ h. IsInside h) }
        ensures refused { IsErrOf result ApplyFault.NotAllowed → IsRefused self.workers self.events revision event.now }
    {
        let mut hall = self;
        match hall.enter(event, revision, scratch) {
            Ok(()) => Ok(hall),
            Err(fault) => Err(fault),
        }
    }

    /// Enters an event.
    fn enter(
        &mut self,
        event: &Event,
        revision: Option<Revision>,
        scratch: &mut Scratch,
    ) -> Result<(), ApplyFault>
        requires { IsInside self.old }
        ensures workers { OnOk result (self.new.workers ≡ self.old.workers) }
        ensures applied { OnOk result (HasApplied self.old.workers self.old.events revision event.now self.new.events) }
        ensures inside { OnOk result (IsInside self.new) }
        ensures refused { IsErrOf result ApplyFault.NotAllowed
            → IsRefused self.old.workers self.old.events revision event.now }
    {
        // A revision that is given with another event is passed over: only a Revise has contents.
        match event {
            Event::Open { tenant, job, ask } => self.enter_open(*tenant, *job, *ask),
            Event::Revise {
                tenant,
                job,
                number,
            } => match revision {
                None => Err(ApplyFault::NotAllowed),
                Some(revision) => self.enter_revise(tenant, job, *number, revision),
            },
            Event::Reask {
                tenant,
                job,
                weight,
            } => self.enter_reask(tenant, job, *weight),
            Event::Close { tenant, job } => self.enter_close(tenant, job),
            Event::Balance { volumes } => self.enter_balance(volumes),
            Event::Start {
                tenant,
                job,
                index,
                worker,
            } => self.enter_start(tenant, job, *index, *worker),
            Event::Finish {
                tenant,
                job,
                index,
                worker,
                outcome,
            } => self.enter_finish(tenant, job, *index, *worker, *outcome, scratch),
            Event::Exchange { tenant, job } => self.enter_exchange(tenant, job),
            // What an arrival brings is not written down, so a history in which jobs move is not entered again.
            Event::Leave { .. } => Err(ApplyFault::NotAllowed),
            Event::Arrive { .. } => Err(ApplyFault::NotAllowed),
        }
    }

    /// Enters the opening of a job.
    fn enter_open(&mut self, tenant: Name, job: Name, ask: Ask) -> Result<(), ApplyFault>
        requires { IsInside self.old }
        ensures entered { OnOk result (Enters self.old (Open (keyed tenant job) ask) self.new) }
        ensures refused { IsErrOf result ApplyFault.NotAllowed → MayNotEnter self.old (Open (keyed tenant job) ask) }
    {
        // For the proof.
        let _ = self.history().workers();
        match self.open_job(tenant, job, ask) {
            Ok(()) => Ok(()),
            Err(fault) => Err(refusal_to_open(fault)),
        }
    }

    /// Enters a revision of a job.
    fn enter_revise(
        &mut self,
        tenant: &Name,
        job: &Name,
        number: u32,
        revision: Revision,
    ) -> Result<(), ApplyFault>
        requires { IsInside self.old }
        ensures entered { OnOk result (Enters self.old (Revise (keyed tenant.now job.now) number revision) self.new) }
        ensures refused { IsErrOf result ApplyFault.NotAllowed
            → MayNotEnter self.old (Revise (keyed tenant.now job.now) number revision) }
    {
        // For the proof.
        let _ = self.history().workers();
        if self.next_of(tenant, job) != number as usize {
            return Err(ApplyFault::NotAllowed);
        }
        match self.revise_job(tenant, job, revision) {
            Ok(()) => Ok(()),
            Err(fault) => Err(refusal_to_revise(fault)),
        }
    }

    /// Enters that a job asks anew.
    fn enter_reask(&mut self, tenant: &Name, job: &Name, weight: Weight) -> Result<(), ApplyFault>
        requires { IsInside self.old }
        ensures entered { OnOk result (Enters self.old (Reask (keyed tenant.now job.now) weight) self.new) }
        ensures refused { IsErrOf result ApplyFault.NotAllowed
            → MayNotEnter self.old (Reask (keyed tenant.now job.now) weight) }
    {
        match self.reask_job(tenant, job, weight) {
            Ok(()) => Ok(()),
            Err(fault) => Err(refusal_to_reask(fault)),
        }
    }

    /// Enters the closing of a job.
    fn enter_close(&mut self, tenant: &Name, job: &Name) -> Result<(), ApplyFault>
        requires { IsInside self.old }
        ensures entered { OnOk result (Enters self.old (Close (keyed tenant.now job.now)) self.new) }
        ensures refused { IsErrOf result ApplyFault.NotAllowed
            → MayNotEnter self.old (Close (keyed tenant.now job.now)) }
    {
        match self.close_job(tenant, job) {
            Ok(()) => Ok(()),
            Err(_) => Err(ApplyFault::NotAllowed),
        }
    }

    /// Enters a balancing that lists these volumes.
    fn enter_balance(&mut self, volumes: &Shares) -> Result<(), ApplyFault>
        requires { IsInside self.old }
        ensures entered { OnOk result (Enters self.old (Balance volumes.now) self.new) }
        ensures refused { IsErrOf result ApplyFault.NotAllowed → MayNotEnter self.old (Balance volumes.now) }
    {
        if !self.is_due() {
            return Err(ApplyFault::NotAllowed);
        }
        // Enters the fair volumes and compares: they are unique, so they differ exactly where the event is not allowed,
        // and the hall is given up then.
        match self.balance() {
            Ok(()) => {}
            Err(_) => return Err(ApplyFault::OutOfMemory),
        }
        if !self.has_listed(volumes) {
            return Err(ApplyFault::NotAllowed);
        }
        Ok(())
    }

    /// Enters the start of a node of a job by a worker, and keeps its lease inside.
    fn enter_start(
        &mut self,
        tenant: &Name,
        job: &Name,
        index: u32,
        worker: u32,
    ) -> Result<(), ApplyFault>
        requires { IsInside self.old }
        ensures entered { OnOk result (Enters self.old (Start (keyed tenant.now job.now) index worker) self.new) }
        ensures refused { IsErrOf result ApplyFault.NotAllowed
            → MayNotEnter self.old (Start (keyed tenant.now job.now) index worker) }
    {
        // For the proof.
        let _ = self.history().workers();
        let Some(at) = self.startable_at(tenant, job, index, worker) else {
            return Err(ApplyFault::NotAllowed);
        };
        let lease = match self.start_at(at, index, worker) {
            Ok(lease) => lease,
            Err(_) => return Err(ApplyFault::OutOfMemory),
        };
        self.lodge(worker, lease);
        Ok(())
    }

    /// The place of a job where a worker may start this node of it: where neither a balancing nor an exchange is due,
    /// the node is the one that starts next, and the worker has no lease out.
    fn startable_at(&self, tenant: &Name, job: &Name, index: u32, worker: u32) -> Option<usize>
        ensures { MatchOption result
            (Allowed self.now.workers self.now.events (Start (keyed tenant.now job.now) index worker) → ⊥)
            (λ at. StartsAt self.now.workers self.now.events (keyed tenant.now job.now) index worker at) }
    {
        if worker == 0 || worker > self.history().workers() {
            return None;
        }
        if self.has_lease(worker) {
            return None;
        }
        let balances = self.is_due();
        if balances {
            return None;
        }
        if self.first_exchange().is_some() {
            return None;
        }
        let Some(next) = self.next() else {
            return None;
        };
        if next.index() != index {
            return None;
        }
        if !self.is_named(next.job(), tenant, job) {
            return None;
        }
        Some(next.job())
    }

    /// Enters the finish of the lease that a worker has out, which is kept inside.
    fn enter_finish(
        &mut self,
        tenant: &Name,
        job: &Name,
        index: u32,
        worker: u32,
        outcome: Outcome,
        scratch: &mut Scratch,
    ) -> Result<(), ApplyFault>
        requires { IsInside self.old }
        ensures entered { OnOk result
            (Enters self.old (Finish (keyed tenant.now job.now) index worker outcome) self.new) }
        ensures refused { IsErrOf result ApplyFault.NotAllowed
            → MayNotEnter self.old (Finish (keyed tenant.now job.now) index worker outcome) }
    {
        // For the proof.
        let _ = self.history().workers();
        if !self.holds(worker, tenant, job, index) {
            return Err(ApplyFault::NotAllowed);
        }
        let Some(lease) = self.take_lodged(worker) else {
            unreachable!();
        };
        match self.end_lodged(worker, lease, outcome, scratch) {
            Ok(()) => Ok(()),
            Err(_) => Err(ApplyFault::OutOfMemory),
        }
    }

    /// Ends a lease that was kept inside as its start ended: one that ran is worked off, one that ran out of memory
    /// is given back as it was, and one that was lost is dropped. A slice that runs out of memory now is refused.
    fn end_lodged(
        &mut self,
        worker: u32,
        lease: Lease,
        outcome: Outcome,
        scratch: &mut Scratch,
    ) -> Result<(), AllocError>
        requires some { 1 ≤ worker }
        requires lodged { IsLodged self.old.events worker lease }
        ensures workers { self.new.workers ≡ self.old.workers }
        ensures inside { self.new.inside ≡ self.old.inside }
        ensures ended { OnOk result (HasEnded self.old.events self.new.events worker outcome) }
    {
        match outcome {
            Outcome::Ran => {
                let done = ran(lease, scratch)?;
                self.end(worker, Some(done));
            }
            Outcome::Starved => self.end_starved(worker, lease.into_kept()),
            Outcome::Lost => {
                drop(lease);
                self.end(worker, None);
            }
        }
        Ok(())
    }

    /// Ends the lease that a worker has out as one that ran out of memory, of which this is kept of the node. It takes
    /// no error that says so: the history that is entered does. So nothing but the entering of one calls it.
    fn end_starved(&mut self, worker: u32, kept: Kept)
        requires some { 1 ≤ worker }
        requires may { MayEnd self.old.events worker (Some (unrun worker kept)) }
        ensures workers { self.new.workers ≡ self.old.workers }
        ensures inside { self.new.inside ≡ self.old.inside }
        ensures ended { HasEnded self.old.events self.new.events worker Starved }
    {
        let Some(spot) = spot_of(&self.spots, worker) else {
            unreachable!();
        };
        let Some(at) = self.seats.place_of_number(spot.job()) else {
            unreachable!();
        };
        enter_starved(
            &mut self.entries,
            &mut self.seats,
            at,
            spot.index(),
            worker,
            kept,
        );
        self.spots[worker as usize - 1] = None;
    }

    /// Enters an exchange of a job.
    fn enter_exchange(&mut self, tenant: &Name, job: &Name) -> Result<(), ApplyFault>
        requires { IsInside self.old }
        ensures entered { OnOk result (Enters self.old (Exchange (keyed tenant.now job.now)) self.new) }
        ensures refused { IsErrOf result ApplyFault.NotAllowed
            → MayNotEnter self.old (Exchange (keyed tenant.now job.now)) }
    {
        if self.is_due() {
            return Err(ApplyFault::NotAllowed);
        }
        let Some(at) = self.first_exchange() else {
            return Err(ApplyFault::NotAllowed);
        };
        if !self.is_named(at, tenant, job) {
            return Err(ApplyFault::NotAllowed);
        }
        match self.exchange_at(at) {
            Ok(()) => Ok(()),
            Err(_) => Err(ApplyFault::OutOfMemory),
        }
    }
}

/// Why the opening of a job is not entered that is refused so: when out of memory exactly where it was refused for
/// that.
fn refusal_to_open(fault: OpenFault) -> ApplyFault
    ensures refused { result ≡ ApplyFault.NotAllowed → (k : Key) (ask : Terms) → wanted (Opens k ask) (Err fault) ≡ false }
    ensures wanting { (result ≡ ApplyFault.OutOfMemory) ↔ (fault ≡ OpenFault.OutOfMemory) }
{
    match fault {
        OpenFault::Duplicate => ApplyFault::NotAllowed,
        OpenFault::TenantFull => ApplyFault::NotAllowed,
        OpenFault::HallFull => ApplyFault::NotAllowed,
        OpenFault::OutOfMemory => ApplyFault::OutOfMemory,
    }
}

/// Why a revision is not entered that is refused so: when out of memory exactly where it was refused for that.
fn refusal_to_revise(fault: ReviseFault) -> ApplyFault
    ensures refused { result ≡ ApplyFault.NotAllowed → (k : Key) (r : Posted) → wanted (Revises k r) (Err fault) ≡ false }
    ensures wanting { (result ≡ ApplyFault.OutOfMemory) ↔ (fault ≡ ReviseFault.OutOfMemory) }
{
    match fault {
        ReviseFault::NoJob => ApplyFault::NotAllowed,
        ReviseFault::Closed => ApplyFault::NotAllowed,
        ReviseFault::RevisionsFull => ApplyFault::NotAllowed,
        ReviseFault::JobFull { .. } => ApplyFault::NotAllowed,
        ReviseFault::OutOfMemory => ApplyFault::OutOfMemory,
    }
}

/// Why it is not entered that a job asks anew, which is refused so: when out of memory exactly where it was refused for
/// that.
fn refusal_to_reask(fault: ReaskFault) -> ApplyFault
    ensures refused { result ≡ ApplyFault.NotAllowed → (k : Key) (w : Weighed) → wanted (Reasks k w) (Err fault) ≡ false }
    ensures wanting { (result ≡ ApplyFault.OutOfMemory) ↔ (fault ≡ ReaskFault.OutOfMemory) }
{
    match fault {
        ReaskFault::NoJob => ApplyFault::NotAllowed,
        ReaskFault::Closed => ApplyFault::NotAllowed,
        ReaskFault::OutOfMemory => ApplyFault::OutOfMemory,
    }
}
