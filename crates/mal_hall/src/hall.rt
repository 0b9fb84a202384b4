//! The hall and its calls.

ghost use Rattle.std.specs.Prelude.{◌≡◌, ◌↔◌, ◌+◌, ◌-◌, ◌<◌, ◌≤◌, IsTrue, length, get_or, slice_get, slice_set, [], ◌∷◌, ◌++◌, true, false, Some, None, MatchOption, IsErrOf, map, option_map, is_some, OnOk, OnErr, IfOk, IfErr, IfSome, replicate};
ghost use Rattle.std.specs.Option.{option_copied};
ghost use Rattle.mal_base.specs.{Asks.{IsAsk}, Names.{is_name}};
ghost use Rattle.mal_hall.specs.{Applied.{IsInside, listed_last}, Offered.{HasArranged, HasBalanced, HasEnded, HasExchanged, HasStarted, IsFirst, MayEnd, MayStartAt, handed_of, offered, replied, returned}, HallView.{next_number}, Driven.{HasWorkedOff, IsTurn}, Replying.{AnswersRightly, HasJob, OfAlone, OfJob}};
ghost use Rattle.mal_job.specs.{Among.{among}, Findings.{Finds}, Finishing.{outcome_of}, Replying.{Tells, TellsReply}};
ghost use Rattle.spec_hall.specs.{Calls.{HasCalled, IsOfLease, Opens, Revises, Reasks, Closes, Picks, Finishes, Recalls, Asks, is_over}, Dressed.{keyed, revisions_of}, Driven.{GrowsByTurns, IsAtEnd, IsCalm}, Events.{Open, Revise, Reask, Close, bare}, Leases.{start_number}, States.{LeaseOut, keys_of, states, lives, leases, lease_of, balanced, exchange_due}, Legal.{IsBalanceDue, Legal, job_of}, Measure.{left_in}};
ghost use Rattle.spec_job.specs.{Models.{AnswersSolve}, Proofs.{AnswersRefute}, Provenance.{ClausesAreOwn}, KeyedJob.{KeyedJob}};
ghost use Rattle.spec_hall.specs.States as states_of;

use crate::enter::{
    Entrant, enter_balance, enter_exchange, enter_finish, enter_open, enter_reask, enter_revise,
    enter_start,
};
use crate::event_list::EventList;
use crate::lodging::lists;
use crate::names::Names;
use crate::offer::{Back, Pick, Strange};
use crate::places::place_of;
use crate::room::{next_number, tenants_after};
use crate::spots::{Spot, count_out, no_leases, owed, spot_of};
use mal_base::{
    Ask, CloseFault, Name, OpenFault, PickFault, ReaskFault, ReplyFault, ReviseFault, Weight, grown,
};
use mal_history::{Event, History, Shares};
use mal_job::{Finding, Job};
use mal_learn::Scratch;
use mal_report::Told;
use mal_revision::Revision;
use mal_seats::{Candidate, Seats};
use mal_suspend::{Done, Lease};
use std::alloc::{AllocError, Global};
use std::marker::Model;
use std::mem;

/// A hall of 1 to 64 workers with room for 64 tenants with 64 jobs each. Contracts see its workers, its events, each
/// posted revision standing at its event, and the leases that are kept inside, which no worker has; the type keeps that
/// the events are a legal history, that each job is its machine run alone on its own events, and which leases are out.
#[derive(Drop)]
pub struct Hall {
    /// What was entered: the events are told by it alone, and by no job. A revision there shares its lists with the one
    /// that its job has.
    pub(crate) entries: EventList,
    pub(crate) seats: Seats,
    pub(crate) spots: Vec<Option<Spot>>,
    /// Each name that a job ever had here, with the number of its last coming. None is forgotten.
    pub(crate) names: Names,
    pub(crate) starts: u64,
    pub(crate) unclosed: usize,
    pub(crate) tenants: usize,
    /// How many openings and arrivals there were: the number of the next job that comes.
    pub(crate) comings: u64,
    /// Whether a job left or arrived since the last balancing.
    pub(crate) moved: bool,
    pub(crate) lodged: Vec<Option<Lease>>,
}

impl Model for Hall {
    ghost use Rattle.std.specs.Prelude.{map, option_map};
    ghost use Rattle.mal_hall.specs.{Offered.{handed_of}, HallView.{HallView, IsHall}};

    ghost Value = { HallView };

    ghost view = { λ h. record {
      workers = h.entries.workers;
      events = h.entries.events;
      inside = map
          (option_map handed_of) h.lodged.items;
    } };

    ghost invariant = { λ h. IsHall
        (record { entries = h.entries; seats = h.seats; spots = h.spots.items; names = h.names; starts = h.starts; unclosed = h.unclosed; tenants = h.tenants; comings = h.comings; moved = h.moved }) };
}

impl Hall {
    /// The hall of so many workers, 1 to 64, without a job.
    pub fn new(alloc: Global, workers: u32) -> Result<Hall, AllocError>
        requires some { 1 ≤ workers }
        requires bound { workers ≤ 64 }
        ensures workers { IfOk result (λ h. h.workers ≡ workers) }
        ensures events { IfOk result (λ h. h.events ≡ []) }
        ensures none { IfOk result (λ h. h.inside ≡ replicate workers None) }
        ensures inside { IfOk result (λ h. IsInside h) }
    {
        // What can fail comes first, so that no seats are let go of.
        let spots = no_leases(alloc, workers)?;
        let lodged = no_leases(alloc, workers)?;
        Ok(Hall {
            entries: EventList::new(alloc, workers),
            seats: Seats::new(alloc),
            spots,
            names: Names::new(alloc),
            starts: 0,
            unclosed: 0,
            tenants: 0,
            comings: 0,
            moved: false,
            lodged,
        })
    }

    /// Opens a job. There is room for 64 tenants with 64 jobs each; after a refusal the hall is as before.
    pub fn open_job(&mut self, tenant: Name, job: Name, ask: Ask) -> Result<(), OpenFault>
        ensures workers { self.new.workers ≡ self.old.workers }
        ensures inside { self.new.inside ≡ self.old.inside }
        ensures ok { OnOk result (self.new.events ≡ self.old.events ++ Open (keyed tenant job) ask ∷ []) }
        ensures err { OnErr result (self.new.events ≡ self.old.events) }
        ensures call { HasCalled self.old.workers self.old.events
            (Opens (keyed tenant job) ask) result self.new.events }
    {
        if self.names.number_of(tenant, job).is_some() {
            return Err(OpenFault::Duplicate);
        }
        let jobs = self.names.jobs_of(tenant);
        let tenants = tenants_after(self.tenants, jobs)?;
        are_in_form(&tenant, &job, ask);
        if self.comings == u64::MAX {
            return Err(OpenFault::OutOfMemory);
        }
        let entrant = Entrant {
            number: self.comings,
            tenant,
            job,
        };
        let owed = owed(&self.entries, &self.seats, self.unclosed, &self.spots);
        match enter_open(
            &mut self.entries,
            &mut self.seats,
            &mut self.names,
            entrant,
            ask,
            owed + 2,
        ) {
            Ok(()) => {}
            Err(_) => return Err(OpenFault::OutOfMemory),
        }
        self.unclosed += 1;
        self.tenants = tenants;
        self.comings += 1;
        Ok(())
    }

    /// Posts the next revision of a job. There is room for 256, with 2^20 clauses and 2^24 literals in all; after a
    /// refusal the hall is as before.
    pub fn revise_job(
        &mut self,
        tenant: &Name,
        job: &Name,
        revision: Revision,
    ) -> Result<(), ReviseFault>
        ensures workers { self.new.workers ≡ self.old.workers }
        ensures inside { self.new.inside ≡ self.old.inside }
        ensures ok { OnOk result
            (self.new.events
            ≡ self.old.events
            ++ Revise (keyed tenant.now job.now) (next_number (keyed tenant.now job.now) self.old.events) revision
            ∷ []) }
        ensures err { OnErr result (self.new.events ≡ self.old.events) }
        ensures call { HasCalled self.old.workers self.old.events
            (Revises (keyed tenant.now job.now) revision) result self.new.events }
    {
        let Some(at) = place_of(&self.names, &self.seats, *tenant, *job) else {
            return Err(ReviseFault::NoJob);
        };
        let number = next_number(self.seats.at(at).job(), &revision)?;
        let owed = owed(&self.entries, &self.seats, self.unclosed, &self.spots);
        match enter_revise(
            &mut self.entries,
            &mut self.seats,
            at,
            number,
            revision,
            owed,
        ) {
            Ok(()) => {}
            Err(_) => return Err(ReviseFault::OutOfMemory),
        }
        Ok(())
    }

    /// Changes the priority and the demand of a job's ask: the next balancing goes by them. After a refusal the hall is
    /// as before.
    pub fn reask_job(&mut self, tenant: &Name, job: &Name, weight: Weight) -> Result<(), ReaskFault>
        ensures workers { self.new.workers ≡ self.old.workers }
        ensures inside { self.new.inside ≡ self.old.inside }
        ensures ok { OnOk result (self.new.events ≡ self.old.events ++ Reask (keyed tenant.now job.now) weight ∷ []) }
        ensures err { OnErr result (self.new.events ≡ self.old.events) }
        ensures call { HasCalled self.old.workers self.old.events
            (Reasks (keyed tenant.now job.now) weight) result self.new.events }
    {
        // For the proof.
        let _ = weight.priority();
        let Some(at) = place_of(&self.names, &self.seats, *tenant, *job) else {
            return Err(ReaskFault::NoJob);
        };
        if self.seats.at(at).job().is_closed() {
            return Err(ReaskFault::Closed);
        }
        let owed = owed(&self.entries, &self.seats, self.unclosed, &self.spots);
        match enter_reask(&mut self.entries, &mut self.seats, at, weight, owed) {
            Ok(()) => {}
            Err(_) => return Err(ReaskFault::OutOfMemory),
        }
        Ok(())
    }

    /// Closes a job: no revision of it follows. Takes no memory; after a refusal the hall is as before.
    pub fn close_job(&mut self, tenant: &Name, job: &Name) -> Result<(), CloseFault>
        ensures workers { self.new.workers ≡ self.old.workers }
        ensures inside { self.new.inside ≡ self.old.inside }
        ensures ok { OnOk result (self.new.events ≡ self.old.events ++ Close (keyed tenant.now job.now) ∷ []) }
        ensures err { OnErr result (self.new.events ≡ self.old.events) }
        ensures call { HasCalled self.old.workers self.old.events
            (Closes (keyed tenant.now job.now)) result self.new.events }
    {
        let Some(at) = place_of(&self.names, &self.seats, *tenant, *job) else {
            return Err(CloseFault::NoJob);
        };
        if self.seats.at(at).job().is_closed() {
            return Err(CloseFault::Closed);
        }
        self.seats.close(at);
        self.unclosed -= 1;
        self.entries.push_reserved(Event::Close {
            tenant: *tenant,
            job: *job,
        });
        Ok(())
    }

    /// The reply to a revision of a job, numbered from 1: None exactly where it is not answered. It is that of the
    /// job's machine run alone on the job's own events, and the same in each history that has these. A satisfiable
    /// reply carries a model of the revision, an unsatisfiable one a proof from the job's clauses alone; each clause
    /// that the job's nodes hold or tell one another is the job's own. A job that is not there is `NoJob`, however much
    /// memory there is.
    pub fn reply(&self, tenant: &Name, job: &Name, r: u32) -> Result<Option<Vec<u8>>, ReplyFault>
        ensures reply { IfOk result
            (λ told. HasJob (keyed tenant.now job.now) self.now.events (TellsReply (keyed tenant.now job.now) r told)) }
        ensures alone { IfOk result
            (λ told. OfAlone (keyed tenant.now job.now) self.now.events
            (TellsReply (keyed tenant.now job.now) r told)) }
        ensures no_job { IsErrOf result ReplyFault.NoJob
            → job_of (keyed tenant.now job.now) (states self.now.events) ≡ None }
        ensures out_of_memory { IsErrOf result ReplyFault.OutOfMemory
            → (t : KeyedJob) × (job_of (keyed tenant.now job.now) (states self.now.events) ≡ Some t) }
        ensures models { OfJob (keyed tenant.now job.now) self.now.events AnswersSolve }
        ensures proofs { OfJob (keyed tenant.now job.now) self.now.events AnswersRefute }
        ensures own { OfJob (keyed tenant.now job.now) self.now.events ClausesAreOwn }
        ensures call { HasCalled self.now.workers self.now.events (Asks (keyed tenant.now job.now) r)
            (replied result) self.now.events }
    {
        let Some(job) = self.job_named(tenant, job) else {
            return Err(ReplyFault::NoJob);
        };
        match job.reply(r) {
            Ok(text) => Ok(text),
            Err(_) => Err(ReplyFault::OutOfMemory),
        }
    }

    /// What the reply to a revision of a job, numbered from 1, tells: None exactly where it is not answered. It is what
    /// the job's machine tells run alone on the job's own events, and the same in each history that has these. A model
    /// is one of the revision, a proof one from the job's clauses alone; each clause that the job's nodes hold or tell
    /// one another is the job's own. A job that is not there is `NoJob`, however much memory there is.
    pub fn answer(&self, tenant: &Name, job: &Name, r: u32) -> Result<Option<Told>, ReplyFault>
        ensures answer { IfOk result
            (λ told. HasJob (keyed tenant.now job.now) self.now.events (Tells r told)) }
        ensures alone { IfOk result
            (λ told. OfAlone (keyed tenant.now job.now) self.now.events (Tells r told)) }
        ensures no_job { IsErrOf result ReplyFault.NoJob
            → job_of (keyed tenant.now job.now) (states self.now.events) ≡ None }
        ensures out_of_memory { IsErrOf result ReplyFault.OutOfMemory
            → (t : KeyedJob) × (job_of (keyed tenant.now job.now) (states self.now.events) ≡ Some t) }
        ensures models { OfJob (keyed tenant.now job.now) self.now.events AnswersSolve }
        ensures proofs { OfJob (keyed tenant.now job.now) self.now.events AnswersRefute }
        ensures own { OfJob (keyed tenant.now job.now) self.now.events ClausesAreOwn }
    {
        let Some(job) = self.job_named(tenant, job) else {
            return Err(ReplyFault::NoJob);
        };
        match job.told(r) {
            Ok(told) => Ok(told),
            Err(_) => Err(ReplyFault::OutOfMemory),
        }
    }

    /// What is found of a revision of a job, numbered from 1: None exactly where it is not answered. It is what `answer`
    /// gives but for the lines of a proof, and no lines are made. A job that is not there is `NoJob`, however much memory
    /// there is.
    pub fn finding(&self, tenant: &Name, job: &Name, r: u32) -> Result<Option<Finding>, ReplyFault>
        ensures found { IfOk result
            (λ found. HasJob (keyed tenant.now job.now) self.now.events (Finds r found)) }
        ensures no_job { IsErrOf result ReplyFault.NoJob
            → job_of (keyed tenant.now job.now) (states self.now.events) ≡ None }
        ensures out_of_memory { IsErrOf result ReplyFault.OutOfMemory
            → (t : KeyedJob) × (job_of (keyed tenant.now job.now) (states self.now.events) ≡ Some t) }
    {
        let Some(job) = self.job_named(tenant, job) else {
            return Err(ReplyFault::NoJob);
        };
        match job.finding(r) {
            Ok(found) => Ok(found),
            Err(_) => Err(ReplyFault::OutOfMemory),
        }
    }

    /// The history: the events that were entered, in their order.
    pub fn history(&self) -> &History
        ensures workers { result.now.workers ≡ self.now.workers }
        ensures events { result.now.events ≡ map bare self.now.events }
        ensures legal { Legal self.now.workers self.now.events }
    {
        self.entries.history()
    }

    /// A revision of a job, numbered from 1: None exactly where the job is not there or has no such revision.
    pub fn revision(&self, tenant: &Name, job: &Name, r: u32) -> Option<&Revision>
        ensures { option_copied result ≡ among r (revisions_of (keyed tenant.now job.now) (states self.now.events)) }
    {
        match self.job_named(tenant, job) {
            None => None,
            Some(job) => job.revision(r),
        }
    }

    /// The job of this key: None exactly where it is not there. Its answers are right, and its clauses its own.
    pub(crate) fn job_named(&self, tenant: &Name, job: &Name) -> Option<&Job>
        ensures found { MatchOption result (job_of (keyed tenant.now job.now) (states self.now.events) ≡ None)
            (λ j. job_of (keyed tenant.now job.now) (states self.now.events) ≡ Some j.now.titled) }
        ensures key { IfSome result (λ j. j.now.titled.key ≡ keyed tenant.now job.now) }
        ensures right { AnswersRightly (keyed tenant.now job.now) self.now.events }
    {
        let Some(at) = place_of(&self.names, &self.seats, *tenant, *job) else {
            return None;
        };
        Some(self.seats.at(at).job())
    }

    /// Whether a balancing is due.
    pub(crate) fn is_due(&self) -> bool
        ensures due { result ≡ true → IsBalanceDue self.now.events }
        ensures calm { result ≡ false → Some (lives (states self.now.events)) ≡ balanced self.now.events }
        ensures legal { Legal self.now.workers self.now.events }
        ensures some { 1 ≤ self.now.workers }
        ensures bound { self.now.workers ≤ 64 }
    {
        // A job that left or arrived may leave the list of live jobs as it was; its volume has to be given anew all the same.
        self.moved || self.seats.is_due()
    }

    /// The place of the first job of which an exchange is due.
    pub(crate) fn first_exchange(&self) -> Option<usize>
        ensures value { MatchOption result (exchange_due (states self.now.events) ≡ None)
            (λ at. IsFirst self.now.events at) }
        ensures legal { Legal self.now.workers self.now.events }
        ensures some { 1 ≤ self.now.workers }
    {
        self.seats.first_exchange()
    }

    /// The node that starts next.
    pub(crate) fn next(&self) -> Option<Candidate>
        ensures { result ≡ states_of.picked (states self.now.events) }
    {
        self.seats.pick()
    }

    /// Whether every job is closed and answered and nothing is out.
    fn is_over(&self) -> bool
        ensures { result ≡ is_over self.now.events }
    {
        self.seats.is_done() && count_out(&self.spots) == 0
    }

    /// Enters a balancing that is due. If memory runs out, nothing is entered.
    pub(crate) fn balance(&mut self) -> Result<(), AllocError>
        requires due { IsBalanceDue self.old.events }
        ensures workers { self.new.workers ≡ self.old.workers }
        ensures inside { self.new.inside ≡ self.old.inside }
        ensures ok { OnOk result (HasBalanced self.old.workers self.old.events self.new.events) }
        ensures err { OnErr result (self.new.events ≡ self.old.events) }
    {
        let owed = owed(&self.entries, &self.seats, self.unclosed, &self.spots);
        enter_balance(&mut self.entries, &mut self.seats, owed)?;
        self.moved = false;
        Ok(())
    }

    /// Enters an exchange of the first job of which it is due, where no balancing is. If memory runs out, nothing is
    /// entered.
    pub(crate) fn exchange_at(&mut self, at: usize) -> Result<(), AllocError>
        requires calm { Some (lives (states self.old.events)) ≡ balanced self.old.events }
        requires first { IsFirst self.old.events at }
        ensures workers { self.new.workers ≡ self.old.workers }
        ensures inside { self.new.inside ≡ self.old.inside }
        ensures ok { OnOk result (HasExchanged self.old.workers self.old.events self.new.events) }
        ensures err { OnErr result (self.new.events ≡ self.old.events) }
    {
        let owed = owed(&self.entries, &self.seats, self.unclosed, &self.spots);
        match enter_exchange(&mut self.entries, &mut self.seats, at, owed) {
            Ok(()) => {}
            Err(error) => return Err(error),
        }
        Ok(())
    }

    /// Enters a balancing if it is due. If memory runs out, nothing is entered.
    #[tactic(auto, using(crate::proofs::PhaseLemmas::arranging))]
    fn balance_due(&mut self) -> Result<(), AllocError>
        ensures workers { self.new.workers ≡ self.old.workers }
        ensures inside { self.new.inside ≡ self.old.inside }
        ensures due { HasArranged self.old.workers self.old.events self.new.events }
        ensures calm { OnOk result (Some (lives (states self.new.events)) ≡ balanced self.new.events) }
    {
        if !self.is_due() {
            return Ok(());
        }
        match self.balance() {
            Ok(()) => {}
            Err(error) => return Err(error),
        }
        Ok(())
    }

    /// Enters the first exchange that is due, where no balancing is. False where none was due.
    #[tactic(auto, using(crate::proofs::PhaseLemmas::arranging))]
    fn exchange_due(&mut self) -> Result<bool, AllocError>
        requires calm { Some (lives (states self.old.events)) ≡ balanced self.old.events }
        ensures workers { self.new.workers ≡ self.old.workers }
        ensures inside { self.new.inside ≡ self.old.inside }
        ensures due { HasArranged self.old.workers self.old.events self.new.events }
        ensures calm { IfOk result (λ b. Some (lives (states self.new.events)) ≡ balanced self.new.events) }
        ensures none { IfOk result (λ b. b ≡ false → exchange_due (states self.new.events) ≡ None) }
        ensures less { IfOk result (λ b. b ≡ true → left_in self.new.events < left_in self.old.events) }
    {
        let Some(at) = self.first_exchange() else {
            return Ok(false);
        };
        match self.exchange_at(at) {
            Ok(()) => {}
            Err(error) => return Err(error),
        }
        Ok(true)
    }

    /// Enters the balancing if it is due, then each exchange that is due, by opening. If memory runs out, what was
    /// entered stays.
    fn arrange(&mut self) -> Result<(), AllocError>
        ensures workers { self.new.workers ≡ self.old.workers }
        ensures inside { self.new.inside ≡ self.old.inside }
        ensures due { HasArranged self.old.workers self.old.events self.new.events }
        ensures calm { OnOk result (IsCalm self.new.events) }
    {
        match self.balance_due() {
            Ok(()) => {}
            Err(error) => return Err(error),
        }
        while self.exchange_due()? {}
        Ok(())
    }

    /// Starts a node of the job at this place, which a worker may start, and makes room for the finish. If memory runs
    /// out, nothing is entered.
    pub(crate) fn start_at(
        &mut self,
        at: usize,
        index: u32,
        worker: u32,
    ) -> Result<Lease, AllocError>
        requires { MayStartAt self.old.workers self.old.events at index worker }
        ensures workers { self.new.workers ≡ self.old.workers }
        ensures inside { self.new.inside ≡ self.old.inside }
        ensures ok { IfOk result
            (λ lease. HasStarted self.old.workers self.old.events self.new.events index worker lease) }
        ensures err { OnErr result (self.new.events ≡ self.old.events) }
    {
        // A start's number tells its lease from all others, so none comes twice.
        grown(self.starts as usize, 1, usize::MAX)?;
        let start = self.starts + 1;
        let spot = Spot::new(self.seats.at(at).job().number(), index, start);
        // The finish of this start is owed from here on, so that it is entered without memory.
        let owed = owed(&self.entries, &self.seats, self.unclosed, &self.spots);
        let lease = match enter_start(
            &mut self.entries,
            &mut self.seats,
            at,
            spot,
            worker,
            owed + 1,
        ) {
            Ok(lease) => lease,
            Err(error) => return Err(error),
        };
        self.starts = start;
        self.spots[worker as usize - 1] = Some(spot);
        Ok(lease)
    }

    /// Hands a node out to a worker, 1 to the number of workers, after the balancing and the exchanges that are due:
    /// the one that was started least often, then by its job's opening, then by index. It waits where no node may
    /// start, and all is done where every job is closed and answered and nothing is out. If memory runs out, the
    /// balancing and the exchanges that were entered stay.
    pub fn pick(&mut self, worker: u32) -> Result<Pick, PickFault>
        requires some { 1 ≤ worker }
        requires bound { worker ≤ self.old.workers }
        ensures workers { self.new.workers ≡ self.old.workers }
        ensures inside { self.new.inside ≡ self.old.inside }
        ensures call { HasCalled self.old.workers self.old.events (Picks worker) (offered result) self.new.events }
    {
        if self.has_lease(worker) {
            return Err(PickFault::Busy);
        }
        // After the last answer of a closed job no balancing is entered, though one would be legal: nothing is left to
        // do.
        if self.is_over() {
            return Ok(Pick::AllDone);
        }
        match self.arrange() {
            Ok(()) => {}
            Err(_) => return Err(PickFault::OutOfMemory),
        }
        let Some(next) = self.next() else {
            return Ok(Pick::Idle);
        };
        match self.start_at(next.job(), next.index(), worker) {
            Ok(lease) => Ok(Pick::Leased(lease)),
            Err(_) => Err(PickFault::OutOfMemory),
        }
    }

    /// Whether a worker has a lease out.
    pub(crate) fn has_lease(&self, worker: u32) -> bool
        requires { 1 ≤ worker }
        ensures { result ≡ is_some (lease_of worker (leases self.now.events)) }
    {
        spot_of(&self.spots, worker).is_some()
    }

    /// Whether what came back is that of the lease which its worker has out, or else the number of that lease's start.
    fn compare(&self, back: &Done) -> Result<(), Option<u64>>
        ensures ok { OnOk result (MayEnd self.now.events back.now.worker (Some back.now)) }
        ensures worker { OnOk result (1 ≤ back.now.worker) }
        ensures strange { OnErr result ((l : LeaseOut) → IsOfLease self.now.events back.now l → ⊥) }
        ensures kept { IfErr result
            (λ kept. kept ≡ option_map
            (λ l. start_number l.worker self.now.events) (lease_of back.now.worker (leases self.now.events))) }
    {
        let _starts = self.starts;
        let worker = back.worker();
        if worker == 0 {
            return Err(None);
        }
        let Some(spot) = spot_of(&self.spots, worker) else {
            return Err(None);
        };
        let Some(at) = self.seats.place_of_number(spot.job()) else {
            unreachable!();
        };
        // A worker may come with a lease that was recalled, or of another hall: only the journal tells.
        if !self.seats.at(at).is_back(spot.index(), back) {
            return Err(Some(spot.start()));
        }
        Ok(())
    }

    /// Ends the lease that a worker has out: it is lost where nothing came back.
    pub(crate) fn end(&mut self, worker: u32, back: Option<Done>)
        requires some { 1 ≤ worker }
        requires may { MayEnd self.old.events worker back }
        ensures workers { self.new.workers ≡ self.old.workers }
        ensures inside { self.new.inside ≡ self.old.inside }
        ensures ended { HasEnded self.old.events self.new.events worker (outcome_of back) }
    {
        let Some(spot) = spot_of(&self.spots, worker) else {
            unreachable!();
        };
        let Some(at) = self.seats.place_of_number(spot.job()) else {
            unreachable!();
        };
        enter_finish(
            &mut self.entries,
            &mut self.seats,
            at,
            spot.index(),
            worker,
            back,
        );
        self.spots[worker as usize - 1] = None;
    }

    /// Takes back what came of a lease, where its journal is that of the lease which its worker has out. What is
    /// strange is handed back with the number of that lease's start, and the hall is as before. Takes no memory.
    pub fn finish(&mut self, back: Done) -> Result<Back, Strange>
        ensures workers { self.new.workers ≡ self.old.workers }
        ensures inside { self.new.inside ≡ self.old.inside }
        ensures call { HasCalled self.old.workers self.old.events (Finishes back) (returned result) self.new.events }
        ensures back { IfErr result (λ s. s.back ≡ back) }
    {
        match self.compare(&back) {
            Err(kept) => Err(Strange { kept, back }),
            Ok(()) => {
                self.end(back.worker(), Some(back));
                Ok(Back)
            }
        }
    }

    /// Enters every lease that is out as lost, by rising worker. Takes no memory.
    pub fn recall(&mut self)
        ensures workers { self.new.workers ≡ self.old.workers }
        ensures inside { self.new.inside ≡ self.old.inside }
        ensures call { HasCalled self.old.workers self.old.events Recalls tt self.new.events }
        ensures home { leases self.new.events ≡ [] }
    {
        // For the proof.
        let _ = self.is_due();
        for worker in 1..self.entries.workers() + 1 {
            if self.has_lease(worker) {
                self.end(worker, None);
            }
        }
    }

    /// Runs the jobs until nothing is left to do, turn by turn, as worker 1: every job is closed and answered, or
    /// nothing is due and no node may start. If memory runs out, the events entered so far stay, no lease is out, and
    /// the hall may be driven again.
    pub fn drive(&mut self, scratch: &mut Scratch) -> Result<(), AllocError>
        requires home { leases self.old.events ≡ [] }
        ensures workers { self.new.workers ≡ self.old.workers }
        ensures inside { self.new.inside ≡ self.old.inside }
        ensures turns { GrowsByTurns self.old.workers self.old.events self.new.events }
        ensures home { leases self.new.events ≡ [] }
        ensures end { OnOk result (IsAtEnd self.new.events) }
        ensures answered { OnOk result (lives (states self.new.events) ≡ []) }
    {
        while self.turn(scratch)? {}
        Ok(())
    }

    /// Picks as worker 1, works the lease off and takes it back: a slice. False where worker 1 got no lease, and nothing
    /// is left to do.
    pub fn turn(&mut self, scratch: &mut Scratch) -> Result<bool, AllocError>
        requires home { leases self.old.events ≡ [] }
        ensures workers { self.new.workers ≡ self.old.workers }
        ensures inside { self.new.inside ≡ self.old.inside }
        ensures turned { IsTurn self.old.workers self.old.events result self.new.events }
    {
        // For the proof.
        let _ = self.is_due();
        match self.pick(1) {
            Err(PickFault::OutOfMemory) => Err(AllocError),
            Err(PickFault::Busy) => unreachable!(),
            Ok(Pick::Idle) => Ok(false),
            Ok(Pick::AllDone) => Ok(false),
            Ok(Pick::Leased(lease)) => {
                self.work_off(lease, scratch);
                Ok(true)
            }
        }
    }

    /// Works a lease off and takes back what came of it.
    fn work_off(&mut self, lease: Lease, scratch: &mut Scratch)
        ensures workers { self.new.workers ≡ self.old.workers }
        ensures inside { self.new.inside ≡ self.old.inside }
        ensures off { HasWorkedOff self.old.workers self.old.events lease self.new.events }
    {
        match self.finish(lease.work(scratch)) {
            Ok(_) => {}
            Err(strange) => drop(strange),
        }
    }

    /// Whether every revision is answered.
    pub fn is_answered(&self) -> bool
        ensures { IsTrue result ↔ (lives (states self.now.events) ≡ []) }
    {
        self.seats.is_answered()
    }

    /// Whether no lease is out. Where none is kept inside either, events that were written down may be entered.
    pub fn is_home(&self) -> bool
        ensures value { IsTrue result ↔ (leases self.now.events ≡ []) }
        ensures inside { IsTrue result → self.now.inside ≡ replicate self.now.workers None → IsInside self.now }
    {
        count_out(&self.spots) == 0
    }

    /// The number of the next revision of a job, 1 where there is no such job.
    pub(crate) fn next_of(&self, tenant: &Name, job: &Name) -> usize
        ensures { result ≡ next_number (keyed tenant.now job.now) self.now.events }
    {
        match self.job_named(tenant, job) {
            None => 1,
            Some(job) => job.revisions().len() + 1,
        }
    }

    /// Whether the job at a place, by opening, has this key.
    pub(crate) fn is_named(&self, at: usize, tenant: &Name, job: &Name) -> bool
        ensures { IsTrue result ↔ (slice_get (keys_of self.now.events) at ≡ Some (keyed tenant.now job.now)) }
    {
        if at >= self.seats.len() {
            return false;
        }
        self.seats.at(at).is_named(*tenant, *job)
    }

    /// Whether the lease that a worker has out is of this node of a job.
    pub(crate) fn holds(&self, worker: u32, tenant: &Name, job: &Name, index: u32) -> bool
        ensures value { IsTrue result
            ↔ (lease_of worker (leases self.now.events) ≡ Some
            (record { worker = worker; key = keyed tenant.now job.now; index = index })) }
        ensures some { result ≡ true → 1 ≤ worker }
    {
        let _starts = self.starts;
        if worker == 0 {
            return false;
        }
        let Some(spot) = spot_of(&self.spots, worker) else {
            return false;
        };
        if spot.index() != index {
            return false;
        }
        let Some(at) = self.seats.place_of_number(spot.job()) else {
            unreachable!();
        };
        self.is_named(at, tenant, job)
    }

    /// Whether the last event is a balancing that lists these volumes.
    pub(crate) fn has_listed(&self, volumes: &Shares) -> bool
        ensures { IsTrue result ↔ (listed_last (map bare self.now.events) ≡ Some volumes.now) }
    {
        match self.entries.history().events().last() {
            None => false,
            Some(event) => lists(event, volumes),
        }
    }

    /// Keeps the lease of a worker inside.
    pub(crate) fn lodge(&mut self, worker: u32, lease: Lease)
        requires some { 1 ≤ worker }
        requires bound { worker ≤ length self.old.inside }
        ensures workers { self.new.workers ≡ self.old.workers }
        ensures events { self.new.events ≡ self.old.events }
        ensures inside { self.new.inside ≡ slice_set self.old.inside (worker - 1) (Some (handed_of lease)) }
    {
        let before = mem::replace(&mut self.lodged[worker as usize - 1], Some(lease));
        drop(before);
    }

    /// Takes the lease of a worker that is kept inside, none where it is not.
    pub(crate) fn take_lodged(&mut self, worker: u32) -> Option<Lease>
        requires some { 1 ≤ worker }
        requires bound { worker ≤ length self.old.inside }
        ensures workers { self.new.workers ≡ self.old.workers }
        ensures events { self.new.events ≡ self.old.events }
        ensures taken { option_map handed_of result ≡ get_or self.old.inside (worker - 1) None }
        ensures inside { self.new.inside ≡ slice_set self.old.inside (worker - 1) None }
    {
        mem::replace(&mut self.lodged[worker as usize - 1], None)
    }
}

/// What the types of names and asks keep.
fn are_in_form(tenant: &Name, job: &Name, ask: Ask)
    ensures tenant { is_name tenant.now ≡ true }
    ensures job { is_name job.now ≡ true }
    ensures ask { IsAsk ask }
{
    // For the proof.
    let _ = tenant.as_bytes();
    let _ = job.as_bytes();
    let _ = ask.priority();
}
