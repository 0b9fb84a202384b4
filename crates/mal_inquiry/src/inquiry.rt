//! An inquiry.

ghost use Rattle.std.specs.Prelude.{◌≡◌, ◌≤◌, List, [], length, IfOk, OnErr, OnOk};
ghost use Rattle.mal_base.specs.Asks.{Terms};
ghost use Rattle.mal_inquiry.specs.InquiryView.{HasBegun, HasFound, HasPosted, IsAnswered, IsLast, machine};
ghost use Rattle.mal_report.specs.Told.{body_of};
ghost use Rattle.spec_hall.specs.{Dressed.{keyed}, Driven.{GrowsByTurns}};
ghost use Rattle.spec_inquiry.specs.{Asking.{MayAsk}, Rounds.{IsInquiry, Round, revisions_in}, Searches.{lines_in, proofs_in}};
ghost use Rattle.std.specs.Option.{option_map, option_map_or};

use mal_base::{Ask, Lines, Name};
use mal_hall::{Hall, OpenFault, ReplyFault, ReviseFault};
use mal_job::Finding;
use mal_learn::Scratch;
use mal_report::Told;
use mal_revision::Revision;
use std::alloc::{AllocError, Global};
use std::marker::Model;

/// A job that is asked revision by revision, alone in a hall of one worker, which is driven on this thread. Contracts
/// see the key of the job and the events of the hall. The type keeps that nothing is out and that the job is open, at
/// every moment, after memory ran out too.
#[derive(Drop)]
pub struct Inquiry {
    hall: Hall,
    tenant: Name,
    job: Name,
    /// How many revisions were posted.
    asked: u32,
}

impl Model for Inquiry {
    ghost use Rattle.spec_hall.specs.Dressed.{keyed};
    ghost use Rattle.mal_inquiry.specs.InquiryView.{InquiryView, IsKept};

    ghost Value = { InquiryView };

    ghost view = { λ i. record { key = keyed i.tenant i.job; events = i.hall.events } };

    ghost invariant = { λ i. IsKept i.hall (keyed i.tenant i.job) i.asked };
}

impl Inquiry {
    /// The inquiry of a job of these names with this ask, of which nothing was asked yet.
    pub fn new(alloc: Global, tenant: Name, job: Name, ask: Ask) -> Result<Inquiry, AllocError>
        ensures key { IfOk result (λ i. i.key ≡ keyed tenant job) }
        ensures inquiry { IfOk result (λ i. IsInquiry (keyed tenant job) ask [] i.events) }
    {
        let mut hall = Hall::new(alloc, 1)?;
        match open(&mut hall, tenant, job, ask) {
            Ok(()) => Ok(Inquiry {
                hall,
                tenant,
                job,
                asked: 0,
            }),
            Err(error) => Err(error),
        }
    }

    /// Asks the next revision, for which there is room after those that were asked, and gives what is told of it, with
    /// its evidence, but for the lines of a proof: the revision is posted, and the hall is driven until no node may
    /// start. When memory runs out nothing was entered, or the events that were entered stay and no more rounds may be
    /// asked.
    pub fn ask(&mut self, revision: Revision, scratch: &mut Scratch) -> Result<Finding, AllocError>
        requires may { (terms : Terms) × (rounds : List Round)
            × IsInquiry self.old.key terms rounds self.old.events × MayAsk (revisions_in rounds) revision }
        ensures key { self.new.key ≡ self.old.key }
        ensures begun { HasBegun self.old revision self.new }
        ensures asked { (terms : Terms) (rounds : List Round) → IsInquiry self.old.key terms rounds self.old.events
            → IfOk result (λ found. HasFound self.old.key terms rounds revision found self.new.events) }
    {
        self.post(revision)?;
        self.drive(scratch)?;
        self.found()
    }

    /// The lines of the proof that is told of a revision, numbered from 1: none where no proof is. They are made here.
    pub fn lines(&self, alloc: Global, r: u32) -> Result<Lines, AllocError>
        ensures { IfOk result (λ lines. lines.lines ≡ proofs_in self.now.key self.now.events r) }
    {
        match self.hall.answer(&self.tenant, &self.job, r) {
            Ok(told) => Ok(lines_of(alloc, told)),
            Err(ReplyFault::NoJob) => unreachable!(),
            Err(ReplyFault::OutOfMemory) => Err(AllocError),
        }
    }

    /// Posts the next revision, for which there is room. If memory runs out, nothing is entered.
    fn post(&mut self, revision: Revision) -> Result<(), AllocError>
        requires { MayAsk (machine self.old).revisions revision }
        ensures key { self.new.key ≡ self.old.key }
        ensures posted { OnOk result (HasPosted self.old revision self.new) }
        ensures kept { OnErr result (self.new ≡ self.old) }
    {
        match self.hall.revise_job(&self.tenant, &self.job, revision) {
            Ok(()) => {}
            Err(ReviseFault::NoJob) => unreachable!(),
            Err(ReviseFault::Closed) => unreachable!(),
            Err(ReviseFault::RevisionsFull) => unreachable!(),
            Err(ReviseFault::JobFull { .. }) => unreachable!(),
            Err(ReviseFault::OutOfMemory) => return Err(AllocError),
        }
        self.asked += 1;
        Ok(())
    }

    /// Runs the job until no node may start. If memory runs out, what was entered stays.
    fn drive(&mut self, scratch: &mut Scratch) -> Result<(), AllocError>
        ensures key { self.new.key ≡ self.old.key }
        ensures turns { GrowsByTurns 1 self.old.events self.new.events }
        ensures answered { OnOk result (IsAnswered self.new) }
    {
        self.hall.drive(scratch)
    }

    /// What is found of the last revision, where all are answered.
    fn found(&self) -> Result<Finding, AllocError>
        requires answered { IsAnswered self.now }
        requires some { 1 ≤ length (machine self.now).revisions }
        ensures { IfOk result (λ found. IsLast self.now found) }
    {
        match self.hall.finding(&self.tenant, &self.job, self.asked) {
            Ok(Some(found)) => Ok(found),
            Ok(None) => unreachable!(),
            Err(ReplyFault::NoJob) => unreachable!(),
            Err(ReplyFault::OutOfMemory) => Err(AllocError),
        }
    }
}

/// Opens a job in a hall of one worker without events.
fn open(hall: &mut Hall, tenant: Name, job: Name, ask: Ask) -> Result<(), AllocError>
    requires new { hall.old.events ≡ [] }
    ensures workers { hall.new.workers ≡ hall.old.workers }
    ensures inquiry { OnOk result (IsInquiry (keyed tenant job) ask [] hall.new.events) }
{
    match hall.open_job(tenant, job, ask) {
        Ok(()) => Ok(()),
        Err(OpenFault::Duplicate) => unreachable!(),
        Err(OpenFault::TenantFull) => unreachable!(),
        Err(OpenFault::HallFull) => unreachable!(),
        Err(OpenFault::OutOfMemory) => Err(AllocError),
    }
}

/// The lines of a proof that is told, none where no proof is.
fn lines_of(alloc: Global, told: Option<Told>) -> Lines
    ensures { result.lines ≡ option_map_or lines_in (option_map body_of told) [] }
{
    match told {
        None => Lines::new(alloc),
        Some(told) => match told {
            Told::Proof { failed: _, lines } => lines,
            Told::Model(_) | Told::Spent(_) | Told::Starved => Lines::new(alloc),
        },
    }
}
