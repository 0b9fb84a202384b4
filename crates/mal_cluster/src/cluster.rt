//! The cluster and the calls that its halls answer.

ghost use Rattle.std.specs.Prelude.{◌≡◌, ◌≤◌, ◌-◌, All, [], length, map, replicate, IfOk};
ghost use Rattle.mal_cluster.specs.Kept.{IsKept, cluster_of, histories};
ghost use Rattle.mal_hall.specs.Offered.{replied};
ghost use Rattle.spec_cluster.specs.{Calls.{IsClosing, IsOpening, IsReasking, IsReply, IsRevising}, Clusters.{new_cluster}, Visits.{all_of, hall_at}};
ghost use Rattle.spec_hall.specs.{Dressed.{keyed}, Events.{bare}, Legal.{Legal}};
ghost use Rattle.spec_run.specs.Run.{IsEvident};

use crate::finding::{home_of, is_had};
use crate::moves::Move;
use mal_base::{Ask, CloseFault, Name, OpenFault, ReaskFault, ReplyFault, ReviseFault, Weight};
use mal_hall::Hall;
use mal_history::History;
use mal_revision::Revision;
use std::alloc::{AllocError, Global};
use std::marker::Model;

/// Two to eight halls of as many workers each, between which jobs move. Contracts see the events of the halls and the
/// moves; the type keeps that a job is in one hall at most, with all that it did before it came there, that each
/// history is legal, and that nothing is out.
#[derive(Drop)]
pub struct Cluster {
    pub(crate) workers: u32,
    pub(crate) halls: Vec<Hall>,
    pub(crate) moves: Vec<Move>,
}

impl Model for Cluster {
    ghost use Rattle.mal_cluster.specs.Kept.{IsKept, cluster_of};
    ghost use Rattle.spec_cluster.specs.Clusters as spec;

    ghost Value = { spec.Cluster };

    ghost view = { λ c. cluster_of c.workers c.halls.items c.moves.items };

    ghost invariant = { λ c. IsKept c.workers c.halls.items c.moves.items };
}

impl Cluster {
    /// The cluster of 2 to 8 halls of 1 to 64 workers each, without a job.
    pub fn new(alloc: Global, halls: u32, workers: u32) -> Result<Cluster, AllocError>
        requires few { 2 ≤ halls }
        requires bound { halls ≤ 8 }
        requires some { 1 ≤ workers }
        requires most { workers ≤ 64 }
        ensures { IfOk result (λ c. c ≡ new_cluster halls workers) }
    {
        Ok(Cluster {
            workers,
            halls: new_halls(alloc, halls, workers)?,
            moves: Vec::new(alloc),
        })
    }

    /// The cluster of these halls of so many workers each, between which no job has moved yet.
    pub fn of(alloc: Global, halls: Vec<Hall>, workers: u32) -> Cluster
        requires { IsKept workers halls.items [] }
        ensures { result ≡ cluster_of workers halls.items [] }
    {
        Cluster {
            workers,
            halls,
            moves: Vec::new(alloc),
        }
    }

    /// The halls.
    pub fn into_halls(self) -> Vec<Hall>
        ensures histories { histories result.items ≡ self.halls }
        ensures workers { All (λ h. h.workers ≡ self.workers) result.items }
    {
        self.halls
    }

    /// How many halls there are.
    pub fn hall_count(&self) -> usize
        ensures { result ≡ length self.now.halls }
    {
        self.halls.len()
    }

    /// Opens a job in the hall of a number, counted from 1. No hall ever had one of its name; after a refusal the
    /// cluster is as before.
    pub fn open_job(
        &mut self,
        hall: u32,
        tenant: Name,
        job: Name,
        ask: Ask,
    ) -> Result<(), OpenFault>
        requires low { 1 ≤ hall }
        requires high { hall ≤ length self.old.halls }
        ensures { IsOpening self.old (hall - 1) (keyed tenant job) ask result self.new }
    {
        if is_had(&self.halls, &tenant, &job) {
            return Err(OpenFault::Duplicate);
        }
        self.halls[hall as usize - 1].open_job(tenant, job, ask)
    }

    /// Posts the next revision of a job in the hall that has it. After a refusal the cluster is as before.
    pub fn revise_job(
        &mut self,
        tenant: &Name,
        job: &Name,
        revision: Revision,
    ) -> Result<(), ReviseFault>
        ensures { IsRevising self.old (keyed tenant.now job.now) revision result self.new }
    {
        match home_of(&self.halls, tenant, job) {
            None => Err(ReviseFault::NoJob),
            Some(at) => self.halls[at].revise_job(tenant, job, revision),
        }
    }

    /// Changes a job's ask in the hall that has it. After a refusal the cluster is as before.
    pub fn reask_job(&mut self, tenant: &Name, job: &Name, weight: Weight) -> Result<(), ReaskFault>
        ensures { IsReasking self.old (keyed tenant.now job.now) weight result self.new }
    {
        match home_of(&self.halls, tenant, job) {
            None => Err(ReaskFault::NoJob),
            Some(at) => self.halls[at].reask_job(tenant, job, weight),
        }
    }

    /// Closes a job in the hall that has it. Takes no memory; after a refusal the cluster is as before.
    pub fn close_job(&mut self, tenant: &Name, job: &Name) -> Result<(), CloseFault>
        ensures { IsClosing self.old (keyed tenant.now job.now) result self.new }
    {
        match home_of(&self.halls, tenant, job) {
            None => Err(CloseFault::NoJob),
            Some(at) => self.halls[at].close_job(tenant, job),
        }
    }

    /// The reply to a revision of a job, numbered from 1: None exactly where it is not answered. It is that of the
    /// job's machine, run alone on all that the job did in the halls in which it stayed. What it tells is evidence: a
    /// model, a proof from the job's clauses alone, or an account of why neither was found.
    pub fn reply(&self, tenant: &Name, job: &Name, r: u32) -> Result<Option<Vec<u8>>, ReplyFault>
        ensures reply { IsReply self.now (keyed tenant.now job.now) r (replied result) }
        ensures evident { IsEvident (all_of (keyed tenant.now job.now) self.now.halls self.now.moves) }
    {
        match home_of(&self.halls, tenant, job) {
            None => Err(ReplyFault::NoJob),
            Some(at) => self.halls[at].reply(tenant, job, r),
        }
    }

    /// The history of the hall of a number, counted from 1.
    pub fn history(&self, hall: u32) -> &History
        requires low { 1 ≤ hall }
        requires high { hall ≤ length self.now.halls }
        ensures workers { result.now.workers ≡ self.now.workers }
        ensures events { result.now.events ≡ map bare (hall_at self.now.halls (hall - 1)) }
        ensures legal { Legal self.now.workers (hall_at self.now.halls (hall - 1)) }
    {
        self.halls[hall as usize - 1].history()
    }
}

/// So many halls without a job.
fn new_halls(alloc: Global, halls: u32, workers: u32) -> Result<Vec<Hall>, AllocError>
    requires some { 1 ≤ workers }
    requires most { workers ≤ 64 }
    ensures each { IfOk result (λ v. All (λ h. h.workers ≡ workers) v.items) }
    ensures events { IfOk result (λ v. histories v.items ≡ replicate halls []) }
{
    let mut made = Vec::new(alloc);
    for _ in 0..halls {
        let hall = Hall::new(alloc, workers)?;
        made.push(hall)?;
    }
    Ok(made)
}
