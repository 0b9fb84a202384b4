//! A job that goes from one hall of a cluster to another.

ghost use Rattle.std.specs.Prelude.{◌≡◌, length, OnErr, OnOk};
ghost use Rattle.mal_base.specs.declared.hall_fault.AdmitFault.TheVariants as admitting;
ghost use Rattle.mal_cluster.specs.{Kept.{histories}, Moving.{HasHanded, IsPlaced, MayHand, SameWorkers, refusal_of}};
ghost use Rattle.spec_cluster.specs.Calls.{IsMoving};
ghost use Rattle.spec_hall.specs.Dressed.{keyed};

use crate::cluster::Cluster;
use crate::finding::home_of;
use crate::moves::Move;
use mal_base::{AdmitFault, Name, PackFault};
use mal_hall::Hall;
use spec_cluster::MoveFault;
use std::alloc::AllocError;

impl Cluster {
    /// Moves a job to the hall of a number, counted from 1: it leaves the hall that has it, and arrives there with all
    /// that it did. After a refusal the cluster is as before.
    pub fn move_job(&mut self, tenant: &Name, job: &Name, to: u32) -> Result<(), MoveFault>
        ensures { IsMoving self.old (keyed tenant.now job.now) to result self.new }
    {
        let Some(from) = home_of(&self.halls, tenant, job) else {
            return Err(MoveFault::NoJob);
        };
        let at = place_of(&self.halls, from, to)?;
        match self.halls[at].admission(tenant, job) {
            Ok(()) => {}
            Err(fault) => return Err(refusal(fault)),
        }
        match self.moves.reserve(1) {
            Ok(()) => {}
            Err(_) => return Err(MoveFault::OutOfMemory),
        }
        match hand_over(&mut self.halls, tenant, job, from, at) {
            Ok(()) => {}
            Err(_) => return Err(MoveFault::OutOfMemory),
        }
        self.moves.push_reserved(Move {
            tenant: *tenant,
            job: *job,
            hall: at,
            from: events_in(&self.halls[at]),
        });
        Ok(())
    }
}

/// The place of the hall of a number, counted from 1, for a job that is in the hall at another place.
fn place_of(halls: &[Hall], from: usize, to: u32) -> Result<usize, MoveFault>
    ensures { IsPlaced (length halls.now) from to result }
{
    if to == 0 || to as usize > halls.len() {
        return Err(MoveFault::NoHall);
    }
    let at = to as usize - 1;
    if at == from {
        return Err(MoveFault::Same);
    }
    Ok(at)
}

/// The refusal of a move where a hall has no room for the job.
fn refusal(fault: AdmitFault) -> MoveFault
    ensures { result ≡ refusal_of fault }
{
    match fault {
        AdmitFault::Present => MoveFault::Same,
        AdmitFault::TenantFull => MoveFault::TenantFull,
        AdmitFault::HallFull => MoveFault::HallFull,
        AdmitFault::OutOfMemory => MoveFault::OutOfMemory,
    }
}

/// Hands a job over from the hall at one place to that at another, which has room for it: it is packed here, admitted
/// there, and leaves. In between both halls have it. If memory runs out, neither hall has changed.
fn hand_over(
    halls: &mut Vec<Hall>,
    tenant: &Name,
    job: &Name,
    from: usize,
    to: usize,
) -> Result<(), AllocError>
    requires { MayHand halls.old.items (keyed tenant.now job.now) from to }
    ensures workers { SameWorkers halls.old.items halls.new.items }
    ensures went { OnOk result (HasHanded halls.old.items (keyed tenant.now job.now) from to halls.new.items) }
    ensures kept { OnErr result (histories halls.new.items ≡ histories halls.old.items) }
{
    let parcel = match halls[from].pack_job(tenant, job) {
        Ok(parcel) => parcel,
        Err(PackFault::NoJob) => unreachable!(),
        Err(PackFault::Out { .. }) => unreachable!(),
        Err(PackFault::OutOfMemory) => return Err(AllocError),
    };
    match halls[to].admit_job(parcel) {
        Ok(()) => {}
        Err((parcel, fault)) => {
            drop(parcel);
            return wanting(fault);
        }
    }
    halls[from].leave_job(tenant, job);
    Ok(())
}

/// Memory ran out where a hall did not admit a job that it has room for.
fn wanting(fault: AdmitFault) -> Result<(), AllocError>
    requires { fault ≡ admitting.OutOfMemory }
    ensures { OnOk result ⊥ }
{
    match fault {
        AdmitFault::Present => unreachable!(),
        AdmitFault::TenantFull => unreachable!(),
        AdmitFault::HallFull => unreachable!(),
        AdmitFault::OutOfMemory => Err(AllocError),
    }
}

/// How many events a hall has.
fn events_in(hall: &Hall) -> usize
    ensures { result ≡ length hall.now.events }
{
    hall.history().events().len()
}
