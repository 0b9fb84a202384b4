//! The own events of a job.

ghost use Rattle.std.specs.Prelude.{◌≡◌, ℕ, [], ◌∷◌, IfOk, OnOk};
ghost use Rattle.mal_history.specs.{Own.{is_of, is_own, other_step, own, own_event, own_step, told_of, tells, tells_volume, volume_in}, Shared.{shared}, declared.event.Event.TheVariants.{Arrive}};

use crate::event::{Event, Share, Shares};
use crate::history::History;
use mal_base::Name;
use std::alloc::{AllocError, Global};
use std::sync::Arc;

/// What a history tells of one job: its events without those of other jobs, each start and finish as of worker 1, and
/// of each balancing the job's volume (0 where it is not listed), only where it differs from the one before, which is 0
/// at first. A leave of the job tells volume 0, an arrival takes the place of all before it, since it stands for what it
/// brought.
pub fn own(
    alloc: Global,
    history: &History,
    tenant: &Name,
    job: &Name,
) -> Result<Vec<Event>, AllocError>
    ensures { IfOk result (λ events. events.items ≡ own tenant.now job.now history.now.events) }
{
    let mut own = Vec::new(alloc);
    let mut volume = 0;
    for event in history.events() {
        volume = tell(alloc, &mut own, volume, *tenant, *job, event)?;
    }
    Ok(own)
}

/// Puts what an event tells of the job after what is told of it so far. Answers the job's volume after the event.
#[tactic(auto, using(crate::proofs::OwnLemmas::own_told, crate::proofs::OwnLemmas::other_told))]
fn tell(
    alloc: Global,
    own: &mut Vec<Event>,
    volume: u32,
    tenant: Name,
    job: Name,
    event: &Event,
) -> Result<u32, AllocError>
    ensures { IfOk result
        (λ v. told_of own.new.items v ≡ own_step tenant job (told_of own.old.items volume) event.now) }
{
    match own_event(tenant, job, event) {
        Some(told) => {
            put(own, is_own(tenant, job, event), told)?;
            Ok(volume)
        }
        None => tell_other(alloc, own, volume, tenant, job, event),
    }
}

/// The event as one of this job, a start and a finish as of worker 1. None for a balancing and for a move.
fn own_event(tenant: Name, job: Name, event: &Event) -> Option<Event>
    ensures { result ≡ own_event tenant job event.now }
{
    let own = match event {
        Event::Open { ask, .. } => Event::Open {
            tenant,
            job,
            ask: *ask,
        },
        Event::Revise { number, .. } => Event::Revise {
            tenant,
            job,
            number: *number,
        },
        Event::Reask { weight, .. } => Event::Reask {
            tenant,
            job,
            weight: *weight,
        },
        Event::Close { .. } => Event::Close { tenant, job },
        Event::Start { index, .. } => Event::Start {
            tenant,
            job,
            index: *index,
            worker: 1,
        },
        Event::Finish { index, outcome, .. } => Event::Finish {
            tenant,
            job,
            index: *index,
            worker: 1,
            outcome: *outcome,
        },
        Event::Exchange { .. } => Event::Exchange { tenant, job },
        _ => return None,
    };
    Some(own)
}

/// Whether the event is one of this job. A balancing is of no one job.
fn is_own(tenant: Name, job: Name, event: &Event) -> bool
    ensures { result ≡ is_own tenant job event.now }
{
    let (t, j) = match event {
        Event::Open { tenant, job, .. } => (*tenant, *job),
        Event::Revise { tenant, job, .. } => (*tenant, *job),
        Event::Reask { tenant, job, .. } => (*tenant, *job),
        Event::Close { tenant, job } => (*tenant, *job),
        Event::Balance { .. } => return false,
        Event::Start { tenant, job, .. } => (*tenant, *job),
        Event::Finish { tenant, job, .. } => (*tenant, *job),
        Event::Exchange { tenant, job } => (*tenant, *job),
        Event::Leave { tenant, job } => (*tenant, *job),
        Event::Arrive { tenant, job } => (*tenant, *job),
    };
    is_of(tenant, job, t, j)
}

/// Puts what a balancing or a move tells of the job; another event tells nothing. Answers the job's volume after it.
fn tell_other(
    alloc: Global,
    own: &mut Vec<Event>,
    volume: u32,
    tenant: Name,
    job: Name,
    event: &Event,
) -> Result<u32, AllocError>
    ensures { IfOk result
        (λ v. told_of own.new.items v ≡ other_step tenant job (told_of own.old.items volume) event.now) }
{
    match event {
        Event::Balance { volumes } => {
            let now = volume_in(tenant, job, volumes.as_slice());
            return tell_volume(alloc, own, volume, tenant, job, now);
        }
        Event::Leave { tenant: t, job: j } => {
            if is_of(tenant, job, *t, *j) {
                return tell_volume(alloc, own, volume, tenant, job, 0);
            }
        }
        Event::Arrive { tenant: t, job: j } => {
            if is_of(tenant, job, *t, *j) {
                return tell_arrival(own, tenant, job);
            }
        }
        _ => {}
    }
    Ok(volume)
}

/// Puts an arrival in the place of all that is told of the job so far. Answers the job's volume after it.
fn tell_arrival(own: &mut Vec<Event>, tenant: Name, job: Name) -> Result<u32, AllocError>
    ensures { IfOk result (λ v. told_of own.new.items v ≡ told_of (Arrive tenant job ∷ []) 0) }
{
    own.clear();
    own.push(Event::Arrive { tenant, job })?;
    Ok(0)
}

/// Puts an event after those told so far, where it is one of the job.
fn put(own: &mut Vec<Event>, mine: bool, event: Event) -> Result<(), AllocError>
    ensures { (volume : ℕ)
        → OnOk result (told_of own.new.items volume ≡ tells mine event (told_of own.old.items volume)) }
{
    if mine {
        own.push(event)?;
    }
    Ok(())
}

/// Puts this volume of the job after what is told of it so far, where it differs from the one before. Answers it.
fn tell_volume(
    alloc: Global,
    own: &mut Vec<Event>,
    before: u32,
    tenant: Name,
    job: Name,
    volume: u32,
) -> Result<u32, AllocError>
    ensures { IfOk result
        (λ v. told_of own.new.items v ≡ tells_volume tenant job volume (told_of own.old.items before)) }
{
    if volume == before {
        return Ok(before);
    }
    let mut shares = Shares::new(alloc);
    shares.push(Share {
        tenant,
        job,
        volume,
    })?;
    own.push(Event::Balance { volumes: shares })?;
    Ok(volume)
}

/// The volume that a balancing gives the job, 0 where it is not listed.
fn volume_in(tenant: Name, job: Name, volumes: &[Arc<Share>]) -> u32
    ensures { result ≡ volume_in tenant job (shared volumes.now) }
{
    for share in volumes {
        if is_of(tenant, job, share.tenant, share.job) {
            return share.volume;
        }
    }
    0
}

/// Whether this job of a tenant is the one of these names.
fn is_of(tenant: Name, job: Name, t: Name, j: Name) -> bool
    ensures { result ≡ is_of tenant job t j }
{
    t == tenant && j == job
}
