//! Plays: calls of a hall, one after another, with their answers.

use crate::tests::calling::{
    Key, P, Told, drive, given, hear, open, pick, revise, unrun, worked_off, write,
};
use crate::tests::making::{Posted, ask, name, numbered};
use mal_base::{Ask, Profile, Weight};
use mal_hall::Hall;
use mal_learn::Scratch;
use mal_suspend::Done;
use std::alloc::Global;

/// A call of a hall.
#[derive(Clone, Copy)]
pub(crate) enum Call<'a> {
    /// Opens a job of demand 1 with 4 slices.
    Open(Key<'a>),
    /// Opens the job p of tenant a with this demand, so many slices and this profile, posts a revision of so many
    /// variables, and closes the job.
    OneJob(i64, i64, Profile, u32),
    /// Opens the job p of tenant a with this demand, so many slices and this profile.
    OpenFor(i64, i64, Profile),
    /// Opens a job with this priority and this demand, and 4 slices, and posts a revision without variables.
    OpenAt(Key<'a>, i64, i64),
    /// Opens so many jobs of tenant a.
    OpenJobs(u8),
    /// Opens a job of each of so many tenants.
    OpenTenants(u8),
    Revise(Key<'a>, Posted<'a>),
    /// Posts so many revisions of the job p of tenant a.
    ReviseOften(u32),
    /// Gives a job this priority and this demand.
    Reask(Key<'a>, i64, i64),
    Close(Key<'a>),
    /// A worker picks.
    Pick(u32),
    /// A worker picks and works its lease off. What came of it is kept, after what was kept before.
    Work(u32),
    /// A worker picks, and the start of its lease runs out of memory. What came of it is kept too.
    Starve(u32),
    /// Worker 1 of another hall, which has `ONE_JOB` too, works its lease off. What came of it is kept too.
    WorkElsewhere,
    /// Gives back what was kept at a place.
    Give(usize),
    Recall,
    /// Drives the hall until nothing is left to do, and writes its history, which is to be this text.
    Drive(&'a [u8]),
    /// Asks for the reply to a revision, which is to be this text.
    Hear(Key<'a>, u32, &'a [u8]),
    /// Writes the history, which is to be this text.
    Write(&'a [u8]),
}

/// Opens jobs of tenant a. What the first that is refused is told, if one is.
fn open_jobs(alloc: Global, hall: &mut Hall, jobs: u8) -> Told {
    for n in 0..jobs {
        let told = open(alloc, hall, (b"a", &numbered(n)), ask(1, 4, Profile::Plain));
        if told != Told::Done {
            return told;
        }
    }
    Told::Done
}

/// Opens a job of each of so many tenants. What the first that is refused is told, if one is.
fn open_tenants(alloc: Global, hall: &mut Hall, tenants: u8) -> Told {
    for n in 0..tenants {
        let told = open(alloc, hall, (&numbered(n), b"p"), ask(1, 4, Profile::Plain));
        if told != Told::Done {
            return told;
        }
    }
    Told::Done
}

/// Posts revisions without variables. What the first that is refused is told, if one is.
fn revise_often(alloc: Global, hall: &mut Hall, times: u32) -> Told {
    for _ in 0..times {
        let told = revise(alloc, hall, P, Posted::Free(0));
        if told != Told::Done {
            return told;
        }
    }
    Told::Done
}

fn reask(alloc: Global, hall: &mut Hall, key: Key, weight: Option<Weight>) -> Told {
    let (Some(tenant), Some(job)) = (name(key.0), name(key.1)) else {
        return Told::Wanting;
    };
    let Some(weight) = weight else {
        return Told::Absent;
    };
    match hall.reask_job(&tenant, &job, weight) {
        Ok(()) => Told::Done,
        Err(fault) => Told::NotReasked(fault),
    }
}

/// Opens a job with this ask, and posts a revision without variables.
fn open_at(alloc: Global, hall: &mut Hall, key: Key, ask: Option<Ask>) -> Told {
    match open(alloc, hall, key, ask) {
        Told::Done => revise(alloc, hall, key, Posted::Free(0)),
        told => told,
    }
}

fn close(alloc: Global, hall: &mut Hall, key: Key) -> Told {
    let (Some(tenant), Some(job)) = (name(key.0), name(key.1)) else {
        return Told::Wanting;
    };
    match hall.close_job(&tenant, &job) {
        Ok(()) => Told::Done,
        Err(fault) => Told::NotClosed(fault),
    }
}

/// Opens the job p of tenant a, posts a revision of so many variables, and closes the job. What the first call is told
/// that is refused, if one is.
fn one_job(alloc: Global, hall: &mut Hall, ask: Option<Ask>, variables: u32) -> Told {
    let opened = open(alloc, hall, P, ask);
    if opened != Told::Done {
        return opened;
    }
    let posted = revise(alloc, hall, P, Posted::Free(variables));
    if posted != Told::Done {
        return posted;
    }
    close(alloc, hall, P)
}

/// What a worker is told that picks.
fn picked(hall: &mut Hall, worker: u32) -> Told {
    match pick(hall, worker) {
        Ok(lease) => {
            drop(lease);
            Told::Leased
        }
        Err(told) => told,
    }
}

/// Keeps what came of a lease.
fn keep(kept: &mut Vec<Done>, done: Done) -> Told {
    match kept.push(done) {
        Ok(()) => Told::Done,
        Err(refused) => {
            drop(refused);
            Told::Wanting
        }
    }
}

fn work(alloc: Global, hall: &mut Hall, worker: u32, kept: &mut Vec<Done>) -> Told {
    match pick(hall, worker) {
        Ok(lease) => keep(kept, worked_off(alloc, lease)),
        Err(told) => told,
    }
}

fn starve(hall: &mut Hall, worker: u32, kept: &mut Vec<Done>) -> Told {
    match pick(hall, worker) {
        Ok(lease) => keep(kept, unrun(lease)),
        Err(told) => told,
    }
}

/// Has worker 1 of another hall with one job work.
fn work_elsewhere(alloc: Global, kept: &mut Vec<Done>) -> Told {
    match Hall::new(alloc, 1) {
        Ok(hall) => {
            let mut hall = hall;
            let told = work_in(alloc, &mut hall, kept);
            drop(hall);
            told
        }
        Err(_) => Told::Wanting,
    }
}

/// Has worker 1 of a hall work that has no job yet.
fn work_in(alloc: Global, hall: &mut Hall, kept: &mut Vec<Done>) -> Told {
    match one_job(alloc, hall, ask(1, 4, Profile::Plain), 0) {
        Told::Done => work(alloc, hall, 1, kept),
        told => told,
    }
}

fn give(hall: &mut Hall, kept: &mut Vec<Done>, place: usize) -> Told {
    if place >= kept.len() {
        return Told::Absent;
    }
    given(hall.finish(kept.remove(place)))
}

fn recall(hall: &mut Hall) -> Told {
    hall.recall();
    Told::Done
}

/// Drives a hall. Its history is to be this text then.
fn drive_to(alloc: Global, hall: &mut Hall, known: &[u8]) -> Told {
    match drive(alloc, hall) {
        Told::Done => write(alloc, hall, known),
        told => told,
    }
}

/// What a hall answers to a call.
fn answer(alloc: Global, hall: &mut Hall, kept: &mut Vec<Done>, call: Call) -> Told {
    match call {
        Call::Open(key) => open(alloc, hall, key, ask(1, 4, Profile::Plain)),
        Call::OneJob(demand, slices, profile, variables) => {
            one_job(alloc, hall, ask(demand, slices, profile), variables)
        }
        Call::OpenFor(demand, slices, profile) => {
            open(alloc, hall, P, ask(demand, slices, profile))
        }
        Call::OpenAt(key, priority, demand) => {
            open_at(alloc, hall, key, Ask::of(priority, demand, 4))
        }
        Call::OpenJobs(jobs) => open_jobs(alloc, hall, jobs),
        Call::OpenTenants(tenants) => open_tenants(alloc, hall, tenants),
        Call::Revise(key, posted) => revise(alloc, hall, key, posted),
        Call::ReviseOften(times) => revise_often(alloc, hall, times),
        Call::Reask(key, priority, demand) => {
            reask(alloc, hall, key, Weight::of(priority, demand))
        }
        Call::Close(key) => close(alloc, hall, key),
        Call::Pick(worker) => picked(hall, worker),
        Call::Work(worker) => work(alloc, hall, worker, kept),
        Call::Starve(worker) => starve(hall, worker, kept),
        Call::WorkElsewhere => work_elsewhere(alloc, kept),
        Call::Give(place) => give(hall, kept, place),
        Call::Recall => recall(hall),
        Call::Drive(known) => drive_to(alloc, hall, known),
        Call::Hear(key, r, known) => hear(alloc, hall, key, r, known),
        Call::Write(known) => write(alloc, hall, known),
    }
}

/// How many calls a hall answers as it is known, from the first on.
fn answered(alloc: Global, hall: &mut Hall, calls: &[(Call, Told)]) -> usize {
    let mut kept = Vec::new(alloc);
    let count = answered_with(alloc, hall, &mut kept, calls);
    drop(kept);
    count
}

/// The same, where this is kept.
fn answered_with(
    alloc: Global,
    hall: &mut Hall,
    kept: &mut Vec<Done>,
    calls: &[(Call, Told)],
) -> usize {
    for at in 0..calls.len() {
        let (call, told) = calls[at];
        if answer(alloc, hall, kept, call) != told {
            return at;
        }
    }
    calls.len()
}

/// How many calls a hall of so many workers answers as it is known, from the first on.
pub(crate) fn tried(alloc: Global, workers: u32, calls: &[(Call, Told)]) -> usize {
    if workers < 1 || 64 < workers {
        return 0;
    }
    match Hall::new(alloc, workers) {
        Ok(hall) => {
            let mut hall = hall;
            let count = answered(alloc, &mut hall, calls);
            drop(hall);
            count
        }
        Err(_) => 0,
    }
}

/// Calls with their answers.
pub(crate) type Play = &'static [(Call<'static>, Told)];
