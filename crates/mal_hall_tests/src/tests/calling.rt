//! Calls of a hall, and what they are told. What owns much is handed to `drop`, each time where it is no longer needed, and
//! nothing that may fail stands before that: letting go of it by the way would be proved field by field.

use super::making::{Posted, name, revision};
use mal_base::Ask;
use mal_hall::{
    Back, CloseFault, Hall, OpenFault, Pick, PickFault, ReaskFault, ReplyFault, ReviseFault,
    Strange,
};
use mal_learn::Scratch;
use mal_suspend::{Done, Lease};
use std::alloc::{AllocError, Global};

/// The names of a tenant and of its job.
pub(crate) type Key<'a> = (&'a [u8], &'a [u8]);

/// The job p of tenant a.
pub(crate) const P: Key = (b"a", b"p");

/// The reply to a revision without variables.
pub(crate) const FREE_REPLY: &[u8] = b"r a p 1\ns SATISFIABLE\nv 0\n";

/// What a call is answered.
#[derive(Clone, Copy, PartialEq, Eq)]
pub(crate) enum Told {
    Done,
    NotOpened(OpenFault),
    NotPosted(ReviseFault),
    NotReasked(ReaskFault),
    NotClosed(CloseFault),
    Leased,
    Idle,
    AllDone,
    NotPicked(PickFault),
    Strange(Option<u64>),
    NoReply,
    NotHeard(ReplyFault),
    /// Another text.
    Other,
    /// There is no such worker, or nothing is kept at that place.
    Absent,
    /// Memory ran out for what the call takes.
    Wanting,
}

pub(crate) fn open(alloc: Global, hall: &mut Hall, key: Key, ask: Option<Ask>) -> Told {
    let (Some(tenant), Some(job), Some(ask)) = (name(key.0), name(key.1), ask) else {
        return Told::Wanting;
    };
    match hall.open_job(tenant, job, ask) {
        Ok(()) => Told::Done,
        Err(fault) => Told::NotOpened(fault),
    }
}

pub(crate) fn revise(alloc: Global, hall: &mut Hall, key: Key, posted: Posted) -> Told {
    let (Some(tenant), Some(job)) = (name(key.0), name(key.1)) else {
        return Told::Wanting;
    };
    let Some(revision) = revision(alloc, posted) else {
        return Told::Wanting;
    };
    match hall.revise_job(&tenant, &job, revision) {
        Ok(()) => Told::Done,
        Err(fault) => Told::NotPosted(fault),
    }
}

/// What a worker is told that picks, or the lease that it gets.
pub(crate) fn pick(hall: &mut Hall, worker: u32) -> Result<Lease, Told> {
    if worker < 1 || hall.history().workers() < worker {
        return Err(Told::Absent);
    }
    match hall.pick(worker) {
        Ok(Pick::Leased(lease)) => Ok(lease),
        Ok(Pick::Idle) => Err(Told::Idle),
        Ok(Pick::AllDone) => Err(Told::AllDone),
        Err(fault) => Err(Told::NotPicked(fault)),
    }
}

/// What comes of a lease that is worked off.
pub(crate) fn worked_off(alloc: Global, lease: Lease) -> Done {
    let mut scratch = Scratch::new(alloc);
    let done = lease.work(&mut scratch);
    drop(scratch);
    done
}

/// What comes of a lease for which memory ran out.
pub(crate) fn unrun(lease: Lease) -> Done {
    let worker = lease.worker();
    Done::starved(worker, lease.into_kept(), AllocError)
}

/// What is told to who gives a lease back.
pub(crate) fn given(answer: Result<Back, Strange>) -> Told {
    match answer {
        Ok(_) => Told::Done,
        Err(strange) => {
            let start = strange.kept;
            drop(strange);
            Told::Strange(start)
        }
    }
}

/// Drives a hall until nothing is left to do; what is out is lost first.
pub(crate) fn drive(alloc: Global, hall: &mut Hall) -> Told {
    hall.recall();
    let mut scratch = Scratch::new(alloc);
    let driven = hall.drive(&mut scratch);
    drop(scratch);
    match driven {
        Ok(()) => Told::Done,
        Err(_) => Told::Wanting,
    }
}

/// What is told to who asks for a reply, which is to be this text.
pub(crate) fn heard(answer: Result<Option<Vec<u8>>, ReplyFault>, known: &[u8]) -> Told {
    match answer {
        Ok(Some(text)) => compared(text, known),
        Ok(None) => Told::NoReply,
        Err(fault) => Told::NotHeard(fault),
    }
}

/// What is told of a text, which is to be this one.
pub(crate) fn compared(text: Vec<u8>, known: &[u8]) -> Told {
    let is_known = text.as_slice() == known;
    drop(text);
    if is_known { Told::Done } else { Told::Other }
}

pub(crate) fn hear(alloc: Global, hall: &Hall, key: Key, r: u32, known: &[u8]) -> Told {
    let (Some(tenant), Some(job)) = (name(key.0), name(key.1)) else {
        return Told::Wanting;
    };
    heard(hall.reply(&tenant, &job, r), known)
}

pub(crate) fn write(alloc: Global, hall: &Hall, known: &[u8]) -> Told {
    match mal_history::write(alloc, hall.history()) {
        Ok(text) => compared(text, known),
        Err(_) => Told::Wanting,
    }
}
