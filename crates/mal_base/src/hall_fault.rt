//! Why a hall refuses a call.

use crate::LimitKind;
use thiserror::Error;

/// Why a job is not opened.
#[derive(Clone, Copy, Debug, PartialEq, Eq, Drop, Error)]
pub enum OpenFault {
    #[error("the tenant has a job of this name")]
    Duplicate,
    #[error("the tenant has 64 jobs")]
    TenantFull,
    // No number of jobs is too many by itself: a tenant's 65th job is TenantFull before.
    #[error("the hall has 64 tenants")]
    HallFull,
    #[error("out of memory")]
    OutOfMemory,
}

/// Why a revision is not posted.
#[derive(Clone, Copy, Debug, PartialEq, Eq, Drop, Error)]
pub enum ReviseFault {
    #[error("no such job")]
    NoJob,
    #[error("the job is closed")]
    Closed,
    #[error("the job has 256 revisions")]
    RevisionsFull,
    #[error("more {which:?} than a job may have")]
    JobFull { which: LimitKind },
    #[error("out of memory")]
    OutOfMemory,
}

/// Why a job's ask is not changed.
#[derive(Clone, Copy, Debug, PartialEq, Eq, Drop, Error)]
pub enum ReaskFault {
    #[error("no such job")]
    NoJob,
    #[error("the job is closed")]
    Closed,
    #[error("out of memory")]
    OutOfMemory,
}

/// Why a job is not closed.
#[derive(Clone, Copy, Debug, PartialEq, Eq, Drop, Error)]
pub enum CloseFault {
    #[error("no such job")]
    NoJob,
    #[error("the job is closed")]
    Closed,
}

/// Why there is no answer about a revision.
#[derive(Clone, Copy, Debug, PartialEq, Eq, Drop, Error)]
pub enum ReplyFault {
    #[error("no such job")]
    NoJob,
    #[error("out of memory")]
    OutOfMemory,
}

/// Why a worker gets no answer to a pick.
#[derive(Clone, Copy, Debug, PartialEq, Eq, Drop, Error)]
pub enum PickFault {
    #[error("the worker has a lease")]
    Busy,
    #[error("out of memory")]
    OutOfMemory,
}

/// Why an event of a history is not entered.
#[derive(Clone, Copy, Debug, PartialEq, Eq, Drop, Error)]
pub enum ApplyFault {
    #[error("the event is not allowed")]
    NotAllowed,
    #[error("out of memory")]
    OutOfMemory,
}

/// Why a job is not packed.
#[derive(Clone, Copy, Debug, PartialEq, Eq, Drop, Error)]
pub enum PackFault {
    #[error("no such job")]
    NoJob,
    #[error("node {index} is out")]
    Out { index: u32 },
    #[error("out of memory")]
    OutOfMemory,
}

/// Why a job is not admitted.
#[derive(Clone, Copy, Debug, PartialEq, Eq, Drop, Error)]
pub enum AdmitFault {
    #[error("the hall has the job")]
    Present,
    #[error("the tenant has 64 jobs")]
    TenantFull,
    #[error("the hall has 64 tenants")]
    HallFull,
    #[error("out of memory")]
    OutOfMemory,
}
