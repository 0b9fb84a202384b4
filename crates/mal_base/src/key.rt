//! The keys of jobs.

use crate::name::Name;

/// What a job is known by: its tenant's name and its own. Keys are ordered by tenant. Contracts see the bytes of both.
#[derive(Clone, Copy, Debug, PartialEq, Eq, PartialOrd, Ord)]
pub struct Key {
    pub tenant: Name,
    pub job: Name,
}
