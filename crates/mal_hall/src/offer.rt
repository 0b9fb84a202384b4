//! What a hall answers to a pick, and to what came of a lease.

use mal_base::PickFault;
use mal_suspend::{Done, Lease};

/// What a worker gets: a lease, nothing now, or nothing any more.
#[derive(Drop)]
pub enum Pick {
    Leased(Lease),
    Idle,
    AllDone,
}

/// What came of a lease was taken back.
#[derive(Clone, Copy, Debug, PartialEq, Eq, Drop)]
pub struct Back;

/// What came back is not of the lease that its worker has out, the start of this number; it is handed back.
#[derive(Drop)]
pub struct Strange {
    pub kept: Option<u64>,
    pub back: Done,
}

/// The answer to a pick.
pub type PickAnswer = Result<Pick, PickFault>;

/// The answer to what came of a lease.
pub type FinishAnswer = Result<Back, Strange>;
