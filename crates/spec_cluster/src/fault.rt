//! Why a job does not go to another hall.

ghost use Rattle.std.specs.Prelude.{◌≡◌};
ghost use Rattle.spec_cluster.specs.declared.fault.MoveFault.TheVariants.{OutOfMemory};

use std::alloc::AllocError;
use thiserror::Error;

/// Why a job does not go to another hall.
#[derive(Clone, Copy, Debug, PartialEq, Eq, Drop, Error)]
pub enum MoveFault {
    #[error("no such job")]
    NoJob,
    #[error("no such hall")]
    NoHall,
    #[error("the job is in this hall")]
    Same,
    #[error("the tenant has 64 jobs there")]
    TenantFull,
    #[error("the hall has 64 tenants")]
    HallFull,
    #[error("out of memory")]
    OutOfMemory,
}

impl From<AllocError> for MoveFault {
    ghost from_gives = { λ _ e. e ≡ OutOfMemory };

    fn from(_error: AllocError) -> MoveFault {
        MoveFault::OutOfMemory
    }
}
