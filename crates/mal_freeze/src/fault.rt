//! Why bytes are no image.

ghost use Rattle.std.specs.Prelude.{◌≡◌};
ghost use Rattle.mal_freeze.specs.declared.fault.ThawFault.TheVariants.{OutOfMemory};

use std::alloc::AllocError;
use thiserror::Error;

/// Why bytes are no image: the first fault from front to back.
#[derive(Clone, Copy, Debug, PartialEq, Eq, Drop, Error)]
pub enum ThawFault {
    /// The first 8 bytes are not those of an image.
    #[error("bad magic")]
    BadMagic,
    /// The bytes end before the next field does.
    #[error("truncated")]
    Truncated,
    /// The number that begins at this place is out of its range.
    #[error("bad field at {place}")]
    BadField { place: usize },
    /// All fields were read, and bytes are left over, or the fields are in no order.
    #[error("not canonical")]
    NotCanonical,
    #[error("out of memory")]
    OutOfMemory,
}

impl From<AllocError> for ThawFault {
    ghost from_gives = { λ _ e. e ≡ OutOfMemory };

    fn from(_error: AllocError) -> ThawFault {
        ThawFault::OutOfMemory
    }
}
