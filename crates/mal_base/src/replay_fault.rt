//! Why a history is not replayed.

use thiserror::Error;

/// Why there are no replies to a history. Lines are numbered from 1.
#[derive(Clone, Copy, Debug, PartialEq, Eq, Drop, Error)]
pub enum ReplayFault {
    #[error("the event on line {line} is not allowed")]
    NotLegal { line: u64 },
    #[error("the history is not complete for the script")]
    NotComplete,
    #[error("out of memory")]
    OutOfMemory,
}
