//! Why a text is no feed.

use mal_base::LineFault;
use thiserror::Error;

/// What is wrong with a line of a feed, or with its end.
#[derive(Clone, Copy, Debug, PartialEq, Eq, Error, Drop)]
pub enum FeedFault {
    /// The line is wrong as one of a script is.
    #[error(transparent)]
    Line { fault: LineFault },
    /// The line has more than 2^26 bytes.
    #[error("line too long")]
    TooLong,
}
