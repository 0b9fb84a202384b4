//! Why a text that comes in pieces is no feed.

ghost use Rattle.mal_feed.specs.Coming.{RefusedAt};

use mal_script::LineRefusal;
use spec_feed::FeedFault;
use thiserror::Error;

/// Why a text that comes in pieces is no feed: its first fault with its line, counted from 1, or out of memory.
#[derive(Clone, Copy, Debug, PartialEq, Eq, Drop, Error)]
pub enum FeedError {
    /// This line has this fault, and no line before it has one. A text that ends inside a block is told with its last
    /// line.
    #[error("line {line}: {fault}")]
    Line { line: u64, fault: FeedFault },
    /// Memory ran out.
    #[error("out of memory")]
    OutOfMemory,
}

/// The refusal of this line as that of the text.
pub(crate) fn refused(line: u64, refusal: LineRefusal) -> FeedError
    ensures { RefusedAt line refusal result }
{
    match refusal {
        LineRefusal::Fault(fault) => FeedError::Line {
            line,
            fault: FeedFault::Line { fault },
        },
        LineRefusal::OutOfMemory => FeedError::OutOfMemory,
    }
}
