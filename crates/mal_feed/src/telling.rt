//! The lines that tell why a text is no feed.

ghost use Rattle.std.specs.Prelude.{◌≡◌, ◌∷◌, [], codes, IfOk, MatchOption};
ghost use Rattle.spec_script.specs.FaultLines.{part_line};
ghost use Rattle.spec_feed.specs.FaultLines.{feed_words};
ghost use Rattle.mal_feed.specs.{Telling.{Tells}, declared.fault.FeedError.TheVariants.{OutOfMemory}};

use crate::fault::FeedError;
use itoa::Buffer;
use mal_script::line_fault_line;
use mal_text::put_line;
use spec_feed::FeedFault;
use std::alloc::{AllocError, Global};

/// The line `fault: feed line L` and the fault's words, as `BadLine` or `TooLong`, with its line end. None exactly when
/// out of memory.
pub fn fault_line(alloc: Global, fault: FeedError) -> Result<Option<Vec<u8>>, AllocError>
    ensures { IfOk result (λ o. MatchOption o (fault ≡ OutOfMemory) (λ text. Tells fault text.items)) }
{
    match fault {
        FeedError::Line { line, fault } => in_feed(alloc, line, fault),
        FeedError::OutOfMemory => Ok(None),
    }
}

/// The line that tells a fault of a line of a feed.
fn in_feed(alloc: Global, line: u64, fault: FeedFault) -> Result<Option<Vec<u8>>, AllocError>
    ensures { IfOk result
        (λ o. MatchOption o ⊥ (λ text. text.items ≡ part_line (codes "feed") line (feed_words fault))) }
{
    match fault {
        FeedFault::Line { fault } => Ok(Some(line_fault_line(alloc, b"feed", line, fault)?)),
        FeedFault::TooLong => Ok(Some(too_long_line(alloc, line)?)),
    }
}

/// The line that tells that a line is too long.
fn too_long_line(alloc: Global, line: u64) -> Result<Vec<u8>, AllocError>
    ensures { IfOk result (λ text. text.items ≡ part_line (codes "feed") line (codes "TooLong" ∷ [])) }
{
    let mut text = Vec::new(alloc);
    text.extend_from_slice(b"fault: feed line ")?;
    put_line(
        &mut text,
        Buffer::new().format(line).as_bytes(),
        &[b"TooLong".as_slice()],
    )?;
    Ok(text)
}
