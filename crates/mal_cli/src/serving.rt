//! Serving a feed as it comes.

ghost use Rattle.std.specs.Prelude.{◌≡◌, ◌≤◌, IfSome};
ghost use Rattle.mal_answer.specs.Devices.{device};
ghost use Rattle.mal_cli.specs.Live.{HasServedLive, HasTold};
ghost use Rattle.spec_feed.specs.FaultLines.{fault_line};

use mal_answer::{DONE, OUT_OF_MEMORY, READ_FAULT, REFUSED, WRITE_FAULT, complain};
use mal_feed::{FeedError, FeedFault, fault_line};
use mal_io::{Sink, Source};
use mal_serve::{ServeEnd, serve};
use std::alloc::Global;
use std::sync::Wait;
use std::thread::Threads;

/// Serves the feed that `source` gives with 1 to 64 workers, and answers the status. After a fault its line is written to
/// the log, as far as the log takes it.
pub fn serve_feed<R: Threads + Wait + Sync, S: Source + Send, K: Sink + Send, L: Sink + Send>(
    rt: &R,
    alloc: Global,
    workers: u32,
    source: &mut S,
    out: &mut K,
    log: &mut L,
) -> u8
    requires some { 1 ≤ workers }
    requires bound { workers ≤ 64 }
    ensures served { HasServedLive workers (device S.left S.faults source.old source.new)
        (device L.got L.faults log.old log.new) (device K.got K.faults out.old out.new) result }
    ensures words { result ≡ 2 → ⊥ }
{
    match serve(rt, alloc, workers, source, out, log) {
        ServeEnd::AtEnd => DONE,
        ServeEnd::Fault { line, fault } => tell_fault(alloc, line, fault, log),
        ServeEnd::Failed => READ_FAULT,
        ServeEnd::Broken => WRITE_FAULT,
        ServeEnd::OutOfMemory => OUT_OF_MEMORY,
    }
}

/// Writes the line that tells the fault of a line of a feed, as far as the log takes it.
fn tell_fault<L: Sink>(alloc: Global, line: u64, fault: FeedFault, log: &mut L) -> u8
    ensures told { HasTold line fault (device L.got L.faults log.old log.new) result }
    ensures words { result ≡ 2 → ⊥ }
{
    match line_of(alloc, line, fault) {
        Some(text) => {
            complain(log, text.as_slice());
            REFUSED
        }
        None => OUT_OF_MEMORY,
    }
}

/// The line that tells the fault of a line of a feed. None where memory runs out.
fn line_of(alloc: Global, line: u64, fault: FeedFault) -> Option<Vec<u8>>
    ensures { IfSome result (λ text. text.items ≡ fault_line line fault) }
{
    match fault_line(alloc, FeedError::Line { line, fault }) {
        Ok(text) => text,
        Err(_) => None,
    }
}
