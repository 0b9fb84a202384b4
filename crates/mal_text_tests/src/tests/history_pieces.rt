//! The text of a history that is handed to a sink piece by piece.

use super::values::name;
use mal_history::{Event, History, write, write_to};
use mal_io::MemSink;
use std::alloc::Global;

/// Enters a thousand events of 34 bytes.
fn enter_all(history: &mut History, alloc: Global) -> Option<()> {
    let tenant = name(b"abcdefghijklmno")?;
    let job = name(b"pqrstuvwxyzabcd")?;
    for _ in 0..1000 {
        history.reserve(1).ok()?;
        history.push_reserved(Event::Exchange { tenant, job });
    }
    Some(())
}

/// Whether a history is taken whole by a sink whose calls of these numbers fail, how many bytes the sink got, and whether
/// they are the first of a text.
fn sunk(
    alloc: Global,
    history: &History,
    text: &[u8],
    failing: &[u64],
) -> Option<(bool, usize, bool)> {
    let mut sink = MemSink::new(alloc, 40_000, 40_000, failing).ok()?;
    let is_whole = write_to(&mut sink, history).is_ok();
    let kept = sink.bytes();
    Some((is_whole, kept.len(), text.starts_with(kept)))
}

/// Whether a history of this text is taken whole by a sink whose fourth call fails, and by its first piece alone where the
/// second fails.
fn are_cut(alloc: Global, history: &History, text: &[u8]) -> Option<[bool; 2]> {
    let whole = sunk(alloc, history, text, &[4])?;
    let (is_whole, kept, is_front) = sunk(alloc, history, text, &[2])?;
    Some([
        whole == (true, text.len(), true),
        !is_whole && 16_300 < kept && kept <= 16_384 && is_front,
    ])
}

/// The same of a history with a thousand events more.
fn is_cut(history: &mut History, alloc: Global) -> Option<[bool; 2]> {
    enter_all(history, alloc)?;
    let text = write(alloc, history).ok()?;
    are_cut(alloc, history, text.as_slice())
}

#[test]
fn a_long_history_is_written_in_pieces(rt: HostRuntime) {
    let mut history = History::new(rt.alloc(), 1);
    assert!(rt; is_cut(&mut history, rt.alloc()) == Some([true; 2]));
}
