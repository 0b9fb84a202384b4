//! Devices of known bytes, those that fail in mid-stream, and those over readers and writers.

ghost use Rattle.std.specs.Prelude.{◌≤◌, IfOk};

use mal_io::{
    MemSink, MemSource, ReadAllError, Sink, Source, StdSink, StdSource, read_all, write_all,
};
use std::alloc::Global;
use std::io::{self, Read, Write};

/// What a source has, how many bytes it gives a call, the calls of it that fail, how many bytes are read at most, and the
/// fault; where there is none the whole source is read. A fault in mid-stream, a byte a call, and as many bytes as the
/// limit and one more.
const READ: [(&[u8], usize, &[u64], u32, Option<ReadAllError>); 4] = [
    (
        b"sixteen bytes ok",
        4,
        &[3],
        100,
        Some(ReadAllError::ReadFault),
    ),
    (b"in pieces", 1, &[], 100, None),
    (b"12345", 4, &[], 5, None),
    (b"123456", 4, &[], 5, Some(ReadAllError::TooLong)),
];

/// Whether the bytes of a source are read, or else this fault is told.
fn is_read<S: Source>(
    alloc: Global,
    source: &mut S,
    bytes: &[u8],
    most: u32,
    known: Option<ReadAllError>,
) -> bool {
    match read_all(alloc, source, most) {
        Err(fault) => known == Some(fault),
        Ok(read) => known.is_none() && read.as_slice() == bytes,
    }
}

#[test]
fn a_source_is_read_whole_or_its_fault_is_told(rt: HostRuntime) {
    for (bytes, piece, failing, most, known) in &READ {
        let mut source = MemSource::new(bytes, (*piece).max(1), failing);
        assert!(rt; is_read(rt.alloc(), &mut source, bytes, *most, *known));
    }
}

/// How many bytes a sink has room for, the calls of it that fail, and how many bytes of nine it keeps; it takes four a
/// call.
const KEPT: [(usize, &[u64], usize); 3] = [(9, &[2], 4), (6, &[], 6), (9, &[], 9)];

/// How many bytes a sink keeps of these, where it keeps the first ones, and tells a fault exactly where bytes are lost.
fn kept_by(sink: &mut MemSink, bytes: &[u8]) -> Option<usize> {
    let is_whole = write_all(sink, bytes).is_ok();
    let kept = sink.bytes();
    if !bytes.starts_with(kept) || is_whole != (kept.len() == bytes.len()) {
        return None;
    }
    Some(kept.len())
}

/// How many bytes a sink of this room keeps of these bytes, where these calls of it fail.
fn kept_of(alloc: Global, room: usize, failing: &[u64], bytes: &[u8]) -> Option<usize> {
    let mut sink = MemSink::new(alloc, room, 4, failing).ok()?;
    kept_by(&mut sink, bytes)
}

#[test]
fn a_sink_keeps_what_it_got_before_its_fault(rt: HostRuntime) {
    for (room, failing, known) in &KEPT {
        assert!(rt; kept_of(rt.alloc(), *room, failing, b"123456789") == Some(*known));
    }
}

#[test]
fn a_reader_of_std_is_a_source(rt: HostRuntime) {
    let bytes = b"from a slice".as_slice();
    let mut source = StdSource::new(bytes);
    assert!(rt; is_read(rt.alloc(), &mut source, bytes, 100, None));
}

/// Whether these bytes are written by a sink over a writer.
fn is_written(alloc: Global, bytes: &[u8]) -> bool {
    let mut written: Vec<u8> = Vec::new(alloc);
    let mut sink = StdSink::new(&mut written);
    let is_whole = write_all(&mut sink, bytes).is_ok();
    is_whole && written.as_slice() == bytes
}

#[test]
fn a_writer_of_std_is_a_sink(rt: HostRuntime) {
    assert!(rt; is_written(rt.alloc(), b"from a slice"));
}

/// A reader and a writer of a byte a call that fails in every second call, and counts its calls.
#[derive(Drop)]
struct Fickle {
    calls: u32,
}

impl Fickle {
    /// What the next call moves of so many bytes.
    fn moved(&mut self, length: usize) -> io::Result<usize>
        ensures { IfOk result (λ n. n ≤ length) }
    {
        self.calls = self.calls.saturating_add(1);
        if self.calls % 2 == 0 {
            return Err(io::Error::from(io::ErrorKind::TimedOut));
        }
        Ok(length.min(1))
    }
}

impl Read for Fickle {
    fn read(&mut self, buf: &mut [u8]) -> io::Result<usize> {
        self.moved(buf.len())
    }
}

impl Write for Fickle {
    fn write(&mut self, buf: &[u8]) -> io::Result<usize> {
        self.moved(buf.len())
    }

    fn flush(&mut self) -> io::Result<()> {
        Ok(())
    }
}

/// How many bytes calls are to move, and how many they move; none where they fail.
const MOVED: [(usize, Option<usize>); 4] = [(3, Some(1)), (3, None), (0, Some(0)), (0, None)];

#[test]
fn a_source_asks_its_reader_once_in_each_call(rt: HostRuntime) {
    let mut reader = Fickle { calls: 0 };
    let mut source = StdSource::new(&mut reader);
    let mut into = [0; 3];
    for (length, known) in MOVED {
        assert!(rt; source.take(&mut into[..length]).ok() == known);
    }
    assert!(rt; reader.calls == 4);
}

#[test]
fn a_sink_asks_its_writer_once_in_each_call(rt: HostRuntime) {
    let mut writer = Fickle { calls: 0 };
    let mut sink = StdSink::new(&mut writer);
    let bytes = [97; 3];
    for (length, known) in MOVED {
        assert!(rt; sink.put(&bytes[..length]).ok() == known);
    }
    assert!(rt; writer.calls == 4);
}
