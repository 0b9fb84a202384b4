//! Thin adapters over the readers and writers of the standard library.
ghost use Rattle.std.specs.Prelude.{◌≡◌, ◌≤◌};
ghost use Rattle.mal_io.specs.{Held.{device, device_faults}, Moves.{PutsAs, TakesAs}};

use crate::device::{Failed, Sink, Source};
use std::io::{self, Read, Write};

/// A reader or a writer of std, with the count of its faults.
#[derive(Drop)]
pub struct Counted<D> {
    inner: D,
    faults: u64,
}

impl<D> Counted<D> {
    /// This reader or writer, which has not failed yet.
    pub fn new(inner: D) -> Self
        ensures inner { device result ≡ inner }
        ensures faults { device_faults result ≡ 0 }
    {
        Counted { inner, faults: 0 }
    }
}

/// A source over a reader. Each error of the reader is a fault, and nothing else is one. Interrupted is not tried
/// again: what the contract says of a failure is the same for each cause.
pub type StdSource<R> = Counted<R>;

impl<R: Read> Source for StdSource<R> {
    ghost left = { λ s. R.remaining (device s) };

    ghost faults = { device_faults };

    fn take(&mut self, into: &mut [u8]) -> Result<usize, Failed> {
        let answer = self.inner.read(into);
        as_reader(answer, &mut self.faults)
    }
}

/// A sink over a writer. Each error of the writer is a fault, and so is a call that takes nothing of
/// a piece that is not empty. Nothing else is one.
pub type StdSink<W> = Counted<W>;

impl<W: Write> Sink for StdSink<W> {
    ghost got = { λ s. W.contents (device s) };

    ghost faults = { device_faults };

    fn put(&mut self, bytes: &[u8]) -> Result<usize, Failed> {
        let answer = self.inner.write(bytes);
        as_writer(answer, bytes, &mut self.faults)
    }
}

/// What a source answers whose reader answered so: as many bytes, or a fault exactly where the reader failed, which is
/// counted once.
fn as_reader(answer: io::Result<usize>, faults: &mut u64) -> Result<usize, Failed>
    ensures answer { TakesAs answer result faults.old faults.new }
    ensures later { faults.old ≤ faults.new }
{
    match answer {
        Ok(count) => Ok(count),
        Err(_) => {
            *faults = faults.saturating_add(1);
            Err(Failed)
        }
    }
}

/// What a sink answers whose writer answered so with a piece: as many bytes, or a fault exactly where the writer failed
/// or took nothing of a piece that is not empty, which is counted once.
fn as_writer(answer: io::Result<usize>, piece: &[u8], faults: &mut u64) -> Result<usize, Failed>
    ensures answer { PutsAs answer result piece.now faults.old faults.new }
    ensures later { faults.old ≤ faults.new }
{
    match answer {
        Ok(count) if count > 0 || piece.is_empty() => Ok(count),
        _ => {
            *faults = faults.saturating_add(1);
            Err(Failed)
        }
    }
}
