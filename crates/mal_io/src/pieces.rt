//! Bytes on their way to a sink.

ghost use Rattle.std.specs.Prelude.{◌≡◌, ◌+◌, ◌-◌, ◌≤◌, [], ◌++◌, length, false};
ghost use Rattle.mal_io.specs.Pieces.{Puts};

use crate::device::Sink;
use crate::whole::write_all;
use std::marker::Model;

/// How many bytes are gathered before they are handed on.
const SIZE: usize = 16_384;

/// Bytes that wait to be handed to a sink, so that it is not called for each word. Once the sink has failed nothing more
/// is handed to it. Takes no memory.
#[derive(Drop)]
pub struct Pieces {
    bytes: [u8; SIZE],
    len: usize,
    failed: bool,
}

impl Model for Pieces {
    ghost use Rattle.std.specs.Prelude.{◌≤◌, take};
    ghost use Rattle.mal_io.specs.Pieces.{Waiting};

    ghost Value = { Waiting };

    ghost view = { λ p. record { bytes = take p.len p.bytes; failed = p.failed } };

    ghost invariant = { λ p. p.len ≤ 16384 };
}

impl Pieces {
    /// Nothing waits.
    pub fn new() -> Pieces
        ensures bytes { result.bytes ≡ [] }
        ensures failed { result.failed ≡ false }
    {
        Pieces {
            bytes: [0u8; SIZE],
            len: 0,
            failed: false,
        }
    }

    /// Puts bytes after those that wait, and hands on what waits where it gets too much.
    pub fn put<K: Sink>(&mut self, sink: &mut K, bytes: &[u8])
        ensures { Puts K.got K.faults sink.old sink.new self.old self.new bytes.now }
    {
        if bytes.len() <= self.room() {
            self.keep(bytes);
            return;
        }
        self.hand_on(sink);
        self.begin(sink, bytes);
    }

    /// Hands on what waits, and says whether the sink has failed.
    pub fn end<K: Sink>(&mut self, sink: &mut K) -> bool
        ensures puts { Puts K.got K.faults sink.old sink.new self.old self.new [] }
        ensures empty { self.new.bytes ≡ [] }
        ensures failed { result ≡ self.new.failed }
    {
        self.hand_on(sink);
        self.failed
    }

    /// How many more bytes may wait.
    fn room(&self) -> usize
        ensures { length self.now.bytes + result ≡ 16384 }
    {
        SIZE - self.len
    }

    /// Hands on what waits.
    fn hand_on<K: Sink>(&mut self, sink: &mut K)
        ensures puts { Puts K.got K.faults sink.old sink.new self.old self.new [] }
        ensures empty { self.new.bytes ≡ [] }
    {
        self.failed = handed(self.failed, sink, &self.bytes[..self.len]);
        self.len = 0;
    }

    /// Puts bytes where none wait.
    fn begin<K: Sink>(&mut self, sink: &mut K, bytes: &[u8])
        requires { self.old.bytes ≡ [] }
        ensures { Puts K.got K.faults sink.old sink.new self.old self.new bytes.now }
    {
        if bytes.len() <= self.room() {
            self.keep(bytes);
            return;
        }
        // What finds no room is handed on as it is, so nothing has to be known of how long a line is.
        self.failed = handed(self.failed, sink, bytes);
    }

    /// Puts bytes after those that wait, for which there is room.
    fn keep(&mut self, bytes: &[u8])
        requires { length self.old.bytes + length bytes.now ≤ 16384 }
        ensures bytes { self.new.bytes ≡ self.old.bytes ++ bytes.now }
        ensures failed { self.new.failed ≡ self.old.failed }
    {
        let end = self.len + bytes.len();
        self.bytes[self.len..end].copy_from_slice(bytes);
        self.len = end;
    }
}

/// Hands bytes to a sink, unless it has failed before, and says whether it has now.
fn handed<K: Sink>(failed: bool, sink: &mut K, bytes: &[u8]) -> bool
    ensures { Puts K.got K.faults sink.old sink.new (record { bytes = bytes.now; failed = failed })
        (record { bytes = []; failed = result }) [] }
{
    if failed {
        return true;
    }
    write_all(sink, bytes).is_err()
}
