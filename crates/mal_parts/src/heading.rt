//! The first line of a history.

ghost use Rattle.std.specs.Prelude.{◌≡◌, ◌≤◌, ℕ, List, OnOk, OnErr};
ghost use Rattle.std.specs.Io.KnownBytes.{Appends};
ghost use Rattle.mal_io.specs.Moves.{GotPrefix, Rose};
ghost use Rattle.spec_live.specs.Live.{first_line};

use itoa::Buffer;
use mal_io::{Sink, WriteFault, write_all};

/// Writes the first line of a live history of so many workers. Takes no memory.
pub fn write_first_line<L: Sink>(log: &mut L, workers: u32) -> Result<(), WriteFault>
    ensures all { OnOk result (Appends (L.got log.old) (L.got log.new) (first_line workers)) }
    ensures prefix { (prefix : List ℕ) × GotPrefix (L.got log.old) (L.got log.new) (first_line workers) prefix }
    ensures later { L.faults log.old ≤ L.faults log.new }
    ensures cause { OnErr result (Rose (L.faults log.old) (L.faults log.new)) }
    ensures counted { OnOk result (L.faults log.new ≡ L.faults log.old) }
{
    write_all(log, b"h mal 2 ")?;
    write_all(log, Buffer::new().format(workers).as_bytes())?;
    write_all(log, b"\n")
}
