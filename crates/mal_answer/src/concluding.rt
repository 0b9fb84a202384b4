//! The statuses, and what is written with each.

ghost use Rattle.std.specs.Prelude.{◌≡◌, ◌⊎◌, OnOk, OnErr};
ghost use Rattle.mal_answer.specs.{Answers.{IsConcluded, IsFinished, hall_text, logged}, Devices.{Failed, Gained, GainedPrefix, WroteWhole, WrotePart, device}};

use crate::answer::{Complaint, Texts};
use mal_hall::Hall;
use mal_io::{Sink, WriteFault, write_all};

/// The texts of a command were written whole.
pub const DONE: u8 = 0;

/// The words ask for nothing.
pub const BAD_WORDS: u8 = 2;

/// The input is too long, or not in the command's grammar.
pub const REFUSED: u8 = 3;

/// The source failed.
pub const READ_FAULT: u8 = 4;

/// A sink failed.
pub const WRITE_FAULT: u8 = 5;

/// Memory ran out.
pub const OUT_OF_MEMORY: u8 = 6;

/// The input is in the grammar and not as the command wants it.
const DENIED: u8 = 7;

/// The line for an input above the limit.
const TOO_LONG: &[u8] = b"fault: input too long\n";

/// Writes what a command answered, and gives the status: what it gives to the log and then to the output, or the line
/// that tells why it gives nothing to the log, as far as the log takes it. Where the source failed or memory ran out
/// nothing is written.
pub fn conclude<K: Sink, L: Sink>(answer: Result<Texts, Complaint>, out: &mut K, log: &mut L) -> u8
    ensures { IsConcluded (device L.got L.faults log.old log.new)
        (device K.got K.faults out.old out.new) answer result }
{
    match answer {
        Ok(texts) => finish(&texts, out, log),
        Err(Complaint::Unread) => READ_FAULT,
        Err(Complaint::TooLong) => {
            complain(log, TOO_LONG);
            REFUSED
        }
        Err(Complaint::Refused(line)) => {
            complain(log, line.as_slice());
            REFUSED
        }
        Err(Complaint::Denied(line)) => {
            complain(log, line.as_slice());
            DENIED
        }
        Err(Complaint::OutOfMemory) => OUT_OF_MEMORY,
    }
}

/// Writes what a command gives: status 0, or 5 where a sink failed.
fn finish<K: Sink, L: Sink>(texts: &Texts, out: &mut K, log: &mut L) -> u8
    ensures { IsFinished (device L.got L.faults log.old log.new) (device K.got K.faults out.old out.new)
        (logged texts.now.log.items) texts.now.out.items result }
{
    match write_both(texts, out, log) {
        Ok(()) => DONE,
        Err(_) => WRITE_FAULT,
    }
}

/// Writes the text for the log, and then that for the output.
fn write_both<K: Sink, L: Sink>(texts: &Texts, out: &mut K, log: &mut L) -> Result<(), WriteFault>
    ensures whole { OnOk result
        (WroteWhole (device L.got L.faults log.old log.new) (device K.got K.faults out.old out.new)
        (logged texts.now.log.items) texts.now.out.items) }
    ensures part { OnErr result
        (WrotePart (device L.got L.faults log.old log.new) (device K.got K.faults out.old out.new)
        (logged texts.now.log.items) texts.now.out.items) }
    ensures cause { OnErr result
        (Failed (device L.got L.faults log.old log.new) ⊎ Failed (device K.got K.faults out.old out.new)) }
{
    write_log(log, texts.log.as_slice())?;
    write_all(out, texts.out.as_slice())
}

/// Writes the text for the log, that of each history after that of the one before it.
fn write_log<L: Sink>(log: &mut L, halls: &[Hall]) -> Result<(), WriteFault>
    ensures whole { OnOk result (Gained (device L.got L.faults log.old log.new) (logged halls.now)) }
    ensures prefix { GainedPrefix (device L.got L.faults log.old log.new) (logged halls.now) }
    ensures cause { OnErr result (Failed (device L.got L.faults log.old log.new)) }
{
    for hall in halls {
        write_history(log, hall)?;
    }
    Ok(())
}

/// Writes the text of the history of a hall.
fn write_history<L: Sink>(log: &mut L, hall: &Hall) -> Result<(), WriteFault>
    ensures whole { OnOk result (Gained (device L.got L.faults log.old log.new) (hall_text hall.now)) }
    ensures prefix { GainedPrefix (device L.got L.faults log.old log.new) (hall_text hall.now) }
    ensures cause { OnErr result (Failed (device L.got L.faults log.old log.new)) }
    ensures counted { OnOk result (L.faults log.new ≡ L.faults log.old) }
{
    mal_history::write_to(log, hall.history())
}

/// Writes a line to the log, as far as the log takes it.
pub fn complain<L: Sink>(log: &mut L, line: &[u8])
    ensures prefix { GainedPrefix (device L.got L.faults log.old log.new) line.now }
    ensures whole { (Failed (device L.got L.faults log.old log.new) → ⊥)
        → Gained (device L.got L.faults log.old log.new) line.now }
{
    let _ = write_all(log, line);
}
