//! The program over devices that fail, that are full, and that give what no command takes: what is left of the source,
//! and what was written.

use super::programs::words;
use mal_answer::usage_line;
use mal_cli::top;
use mal_io::{MemSink, MemSource, read_all};
use mal_pool::PlainGate;
use std::alloc::Global;
use std::sync::Wait;
use std::thread::Threads;

/// What a text is to be: just these bytes, these in front, or these at the end.
#[derive(Clone, Copy)]
enum Known<'a> {
    Is(&'a [u8]),
    Begins(&'a [u8]),
    Ends(&'a [u8]),
}

impl Known<'_> {
    fn fits(self, text: &[u8]) -> bool {
        match self {
            Known::Is(known) => text == known,
            Known::Begins(known) => text.starts_with(known),
            Known::Ends(known) => text.ends_with(known),
        }
    }
}

/// What a call of the program is to come to: its status, its output and its log.
#[derive(Clone, Copy)]
struct End<'a> {
    status: u8,
    out: Known<'a>,
    log: Known<'a>,
}

impl<'a> End<'a> {
    /// This status, with just these texts.
    fn with(status: u8, out: &'a [u8], log: &'a [u8]) -> End<'a> {
        End {
            status,
            out: Known::Is(out),
            log: Known::Is(log),
        }
    }

    /// It comes to this.
    fn is(&self, status: u8, out: &MemSink, log: &MemSink) -> bool {
        status == self.status && self.out.fits(out.bytes()) && self.log.fits(log.bytes())
    }
}

/// How a sink fails: how many bytes it has room for, and the calls that fail. It takes one byte a call.
#[derive(Clone, Copy)]
struct Sinking<'a> {
    room: usize,
    failing: &'a [u64],
}

/// It does not fail.
const WHOLE: Sinking<'static> = Sinking {
    room: 10_000,
    failing: &[],
};

impl<'a> Sinking<'a> {
    /// These calls fail.
    fn failing(failing: &'a [u64]) -> Sinking<'a> {
        Sinking {
            room: 10_000,
            failing,
        }
    }

    /// It has room for so many bytes.
    fn full(room: usize) -> Sinking<'a> {
        Sinking { room, failing: &[] }
    }

    /// A sink that fails so.
    fn sink(self, alloc: Global) -> Option<MemSink<'a>> {
        MemSink::new(alloc, self.room, 1, self.failing).ok()
    }
}

/// How the output and the log fail.
#[derive(Clone, Copy)]
struct Sinks<'a> {
    out: Sinking<'a>,
    log: Sinking<'a>,
}

/// Neither fails.
const NONE: Sinks<'static> = Sinks {
    out: WHOLE,
    log: WHOLE,
};

/// A script of one job with a revision of no clauses, its log and its reply.
const SCRIPT: &[u8] = b"t a\nj p 1 1 4\np cnf 0 0\na 0\ne\n";

const LOG: &[u8] = b"h mal 1 1\no a p 1 1 4\nr a p 1\nc a p\nb a p 1\ns a p 0 1\nf a p 0 1 ran\n";

const REPLY: &[u8] = b"r a p 1\ns SATISFIABLE\nv 0\n";

/// Whether the program comes to this end, by words and a source. None where memory runs out for the devices.
fn comes_to<R: Threads + Wait + Sync>(
    rt: &R,
    alloc: Global,
    parts: &[&str],
    source: &mut MemSource,
    sinks: &Sinks,
    end: &End,
) -> Option<bool> {
    let words = words(alloc, parts)?;
    let told = comes_by(rt, alloc, words.as_slice(), source, sinks, end);
    drop(words);
    told
}

/// The same, by words as the program gets them.
fn comes_by<R: Threads + Wait + Sync>(
    rt: &R,
    alloc: Global,
    words: &[String],
    source: &mut MemSource,
    sinks: &Sinks,
    end: &End,
) -> Option<bool> {
    let mut out = sinks.out.sink(alloc)?;
    let told = comes_into(rt, alloc, words, source, &mut out, sinks.log, end);
    drop(out);
    told
}

/// The same, with this output and a log that fails so.
fn comes_into<R: Threads + Wait + Sync>(
    rt: &R,
    alloc: Global,
    words: &[String],
    source: &mut MemSource,
    out: &mut MemSink,
    log: Sinking,
    end: &End,
) -> Option<bool> {
    let mut log = log.sink(alloc)?;
    let status = top(rt, alloc, words, source, out, &mut log, &PlainGate);
    let is_end = end.is(status, out, &log);
    drop(log);
    Some(is_end)
}

/// Whether the program comes to this end by these words, and leaves the script in its source.
fn leaves_source<R: Threads + Wait + Sync>(
    rt: &R,
    alloc: Global,
    parts: &[&str],
    end: &End,
) -> Option<bool> {
    let mut source = MemSource::new(SCRIPT, 4, &[]);
    let is_end = comes_to(rt, alloc, parts, &mut source, &NONE, end)?;
    let left = read_all(alloc, &mut source, 100).ok()?;
    let is_left = left.as_slice() == SCRIPT;
    drop(left);
    Some(is_end && is_left)
}

#[test]
fn refused_words_leave_the_source_unread(rt: HostRuntime) {
    let end = End::with(2, b"", usage_line());
    assert!(rt; leaves_source(&rt, rt.alloc(), &["mal", "fly"], &end) == Some(true));
}

#[test]
fn a_script_that_is_made_leaves_the_source_unread(rt: HostRuntime) {
    let parts = ["mal", "gen", "--seed", "1", "--jobs", "1"];
    let end = End {
        status: 0,
        out: Known::Begins(b"t t1\nj j1 7 1 64\np cnf 50 213\n-9 13 -24 0\n"),
        log: Known::Is(b""),
    };
    assert!(rt; leaves_source(&rt, rt.alloc(), &parts, &end) == Some(true));
}

/// A command that reads: its words and an input, with what it writes.
#[derive(Clone, Copy)]
struct Command<'a> {
    parts: &'a [&'a str],
    input: &'a [u8],
    out: &'a [u8],
    log: &'a [u8],
}

/// A run of the script.
const RUN: Command<'static> = Command {
    parts: &["mal", "run", "--workers", "1"],
    input: SCRIPT,
    out: REPLY,
    log: LOG,
};

/// A check of a claim.
const CHECK: Command<'static> = Command {
    parts: &["mal", "check"],
    input: b"p cnf 1 2\n1 0\n-1 0\nproof\n3 0 1 2 0\n",
    out: b"s VERIFIED\n",
    log: b"",
};

/// A replay of the account of that run.
const REPLAY: Command<'static> = Command {
    parts: &["mal", "replay"],
    input: ACCOUNT,
    out: REPLY,
    log: b"",
};

const ACCOUNT: &[u8] =
    b"t a\nj p 1 1 4\np cnf 0 0\na 0\ne\nhistory\nh mal 1 1\no a p 1 1 4\nr a p 1\nc a p\nb a p 1\ns a p 0 1\nf a p 0 1 ran\n";

/// Whether a command comes to this end where a call of the source fails, which gives a byte a call.
fn fails_at<R: Threads + Wait + Sync>(
    rt: &R,
    alloc: Global,
    command: &Command,
    call: u64,
    end: &End,
) -> bool {
    let failing = [call];
    let mut source = MemSource::new(command.input, 1, &failing);
    comes_to(rt, alloc, command.parts, &mut source, &NONE, end) == Some(true)
}

/// Whether nothing is written where one call of the source fails, each in turn, up to the one that finds the end, and
/// the command writes what it has to with no fault.
fn fails_in_turn<R: Threads + Wait + Sync>(rt: &R, alloc: Global, command: &Command) -> bool {
    let calls = (command.input.len() as u64).saturating_add(2);
    let nothing = End::with(4, b"", b"");
    for call in 1..calls {
        if !fails_at(rt, alloc, command, call, &nothing) {
            return false;
        }
    }
    fails_at(
        rt,
        alloc,
        command,
        calls,
        &End::with(0, command.out, command.log),
    )
}

#[test]
fn a_source_that_fails_is_told_and_nothing_is_written(rt: HostRuntime) {
    assert!(rt; SCRIPT.len() == 30);
    for command in &[RUN, CHECK, REPLAY] {
        assert!(rt; fails_in_turn(&rt, rt.alloc(), command));
    }
}

/// Whether a command comes to this end where the sinks fail. The source gives so many bytes a call.
fn cut_short<R: Threads + Wait + Sync>(
    rt: &R,
    alloc: Global,
    command: &Command,
    sinks: &Sinks,
    end: &End,
) -> bool {
    let mut source = MemSource::new(command.input, 4, &[]);
    comes_to(rt, alloc, command.parts, &mut source, sinks, end) == Some(true)
}

/// An output, or else a log.
#[derive(Clone, Copy)]
enum Device {
    Out,
    Log,
}

/// The sinks of which this one fails so.
fn sinks_of(device: Device, sinking: Sinking) -> Sinks {
    match device {
        Device::Out => Sinks {
            out: sinking,
            log: WHOLE,
        },
        Device::Log => Sinks {
            out: WHOLE,
            log: sinking,
        },
    }
}

/// What a command comes to whose output, or else whose log, takes that front of its text alone. The output is written
/// after the whole log, and where the log fails it gets nothing.
fn end_at<'a>(command: &Command<'a>, device: Device, front: usize) -> Option<End<'a>> {
    Some(match device {
        Device::Out => End::with(5, command.out.get(..front)?, command.log),
        Device::Log => End::with(5, b"", command.log.get(..front)?),
    })
}

/// Whether an output or a log that fails at its byte after so many, and one that is full there, keep that front of
/// their text.
fn keeps_front<R: Threads + Wait + Sync>(
    rt: &R,
    alloc: Global,
    command: &Command,
    device: Device,
    front: usize,
) -> bool {
    let Some(end) = end_at(command, device, front) else {
        return false;
    };
    let failing = [(front as u64).saturating_add(1)];
    let failed = sinks_of(device, Sinking::failing(&failing));
    let full = sinks_of(device, Sinking::full(front));
    cut_short(rt, alloc, command, &failed, &end) && cut_short(rt, alloc, command, &full, &end)
}

/// Whether each front of so many is kept.
fn keeps_fronts<R: Threads + Wait + Sync>(
    rt: &R,
    alloc: Global,
    command: &Command,
    device: Device,
    fronts: usize,
) -> bool {
    for front in 0..fronts {
        if !keeps_front(rt, alloc, command, device, front) {
            return false;
        }
    }
    true
}

#[test]
fn a_log_that_fails_is_told_and_keeps_a_front(rt: HostRuntime) {
    assert!(rt; LOG.len() == 68);
    assert!(rt; keeps_fronts(&rt, rt.alloc(), &RUN, Device::Log, 68));
}

#[test]
fn an_output_that_fails_is_told_and_keeps_a_front(rt: HostRuntime) {
    assert!(rt; REPLY.len() == 26);
    for command in &[RUN, REPLAY, CHECK] {
        assert!(rt; keeps_fronts(&rt, rt.alloc(), command, Device::Out, command.out.len()));
    }
}

#[test]
fn sinks_with_room_for_their_texts_get_them(rt: HostRuntime) {
    let sinks = Sinks {
        out: Sinking::full(26),
        log: Sinking::full(68),
    };
    assert!(rt; cut_short(&rt, rt.alloc(), &RUN, &sinks, &End::with(0, REPLY, LOG)));
}

/// The run of another script.
fn run_of(input: &[u8]) -> Command {
    Command { input, ..RUN }
}

#[test]
fn a_fault_keeps_its_status_where_the_log_fails(rt: HostRuntime) {
    let command = run_of(b"t a\nj p 1 1 4\np cnf 1 0\na 1 -1 0\ne\n");
    let sinks = Sinks {
        out: WHOLE,
        log: Sinking::failing(&[1]),
    };
    assert!(rt; cut_short(&rt, rt.alloc(), &command, &sinks, &End::with(3, b"", b"")));
}

/// A script is served, whatever its replies are.
const SERVED: End<'static> = End {
    status: 0,
    out: Known::Begins(b""),
    log: Known::Begins(b""),
};

/// The fault of a script is told, and no reply is written.
const REFUSED: End<'static> = End {
    status: 3,
    out: Known::Is(b""),
    log: Known::Begins(b"fault: script line "),
};

/// Whether each front of the script comes to what it has to: fronts are scripts where they end with its tenant or its
/// job, with or without the end of that line, and where they are empty.
fn fronts_are_refused<R: Threads + Wait + Sync>(rt: &R, alloc: Global) -> bool {
    for len in 0..31usize {
        let Some(front) = SCRIPT.get(..len) else {
            return false;
        };
        let end = if [0, 3, 4, 29, 30].contains(&len) {
            SERVED
        } else {
            REFUSED
        };
        if !cut_short(rt, alloc, &run_of(front), &NONE, &end) {
            return false;
        }
    }
    true
}

#[test]
fn a_script_that_is_cut_off_is_refused(rt: HostRuntime) {
    assert!(rt; fronts_are_refused(&rt, rt.alloc()));
}

/// The script with a byte outside ASCII at a place.
fn changed_at(place: usize) -> Option<[u8; 30]> {
    let mut other: [u8; 30] = *SCRIPT.first_chunk()?;
    *other.get_mut(place)? = 0xff;
    Some(other)
}

/// Whether the script is refused with a byte outside ASCII at each place: it stands in no word of a script, and ends none.
fn changed_are_refused<R: Threads + Wait + Sync>(rt: &R, alloc: Global) -> bool {
    for place in 0..30usize {
        let Some(other) = changed_at(place) else {
            return false;
        };
        if !cut_short(rt, alloc, &run_of(&other), &NONE, &REFUSED) {
            return false;
        }
    }
    true
}

#[test]
fn a_script_with_a_byte_outside_ascii_is_refused(rt: HostRuntime) {
    assert!(rt; changed_are_refused(&rt, rt.alloc()));
}

/// A feed of two jobs that are open at its end, the last of which has a revision, and the reply to that.
const FEED: &[u8] = b"t a\nj p 1 1 4\nj q 1 1 4\np cnf 1 1\n1 0\na 0\nj p\n";

const TOLD: &[u8] = b"r a q 1\ns SATISFIABLE\nv 1 0\n";

/// How the history of that feed begins where two workers serve it.
const OPENED: &[u8] = b"h mal 2 2\no a p 1 1 4\n";

/// Whether a live service of two workers comes to this end with a feed in pieces of so many bytes, where these calls of
/// the source fail.
fn serves<R: Threads + Wait + Sync>(
    rt: &R,
    alloc: Global,
    source: (&[u8], usize, &[u64]),
    sinks: &Sinks,
    end: &End,
) -> bool {
    let mut device = MemSource::new(source.0, source.1.max(1), source.2);
    let parts = ["mal", "serve", "--workers", "2"];
    comes_to(rt, alloc, &parts, &mut device, sinks, end) == Some(true)
}

#[test]
fn a_feed_is_served_whatever_its_pieces(rt: HostRuntime) {
    let end = End {
        status: 0,
        out: Known::Is(TOLD),
        log: Known::Begins(OPENED),
    };
    for piece in [1usize, 2, 7, 4_096] {
        assert!(rt; serves(&rt, rt.alloc(), (FEED, piece, &[]), &NONE, &end));
    }
    let empty = End::with(0, b"", b"h mal 2 2\n");
    assert!(rt; serves(&rt, rt.alloc(), (b"", 1, &[]), &NONE, &empty));
}

#[test]
fn what_was_posted_before_a_fault_is_served(rt: HostRuntime) {
    let end = End {
        status: 3,
        out: Known::Is(TOLD),
        log: Known::Ends(b"\nfault: feed line 8 BadLine\n"),
    };
    let feed = b"t a\nj p 1 1 4\nj q 1 1 4\np cnf 1 1\n1 0\na 0\nj p\nj r\nj s 1 1 4\n";
    assert!(rt; serves(&rt, rt.alloc(), (feed, 5, &[]), &NONE, &end));
}

#[test]
fn what_was_posted_before_the_source_failed_is_served(rt: HostRuntime) {
    let end = End {
        status: 4,
        out: Known::Is(TOLD),
        log: Known::Begins(OPENED),
    };
    assert!(rt; FEED.len() == 46);
    assert!(rt; serves(&rt, rt.alloc(), (FEED, 1, &[45]), &NONE, &end));
    assert!(rt; serves(&rt, rt.alloc(), (FEED, 1, &[47]), &NONE, &end));
}

#[test]
fn a_live_service_keeps_fronts_where_a_sink_fails(rt: HostRuntime) {
    let no_reply = End {
        status: 5,
        out: Known::Is(b"r a q 1\n"),
        log: Known::Begins(OPENED),
    };
    let no_log = End::with(5, b"", b"h mal 2");
    let out = sinks_of(Device::Out, Sinking::full(8));
    let log = sinks_of(Device::Log, Sinking::failing(&[8]));
    assert!(rt; serves(&rt, rt.alloc(), (FEED, 9, &[]), &out, &no_reply));
    assert!(rt; serves(&rt, rt.alloc(), (FEED, 9, &[]), &log, &no_log));
}
