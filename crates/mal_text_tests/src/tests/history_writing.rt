//! Events whose text no script leads to.

use super::values::name;
use mal_base::{Name, Outcome};
use mal_history::{Event, History, HistoryFault, Shares, read, write};
use std::alloc::Global;

/// Enters an event.
fn enter(history: &mut History, event: Event) -> Option<()> {
    history.reserve(1).ok()?;
    history.push_reserved(event);
    Some(())
}

/// The end of a start of the job p of the tenant a.
fn finish(tenant: Name, job: Name, index: u32, worker: u32, outcome: Outcome) -> Event {
    Event::Finish {
        tenant,
        job,
        index,
        worker,
        outcome,
    }
}

/// Enters a balancing of no job, two ends and an exchange.
fn enter_all(history: &mut History, alloc: Global) -> Option<()> {
    let tenant = name(b"a")?;
    let job = name(b"p")?;
    let volumes = Shares::new(alloc);
    enter(history, Event::Balance { volumes })?;
    enter(history, finish(tenant, job, 3, 2, Outcome::Starved))?;
    enter(history, finish(tenant, job, 4, 5, Outcome::Lost))?;
    enter(history, Event::Exchange { tenant, job })
}

/// The line of the fourth event.
fn fourth_line(history: &History) -> Option<u64> {
    if history.events().len() < 4 {
        return None;
    }
    Some(history.line(3))
}

/// The line of the last of those events, which is the fourth, and whether this is the text of their history.
fn entered(history: &mut History, alloc: Global, known: &[u8]) -> Option<(u64, bool)> {
    enter_all(history, alloc)?;
    let line = fourth_line(history)?;
    let text = write(alloc, history).ok()?;
    Some((line, text.as_slice() == known))
}

#[test]
fn other_outcomes_are_written(rt: HostRuntime) {
    let known = b"h mal 1 64\nb\nf a p 3 2 starved\nf a p 4 5 lost\nx a p\n";
    let mut history = History::new(rt.alloc(), 64);
    assert!(rt; entered(&mut history, rt.alloc(), known) == Some((5, true)));
}

/// Enters an arrival of the job p of the tenant a, and its leave.
fn enter_moves(history: &mut History, alloc: Global) -> Option<()> {
    let tenant = name(b"a")?;
    let job = name(b"p")?;
    enter(history, Event::Arrive { tenant, job })?;
    enter(history, Event::Leave { tenant, job })
}

/// Whether reading a text ends with a bad first line.
fn is_refused(alloc: Global, text: &[u8]) -> bool {
    match read(alloc, text) {
        Ok(_) => false,
        Err(fault) => fault == HistoryFault::BadLine { line: 1 },
    }
}

/// Whether this is the text of a history with those moves, and whether it is refused when it is read.
fn moved(history: &mut History, alloc: Global, known: &[u8]) -> Option<[bool; 2]> {
    enter_moves(history, alloc)?;
    let text = write(alloc, history).ok()?;
    Some([text.as_slice() == known, is_refused(alloc, text.as_slice())])
}

#[test]
fn moves_are_written_in_version_3_and_not_read(rt: HostRuntime) {
    let mut history = History::new(rt.alloc(), 2);
    assert!(rt;
        moved(&mut history, rt.alloc(), b"h mal 3 2\nn a p\ng a p\n") == Some([true, true])
    );
}
