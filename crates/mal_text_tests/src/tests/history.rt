//! The lines of events, and the events of one job.

use super::values::name;
use mal_history::{Event, History, own, read, write};
use std::alloc::Global;

/// The workers of a history, and the lines of its first two events.
fn lines_of(history: &History) -> Option<(u32, [u64; 2])> {
    if history.events().len() < 2 {
        return None;
    }
    Some((history.workers(), [history.line(0), history.line(1)]))
}

/// The same of the history of a text.
fn lines_in(alloc: Global, text: &[u8]) -> Option<(u32, [u64; 2])> {
    let history = read(alloc, text).ok()?;
    lines_of(&history)
}

#[test]
fn empty_lines_are_counted(rt: HostRuntime) {
    let found = lines_in(rt.alloc(), b"h mal 1 2\n\nc a p\n\n\nc a p");
    assert!(rt; found == Some((2, [3, 6])));
}

/// The events of the job p of the tenant a.
fn own_events(alloc: Global, history: &History) -> Option<Vec<Event>> {
    let tenant = name(b"a")?;
    let job = name(b"p")?;
    own(alloc, history, &tenant, &job).ok()
}

/// Enters an event.
fn enter(history: &mut History, event: Event) -> Option<()> {
    history.reserve(1).ok()?;
    history.push_reserved(event);
    Some(())
}

/// Enters events.
fn enter_all(history: &mut History, events: Vec<Event>) -> Option<()> {
    for event in events {
        enter(history, event)?;
    }
    Some(())
}

/// Whether a history with these events is written so.
fn is_entered(
    history: &mut History,
    alloc: Global,
    events: Vec<Event>,
    known: &[u8],
) -> Option<bool> {
    enter_all(history, events)?;
    let text = write(alloc, history).ok()?;
    Some(text.as_slice() == known)
}

/// Whether the history of three workers with these events is written so.
fn is_written(alloc: Global, events: Vec<Event>, known: &[u8]) -> Option<bool> {
    let mut history = History::new(alloc, 3);
    is_entered(&mut history, alloc, events, known)
}

/// Whether the own events of the job are written so.
fn are_own(alloc: Global, history: &History, known: &[u8]) -> Option<bool> {
    let events = own_events(alloc, history)?;
    is_written(alloc, events, known)
}

/// Whether the events of the job in the history of a text are written so.
fn is_own(alloc: Global, text: &[u8], known: &[u8]) -> Option<bool> {
    let history = read(alloc, text).ok()?;
    are_own(alloc, &history, known)
}

#[test]
fn own_events_are_those_of_the_job(rt: HostRuntime) {
    let text =
        b"h mal 1 3\no a p 1 1 4\no b p 1 1 4\nb a p 1 b p 1\ns b p 0 3\ns a p 0 2\nb a p 1\nf a p 0 2 ran\nb b p 1\n";
    let known = b"h mal 1 3\no a p 1 1 4\nb a p 1\ns a p 0 1\nf a p 0 1 ran\nb a p 0\n";
    assert!(rt; is_own(rt.alloc(), text, known) == Some(true));
}

/// Enters a leave of the job q of the tenant a, then one of the job p, and, where it comes back, its arrival.
fn enter_moves(history: &mut History, alloc: Global, is_back: bool) -> Option<()> {
    let tenant = name(b"a")?;
    let job = name(b"p")?;
    let other = name(b"q")?;
    enter(history, Event::Leave { tenant, job: other })?;
    enter(history, Event::Leave { tenant, job })?;
    if is_back {
        enter(history, Event::Arrive { tenant, job })?;
    }
    Some(())
}

/// Whether the events of the job in the history of a text, after which it moves so, are written so.
fn is_moved(alloc: Global, text: &[u8], is_back: bool, known: &[u8]) -> Option<bool> {
    let mut history = read(alloc, text).ok()?;
    enter_moves(&mut history, alloc, is_back)?;
    are_own(alloc, &history, known)
}

#[test]
fn a_leave_tells_volume_0(rt: HostRuntime) {
    let text = b"h mal 1 3\no a p 1 1 4\nb a p 1\n";
    let known = b"h mal 1 3\no a p 1 1 4\nb a p 1\nb a p 0\n";
    assert!(rt; is_moved(rt.alloc(), text, false, known) == Some(true));
}

#[test]
fn an_arrival_stands_for_what_it_brought(rt: HostRuntime) {
    let text = b"h mal 1 3\no a p 1 1 4\nb a p 1\n";
    assert!(rt; is_moved(rt.alloc(), text, true, b"h mal 3 3\nn a p\n") == Some(true));
}
