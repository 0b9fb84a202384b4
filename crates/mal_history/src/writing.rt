//! Writing a history: a first line with the version of the format and the number of workers, then a line an event.

ghost use Rattle.std.specs.Prelude.{◌≡◌, ◌≤◌, List, ℕ, ◌∷◌, ◌++◌, map, flat_map, codes, IfOk, OnOk, OnErr};
ghost use Rattle.std.specs.List.{list_any};
ghost use Rattle.std.specs.Io.KnownBytes.{Appends};
ghost use Rattle.spec_text.specs.Lines.{line_of};
ghost use Rattle.mal_io.specs.Moves.{Rose, GotPrefix};
ghost use Rattle.mal_history.specs.{Shared.{shared}, Text.{outcome_word, assignment_words, share_words, event_words, is_of_version_2, is_of_version_3, version_of, header_words, history_text}, declared.event.Event.TheVariants.{Open, Revise, Reask}};

use crate::event::{Assignment, Event, Share};
use crate::history::History;
use crate::pieced::Pieced;
use itoa::Buffer;
use mal_base::{Ask, Name, Outcome, Weight};
use mal_io::{Sink, WriteFault};
use mal_text::put_ask;
use mal_text::taker::{Taker, put_line, put_words};
use std::alloc::{AllocError, Global};
use std::sync::Arc;

/// The text of a history.
pub fn write(alloc: Global, history: &History) -> Result<Vec<u8>, AllocError>
    ensures { IfOk result (λ v. v.items ≡ history_text history.now.workers history.now.events) }
{
    let mut out = Vec::new(alloc);
    put_history(&mut out, history)?;
    Ok(out)
}

/// Hands the text of a history to `sink`, some 16,000 bytes at a time; its count of faults then stays. After a fault
/// the sink got a prefix of the text. It takes no memory.
pub fn write_to<K: Sink>(sink: &mut K, history: &History) -> Result<(), WriteFault>
    ensures all { OnOk result
        (Appends (K.got sink.old) (K.got sink.new) (history_text history.now.workers history.now.events)) }
    ensures prefix { (prefix : List ℕ)
        × GotPrefix (K.got sink.old) (K.got sink.new) (history_text history.now.workers history.now.events) prefix }
    ensures later { K.faults sink.old ≤ K.faults sink.new }
    ensures cause { OnErr result (Rose (K.faults sink.old) (K.faults sink.new)) }
    ensures counted { OnOk result (K.faults sink.new ≡ K.faults sink.old) }
{
    let mut out = Pieced::new(sink);
    match put_history(&mut out, history) {
        Ok(()) => {}
        Err(never) => match never {},
    }
    if out.end() {
        return Err(WriteFault);
    }
    Ok(())
}

/// Puts the text of a history.
fn put_history<T: Taker>(out: &mut T, history: &History) -> Result<(), T::Fault>
    ensures { OnOk result (T.took out.old out.new (history_text history.now.workers history.now.events)) }
{
    let events = history.events();
    put_header(out, version_of(events), history.workers())?;
    put_events(out, events)?;
    Ok(())
}

/// The version of the format in which events are told, which is known before the first byte.
fn version_of(events: &[Event]) -> u32
    ensures { result ≡ version_of events.now }
{
    if are_of_version_3(events) {
        3
    } else if are_of_version_2(events) {
        2
    } else {
        1
    }
}

/// Whether only version 3 of the format has one of the events.
fn are_of_version_3(events: &[Event]) -> bool
    ensures { result ≡ list_any is_of_version_3 events.now }
{
    events.iter().any(|e| is_of_version_3(e))
}

/// Whether only version 3 of the format has an event: a job moves between halls.
fn is_of_version_3(event: &Event) -> bool
    ensures { result ≡ is_of_version_3 event.now }
{
    matches!(event, Event::Leave { .. } | Event::Arrive { .. })
}

/// Whether version 1 of the format does not have one of the events.
fn are_of_version_2(events: &[Event]) -> bool
    ensures { result ≡ list_any is_of_version_2 events.now }
{
    events.iter().any(|e| is_of_version_2(e))
}

/// Whether version 1 of the format does not have an event.
fn is_of_version_2(event: &Event) -> bool
    ensures { result ≡ is_of_version_2 event.now }
{
    matches!(event, Event::Reask { .. })
}

/// Puts the first line: the version of the format and the number of workers.
fn put_header<T: Taker>(out: &mut T, version: u32, workers: u32) -> Result<(), T::Fault>
    ensures { OnOk result (T.took out.old out.new (line_of (header_words version workers))) }
{
    let mut first = Buffer::new();
    let mut second = Buffer::new();
    let words = [
        b"mal".as_slice(),
        first.format(version).as_bytes(),
        second.format(workers).as_bytes(),
    ];
    put_line(out, b"h", &words)
}

/// Puts a line an event.
fn put_events<T: Taker>(out: &mut T, events: &[Event]) -> Result<(), T::Fault>
    ensures { OnOk result (T.took out.old out.new (flat_map line_of (map event_words events.now))) }
{
    for event in events {
        put_event(out, event)?;
    }
    Ok(())
}

/// Puts the line of an event after the others.
pub fn append_event(out: &mut Vec<u8>, event: &Event) -> Result<(), AllocError>
    ensures { OnOk result (out.new.items ≡ out.old.items ++ line_of (event_words event.now)) }
{
    put_event(out, event)
}

/// Puts the line of an event.
fn put_event<T: Taker>(out: &mut T, event: &Event) -> Result<(), T::Fault>
    ensures { OnOk result (T.took out.old out.new (line_of (event_words event.now))) }
{
    match event {
        Event::Open { tenant, job, ask } => put_open(out, tenant, job, *ask),
        Event::Revise {
            tenant,
            job,
            number,
        } => put_revise(out, tenant, job, *number),
        Event::Reask {
            tenant,
            job,
            weight,
        } => put_reask(out, tenant, job, *weight),
        Event::Close { tenant, job } => put_line(out, b"c", &[tenant.as_bytes(), job.as_bytes()]),
        Event::Balance { volumes } => put_balance(out, volumes.as_slice()),
        Event::Start {
            tenant,
            job,
            index,
            worker,
        } => {
            let assigned = Assignment::of(*tenant, *job, *index, *worker);
            put_node(out, b"s", assigned, &[])
        }
        Event::Finish {
            tenant,
            job,
            index,
            worker,
            outcome,
        } => {
            let assigned = Assignment::of(*tenant, *job, *index, *worker);
            put_node(out, b"f", assigned, &[outcome_word(*outcome)])
        }
        Event::Exchange { tenant, job } => {
            put_line(out, b"x", &[tenant.as_bytes(), job.as_bytes()])
        }
        Event::Leave { tenant, job } => put_line(out, b"g", &[tenant.as_bytes(), job.as_bytes()]),
        Event::Arrive { tenant, job } => put_line(out, b"n", &[tenant.as_bytes(), job.as_bytes()]),
    }
}

/// Puts the line of the opening of a job.
fn put_open<T: Taker>(out: &mut T, tenant: &Name, job: &Name, ask: Ask) -> Result<(), T::Fault>
    ensures { OnOk result (T.took out.old out.new (line_of (event_words (Open tenant.now job.now ask)))) }
{
    out.put(b"o")?;
    put_words(out, &[tenant.as_bytes(), job.as_bytes()])?;
    put_ask(out, ask)?;
    out.put(b"\n")?;
    Ok(())
}

/// Puts the line of a revision of a job.
fn put_revise<T: Taker>(out: &mut T, tenant: &Name, job: &Name, number: u32) -> Result<(), T::Fault>
    ensures { OnOk result (T.took out.old out.new (line_of (event_words (Revise tenant.now job.now number)))) }
{
    let mut buffer = Buffer::new();
    let words = [
        tenant.as_bytes(),
        job.as_bytes(),
        buffer.format(number).as_bytes(),
    ];
    put_line(out, b"r", &words)
}

/// Puts the line of a change of a job's weight.
fn put_reask<T: Taker>(
    out: &mut T,
    tenant: &Name,
    job: &Name,
    weight: Weight,
) -> Result<(), T::Fault>
    ensures { OnOk result (T.took out.old out.new (line_of (event_words (Reask tenant.now job.now weight)))) }
{
    let mut first = Buffer::new();
    let mut second = Buffer::new();
    let words = [
        tenant.as_bytes(),
        job.as_bytes(),
        first.format(weight.priority()).as_bytes(),
        second.format(weight.demand()).as_bytes(),
    ];
    put_line(out, b"q", &words)
}

/// Puts the line of a balancing.
fn put_balance<T: Taker>(out: &mut T, shares: &[Arc<Share>]) -> Result<(), T::Fault>
    ensures { OnOk result
        (T.took out.old out.new (line_of (codes "b" ∷ flat_map share_words (shared shares.now)))) }
{
    out.put(b"b")?;
    for share in shares {
        put_share(out, share)?;
    }
    out.put(b"\n")?;
    Ok(())
}

/// Puts the words of a volume, each after a space.
fn put_share<T: Taker>(out: &mut T, share: &Share) -> Result<(), T::Fault>
    ensures { OnOk result (T.took out.old out.new (flat_map (λ w. 32 ∷ w) (share_words share.now))) }
{
    let mut buffer = Buffer::new();
    let words = [
        share.tenant.as_bytes(),
        share.job.as_bytes(),
        buffer.format(share.volume).as_bytes(),
    ];
    put_words(out, &words)
}

/// Puts the line of a start of a node on a worker, or of its end: the word `first`, the words of the node and its
/// worker, and the words `others`.
fn put_node<T: Taker>(
    out: &mut T,
    first: &[u8],
    assigned: Assignment,
    others: &[&[u8]],
) -> Result<(), T::Fault>
    ensures { OnOk result (T.took out.old out.new
        (line_of (first.now ∷ (assignment_words assigned ++ map (λ w. w.now) others.now)))) }
{
    out.put(first)?;
    put_assignment(out, assigned)?;
    put_words(out, others)?;
    out.put(b"\n")?;
    Ok(())
}

/// Puts the words of a node and its worker, each after a space.
fn put_assignment<T: Taker>(out: &mut T, assigned: Assignment) -> Result<(), T::Fault>
    ensures { OnOk result (T.took out.old out.new (flat_map (λ w. 32 ∷ w) (assignment_words assigned))) }
{
    let mut at = Buffer::new();
    let mut by = Buffer::new();
    let words = [
        assigned.tenant.as_bytes(),
        assigned.job.as_bytes(),
        at.format(assigned.index).as_bytes(),
        by.format(assigned.worker).as_bytes(),
    ];
    put_words(out, &words)
}

/// The word of an outcome.
fn outcome_word(outcome: Outcome) -> &'static [u8]
    ensures { result.now ≡ outcome_word outcome }
{
    match outcome {
        Outcome::Ran => b"ran",
        Outcome::Starved => b"starved",
        Outcome::Lost => b"lost",
    }
}
