//! The section of the own events.

ghost use Rattle.std.specs.Prelude.{◌≡◌, ℕ, [], ◌∷◌, ◌++◌, IfOk, OnOk};
ghost use Rattle.spec_text.specs.Lines.{line_of};
ghost use Rattle.mal_history.specs.{Text.{event_words}, declared.event.Event.TheVariants.{Balance}};
ghost use Rattle.spec_parcel.specs.Packed.{own_text, revisions_after, sized, written_at};
ghost use Rattle.mal_parcel.specs.Owned.{own_of, owned};

use crate::owned::OwnEvent;
use crate::sized::put_sized;
use mal_base::{Name, grown};
use mal_history::{Event, Share, Shares, append_event};
use std::alloc::{AllocError, Global};

/// Puts the text of a job's own events after the others, after its length: a line an event.
pub fn put_events(
    alloc: Global,
    out: &mut Vec<u8>,
    tenant: Name,
    job: Name,
    events: &[OwnEvent],
) -> Result<(), AllocError>
    ensures { OnOk result
        (out.new.items ≡ out.old.items ++ sized (own_text (record { tenant = tenant; job = job }) (owned events.now))) }
{
    let text = text_of(alloc, tenant, job, events)?;
    put_sized(out, text.as_slice())
}

/// The text of a job's own events.
fn text_of(
    alloc: Global,
    tenant: Name,
    job: Name,
    events: &[OwnEvent],
) -> Result<Vec<u8>, AllocError>
    ensures { IfOk result (λ v. v.items ≡ own_text (record { tenant = tenant; job = job }) (owned events.now)) }
{
    let mut out = Vec::new(alloc);
    let mut number = 0;
    for event in events {
        number = put_own(alloc, &mut out, tenant, job, number, event)?;
    }
    Ok(out)
}

/// Puts the line of an own event after the others, where so many revisions came before. Answers how many there are
/// after it; a number that its type does not hold is out of memory.
fn put_own(
    alloc: Global,
    out: &mut Vec<u8>,
    tenant: Name,
    job: Name,
    number: u32,
    event: &OwnEvent,
) -> Result<u32, AllocError>
    ensures line { OnOk result (out.new.items ≡ out.old.items
        ++ line_of (event_words (written_at (record { tenant = tenant; job = job }) number (own_of event.now)))) }
    ensures number { IfOk result (λ n. n ≡ revisions_after number (own_of event.now)) }
{
    let after = revisions_after(number, event)?;
    let written = written_at(alloc, tenant, job, after, event)?;
    append_event(out, &written)?;
    Ok(after)
}

/// How many revisions there are after an own event, where so many came before.
fn revisions_after(number: u32, event: &OwnEvent) -> Result<u32, AllocError>
    ensures { IfOk result (λ n. n ≡ revisions_after number (own_of event.now)) }
{
    match event {
        OwnEvent::Revised(_) => Ok(grown(number as usize, 1, u32::MAX as usize)? as u32),
        _ => Ok(number),
    }
}

/// An own event as a history writes it down, where there are so many revisions after it.
fn written_at(
    alloc: Global,
    tenant: Name,
    job: Name,
    after: u32,
    event: &OwnEvent,
) -> Result<Event, AllocError>
    ensures { IfOk result (λ e. (n : ℕ) → after ≡ revisions_after n (own_of event.now)
        → e ≡ written_at (record { tenant = tenant; job = job }) n (own_of event.now)) }
{
    match event {
        OwnEvent::Opened(ask) => Ok(Event::Open {
            tenant,
            job,
            ask: *ask,
        }),
        OwnEvent::Revised(_) => Ok(Event::Revise {
            tenant,
            job,
            number: after,
        }),
        OwnEvent::Reasked(weight) => Ok(Event::Reask {
            tenant,
            job,
            weight: *weight,
        }),
        OwnEvent::Closed => Ok(Event::Close { tenant, job }),
        OwnEvent::Volume(volume) => balancing(alloc, tenant, job, *volume),
        OwnEvent::Started(index) => Ok(Event::Start {
            tenant,
            job,
            index: *index,
            worker: 1,
        }),
        OwnEvent::Finished(index, outcome) => Ok(Event::Finish {
            tenant,
            job,
            index: *index,
            worker: 1,
            outcome: *outcome,
        }),
        OwnEvent::Exchanged => Ok(Event::Exchange { tenant, job }),
    }
}

/// A balancing of a job alone.
fn balancing(alloc: Global, tenant: Name, job: Name, volume: u32) -> Result<Event, AllocError>
    ensures { IfOk result (λ e. e ≡ Balance (record { tenant = tenant; job = job; volume = volume } ∷ [])) }
{
    let mut volumes = Shares::new(alloc);
    volumes.push(Share {
        tenant,
        job,
        volume,
    })?;
    Ok(Event::Balance { volumes })
}
