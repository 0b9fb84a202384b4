//! Reading the line of an event, or of the header.

ghost use Rattle.std.specs.Prelude.{◌≡◌, ◌≤◌, ◌<◌, [], ◌∷◌, ◌++◌, length, IfOk, IfSome, OnOk};
ghost use Rattle.std.specs.Arc.{arc_value};
ghost use Rattle.spec_text.specs.Inputs.{words_of};
ghost use Rattle.mal_history.specs.{Sizes.{most_workers}, Reading.{header_of, version_said, outcome_of, opened, revised, reasked, closed, started, finished, exchanged, event_of_job, named_event, balanced, event_of, next_event}, ReadResult.{AreNamed, AreTwo, Gives, IsOnly}};

use crate::event::{Event, Share, Shares};
use crate::fault::EventFault;
use crate::numbers::{ask_in, in_range, profile_in, weight_in};
use crate::sizes::{LAST_NODE, MOST_WORKERS};
use mal_base::{LIMITS, Name, Outcome};
use mal_text::first_word;
use std::alloc::{AllocError, Global};
use std::sync::Arc;

/// What the first line of a history says: the version of the format, 1 or 2, and the number of workers, from 1 to
/// [`MOST_WORKERS`].
#[derive(Clone, Copy)]
pub struct Header {
    pub version: u32,
    pub workers: u32,
}

/// What a header says: its first word, and the line after it.
pub fn read_header(first: &[u8], line: &[u8]) -> Result<Header, EventFault>
    ensures value { Gives result (header_of (first.now ∷ words_of line.now)) }
    ensures some { IfOk result (λ h. 1 ≤ h.workers) }
    ensures bound { IfOk result (λ h. h.workers ≤ most_workers) }
{
    let Some((mal, version, line)) = two_words(line) else {
        return Err(EventFault::BadLine);
    };
    let Some(workers) = only_word(line) else {
        return Err(EventFault::BadLine);
    };
    if first != b"h".as_slice() || mal != b"mal".as_slice() {
        return Err(EventFault::BadLine);
    }
    let version = version_said(version)?;
    let workers = in_range(workers, 1, MOST_WORKERS).ok_or(EventFault::BadNumber)?;
    Ok(Header { version, workers })
}

/// The version of the format that a word says, 1 or 2, each in one spelling.
fn version_said(word: &[u8]) -> Result<u32, EventFault>
    ensures { Gives result (version_said word.now) }
{
    if word == b"1".as_slice() {
        Ok(1)
    } else if word == b"2".as_slice() {
        Ok(2)
    } else {
        Err(EventFault::BadLine)
    }
}

/// The one word of a line, none where it has none or more.
fn only_word(line: &[u8]) -> Option<&[u8]>
    ensures { IsOnly result (words_of line.now) }
{
    match first_word(line) {
        None => None,
        Some((word, behind)) => match first_word(behind) {
            None => Some(word),
            Some(_) => None,
        },
    }
}

/// The event of a line after these events, of which there may be `max`: its first word, and the line after it.
pub fn next_event(
    alloc: Global,
    first: &[u8],
    line: &[u8],
    header: Header,
    events: &[Event],
    max: usize,
) -> Result<Event, EventFault>
    ensures { Gives result
        (next_event max header.version header.workers (length events.now) (first.now ∷ words_of line.now)) }
{
    // TooLong comes after the line's own faults.
    let event = read_event(alloc, first, line, header, events)?;
    if events.len() < max {
        Ok(event)
    } else {
        Err(EventFault::TooLong)
    }
}

/// The event of a line after these events: its first word, and the line after it.
fn read_event(
    alloc: Global,
    first: &[u8],
    line: &[u8],
    header: Header,
    events: &[Event],
) -> Result<Event, EventFault>
    ensures { Gives result (event_of header.version header.workers (first.now ∷ words_of line.now)) }
{
    if first == b"b".as_slice() {
        read_balance(alloc, line, last_shares(events))
    } else {
        read_named(first, line, header)
    }
}

/// The event of this kind, of a line that begins with the names of a tenant and of a job.
fn read_named(kind: &[u8], line: &[u8], header: Header) -> Result<Event, EventFault>
    ensures { Gives result (named_event header.version header.workers kind.now (words_of line.now)) }
{
    let Some((tenant, job, line)) = two_words(line) else {
        return Err(EventFault::BadLine);
    };
    let (tenant, job) = names_in(tenant, job)?;
    read_kind(kind, tenant, job, line, header)
}

/// The event of this kind, of a job of a tenant, of the line after their names. Only version 2 has a `q` line.
fn read_kind(
    kind: &[u8],
    tenant: Name,
    job: Name,
    line: &[u8],
    header: Header,
) -> Result<Event, EventFault>
    ensures { Gives result
        (event_of_job header.version header.workers kind.now tenant job (words_of line.now)) }
{
    if kind == b"o".as_slice() {
        read_open(tenant, job, line)
    } else if kind == b"r".as_slice() {
        read_revise(tenant, job, line)
    } else if kind == b"q".as_slice() && header.version == 2 {
        read_reask(tenant, job, line)
    } else if kind == b"c".as_slice() {
        read_close(tenant, job, line)
    } else if kind == b"s".as_slice() {
        read_start(tenant, job, line, header.workers)
    } else if kind == b"f".as_slice() {
        read_finish(tenant, job, line, header.workers)
    } else if kind == b"x".as_slice() {
        read_exchange(tenant, job, line)
    } else {
        Err(EventFault::BadLine)
    }
}

/// The opening of a job, of the words of its ask and of its profile.
fn read_open(tenant: Name, job: Name, line: &[u8]) -> Result<Event, EventFault>
    ensures { Gives result (opened tenant job (words_of line.now)) }
{
    let Some((priority, demand, line)) = two_words(line) else {
        return Err(EventFault::BadLine);
    };
    let Some((slices, line)) = first_word(line) else {
        return Err(EventFault::BadLine);
    };
    let profile = profile_in(line)?;
    let ask = ask_in(priority, demand, slices, profile)?;
    Ok(Event::Open { tenant, job, ask })
}

/// A revision of a job, of the word of its number.
fn read_revise(tenant: Name, job: Name, line: &[u8]) -> Result<Event, EventFault>
    ensures { Gives result (revised tenant job (words_of line.now)) }
{
    let Some(number) = only_word(line) else {
        return Err(EventFault::BadLine);
    };
    let number = in_range(number, 1, LIMITS.revisions as u32).ok_or(EventFault::BadNumber)?;
    Ok(Event::Revise {
        tenant,
        job,
        number,
    })
}

/// A change of a job's weight, of the words of its priority and its demand.
fn read_reask(tenant: Name, job: Name, line: &[u8]) -> Result<Event, EventFault>
    ensures { Gives result (reasked tenant job (words_of line.now)) }
{
    let Some((priority, line)) = first_word(line) else {
        return Err(EventFault::BadLine);
    };
    let Some(demand) = only_word(line) else {
        return Err(EventFault::BadLine);
    };
    let weight = weight_in(priority, demand)?;
    Ok(Event::Reask {
        tenant,
        job,
        weight,
    })
}

/// The closing of a job, after which no word stands.
fn read_close(tenant: Name, job: Name, line: &[u8]) -> Result<Event, EventFault>
    ensures { Gives result (closed tenant job (words_of line.now)) }
{
    match first_word(line) {
        None => Ok(Event::Close { tenant, job }),
        Some(_) => Err(EventFault::BadLine),
    }
}

/// A start, of the words of a node's index and of a worker.
fn read_start(tenant: Name, job: Name, line: &[u8], workers: u32) -> Result<Event, EventFault>
    ensures { Gives result (started workers tenant job (words_of line.now)) }
{
    let Some((index, line)) = first_word(line) else {
        return Err(EventFault::BadLine);
    };
    let Some(worker) = only_word(line) else {
        return Err(EventFault::BadLine);
    };
    let index = in_range(index, 0, LAST_NODE).ok_or(EventFault::BadNumber)?;
    let worker = in_range(worker, 1, workers).ok_or(EventFault::BadNumber)?;
    Ok(Event::Start {
        tenant,
        job,
        index,
        worker,
    })
}

/// A finish, of the words of a node's index, of a worker, and of an outcome.
fn read_finish(tenant: Name, job: Name, line: &[u8], workers: u32) -> Result<Event, EventFault>
    ensures { Gives result (finished workers tenant job (words_of line.now)) }
{
    let Some((index, worker, line)) = two_words(line) else {
        return Err(EventFault::BadLine);
    };
    let Some(outcome) = only_word(line) else {
        return Err(EventFault::BadLine);
    };
    let outcome = outcome_in(outcome)?;
    let index = in_range(index, 0, LAST_NODE).ok_or(EventFault::BadNumber)?;
    let worker = in_range(worker, 1, workers).ok_or(EventFault::BadNumber)?;
    Ok(Event::Finish {
        tenant,
        job,
        index,
        worker,
        outcome,
    })
}

/// The outcome that a word says.
fn outcome_in(word: &[u8]) -> Result<Outcome, EventFault>
    ensures { Gives result (outcome_of word.now) }
{
    if word == b"ran".as_slice() {
        Ok(Outcome::Ran)
    } else if word == b"starved".as_slice() {
        Ok(Outcome::Starved)
    } else if word == b"lost".as_slice() {
        Ok(Outcome::Lost)
    } else {
        Err(EventFault::BadLine)
    }
}

/// An exchange of a job, after which no word stands.
fn read_exchange(tenant: Name, job: Name, line: &[u8]) -> Result<Event, EventFault>
    ensures { Gives result (exchanged tenant job (words_of line.now)) }
{
    match first_word(line) {
        None => Ok(Event::Exchange { tenant, job }),
        Some(_) => Err(EventFault::BadLine),
    }
}

/// What the last balancing among these events lists, nothing where there is none.
fn last_shares(events: &[Event]) -> &[Arc<Share>] {
    for event in events.iter().rev() {
        if let Event::Balance { volumes } = event {
            return volumes.as_slice();
        }
    }
    &[]
}

/// A balancing, of the names and the volumes of jobs. Volumes out of range count where all names are names. What an
/// earlier balancing lists alike is shared with it.
fn read_balance(alloc: Global, line: &[u8], earlier: &[Arc<Share>]) -> Result<Event, EventFault>
    ensures { Gives result (balanced (words_of line.now)) }
{
    let mut shares = Shares::new(alloc);
    let mut at = 0;
    let mut are_ranged = true;
    let mut rest = line;
    while let Some((tenant, behind)) = first_word(rest) {
        let Some((job, volume, behind)) = two_words(behind) else {
            return Err(EventFault::BadLine);
        };
        let (tenant, job) = names_in(tenant, job)?;
        match in_range(volume, 0, LIMITS.demand) {
            Some(volume) => {
                let share = Share {
                    tenant,
                    job,
                    volume,
                };
                at = put_share(&mut shares, &share, earlier, at)?;
            }
            None => are_ranged = false,
        }
        rest = behind;
    }
    if are_ranged {
        Ok(Event::Balance { volumes: shares })
    } else {
        Err(EventFault::BadNumber)
    }
}

/// Puts a volume after the others, shared with an earlier one where one that is alike stands at this place or near
/// after it. Answers the place from which on the next one is looked for.
fn put_share(
    shares: &mut Shares,
    share: &Share,
    earlier: &[Arc<Share>],
    at: usize,
) -> Result<usize, AllocError>
    ensures { OnOk result (shares.new ≡ shares.old ++ share.now ∷ []) }
{
    match alike(share, earlier, at) {
        Some((other, next)) => {
            shares.push_shared(other)?;
            Ok(next)
        }
        None => {
            shares.push(*share)?;
            Ok(at)
        }
    }
}

/// An equal volume among the 16 from this place on, with the place after it.
fn alike<'a>(share: &Share, earlier: &'a [Arc<Share>], at: usize) -> Option<(&'a Arc<Share>, usize)>
    ensures { IfSome result (λ p. arc_value p.0.now ≡ share.now) }
{
    for n in at..earlier.len().min(at.saturating_add(16)) {
        let other = &earlier[n];
        if other.is_same(share) {
            return Some((other, n + 1));
        }
    }
    None
}

/// The first two words of a line, and the line after them. None where it has fewer.
fn two_words(line: &[u8]) -> Option<(&[u8], &[u8], &[u8])>
    ensures two { AreTwo result (words_of line.now) }
    ensures shorter { IfSome result (λ t. length t.2.now ≤ length line.now) }
{
    let (first, line) = first_word(line)?;
    let (second, line) = first_word(line)?;
    Some((first, second, line))
}

/// The names of a tenant and of a job, where both words are names.
fn names_in(tenant: &[u8], job: &[u8]) -> Result<(Name, Name), EventFault>
    ensures { AreNamed result tenant.now job.now }
{
    let Some(tenant) = Name::of(tenant) else {
        return Err(EventFault::BadLine);
    };
    let Some(job) = Name::of(job) else {
        return Err(EventFault::BadLine);
    };
    Ok((tenant, job))
}
