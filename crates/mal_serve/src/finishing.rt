//! What is left at the end of a live service.

ghost use Rattle.std.specs.Prelude.{◌≡◌, ◌⊎◌, ◌<◌, ◌≤◌, ℕ, List, [], Option, true, false, All, length, drop, map, IfOk, OnOk, Err};
ghost use Rattle.std.specs.Io.KnownBytes.{Appends};
ghost use Rattle.std.specs.List.{list_any};
ghost use Rattle.mal_base.specs.declared.key.Key.{Key};
ghost use Rattle.mal_io.specs.Moves.{GotPrefix, Rose};
ghost use Rattle.mal_live.specs.Telling.{Tells, told_at};
ghost use Rattle.mal_live.specs.declared.telling.TellFault.TheVariants as faults;
ghost use Rattle.mal_serve.specs.Finishing as ends;
ghost use Rattle.mal_serve.specs.Finishing.{HasFinished, HasToldAll, HasToldOpened, TellsSo, untold};
ghost use Rattle.mal_serve.specs.declared.finishing.Finished.TheVariants as finishes;
ghost use Rattle.spec_hall.specs.Events as entered;
ghost use Rattle.spec_hall.specs.{Driven.{GrowsByTurns}, Events.{bare, moves}, Legal.{Legal}, States.{leases, lives, states}};
ghost use Rattle.spec_live.specs.Live.{IsFront, event_lines};

use mal_base::Key;
use mal_hall::Hall;
use mal_history::Event;
use mal_io::Sink;
use mal_learn::Scratch;
use mal_live::{TellFault, Teller};
use mal_service::news_of;
use std::alloc::{AllocError, Global};

/// What came of bringing a hall to its end.
#[derive(Clone, Copy, Debug, PartialEq, Eq)]
pub(crate) enum Finished {
    /// Every revision is answered, and everything was told.
    Whole,
    /// A sink failed.
    Broken,
    /// Memory ran out.
    OutOfMemory,
}

/// Brings a hall to its end once nothing more is posted: drives it until every revision is answered, writes the events
/// that were not written, and tells the replies that were not told.
pub(crate) fn finish<L: Sink, K: Sink>(
    alloc: Global,
    hall: Hall,
    teller: Teller,
    log: &mut L,
    out: &mut K,
) -> Finished
    ensures finished { (past : List entered.Event) (log_first out_first : Option (List ℕ))
        → IsFront past hall.events → list_any moves hall.events ≡ false
        → Tells hall.workers past teller log_first (L.got log.old) out_first (K.got out.old)
        → HasFinished hall.workers hall.events log_first (L.got log.new) out_first (K.got out.new) result }
    ensures log_later { L.faults log.old ≤ L.faults log.new }
    ensures out_later { K.faults out.old ≤ K.faults out.new }
    ensures cause { result ≡ finishes.Broken
        → Rose (L.faults log.old) (L.faults log.new) ⊎ Rose (K.faults out.old) (K.faults out.new) }
    ensures counted { result ≡ finishes.Whole
        → (L.faults log.new ≡ L.faults log.old) × (K.faults out.new ≡ K.faults out.old) }
{
    let mut hall = hall;
    let mut teller = teller;
    match bring_to_end(alloc, &mut hall) {
        Ok(()) => {}
        Err(_) => return Finished::OutOfMemory,
    }
    match tell_rest(alloc, &hall, &mut teller, log, out) {
        Ok(()) => Finished::Whole,
        Err(TellFault::Broken) => Finished::Broken,
        Err(TellFault::OutOfMemory) => Finished::OutOfMemory,
    }
}

/// Drives a hall until every revision is answered. Where a lease is out, nothing can be driven.
fn bring_to_end(alloc: Global, hall: &mut Hall) -> Result<(), AllocError>
    ensures workers { hall.new.workers ≡ hall.old.workers }
    ensures turns { GrowsByTurns hall.old.workers hall.old.events hall.new.events }
    ensures answered { OnOk result (lives (states hall.new.events) ≡ []) }
    ensures legal { Legal hall.old.workers hall.old.events }
{
    // For the proof.
    let _ = hall.history();
    if !hall.is_home() {
        return Err(AllocError);
    }
    // Where memory runs out, the scratch is given up and the hall is driven once more.
    match drive_once(alloc, hall) {
        Ok(()) => Ok(()),
        Err(_) => drive_once(alloc, hall),
    }
}

/// Drives a hall to its end, with a scratch of its own.
fn drive_once(alloc: Global, hall: &mut Hall) -> Result<(), AllocError>
    requires home { leases hall.old.events ≡ [] }
    ensures workers { hall.new.workers ≡ hall.old.workers }
    ensures turns { GrowsByTurns hall.old.workers hall.old.events hall.new.events }
    ensures home { leases hall.new.events ≡ [] }
    ensures answered { OnOk result (lives (states hall.new.events) ≡ []) }
{
    let mut scratch = Scratch::new(alloc);
    let driven = hall.drive(&mut scratch);
    drop(scratch);
    driven
}

/// Writes the events that were not written, and tells the replies that were not told.
fn tell_rest<L: Sink, K: Sink>(
    alloc: Global,
    hall: &Hall,
    teller: &mut Teller,
    log: &mut L,
    out: &mut K,
) -> Result<(), TellFault>
    ensures told { (past : List entered.Event) (log_first out_first : Option (List ℕ))
        → IsFront past hall.now.events → list_any moves hall.now.events ≡ false
        → Tells hall.now.workers past teller.old log_first (L.got log.old) out_first (K.got out.old)
        → TellsSo hall.now.workers hall.now.events teller.new log_first (L.got log.new) out_first (K.got out.new)
        result }
    ensures done { OnOk result (All (HasToldOpened hall.now.events teller.new) (map bare hall.now.events)) }
    ensures log_later { L.faults log.old ≤ L.faults log.new }
    ensures out_later { K.faults out.old ≤ K.faults out.new }
    ensures cause { result ≡ Err faults.Broken
        → Rose (L.faults log.old) (L.faults log.new) ⊎ Rose (K.faults out.old) (K.faults out.new) }
    ensures log_counted { OnOk result (L.faults log.new ≡ L.faults log.old) }
    ensures out_counted { OnOk result (K.faults out.new ≡ K.faults out.old) }
{
    match write_news(alloc, hall, teller, log) {
        Ok(()) => tell_jobs(hall, teller, out),
        Err(fault) => Err(fault),
    }
}

/// Writes the events that were not written.
fn write_news<L: Sink>(
    alloc: Global,
    hall: &Hall,
    teller: &mut Teller,
    log: &mut L,
) -> Result<(), TellFault>
    ensures all { OnOk result
        (Appends (L.got log.old) (L.got log.new) (event_lines (drop teller.old.written hall.now.events))) }
    ensures written { OnOk result (teller.new.written ≡ length hall.now.events) }
    ensures counts { (k : Key) → told_at teller.new k ≡ told_at teller.old k }
    ensures prefix { (prefix : List ℕ)
        × GotPrefix (L.got log.old) (L.got log.new) (event_lines (drop teller.old.written hall.now.events)) prefix }
    ensures legal { Legal hall.now.workers hall.now.events }
    ensures later { L.faults log.old ≤ L.faults log.new }
    ensures cause { result ≡ Err faults.Broken → Rose (L.faults log.old) (L.faults log.new) }
    ensures counted { OnOk result (L.faults log.new ≡ L.faults log.old) }
{
    // For the proof.
    let _ = hall.history();
    let Ok(news) = news_of(alloc, hall, teller.written()) else {
        return Err(TellFault::OutOfMemory);
    };
    teller.write(log, &news.text, news.count)
}

/// Tells the replies to all jobs that were not told.
fn tell_jobs<K: Sink>(hall: &Hall, teller: &mut Teller, out: &mut K) -> Result<(), TellFault>
    ensures told { (log_first log_now out_first : Option (List ℕ))
        → Tells hall.now.workers hall.now.events teller.old log_first log_now out_first (K.got out.old)
        → TellsSo hall.now.workers hall.now.events teller.new log_first log_now out_first (K.got out.new) result }
    ensures done { OnOk result (All (HasToldOpened hall.now.events teller.new) (map bare hall.now.events)) }
    ensures later { K.faults out.old ≤ K.faults out.new }
    ensures cause { result ≡ Err faults.Broken → Rose (K.faults out.old) (K.faults out.new) }
    ensures counted { OnOk result (K.faults out.new ≡ K.faults out.old) }
{
    for event in hall.history().events() {
        tell_opened(hall, teller, out, event)?;
    }
    Ok(())
}

/// Tells the replies to the job that an event opens, if it opens one.
fn tell_opened<K: Sink>(
    hall: &Hall,
    teller: &mut Teller,
    out: &mut K,
    event: &Event,
) -> Result<(), TellFault>
    ensures told { (log_first log_now out_first : Option (List ℕ))
        → Tells hall.now.workers hall.now.events teller.old log_first log_now out_first (K.got out.old)
        → TellsSo hall.now.workers hall.now.events teller.new log_first log_now out_first (K.got out.new) result }
    ensures more { OnOk result ((k : Key) → told_at teller.old k ≤ told_at teller.new k) }
    ensures done { OnOk result (HasToldOpened hall.now.events teller.new event.now) }
    ensures later { K.faults out.old ≤ K.faults out.new }
    ensures cause { result ≡ Err faults.Broken → Rose (K.faults out.old) (K.faults out.new) }
    ensures counted { OnOk result (K.faults out.new ≡ K.faults out.old) }
{
    match opened_by(event) {
        Some(key) => tell_job(hall, teller, out, &key),
        None => Ok(()),
    }
}

/// The job that an event opens.
fn opened_by(event: &Event) -> Option<Key>
    ensures { result ≡ ends.opened_by event.now }
{
    match event {
        Event::Open { tenant, job, .. } => Some(Key {
            tenant: *tenant,
            job: *job,
        }),
        _ => None,
    }
}

/// Tells the replies to a job that were not told, as far as its revisions are answered.
fn tell_job<K: Sink>(
    hall: &Hall,
    teller: &mut Teller,
    out: &mut K,
    key: &Key,
) -> Result<(), TellFault>
    ensures told { (log_first log_now out_first : Option (List ℕ))
        → Tells hall.now.workers hall.now.events teller.old log_first log_now out_first (K.got out.old)
        → TellsSo hall.now.workers hall.now.events teller.new log_first log_now out_first (K.got out.new) result }
    ensures more { OnOk result ((k : Key) → told_at teller.old k ≤ told_at teller.new k) }
    ensures done { OnOk result (HasToldAll hall.now.events teller.new key.now) }
    ensures later { K.faults out.old ≤ K.faults out.new }
    ensures cause { result ≡ Err faults.Broken → Rose (K.faults out.old) (K.faults out.new) }
    ensures counted { OnOk result (K.faults out.new ≡ K.faults out.old) }
{
    while tell_next(hall, teller, out, key)? {}
    Ok(())
}

/// Tells the next reply to a job: false where its revision is not answered.
fn tell_next<K: Sink>(
    hall: &Hall,
    teller: &mut Teller,
    out: &mut K,
    key: &Key,
) -> Result<bool, TellFault>
    ensures told { (log_first log_now out_first : Option (List ℕ))
        → Tells hall.now.workers hall.now.events teller.old log_first log_now out_first (K.got out.old)
        → TellsSo hall.now.workers hall.now.events teller.new log_first log_now out_first (K.got out.new) result }
    ensures more { OnOk result ((k : Key) → told_at teller.old k ≤ told_at teller.new k) }
    ensures done { IfOk result (λ went. went ≡ false → HasToldAll hall.now.events teller.new key.now) }
    ensures fewer { IfOk result
        (λ went. went ≡ true → untold hall.now.events teller.new key.now < untold hall.now.events teller.old key.now) }
    ensures later { K.faults out.old ≤ K.faults out.new }
    ensures cause { result ≡ Err faults.Broken → Rose (K.faults out.old) (K.faults out.new) }
    ensures counted { OnOk result (K.faults out.new ≡ K.faults out.old) }
{
    let Some(r) = teller.next(*key) else {
        return Err(TellFault::OutOfMemory);
    };
    match hall.reply(&key.tenant, &key.job, r) {
        Ok(Some(text)) => match teller.tell(out, *key, &text) {
            Ok(()) => Ok(true),
            Err(fault) => Err(fault),
        },
        Ok(None) => Ok(false),
        Err(_) => Err(TellFault::OutOfMemory),
    }
}
