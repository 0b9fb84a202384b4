//! Serving a feed as it comes: the headline of a live service.

ghost use Rattle.std.specs.Prelude.{◌≡◌, ◌≢◌, ◌⊎◌, ◌≤◌, ℕ, true, List, [], Option, IfOk, IsNone, IsSome, OnErr};
ghost use Rattle.mal_io.specs.Moves.{Rose};
ghost use Rattle.mal_parts.specs.{Reading.{HasRead}, Writing.{HasTold}};
ghost use Rattle.mal_parts.specs.declared.reading.ReadEnd.TheVariants as reading;
ghost use Rattle.mal_serve.specs.{Said.{said_of}, Serving.{HasServed, ends_so, is_read, is_served}};
ghost use Rattle.mal_serve.specs.declared.serving.ServeEnd.TheVariants as serving;
ghost use Rattle.mal_service.specs.Record.{events_of};
ghost use Rattle.mal_turn.specs.{Rule.{IsWhole, opener}, Tokens.{IsOf, view}};

use crate::finishing::{Finished, finish};
use crate::hall::LiveHall;
use crate::passing::{seat_all, take_in};
use mal_io::{Sink, Source};
use mal_live::{Signals, Teller};
use mal_parts::{ReadEnd, serve_parts};
use mal_service::{Pass, Service, Size};
use spec_feed::FeedFault;
use std::alloc::{AllocError, Global};
use std::marker::Brand;
use std::sync::Wait;
use std::thread::Threads;

/// How a live service ended.
#[derive(Clone, Copy, Debug, PartialEq, Eq)]
pub enum ServeEnd {
    /// The input came to its end, and all that it posted was served.
    AtEnd,
    /// A line has a fault; what the lines before it posted was served.
    Fault { line: u64, fault: FeedFault },
    /// The source failed; what was read before was served.
    Failed,
    /// The log or the output failed.
    Broken,
    /// Memory ran out.
    OutOfMemory,
}

/// What is there once no part works any more: the whole pass, how reading ended, and what keeps what was told, unless the
/// log or the output failed.
#[derive(Drop)]
struct Ended<Z: Size> {
    pass: Pass<Z>,
    end: ReadEnd,
    teller: Option<Teller>,
}

/// Serves the feed that a source gives with 1 to 64 workers: each line is posted as it comes, each event is written to the
/// log and each reply to the output as soon as it is there. At the end of the input, after a fault and where the source
/// fails, the jobs that are open are closed and all that was posted is served.
pub fn serve<R: Threads + Wait + Sync, S: Source + Send, K: Sink + Send, L: Sink + Send>(
    rt: &R,
    alloc: Global,
    workers: u32,
    source: &mut S,
    out: &mut K,
    log: &mut L,
) -> ServeEnd
    requires some { 1 ≤ workers }
    requires bound { workers ≤ 64 }
    ensures served { HasServed workers (S.left source.old) (S.left source.new) (L.got log.old) (L.got log.new)
        (K.got out.old) (K.got out.new) result }
    ensures failed { result ≡ serving.Failed → Rose (S.faults source.old) (S.faults source.new) }
    ensures broken { result ≡ serving.Broken
        → Rose (L.faults log.old) (L.faults log.new) ⊎ Rose (K.faults out.old) (K.faults out.new) }
    ensures source_calm { is_read result ≡ true → S.faults source.new ≡ S.faults source.old }
    ensures log_calm { is_served result ≡ true → L.faults log.new ≡ L.faults log.old }
    ensures out_calm { is_served result ≡ true → K.faults out.new ≡ K.faults out.old }
    ensures source_later { S.faults source.old ≤ S.faults source.new }
    ensures log_later { L.faults log.old ≤ L.faults log.new }
    ensures out_later { K.faults out.old ≤ K.faults out.new }
{
    serve_by::<Brand, R, S, K, L>(rt, alloc, workers, source, out, log)
}

/// Serves by a service of so many workers.
fn serve_by<
    Z: Size + Send + Sync,
    R: Threads + Wait + Sync,
    S: Source + Send,
    K: Sink + Send,
    L: Sink + Send,
>(rt: &R, alloc: Global, workers: u32, source: &mut S, out: &mut K, log: &mut L) -> ServeEnd
    requires some { 1 ≤ workers }
    requires bound { workers ≤ 64 }
    requires size { workers ≡ Z.workers }
    ensures served { HasServed workers (S.left source.old) (S.left source.new) (L.got log.old) (L.got log.new)
        (K.got out.old) (K.got out.new) result }
    ensures failed { result ≡ serving.Failed → Rose (S.faults source.old) (S.faults source.new) }
    ensures broken { result ≡ serving.Broken
        → Rose (L.faults log.old) (L.faults log.new) ⊎ Rose (K.faults out.old) (K.faults out.new) }
    ensures source_calm { is_read result ≡ true → S.faults source.new ≡ S.faults source.old }
    ensures log_calm { is_served result ≡ true → L.faults log.new ≡ L.faults log.old }
    ensures out_calm { is_served result ≡ true → K.faults out.new ≡ K.faults out.old }
    ensures source_later { S.faults source.old ≤ S.faults source.new }
    ensures log_later { L.faults log.old ≤ L.faults log.new }
    ensures out_later { K.faults out.old ≤ K.faults out.new }
{
    let Ok((service, pass)) = Service::<Z>::new(alloc, workers) else {
        return ServeEnd::OutOfMemory;
    };
    let hall = LiveHall {
        service,
        signals: Signals::new(workers),
    };
    match run_parts(rt, alloc, &hall, pass, workers, source, out, log) {
        Ok(ended) => conclude(alloc, hall, ended, out, log),
        Err(_) => {
            drop(hall);
            ServeEnd::OutOfMemory
        }
    }
}

/// Lets all parts work at a time, each with a pass of its own, until none works any more, and puts the passes together.
/// Where memory runs out for the seats of the workers, nothing was read or written.
fn run_parts<
    Z: Size + Send + Sync,
    R: Threads + Wait + Sync,
    S: Source + Send,
    K: Sink + Send,
    L: Sink + Send,
>(
    rt: &R,
    alloc: Global,
    hall: &LiveHall<Z>,
    pass: Pass<Z>,
    workers: u32,
    source: &mut S,
    out: &mut K,
    log: &mut L,
) -> Result<Ended<Z>, AllocError>
    requires of { IsOf hall.now.service.turn pass }
    requires new { view pass ≡ opener }
    requires size { workers ≡ Z.workers }
    ensures of { IfOk result (λ w. IsOf hall.now.service.turn w.pass) }
    ensures whole { IfOk result (λ w. IsWhole (view w.pass).of) }
    ensures read { IfOk result
        (λ w. HasRead [] (said_of (view w.pass)) (S.left source.old) (S.left source.new) w.end) }
    ensures told { IfOk result
        (λ w. HasTold workers (events_of (view w.pass).seen) w.teller (L.got log.old) (L.got log.new) (K.got out.old)
        (K.got out.new)) }
    ensures source_later { S.faults source.old ≤ S.faults source.new }
    ensures source_cause { IfOk result
        (λ w. w.end ≡ reading.Failed → Rose (S.faults source.old) (S.faults source.new)) }
    ensures source_counted { IfOk result
        (λ w. w.end ≢ reading.Failed → w.end ≢ reading.OutOfMemory → S.faults source.new ≡ S.faults source.old) }
    ensures log_later { L.faults log.old ≤ L.faults log.new }
    ensures out_later { K.faults out.old ≤ K.faults out.new }
    ensures broken_cause { IfOk result
        (λ w. IsNone w.teller
        → Rose (L.faults log.old) (L.faults log.new) ⊎ Rose (K.faults out.old) (K.faults out.new)) }
    ensures log_counted { IfOk result (λ w. IsSome w.teller → L.faults log.new ≡ L.faults log.old) }
    ensures out_counted { IfOk result (λ w. IsSome w.teller → K.faults out.new ≡ K.faults out.old) }
    ensures untouched { OnErr result
        ((S.left source.new ≡ S.left source.old)
        × (L.got log.new ≡ L.got log.old)
        × (K.got out.new ≡ K.got out.old)) }
{
    let (pass, writer) = hall.service.split(pass);
    let (reader, mut seats) = seat_all(alloc, &hall.service, pass, workers)?;
    let mut reader = Some(reader);
    let mut writer = Some(writer);
    let (end, teller) = serve_parts(
        rt,
        alloc,
        hall,
        workers,
        &mut reader,
        source,
        seats.as_mut_slice(),
        &mut writer,
        log,
        out,
    );
    let Some(reader) = reader else { unreachable!() };
    let Some(writer) = writer else { unreachable!() };
    let pass = hall.service.join(reader, writer);
    Ok(Ended {
        pass: take_in(&hall.service, pass, seats),
        end,
        teller,
    })
}

/// Closes the service and brings its hall to its end, unless the log or the output failed.
fn conclude<Z: Size, K: Sink, L: Sink>(
    alloc: Global,
    hall: LiveHall<Z>,
    ended: Ended<Z>,
    out: &mut K,
    log: &mut L,
) -> ServeEnd
    requires of { IsOf hall.service.turn ended.pass }
    requires whole { IsWhole (view ended.pass).of }
    ensures served { (left left_now log_first out_first : Option (List ℕ))
        → HasRead [] (said_of (view ended.pass)) left left_now ended.end
        → HasTold Z.workers (events_of (view ended.pass).seen) ended.teller log_first (L.got log.old) out_first
        (K.got out.old)
        → HasServed Z.workers left left_now log_first (L.got log.new) out_first (K.got out.new) result }
    ensures failed { result ≡ serving.Failed → ended.end ≡ reading.Failed }
    ensures read { is_read result ≡ true → (ended.end ≢ reading.Failed) × (ended.end ≢ reading.OutOfMemory) }
    ensures told { is_served result ≡ true → IsSome ended.teller }
    ensures log_calm { is_served result ≡ true → L.faults log.new ≡ L.faults log.old }
    ensures out_calm { is_served result ≡ true → K.faults out.new ≡ K.faults out.old }
    ensures broken { result ≡ serving.Broken → IsSome ended.teller
        → Rose (L.faults log.old) (L.faults log.new) ⊎ Rose (K.faults out.old) (K.faults out.new) }
    ensures log_kept { IsNone ended.teller → L.faults log.new ≡ L.faults log.old }
    ensures out_kept { IsNone ended.teller → K.faults out.new ≡ K.faults out.old }
    ensures log_later { L.faults log.old ≤ L.faults log.new }
    ensures out_later { K.faults out.old ≤ K.faults out.new }
{
    let LiveHall {
        service,
        signals: _,
    } = hall;
    let Ended { pass, end, teller } = ended;
    let Ok(hall) = service.close(pass) else {
        unreachable!()
    };
    match teller {
        Some(teller) => ends_with(end, finish(alloc, hall, teller, log, out)),
        None => {
            drop(hall);
            ServeEnd::Broken
        }
    }
}

/// How a service ends whose reading ended so, and whose hall was brought to its end so. Where reading says that a sink
/// failed though the writer does not, not all was read, and no fault was counted.
fn ends_with(end: ReadEnd, finished: Finished) -> ServeEnd
    ensures { result ≡ ends_so end finished }
{
    match (finished, end) {
        (Finished::Whole, ReadEnd::AtEnd) => ServeEnd::AtEnd,
        (Finished::Whole, ReadEnd::Fault { line, fault }) => ServeEnd::Fault { line, fault },
        (Finished::Whole, ReadEnd::Failed) => ServeEnd::Failed,
        (Finished::Broken, _) => ServeEnd::Broken,
        _ => ServeEnd::OutOfMemory,
    }
}
