//! All parts of a live service, at a time.

ghost use Rattle.std.specs.Prelude.{◌≡◌, ◌≢◌, ◌⊎◌, ◌≤◌, ℕ, List, [], All, IsNone, IsSome, IsSomeAnd};
ghost use Rattle.mal_io.specs.Moves.{Rose};
ghost use Rattle.mal_parts.specs.Parts.{AreBack, IsBack};
ghost use Rattle.mal_parts.specs.Reading.{HasRead};
ghost use Rattle.mal_parts.specs.Writing.{HasTold};
ghost use Rattle.mal_parts.specs.declared.reading.ReadEnd.TheVariants as ReadEnd;

use crate::reading::{ReadEnd, read_all};
use crate::working::work_all;
use crate::writing::tell_all;
use mal_io::{Sink, Source};
use mal_live::{LiveDesk, Teller};
use std::alloc::Global;
use std::sync::Wait;
use std::thread::{self, Threads, join_mut};

/// A worker, 1 to the number of workers, and the place of its pass.
#[derive(Drop)]
pub struct Seat<P> {
    pub worker: u32,
    pub pass: Option<P>,
}

/// Reads, works and writes at a time, in a thread for each, until what was posted is answered and told, or something
/// has failed. Where no thread can be had, all is read, then the work is done, and then it is written. Each pass lies in
/// its place before and after.
pub fn serve_parts<
    R: Threads + Wait + Sync,
    P: Send + Drop,
    D: LiveDesk<P>,
    S: Source + Send,
    L: Sink + Send,
    K: Sink + Send,
>(
    rt: &R,
    alloc: Global,
    desk: &D,
    workers: u32,
    reader: &mut Option<P>,
    source: &mut S,
    seats: &mut [Seat<P>],
    writer: &mut Option<P>,
    log: &mut L,
    out: &mut K,
) -> (ReadEnd, Option<Teller>)
    requires size { workers ≡ D.workers desk.now }
    requires reader { IsSomeAnd reader.old (D.is_of desk.now) }
    requires seats { All (λ s. IsSomeAnd s.pass (D.is_of desk.now) × (1 ≤ s.worker) × (s.worker ≤ workers)) seats.old }
    requires writer { IsSomeAnd writer.old (λ p. D.is_of desk.now p × (D.seen p ≡ [])) }
    ensures reader { IsBack (D.is_of desk.now) D.numbers
        (λ p q. HasRead (D.said p) (D.said q) (S.left source.old) (S.left source.new) result.0) reader.old reader.new }
    ensures seats { AreBack (D.is_of desk.now) D.numbers (λ p q. D.said q ≡ D.said p) seats.old seats.new }
    ensures writer { IsBack (D.is_of desk.now) D.numbers
        (λ p q. (D.said q ≡ D.said p)
        × HasTold workers (D.seen q) result.1 (L.got log.old) (L.got log.new) (K.got out.old) (K.got out.new))
        writer.old writer.new }
    ensures source_later { S.faults source.old ≤ S.faults source.new }
    ensures source_cause { result.0 ≡ ReadEnd.Failed → Rose (S.faults source.old) (S.faults source.new) }
    ensures source_counted { result.0 ≢ ReadEnd.Failed → result.0 ≢ ReadEnd.OutOfMemory
        → S.faults source.new ≡ S.faults source.old }
    ensures log_later { L.faults log.old ≤ L.faults log.new }
    ensures out_later { K.faults out.old ≤ K.faults out.new }
    ensures broken_cause { IsNone result.1
        → Rose (L.faults log.old) (L.faults log.new) ⊎ Rose (K.faults out.old) (K.faults out.new) }
    ensures log_counted { IsSome result.1 → L.faults log.new ≡ L.faults log.old }
    ensures out_counted { IsSome result.1 → K.faults out.new ≡ K.faults out.old }
{
    serve_in(
        rt, alloc, desk, &workers, reader, source, seats, writer, log, out,
    )
}

/// The same, where the number of workers lies in a place, as what threads share must.
fn serve_in<
    R: Threads + Wait + Sync,
    P: Send + Drop,
    D: LiveDesk<P>,
    S: Source + Send,
    L: Sink + Send,
    K: Sink + Send,
>(
    rt: &R,
    alloc: Global,
    desk: &D,
    workers: &u32,
    reader: &mut Option<P>,
    source: &mut S,
    seats: &mut [Seat<P>],
    writer: &mut Option<P>,
    log: &mut L,
    out: &mut K,
) -> (ReadEnd, Option<Teller>)
    requires size { workers.now ≡ D.workers desk.now }
    requires reader { IsSomeAnd reader.old (D.is_of desk.now) }
    requires seats { All (λ s. IsSomeAnd s.pass (D.is_of desk.now) × (1 ≤ s.worker) × (s.worker ≤ workers.now)) seats.old }
    requires writer { IsSomeAnd writer.old (λ p. D.is_of desk.now p × (D.seen p ≡ [])) }
    ensures reader { IsBack (D.is_of desk.now) D.numbers
        (λ p q. HasRead (D.said p) (D.said q) (S.left source.old) (S.left source.new) result.0) reader.old reader.new }
    ensures seats { AreBack (D.is_of desk.now) D.numbers (λ p q. D.said q ≡ D.said p) seats.old seats.new }
    ensures writer { IsBack (D.is_of desk.now) D.numbers
        (λ p q. (D.said q ≡ D.said p)
        × HasTold workers.now (D.seen q) result.1 (L.got log.old) (L.got log.new) (K.got out.old) (K.got out.new))
        writer.old writer.new }
    ensures source_later { S.faults source.old ≤ S.faults source.new }
    ensures source_cause { result.0 ≡ ReadEnd.Failed → Rose (S.faults source.old) (S.faults source.new) }
    ensures source_counted { result.0 ≢ ReadEnd.Failed → result.0 ≢ ReadEnd.OutOfMemory
        → S.faults source.new ≡ S.faults source.old }
    ensures log_later { L.faults log.old ≤ L.faults log.new }
    ensures out_later { K.faults out.old ≤ K.faults out.new }
    ensures broken_cause { IsNone result.1
        → Rose (L.faults log.old) (L.faults log.new) ⊎ Rose (K.faults out.old) (K.faults out.new) }
    ensures log_counted { IsSome result.1 → L.faults log.new ≡ L.faults log.old }
    ensures out_counted { IsSome result.1 → K.faults out.new ≡ K.faults out.old }
{
    let (told, end) = join_mut(
        rt,
        &mut || -> Option<Teller>
            requires size { workers.now ≡ D.workers desk.now }
            requires writer { IsSomeAnd writer.now (λ p. D.is_of desk.now p × (D.seen p ≡ [])) }
            ensures writer { IsBack (D.is_of desk.entry.now) D.numbers
                (λ p q. (D.said q ≡ D.said p)
                × HasTold workers.entry.now (D.seen q) result (L.got log.entry.now) (L.got log.exit.now) (K.got out.entry.now) (K.got out.exit.now))
                writer.entry.now writer.exit.now }
            ensures log_later { L.faults log.entry.now ≤ L.faults log.exit.now }
            ensures out_later { K.faults out.entry.now ≤ K.faults out.exit.now }
            ensures cause { IsNone result
                → Rose (L.faults log.entry.now) (L.faults log.exit.now) ⊎ Rose (K.faults out.entry.now) (K.faults out.exit.now) }
            ensures log_counted { IsSome result → L.faults log.exit.now ≡ L.faults log.entry.now }
            ensures out_counted { IsSome result → K.faults out.exit.now ≡ K.faults out.entry.now }
        { write_part(rt, alloc, desk, *workers, writer, log, out) },
        &mut || -> ReadEnd
            requires reader { IsSomeAnd reader.now (D.is_of desk.now) }
            requires seats { All (λ s. IsSomeAnd s.pass (D.is_of desk.now) × (1 ≤ s.worker) × (s.worker ≤ D.workers desk.now)) seats.now }
        { read_and_work(rt, alloc, desk, reader, source, seats) },
    );
    (end, told)
}

/// Reads and works at a time.
fn read_and_work<R: Threads + Wait + Sync, P: Send + Drop, D: LiveDesk<P>, S: Source>(
    rt: &R,
    alloc: Global,
    desk: &D,
    reader: &mut Option<P>,
    source: &mut S,
    seats: &mut [Seat<P>],
) -> ReadEnd
    requires reader { IsSomeAnd reader.old (D.is_of desk.now) }
    requires seats { All (λ s. IsSomeAnd s.pass (D.is_of desk.now) × (1 ≤ s.worker) × (s.worker ≤ D.workers desk.now)) seats.old }
    ensures reader { IsBack (D.is_of desk.now) D.numbers
        (λ p q. HasRead (D.said p) (D.said q) (S.left source.old) (S.left source.new) result) reader.old reader.new }
    ensures seats { AreBack (D.is_of desk.now) D.numbers (λ p q. D.said q ≡ D.said p) seats.old seats.new }
    ensures later { S.faults source.old ≤ S.faults source.new }
    ensures cause { result ≡ ReadEnd.Failed → Rose (S.faults source.old) (S.faults source.new) }
    ensures counted { result ≢ ReadEnd.Failed → result ≢ ReadEnd.OutOfMemory
        → S.faults source.new ≡ S.faults source.old }
{
    let (_, end) = join_mut(
        rt,
        &mut ||
            requires { All (λ s. IsSomeAnd s.pass (D.is_of desk.now) × (1 ≤ s.worker) × (s.worker ≤ D.workers desk.now)) seats.now }
        { work_part(rt, alloc, desk, seats) },
        &mut || -> ReadEnd
            requires { IsSomeAnd reader.now (D.is_of desk.now) }
        { read_part(rt, alloc, desk, reader, source) },
    );
    end
}

/// The reader's part.
fn read_part<R: Wait, P: Send + Drop, D: LiveDesk<P>, S: Source>(
    rt: &R,
    alloc: Global,
    desk: &D,
    place: &mut Option<P>,
    source: &mut S,
) -> ReadEnd
    requires { IsSomeAnd place.old (D.is_of desk.now) }
    ensures back { IsBack (D.is_of desk.now) D.numbers
        (λ p q. HasRead (D.said p) (D.said q) (S.left source.old) (S.left source.new) result) place.old place.new }
    ensures later { S.faults source.old ≤ S.faults source.new }
    ensures cause { result ≡ ReadEnd.Failed → Rose (S.faults source.old) (S.faults source.new) }
    ensures counted { result ≢ ReadEnd.Failed → result ≢ ReadEnd.OutOfMemory
        → S.faults source.new ≡ S.faults source.old }
{
    let Some(pass) = place.take() else {
        unreachable!()
    };
    let (pass, end) = read_all(rt, alloc, desk, pass, source);
    *place = Some(pass);
    end
}

/// The part of all workers, each in a thread.
fn work_part<R: Threads + Wait + Sync, P: Send + Drop, D: LiveDesk<P>>(
    rt: &R,
    alloc: Global,
    desk: &D,
    seats: &mut [Seat<P>],
)
    requires { All (λ s. IsSomeAnd s.pass (D.is_of desk.now) × (1 ≤ s.worker) × (s.worker ≤ D.workers desk.now)) seats.old }
    ensures { AreBack (D.is_of desk.now) D.numbers (λ p q. D.said q ≡ D.said p) seats.old seats.new }
{
    let threads = seats.len().max(1);
    thread::for_each_mut(
        rt,
        seats,
        threads,
        &|_, seat: &mut Seat<P>|
            requires of { IsSomeAnd seat.now.pass (D.is_of desk.now) }
            requires low { 1 ≤ seat.now.worker }
            requires high { seat.now.worker ≤ D.workers desk.now }
            ensures worker { seat.exit.now.worker ≡ seat.entry.now.worker }
            ensures back { IsBack (D.is_of desk.entry.now) D.numbers (λ p q. D.said q ≡ D.said p) seat.entry.now.pass seat.exit.now.pass }
        { work_at(rt, alloc, desk, seat) },
    );
}

/// The part of a worker.
fn work_at<R: Wait, P: Send + Drop, D: LiveDesk<P>>(
    rt: &R,
    alloc: Global,
    desk: &D,
    seat: &mut Seat<P>,
)
    requires of { IsSomeAnd seat.old.pass (D.is_of desk.now) }
    requires low { 1 ≤ seat.old.worker }
    requires high { seat.old.worker ≤ D.workers desk.now }
    ensures worker { seat.new.worker ≡ seat.old.worker }
    ensures back { IsBack (D.is_of desk.now) D.numbers (λ p q. D.said q ≡ D.said p) seat.old.pass seat.new.pass }
{
    let Some(pass) = seat.pass.take() else {
        unreachable!()
    };
    seat.pass = Some(work_all(rt, alloc, desk, pass, seat.worker));
}

/// The writer's part.
fn write_part<R: Wait, P: Send + Drop, D: LiveDesk<P>, L: Sink, K: Sink>(
    rt: &R,
    alloc: Global,
    desk: &D,
    workers: u32,
    place: &mut Option<P>,
    log: &mut L,
    out: &mut K,
) -> Option<Teller>
    requires size { workers ≡ D.workers desk.now }
    requires of { IsSomeAnd place.old (λ p. D.is_of desk.now p × (D.seen p ≡ [])) }
    ensures back { IsBack (D.is_of desk.now) D.numbers
        (λ p q. (D.said q ≡ D.said p)
        × HasTold workers (D.seen q) result (L.got log.old) (L.got log.new) (K.got out.old) (K.got out.new))
        place.old place.new }
    ensures log_later { L.faults log.old ≤ L.faults log.new }
    ensures out_later { K.faults out.old ≤ K.faults out.new }
    ensures cause { IsNone result
        → Rose (L.faults log.old) (L.faults log.new) ⊎ Rose (K.faults out.old) (K.faults out.new) }
    ensures log_counted { IsSome result → L.faults log.new ≡ L.faults log.old }
    ensures out_counted { IsSome result → K.faults out.new ≡ K.faults out.old }
{
    let Some(pass) = place.take() else {
        unreachable!()
    };
    let (pass, told) = tell_all(rt, alloc, desk, pass, workers, log, out);
    *place = Some(pass);
    told
}
