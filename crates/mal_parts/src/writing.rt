//! The writer of a live service.

ghost use Rattle.std.specs.Prelude.{◌≡◌, ◌≢◌, ◌⊎◌, ◌≤◌, ℕ, List, Option, None, Some, IsNone, IsSome};
ghost use Rattle.mal_io.specs.Moves.{Rose};
ghost use Rattle.mal_live.specs.Telling.{Tells};
ghost use Rattle.mal_live.specs.declared.telling.Teller.{Teller};
ghost use Rattle.mal_parts.specs.Writing.{HasTold, Shows, ToldSo, teller_after};
ghost use Rattle.mal_parts.specs.declared.writing.Step.TheVariants.{Broken};
ghost use Rattle.spec_hall.specs.Events.{Event};

use crate::asking::{Asking, again};
use crate::heading::write_first_line;
use mal_base::Key;
use mal_io::Sink;
use mal_live::{LiveDesk, News, Seen, Signals, TellFault, Teller};
use std::alloc::Global;
use std::sync::Wait;
use std::thread;

/// What was told, and whom to ask.
#[derive(Drop)]
struct Telling {
    teller: Teller,
    asking: Asking,
}

/// What a look of the writer came to.
#[derive(Clone, Copy, Debug, PartialEq, Eq)]
pub enum Step {
    /// Something was told, or some job is due to be asked about.
    More,
    /// There is nothing to tell now.
    Nothing,
    /// Memory ran out.
    OutOfMemory,
    /// A sink failed.
    Broken,
}

/// Writes the first line of the history, each event as it is entered, and each reply as soon as it is there, until no
/// worker works any more. None where a sink failed.
pub fn tell_all<R: Wait, P: Send + Drop, D: LiveDesk<P>, L: Sink, K: Sink>(
    rt: &R,
    alloc: Global,
    desk: &D,
    pass: P,
    workers: u32,
    log: &mut L,
    out: &mut K,
) -> (P, Option<Teller>)
    requires of { D.is_of desk.now pass }
    requires size { workers ≡ D.workers desk.now }
    ensures of { D.is_of desk.now result.0 }
    ensures numbers { D.numbers result.0 ≡ D.numbers pass }
    ensures said { D.said result.0 ≡ D.said pass }
    ensures told { HasTold workers (D.seen result.0) result.1 (L.got log.old) (L.got log.new) (K.got out.old)
        (K.got out.new) }
    ensures log_later { L.faults log.old ≤ L.faults log.new }
    ensures out_later { K.faults out.old ≤ K.faults out.new }
    ensures cause { IsNone result.1
        → Rose (L.faults log.old) (L.faults log.new) ⊎ Rose (K.faults out.old) (K.faults out.new) }
    ensures log_counted { IsSome result.1 → L.faults log.new ≡ L.faults log.old }
    ensures out_counted { IsSome result.1 → K.faults out.new ≡ K.faults out.old }
{
    let signals = desk.signals();
    match write_first_line(log, workers) {
        Ok(()) => {}
        Err(_) => {
            signals.break_off();
            return (pass, None);
        }
    }
    let mut telling = Telling {
        teller: Teller::new(alloc),
        asking: Asking::new(alloc),
    };
    let mut pass = pass;
    for _ in rt.forever() {
        // What rings from here on is not slept through.
        let heard = signals.news.heard();
        let deserted = signals.is_deserted();
        let (back, step) = tell_next(rt, alloc, desk, pass, &mut telling, log, out);
        pass = back;
        match step {
            Step::More => {}
            Step::Nothing => {
                if deserted {
                    return (pass, Some(telling.teller));
                }
                signals.news.sleep(rt, heard);
            }
            Step::OutOfMemory => {
                if deserted {
                    return (pass, Some(telling.teller));
                }
                thread::yield_now();
            }
            Step::Broken => {
                signals.break_off();
                return (pass, None);
            }
        }
    }
    unreachable!()
}

/// Asks for the next reply to a job, writes the events that came since, and tells the reply where it is there.
fn tell_next<R: Wait, P: Send + Drop, D: LiveDesk<P>, L: Sink, K: Sink>(
    rt: &R,
    alloc: Global,
    desk: &D,
    pass: P,
    telling: &mut Telling,
    log: &mut L,
    out: &mut K,
) -> (P, Step)
    requires of { D.is_of desk.now pass }
    ensures of { D.is_of desk.now result.0 }
    ensures numbers { D.numbers result.0 ≡ D.numbers pass }
    ensures said { D.said result.0 ≡ D.said pass }
    ensures told { (log_start out_start : Option (List ℕ))
        → HasTold (D.workers desk.now) (D.seen pass) (Some telling.old.teller) log_start (L.got log.old) out_start
        (K.got out.old)
        → HasTold (D.workers desk.now) (D.seen result.0) (teller_after result.1 telling.new.teller) log_start
        (L.got log.new) out_start (K.got out.new) }
    ensures log_later { L.faults log.old ≤ L.faults log.new }
    ensures out_later { K.faults out.old ≤ K.faults out.new }
    ensures cause { result.1 ≡ Broken
        → Rose (L.faults log.old) (L.faults log.new) ⊎ Rose (K.faults out.old) (K.faults out.new) }
    ensures log_counted { result.1 ≢ Broken → L.faults log.new ≡ L.faults log.old }
    ensures out_counted { result.1 ≢ Broken → K.faults out.new ≡ K.faults out.old }
{
    let key = telling.asking.key();
    let Some(revision) = telling.teller.next(again(&key)) else {
        telling.asking.passed_over();
        return (pass, Step::Nothing);
    };
    let written = telling.teller.written();
    let (pass, seen) = desk.look(rt, alloc, pass, again(&key), revision, written);
    match seen {
        Ok(seen) => (
            pass,
            tell_seen(desk.signals(), telling, key, seen, log, out),
        ),
        Err(_) => (pass, Step::OutOfMemory),
    }
}

/// Writes the events that were seen, and then tells the reply to a job, which they explain.
fn tell_seen<L: Sink, K: Sink>(
    signals: &Signals,
    telling: &mut Telling,
    key: Key,
    seen: Seen,
    log: &mut L,
    out: &mut K,
) -> Step
    ensures told { (workers : ℕ) (past history : List Event) (log_start out_start : Option (List ℕ))
        → Shows workers past history telling.old.teller key seen
        → Tells workers past telling.old.teller log_start (L.got log.old) out_start (K.got out.old)
        → ToldSo workers history (teller_after result telling.new.teller) log_start (L.got log.new) out_start
        (K.got out.new) }
    ensures log_later { L.faults log.old ≤ L.faults log.new }
    ensures out_later { K.faults out.old ≤ K.faults out.new }
    ensures cause { result ≡ Broken
        → Rose (L.faults log.old) (L.faults log.new) ⊎ Rose (K.faults out.old) (K.faults out.new) }
    ensures log_counted { result ≢ Broken → L.faults log.new ≡ L.faults log.old }
    ensures out_counted { result ≢ Broken → K.faults out.new ≡ K.faults out.old }
{
    let Seen { reply, news } = seen;
    let News {
        text,
        count,
        touched,
    } = news;
    match telling.teller.write(log, text.as_slice(), count) {
        Ok(()) => {}
        Err(_) => return Step::Broken,
    }
    let Some(reply) = reply else {
        return pass_over(&mut telling.asking, touched, !text.is_empty());
    };
    telling.asking.add(touched);
    match telling.teller.tell(out, key, reply.as_slice()) {
        Ok(()) => {
            signals.reply_told();
            Step::More
        }
        Err(TellFault::Broken) => Step::Broken,
        Err(TellFault::OutOfMemory) => Step::OutOfMemory,
    }
}

/// What comes next where the job that was asked about has no reply: nothing, where no events came and no job is due.
fn pass_over(asking: &mut Asking, touched: Vec<Key>, are_new: bool) -> Step
    ensures told { (t : Teller) → teller_after result t ≡ Some t }
    ensures calm { result ≢ Broken }
{
    asking.passed_over();
    asking.add(touched);
    if are_new {
        return Step::More;
    }
    if asking.is_idle() {
        return Step::Nothing;
    }
    Step::More
}
