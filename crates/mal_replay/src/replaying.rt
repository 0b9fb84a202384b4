//! Replaying a history.

ghost use Rattle.std.specs.Prelude.{◌≡◌, ℕ, ◌+◌, ◌<◌, Err, length, IfOk, IfErr};
ghost use Rattle.mal_history.specs.Written.{line_at};
ghost use Rattle.mal_pool.specs.Posts.{HasRun};
ghost use Rattle.mal_replay.specs.Replaying.{AreReplies, HasReplayed};
ghost use Rattle.spec_run.specs.{Replayed.{IsReplay}, Run.{replies}};

use crate::contents::posted_in;
use mal_base::ReplayFault;
use mal_hall::{ApplyFault, Hall};
use mal_history::History;
use mal_learn::Scratch;
use mal_pool::{replies, replies_by};
use mal_posts::have_posts;
use mal_script::Script;
use std::alloc::{AllocError, Global};
use std::thread::Threads;

/// The replies to a script of which this is the history: exactly where it is legal and complete for the script.
/// `NotLegal` names the line of the first event that is not allowed, and `NotComplete` tells that each event is
/// allowed, but that the history does not post what the script says, or that a revision is not answered or a lease is
/// out. Each revision is the script's. The slices that the history says were run are run again, on this thread; the
/// replies are made by as many threads as the run had workers, where it had more than one. What they tell is evident, as
/// of a run: models satisfy, and proofs refute.
pub fn replay<R: Threads + Sync>(
    rt: &R,
    alloc: Global,
    script: &Script,
    history: &History,
) -> Result<Vec<u8>, ReplayFault>
    ensures ok { IfOk result (λ text. AreReplies history.now.workers script.now history.now.events text.items) }
    ensures err { IfErr result
        (λ fault. IsReplay history.now.workers script.now history.now.events (line_at history.now.lines) (Err fault)) }
{
    match enter_all(alloc, script, history) {
        Err(fault) => Err(fault),
        Ok(hall) => answer(rt, alloc, script, history, &hall),
    }
}

/// What is answered where a hall has entered all events.
fn answer<R: Threads + Sync>(
    rt: &R,
    alloc: Global,
    script: &Script,
    history: &History,
    hall: &Hall,
) -> Result<Vec<u8>, ReplayFault>
    requires { HasReplayed script.now history.now (length history.now.events) hall.now }
    ensures ok { IfOk result (λ text. AreReplies history.now.workers script.now history.now.events text.items) }
    ensures err { IfErr result
        (λ fault. IsReplay history.now.workers script.now history.now.events (line_at history.now.lines) (Err fault)) }
{
    // For the proof.
    let _ = hall.history();
    let _ = script.jobs();
    if !hall.is_answered() {
        return Err(ReplayFault::NotComplete);
    }
    if !hall.is_home() {
        return Err(ReplayFault::NotComplete);
    }
    match have_posts(alloc, script, history.events()) {
        Err(_) => Err(ReplayFault::OutOfMemory),
        Ok(false) => Err(ReplayFault::NotComplete),
        Ok(true) => match replies_of(rt, alloc, script, history, hall) {
            Err(_) => Err(ReplayFault::OutOfMemory),
            Ok(text) => Ok(text),
        },
    }
}

/// The replies to a script that a hall has run, made by as many threads as its history has workers; of one worker without
/// a thread.
fn replies_of<R: Threads + Sync>(
    rt: &R,
    alloc: Global,
    script: &Script,
    history: &History,
    hall: &Hall,
) -> Result<Vec<u8>, AllocError>
    requires { (workers : ℕ) × HasRun workers script.now hall.now }
    ensures { IfOk result (λ v. v.items ≡ replies script.now hall.now.events) }
{
    let workers = history.workers();
    if workers == 1 {
        return replies(alloc, hall, script);
    }
    replies_by(rt, alloc, hall, script, workers)
}

/// Enters all events of a history into a hall, each Revise with the script's revision.
fn enter_all(alloc: Global, script: &Script, history: &History) -> Result<Hall, ReplayFault>
    ensures ok { IfOk result (λ h. HasReplayed script.now history.now (length history.now.events) h) }
    ensures err { IfErr result
        (λ fault. IsReplay history.now.workers script.now history.now.events (line_at history.now.lines) (Err fault)) }
{
    let mut scratch = Scratch::new(alloc);
    let mut hall = match Hall::new(alloc, history.workers()) {
        Ok(hall) => hall,
        Err(_) => return Err(ReplayFault::OutOfMemory),
    };
    for n in 0..history.events().len() {
        hall = match enter(script, history, hall, n, &mut scratch) {
            Ok(hall) => hall,
            Err(fault) => return Err(fault),
        };
    }
    Ok(hall)
}

/// Enters the event at this place, counted from 0, after those before it.
fn enter(
    script: &Script,
    history: &History,
    hall: Hall,
    n: usize,
    scratch: &mut Scratch,
) -> Result<Hall, ReplayFault>
    requires within { n < length history.now.events }
    requires replayed { HasReplayed script.now history.now n hall }
    ensures ok { IfOk result (λ h. HasReplayed script.now history.now (n + 1) h) }
    ensures err { IfErr result
        (λ fault. IsReplay history.now.workers script.now history.now.events (line_at history.now.lines) (Err fault)) }
{
    // For the proof.
    let _ = hall.history();
    let event = &history.events()[n];
    let posted = match posted_in(script, event) {
        Ok(posted) => posted,
        Err(_) => return Err(ReplayFault::OutOfMemory),
    };
    match hall.apply(event, posted, scratch) {
        Ok(hall) => Ok(hall),
        Err(ApplyFault::NotAllowed) => Err(ReplayFault::NotLegal {
            line: history.line(n),
        }),
        Err(ApplyFault::OutOfMemory) => Err(ReplayFault::OutOfMemory),
    }
}
