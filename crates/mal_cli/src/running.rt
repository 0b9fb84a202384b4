//! Running a script.

ghost use Rattle.std.specs.Prelude.{◌≡◌, ◌≤◌, ℕ, IfOk};
ghost use Rattle.mal_answer.specs.{Answers.{IsAnswerTo, logged}, Commands.{IsStoppedRunOf, Stops, running}};
ghost use Rattle.mal_cli.specs.Stopping.{stops_of};
ghost use Rattle.mal_pool.specs.Posts.{HasRun};
ghost use Rattle.spec_run.specs.Run.{IsRun, replies};
ghost use Rattle.spec_script.specs.Script.{Scripted};

use mal_answer::{Complaint, Texts, script_of};
use mal_hall::Hall;
use mal_pool::{Gate, replies, replies_by, run_all, run_alone};
use mal_script::Script;
use std::alloc::{AllocError, Global};
use std::sync::Wait;
use std::thread::Threads;

/// Runs the script that a text spells with 1 to 64 workers.
#[tactic(auto, using(crate::proofs::Rules::script_lemmas))]
pub fn run_text<R: Threads + Wait + Sync, G: Gate>(
    rt: &R,
    alloc: Global,
    workers: u32,
    text: Vec<u8>,
    gate: &G,
) -> Result<Texts, Complaint>
    requires some { 1 ≤ workers }
    requires bound { workers ≤ 64 }
    ensures { IsAnswerTo (running (stops_of (G.stops gate.now)) workers) text.items result }
{
    let script = script_of(alloc, text)?;
    match run_script(rt, alloc, &script, workers, gate) {
        Ok(texts) => Ok(texts),
        Err(_) => Err(Complaint::OutOfMemory),
    }
}

/// Runs a script with 1 to 64 workers, one of them without a thread, and makes the texts of its history and its replies.
pub fn run_script<R: Threads + Wait + Sync, G: Gate>(
    rt: &R,
    alloc: Global,
    script: &Script,
    workers: u32,
    gate: &G,
) -> Result<Texts, AllocError>
    requires some { 1 ≤ workers }
    requires bound { workers ≤ 64 }
    ensures { IfOk result
        (λ t. IsStoppedRunOf (stops_of (G.stops gate.now)) workers script.now (logged t.log.items) t.out.items) }
{
    if workers == 1 {
        return run_script_alone(alloc, script);
    }
    run_script_by_many(rt, alloc, script, workers, gate)
}

/// Runs a script with one worker, and makes the texts of its history and its replies.
fn run_script_alone(alloc: Global, script: &Script) -> Result<Texts, AllocError>
    ensures { (stops : Stops) → IfOk result (λ t. IsStoppedRunOf stops 1 script.now (logged t.log.items) t.out.items) }
{
    let hall = run_alone(alloc, script, 1)?;
    match replies(alloc, &hall, script) {
        Ok(out) => texts_of(alloc, hall, out),
        Err(error) => {
            drop(hall);
            Err(error)
        }
    }
}

/// Runs a script with 2 to 64 workers, and makes the texts of its history and, with as many threads, of its replies.
fn run_script_by_many<R: Threads + Wait + Sync, G: Gate>(
    rt: &R,
    alloc: Global,
    script: &Script,
    workers: u32,
    gate: &G,
) -> Result<Texts, AllocError>
    requires some { 2 ≤ workers }
    requires bound { workers ≤ 64 }
    ensures { IfOk result
        (λ t. IsStoppedRunOf (stops_of (G.stops gate.now)) workers script.now (logged t.log.items) t.out.items) }
{
    let hall = run_all(rt, alloc, script, workers, gate)?;
    match replies_by(rt, alloc, &hall, script, workers) {
        Ok(out) => texts_of(alloc, hall, out),
        Err(error) => {
            drop(hall);
            Err(error)
        }
    }
}

/// The texts of the history and of the replies of a hall that has run a script: the replies stand in memory before
/// anything is written, the history's text is made while it is written, without memory.
fn texts_of(alloc: Global, hall: Hall, out: Vec<u8>) -> Result<Texts, AllocError>
    ensures { (workers : ℕ) (s : Scripted) → HasRun workers s hall → out.items ≡ replies s hall.events
        → IfOk result (λ t. IsRun workers s hall.events (logged t.log.items) t.out.items) }
{
    let mut log = Vec::new(alloc);
    log.push(hall)?;
    Ok(Texts { log, out })
}
