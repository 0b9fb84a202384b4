//! Running the script of a seed.

ghost use Rattle.std.specs.Prelude.{◌<◌, ◌≤◌, ◌^◌, List, ℕ};
ghost use Rattle.mal_answer.specs.{Answers.{IsAnswerTo}, Commands.{running_generated}};
ghost use Rattle.mal_cli.specs.Stopping.{stops_of};

use crate::running::run_script;
use mal_answer::{Complaint, Texts, summarized};
use mal_pool::Gate;
use mal_script::generate;
use std::alloc::Global;
use std::sync::Wait;
use std::thread::Threads;

/// Runs the script of a seed with so many jobs with 1 to 64 workers. It has no input: what it is given stays unread.
pub fn run_generated<R: Threads + Wait + Sync, G: Gate>(
    rt: &R,
    alloc: Global,
    seed: u32,
    jobs: u32,
    workers: u32,
    gate: &G,
) -> Result<Texts, Complaint>
    requires seed { seed < 2 ^ 31 }
    requires some { 1 ≤ jobs }
    requires bound { jobs ≤ 256 }
    requires some_workers { 1 ≤ workers }
    requires workers_bound { workers ≤ 64 }
    ensures { (text : List ℕ) → IsAnswerTo (running_generated (stops_of (G.stops gate.now)) seed jobs workers) text result }
{
    let Ok(script) = generate(alloc, seed, jobs) else {
        return Err(Complaint::OutOfMemory);
    };
    match run_script(rt, alloc, &script, workers, gate) {
        Ok(ran) => summarized(alloc, jobs, ran),
        Err(_) => Err(Complaint::OutOfMemory),
    }
}
