//! Running a script on one thread.

ghost use Rattle.std.specs.Prelude.{◌≡◌, ◌≤◌, ◌++◌, [], ◌∷◌, flat_map, IfOk, OnOk};
ghost use Rattle.mal_pool.specs.Posts.{HasRun};
ghost use Rattle.mal_posts.specs.Dues.{event_of};
ghost use Rattle.spec_hall.specs.{Driven.{GrowsByTurns, IsDriven}, Legal.{Allowed}, States.{leases, lives, states}};
ghost use Rattle.spec_run.specs.{Complete.{key_of_job, job_events, open_events, script_events}, Losses.{NoneIsLost}, Posting.{IsOpen}};
ghost use Rattle.mal_base.specs.Limits.{limits};
ghost use Rattle.spec_script.specs.{Formed.{IsJob, MayAllFollow}};

use crate::due::post_of;
use crate::posting::refused;
use mal_hall::Hall;
use mal_learn::Scratch;
use mal_posts::{Cursor, Due};
use mal_script::{Script, ScriptJob};
use std::alloc::{AllocError, Global};

/// Runs a script with 1 to 64 workers on this thread: all jobs are opened, and then job by job its steps and its
/// closing are posted, in the order of the script. The hall is driven as its first worker until every revision is
/// answered, so its history comes by turns, and no lease is lost.
pub fn run_alone(alloc: Global, script: &Script, workers: u32) -> Result<Hall, AllocError>
    requires some { 1 ≤ workers }
    requires bound { workers ≤ 64 }
    ensures run { IfOk result (λ h. HasRun workers script.now h) }
    ensures sequential { IfOk result (λ h. IsDriven workers (script_events script.now) h.events) }
    ensures none_lost { IfOk result (λ h. NoneIsLost h.events) }
{
    let mut hall = Hall::new(alloc, workers)?;
    match run_in(alloc, &mut hall, script) {
        Ok(()) => Ok(hall),
        Err(error) => {
            drop(hall);
            Err(error)
        }
    }
}

/// Runs a script in a hall without events.
fn run_in(alloc: Global, hall: &mut Hall, script: &Script) -> Result<(), AllocError>
    requires new { hall.old.events ≡ [] }
    ensures workers { hall.new.workers ≡ hall.old.workers }
    ensures run { OnOk result (HasRun hall.old.workers script.now hall.new) }
    ensures sequential { OnOk result (IsDriven hall.old.workers (script_events script.now) hall.new.events) }
    ensures none_lost { OnOk result (NoneIsLost hall.new.events) }
{
    post_script(hall, script)?;
    drive_once(alloc, hall)?;
    // For the proof.
    let _ = hall.history();
    Ok(())
}

/// Posts a script in a hall without events: all jobs are opened, and then job by job its steps and its closing are posted,
/// in the order of the script.
pub fn post_script(hall: &mut Hall, script: &Script) -> Result<(), AllocError>
    requires new { hall.old.events ≡ [] }
    ensures workers { hall.new.workers ≡ hall.old.workers }
    ensures events { OnOk result (hall.new.events ≡ script_events script.now) }
{
    open_all(hall, script.jobs())?;
    post_all(hall, script.jobs())
}

/// Drives a hall to its end, with a scratch of its own.
pub fn drive_once(alloc: Global, hall: &mut Hall) -> Result<(), AllocError>
    requires home { leases hall.old.events ≡ [] }
    ensures workers { hall.new.workers ≡ hall.old.workers }
    ensures turns { GrowsByTurns hall.old.workers hall.old.events hall.new.events }
    ensures home { leases hall.new.events ≡ [] }
    ensures answered { OnOk result (lives (states hall.new.events) ≡ []) }
{
    let mut scratch = Scratch::new(alloc);
    let driven = hall.drive(&mut scratch);
    drop(scratch);
    driven
}

/// Opens the jobs of a script in a hall without events.
fn open_all(hall: &mut Hall, jobs: &[ScriptJob]) -> Result<(), AllocError>
    requires new { hall.old.events ≡ [] }
    requires follow { MayAllFollow limits [] jobs.now }
    ensures workers { hall.new.workers ≡ hall.old.workers }
    ensures events { OnOk result (hall.new.events ≡ open_events jobs.now) }
{
    for job in jobs {
        post_due(hall, &Due::Opening(job))?;
    }
    Ok(())
}

/// Posts the steps and the closings of a script's jobs, all of which were just opened.
fn post_all(hall: &mut Hall, jobs: &[ScriptJob]) -> Result<(), AllocError>
    requires opened { hall.old.events ≡ open_events jobs.now }
    requires follow { MayAllFollow limits [] jobs.now }
    ensures workers { hall.new.workers ≡ hall.old.workers }
    ensures events { OnOk result (hall.new.events ≡ hall.old.events ++ flat_map job_events jobs.now) }
{
    for job in jobs {
        post_job(hall, job)?;
    }
    Ok(())
}

/// Posts the steps and the closing of a job that has no revision.
fn post_job(hall: &mut Hall, job: &ScriptJob) -> Result<(), AllocError>
    requires opened { IsOpen (key_of_job job.now) [] hall.old.events }
    requires formed { IsJob limits job.now }
    ensures workers { hall.new.workers ≡ hall.old.workers }
    ensures events { OnOk result (hall.new.events ≡ hall.old.events ++ job_events job.now) }
{
    let mut cursor = Cursor::of_job(job);
    while let Some(due) = cursor.next() {
        post_due(hall, &due)?;
    }
    Ok(())
}

/// Posts what is due, where the hall allows it.
fn post_due(hall: &mut Hall, due: &Due<'_>) -> Result<(), AllocError>
    requires { Allowed hall.old.workers hall.old.events (event_of due.now) }
    ensures workers { hall.new.workers ≡ hall.old.workers }
    ensures events { OnOk result (hall.new.events ≡ hall.old.events ++ event_of due.now ∷ []) }
{
    match hall.post(post_of(due)?) {
        Ok(()) => Ok(()),
        Err(fault) => match refused(fault) {
            Ok(_) => unreachable!(),
            Err(error) => Err(error),
        },
    }
}
