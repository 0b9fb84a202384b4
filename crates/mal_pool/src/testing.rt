//! Tests of a hall's history: whether a lease was lost, and whether tenants posted what a script says and no job moved.

ghost use Rattle.std.specs.Prelude.{◌≡◌, ◌↔◌, ◌≤◌, true, ◌&&◌, not, [], bytes_eq, length, IfOk, IsTrue};
ghost use Rattle.std.specs.List.{list_any};
ghost use Rattle.mal_pool.specs.Testing.{AreThePosts, HasStep, HasSteps, HaveContents, HasPosts, is_loss, is_move};
ghost use Rattle.spec_hall.specs.{Dressed.{revisions_of}, Driven.{was_lost}, States.{states}};
ghost use Rattle.spec_run.specs.Complete.{key_of_job};
ghost use Rattle.mal_base.specs.Limits.{limits};
ghost use Rattle.spec_script.specs.{Formed.{MayAllFollow}, Script.{revisions_in}};

use mal_base::{Name, Outcome};
use mal_hall::Hall;
use mal_history::{Event, History};
use mal_posts::have_posts;
use mal_script::{Script, ScriptJob, Step, revisions_of};
use std::alloc::{AllocError, Global};

/// Whether a lease was lost though the gate stopped nobody.
pub fn has_lost_unasked(history: &History, stopped: bool) -> bool
    ensures { result ≡ (list_any is_loss history.now.events && not stopped) }
{
    has_lost(history) && !stopped
}

/// Whether a lease was lost.
fn has_lost(history: &History) -> bool
    ensures { result ≡ list_any is_loss history.now.events }
{
    history.events().iter().any(|event| is_loss(event))
}

/// Whether an event is the loss of a lease.
fn is_loss(event: &Event) -> bool
    ensures { result ≡ is_loss event.now }
{
    match event {
        Event::Finish { outcome, .. } => was_lost(*outcome),
        _ => false,
    }
}

/// Whether a lease ended by its loss.
fn was_lost(outcome: Outcome) -> bool
    ensures { result ≡ was_lost outcome }
{
    match outcome {
        Outcome::Ran => false,
        Outcome::Starved => false,
        Outcome::Lost => true,
    }
}

/// Whether each tenant posted in a hall just what a script says, in its order, and no other tenant anything, and no job
/// has left or arrived.
pub fn has_posts(alloc: Global, hall: &Hall, script: &Script) -> Result<bool, AllocError>
    ensures posts { IfOk result (λ b. b ≡ true → HasPosts script.now hall.now.events) }
    ensures exact { IfOk result (λ b. IsTrue b ↔ AreThePosts script.now hall.now.events) }
{
    let history = hall.history();
    if !have_posts(alloc, script, history.events())? {
        return Ok(false);
    }
    if has_moved(history) {
        return Ok(false);
    }
    Ok(have_contents(hall, script.jobs()))
}

/// Whether a job has left or arrived.
fn has_moved(history: &History) -> bool
    ensures { result ≡ list_any is_move history.now.events }
{
    history.events().iter().any(|event| is_move(event))
}

/// Whether an event is the leave or the arrival of a job.
fn is_move(event: &Event) -> bool
    ensures { result ≡ is_move event.now }
{
    matches!(event, Event::Leave { .. } | Event::Arrive { .. })
}

/// Whether a name is among these.
pub fn has_name(names: &[Name], tenant: Name) -> bool
    ensures { result ≡ list_any (bytes_eq tenant) names.now }
{
    names.iter().any(|name| tenant == *name)
}

/// Whether the jobs of a hall have the revisions of the script's.
fn have_contents(hall: &Hall, jobs: &[ScriptJob]) -> bool
    requires { MayAllFollow limits [] jobs.now }
    ensures { IsTrue result ↔ HaveContents hall.now.events jobs.now }
{
    for job in jobs {
        if !has_contents(hall, job, job.steps()) {
            return false;
        }
    }
    true
}

/// Whether the job of a hall has the revisions of these steps, in their order.
fn has_contents(hall: &Hall, job: &ScriptJob, steps: &[Step]) -> bool
    requires { length (revisions_in steps.now) ≤ 256 }
    ensures { IsTrue result ↔ HasSteps (revisions_of (key_of_job job.now) (states hall.now.events)) 0 steps.now }
{
    let mut at = 0;
    for step in steps {
        if !has_step(hall, job, at, step) {
            return false;
        }
        at += revisions_of(step);
    }
    true
}

/// Whether the job of a hall has the revision of a step, if it has one, at this place.
fn has_step(hall: &Hall, job: &ScriptJob, at: usize, step: &Step) -> bool
    requires { at ≤ 256 }
    ensures { IsTrue result ↔ HasStep (revisions_of (key_of_job job.now) (states hall.now.events)) at step.now }
{
    match step {
        Step::Revise(revision) => match hall.revision(&job.tenant(), &job.name(), at as u32 + 1) {
            Some(posted) => posted.same(revision),
            None => false,
        },
        Step::Reask(_) => true,
    }
}
