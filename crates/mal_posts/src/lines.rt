//! Whether an event is what is due.

ghost use Rattle.std.specs.Prelude.{◌≡◌, ◌↔◌, IsTrue};
ghost use Rattle.mal_posts.specs.Dues.{event_of, job_of, kind_of, step_kind};
ghost use Rattle.spec_hall.specs.Events.{bare};

use crate::cursor::Due;
use mal_history::{Event, PostKind};
use mal_script::{ScriptJob, Step};

/// Whether an event is what is due.
pub fn is_due(event: &Event, due: &Due<'_>) -> bool
    ensures { IsTrue result ↔ (event.now ≡ bare (event_of due.now)) }
{
    let Some(post) = event.post() else {
        return false;
    };
    let job = job_of(due);
    post.tenant == job.tenant() && post.job == job.name() && is_kind(post.kind, due)
}

/// The job of what is due.
fn job_of<'a>(due: &Due<'a>) -> &'a ScriptJob
    ensures { result.now ≡ job_of due.now }
{
    match due {
        Due::Opening(job) => job,
        Due::Step(job, _, _) => job,
        Due::Closing(job) => job,
    }
}

/// Whether this is posted of a job by what is due.
fn is_kind(kind: PostKind, due: &Due<'_>) -> bool
    ensures { IsTrue result ↔ (kind ≡ kind_of due.now) }
{
    match due {
        Due::Opening(job) => kind == PostKind::Opening(job.ask()),
        Due::Step(_, step, number) => is_of_step(kind, step, *number),
        Due::Closing(_) => kind == PostKind::Closing,
    }
}

/// Whether this is posted by a step of a job whose next revision has this number.
fn is_of_step(kind: PostKind, step: &Step, number: usize) -> bool
    ensures { IsTrue result ↔ (kind ≡ step_kind number step.now) }
{
    match (step, kind) {
        (Step::Revise(_), PostKind::Revision(own)) => own as usize == number,
        (Step::Revise(_), _) => false,
        (Step::Reask(weight), PostKind::Reasking(own)) => own == *weight,
        (Step::Reask(_), _) => false,
    }
}
