//! What is due, as a post.

ghost use Rattle.std.specs.Prelude.{◌≡◌, ℕ, [], ◌∷◌, IfOk};
ghost use Rattle.mal_pool.specs.Runs.{posts_at};
ghost use Rattle.mal_posts.specs.Dues.{event_of, step_event};
ghost use Rattle.spec_run.specs.Complete.{key_of_job};

use mal_hall::Post;
use mal_posts::Due;
use mal_script::{ScriptJob, Step};
use std::alloc::AllocError;

/// The post of what is due, with a copy of what a step has.
pub fn post_of(due: &Due<'_>) -> Result<Post, AllocError>
    ensures { IfOk result (λ post. posts_at (event_of due.now) ≡ post ∷ []) }
{
    match due {
        Due::Opening(job) => Ok(Post::Open {
            tenant: job.tenant(),
            job: job.name(),
            ask: job.ask(),
        }),
        Due::Step(job, step, _) => step_post(job, step),
        Due::Closing(job) => Ok(Post::Close {
            tenant: job.tenant(),
            job: job.name(),
        }),
    }
}

/// The post of a job's step, of which a copy is made.
fn step_post(job: &ScriptJob, step: &Step) -> Result<Post, AllocError>
    ensures { IfOk result
        (λ post. (number : ℕ) → posts_at (step_event (key_of_job job.now) number step.now) ≡ post ∷ []) }
{
    match step {
        Step::Revise(revision) => Ok(Post::Revise {
            tenant: job.tenant(),
            job: job.name(),
            revision: revision.copy()?,
        }),
        Step::Reask(weight) => Ok(Post::Reask {
            tenant: job.tenant(),
            job: job.name(),
            weight: *weight,
        }),
    }
}
