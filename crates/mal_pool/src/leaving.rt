//! What posters left, posted in a hall that nobody shares any more.

ghost use Rattle.std.specs.Prelude.{◌≡◌, [], ◌∷◌, flat_map, true, false, IfOk};
ghost use Rattle.mal_pool.specs.{Refusals.{IsOneRefused}, Runs.{left_by, posted_on, posts_at}};
ghost use Rattle.mal_posts.specs.Dues.{event_of};

use crate::due::post_of;
use crate::posting::{Left, refused};
use mal_hall::{Hall, Post};
use mal_posts::{Cursor, Due};
use mal_script::ScriptJob;
use std::alloc::AllocError;

/// Posts what posters left, in their order: true where each post is taken, false where one is refused for another cause
/// than out of memory.
pub fn post_left(hall: &mut Hall, jobs: &[ScriptJob], left: &[Left]) -> Result<bool, AllocError>
    ensures workers { hall.new.workers ≡ hall.old.workers }
    ensures events { IfOk result
        (λ done. done ≡ true → hall.new.events ≡ posted_on hall.old.events (flat_map (left_by jobs.now) left.now)) }
    ensures refused { IfOk result
        (λ done. done ≡ false → IsOneRefused hall.old.workers hall.old.events (flat_map (left_by jobs.now) left.now)) }
{
    for one in left {
        if !post_from(hall, jobs, one)? {
            return Ok(false);
        }
    }
    Ok(true)
}

/// Posts what one poster left: the rest of a job, and the later jobs of its tenant.
fn post_from(hall: &mut Hall, jobs: &[ScriptJob], left: &Left) -> Result<bool, AllocError>
    ensures workers { hall.new.workers ≡ hall.old.workers }
    ensures events { IfOk result
        (λ done. done ≡ true → hall.new.events ≡ posted_on hall.old.events (left_by jobs.now left.now)) }
    ensures refused { IfOk result
        (λ done. done ≡ false → IsOneRefused hall.old.workers hall.old.events (left_by jobs.now left.now)) }
{
    let mut cursor = Cursor::of_left(jobs, *left);
    while let Some(due) = cursor.next() {
        if !post_due(hall, &due)? {
            return Ok(false);
        }
    }
    Ok(true)
}

/// Posts what is due.
fn post_due(hall: &mut Hall, due: &Due<'_>) -> Result<bool, AllocError>
    ensures workers { hall.new.workers ≡ hall.old.workers }
    ensures events { IfOk result
        (λ done. done ≡ true → hall.new.events ≡ posted_on hall.old.events (posts_at (event_of due.now))) }
    ensures refused { IfOk result
        (λ done. done ≡ false → IsOneRefused hall.old.workers hall.old.events (posts_at (event_of due.now))) }
{
    let post = post_of(due)?;
    post_one(hall, post)
}

/// Posts: true where the post is taken, false where it is refused for another cause than out of memory.
fn post_one(hall: &mut Hall, post: Post) -> Result<bool, AllocError>
    ensures workers { hall.new.workers ≡ hall.old.workers }
    ensures events { IfOk result
        (λ done. done ≡ true → hall.new.events ≡ posted_on hall.old.events (post ∷ [])) }
    ensures refused { IfOk result (λ done. done ≡ false → IsOneRefused hall.old.workers hall.old.events (post ∷ [])) }
{
    match hall.post(post) {
        Ok(()) => Ok(true),
        Err(fault) => refused(fault),
    }
}
