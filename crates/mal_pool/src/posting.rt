//! Posting: by a tenant's poster while workers work.

ghost use Rattle.std.specs.Prelude.{◌≡◌, List, ◌++◌, map, true, false, OnOk, OnErr, IfOk, IfErr};
ghost use Rattle.mal_hall.specs.Desks.{DeskCall};
ghost use Rattle.mal_pool.specs.{Refusals.{EndsRefused, is_want}, Runs.{HasPosted, IsHindered, open_post, posts_at, taken}};
ghost use Rattle.mal_posts.specs.Dues.{event_of};

use crate::board::Board;
use crate::due::post_of;
use mal_base::Name;
use mal_hall::{OpenFault, Post, PostFault, ReaskFault, ReviseFault};
pub use mal_posts::Left;
use mal_posts::{Cursor, Due};
use mal_script::ScriptJob;
use std::alloc::AllocError;
use std::sync::Wait;

/// What hinders a poster: its next post was refused, or memory ran out for a copy of it.
#[derive(Clone, Copy)]
pub enum Hindrance {
    Refused(PostFault),
    OutOfMemory(AllocError),
}

/// How far a poster got that was hindered, and by what.
#[derive(Clone, Copy)]
pub struct Hindered {
    pub left: Left,
    pub by: Hindrance,
}

/// Opens all jobs, in the order of the script: true where each is opened, false where one is refused for another cause
/// than out of memory.
pub fn open_all<R: Wait, B: Board>(
    rt: &R,
    board: &B,
    pass: B::Pass,
    jobs: &[ScriptJob],
) -> (B::Pass, Result<bool, AllocError>)
    requires of { B.is_of board.now pass }
    ensures of { B.is_of board.now result.0 }
    ensures opened { IfOk result.1
        (λ done. done ≡ true → B.calls result.0 ≡ B.calls pass ++ taken (map open_post jobs.now)) }
    ensures refused { IfOk result.1 (λ done. done ≡ false → EndsRefused false (B.calls result.0)) }
    ensures wanting { OnErr result.1 (EndsRefused true (B.calls result.0)) }
{
    let mut pass = pass;
    for job in jobs {
        let post = Post::Open {
            tenant: job.tenant(),
            job: job.name(),
            ask: job.ask(),
        };
        let (back, answer) = board.post(rt, pass, post);
        pass = back;
        match answer {
            Ok(()) => {}
            Err(fault) => return (pass, refused(fault)),
        }
    }
    (pass, Ok(true))
}

/// What a refused post comes to: out of memory, or false where it was refused for another cause.
pub fn refused(fault: PostFault) -> Result<bool, AllocError>
    ensures other { IfOk result (λ done. (done ≡ false) × (is_want fault ≡ false)) }
    ensures wanting { OnErr result (is_want fault ≡ true) }
{
    match fault {
        PostFault::Open(OpenFault::OutOfMemory) => Err(AllocError),
        PostFault::Revise(ReviseFault::OutOfMemory) => Err(AllocError),
        PostFault::Reask(ReaskFault::OutOfMemory) => Err(AllocError),
        _ => Ok(false),
    }
}

/// Posts the steps and the closing of a tenant's jobs, job by job. Stops at a post that is refused, or for which
/// memory runs out, and at no other, and hands back the place with what hindered it.
pub fn post_all<R: Wait, B: Board>(
    rt: &R,
    board: &B,
    pass: B::Pass,
    tenant: Name,
    jobs: &[ScriptJob],
) -> (B::Pass, Option<Hindered>)
    requires of { B.is_of board.now pass }
    ensures of { B.is_of board.now result.0 }
    ensures calls { (mine : List DeskCall) × (B.calls result.0 ≡ B.calls pass ++ mine)
        × HasPosted tenant jobs.now result.1 mine }
{
    let mut pass = pass;
    let mut cursor = Cursor::opened(jobs, tenant);
    let mut left = cursor.left();
    while let Some(due) = cursor.next() {
        let (back, done) = post_due(rt, board, pass, &due);
        pass = back;
        match done {
            Ok(()) => {}
            Err(by) => return (pass, Some(Hindered { left, by })),
        }
        left = cursor.left();
    }
    (pass, None)
}

/// Posts what is due, a copy that is made before the hall is asked. A hindrance where memory ran out for it or the
/// post was refused.
fn post_due<R: Wait, B: Board>(
    rt: &R,
    board: &B,
    pass: B::Pass,
    due: &Due<'_>,
) -> (B::Pass, Result<(), Hindrance>)
    requires of { B.is_of board.now pass }
    ensures of { B.is_of board.now result.0 }
    ensures taken { OnOk result.1 (B.calls result.0 ≡ B.calls pass ++ taken (posts_at (event_of due.now))) }
    ensures hindered { IfErr result.1
        (λ by. (last : List DeskCall) × IsHindered by (posts_at (event_of due.now)) last
        × (B.calls result.0 ≡ B.calls pass ++ last)) }
{
    // Made before the turn is asked for: what the hall does with it in the turn does not grow with its clauses.
    let post = match post_of(due) {
        Ok(post) => post,
        Err(error) => return (pass, Err(Hindrance::OutOfMemory(error))),
    };
    let (pass, answer) = board.post(rt, pass, post);
    match answer {
        Ok(()) => (pass, Ok(())),
        Err(fault) => (pass, Err(Hindrance::Refused(fault))),
    }
}
