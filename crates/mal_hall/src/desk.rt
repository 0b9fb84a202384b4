//! Posts, and desks: what shares a hall's calls among workers.

ghost use Rattle.std.specs.Prelude.{◌≡◌, ◌++◌, ◌∷◌, [], OnOk, OnErr};
ghost use Rattle.mal_hall.specs.Desks.{HasPosted, event_of};

use crate::hall::Hall;
use crate::offer::{FinishAnswer, PickAnswer};
use mal_base::{Ask, CloseFault, Name, OpenFault, ReaskFault, ReviseFault, Weight};
use mal_revision::Revision;
use mal_suspend::Done;
use std::sync::Wait;

/// What a tenant posts: it opens a job, posts the next revision of one, changes what one asks for, or closes one.
#[derive(Drop)]
pub enum Post {
    Open {
        tenant: Name,
        job: Name,
        ask: Ask,
    },
    Revise {
        tenant: Name,
        job: Name,
        revision: Revision,
    },
    Reask {
        tenant: Name,
        job: Name,
        weight: Weight,
    },
    Close {
        tenant: Name,
        job: Name,
    },
}

/// Why a post is refused: the fault of the hall's call.
#[derive(Clone, Copy, Debug, PartialEq, Eq, Drop)]
pub enum PostFault {
    Open(OpenFault),
    Revise(ReviseFault),
    Reask(ReaskFault),
    Close(CloseFault),
}

impl Hall {
    /// Posts by the call of the post's kind. After a refusal the hall is as before.
    pub fn post(&mut self, post: Post) -> Result<(), PostFault>
        ensures workers { self.new.workers ≡ self.old.workers }
        ensures inside { self.new.inside ≡ self.old.inside }
        ensures ok { OnOk result (self.new.events ≡ self.old.events ++ event_of self.old.events post ∷ []) }
        ensures err { OnErr result (self.new.events ≡ self.old.events) }
        ensures call { HasPosted self.old.workers self.old.events post result self.new.events }
    {
        match post {
            Post::Open { tenant, job, ask } => match self.open_job(tenant, job, ask) {
                Ok(()) => Ok(()),
                Err(fault) => Err(PostFault::Open(fault)),
            },
            Post::Revise {
                tenant,
                job,
                revision,
            } => match self.revise_job(&tenant, &job, revision) {
                Ok(()) => Ok(()),
                Err(fault) => Err(PostFault::Revise(fault)),
            },
            Post::Reask {
                tenant,
                job,
                weight,
            } => match self.reask_job(&tenant, &job, weight) {
                Ok(()) => Ok(()),
                Err(fault) => Err(PostFault::Reask(fault)),
            },
            Post::Close { tenant, job } => match self.close_job(&tenant, &job) {
                Ok(()) => Ok(()),
                Err(fault) => Err(PostFault::Close(fault)),
            },
        }
    }
}

/// What workers share to pick and to give back. Each caller has a pass, which goes in with a call and comes back with
/// the answer; it tells the caller's own calls with their answers, in their order. A desk says nothing of the calls of
/// others.
pub trait Desk: Sync {
    ghost use Rattle.std.specs.Prelude.{◌≡◌, ℕ, ◌≤◌, List, [], ◌∷◌, ◌++◌, IfErr};
    ghost use Rattle.mal_hall.specs.{Desks.{DeskCall, Picked, Gave, IsOwn}, Offered.{offered, returned}};

    type Pass: Send + Drop;

    /// How many workers its hall has.
    ghost workers: { Self → ℕ };

    /// Whether a pass is of this desk.
    ghost is_of: { Self → Self.Pass → Type 0 };

    /// The calls that were made with a pass.
    ghost calls: { Self.Pass → List DeskCall };

    /// Picks as a worker, 1 to the number of workers. A lease is the worker's own.
    fn pick<R: Wait>(&self, rt: &R, pass: Self::Pass, worker: u32) -> (Self::Pass, PickAnswer)
        requires of { is_of self.now pass }
        requires low { 1 ≤ worker }
        requires high { worker ≤ workers self.now }
        ensures of { is_of self.now result.0 }
        ensures calls { calls result.0 ≡ calls pass ++ Picked worker (offered result.1) ∷ [] }
        ensures own { IsOwn worker (offered result.1) };

    /// Gives back what came of a lease. What is strange comes back as it was given.
    fn finish<R: Wait>(&self, rt: &R, pass: Self::Pass, back: Done) -> (Self::Pass, FinishAnswer)
        requires of { is_of self.now pass }
        ensures of { is_of self.now result.0 }
        ensures calls { calls result.0 ≡ calls pass ++ Gave back (returned result.1) ∷ [] }
        ensures back { IfErr result.1 (λ s. s.back ≡ back) };
}
