//! The board of a service. A pass is the service's own: its calls are its part of the record.

ghost use Rattle.std.specs.Prelude.{◌≡◌};

use crate::board::Board;
use mal_bell::Bell;
use mal_hall::{Desk, FinishAnswer, Hall, Pick, PickAnswer, Post, PostFault, Size};
use mal_service::{Pass, Service};
use mal_suspend::Done;
use mal_turn::InUse;
use std::sync::Wait;
use std::sync::atomic::{AtomicU64, Ordering};

/// A service at which tenants post and workers work. A worker that there is nothing for sleeps until a post or what came
/// back may have made work, but one thread is always left awake.
#[derive(Drop)]
pub struct Served<S: Size> {
    service: Service<S>,
    bell: Bell,
    awake: AtomicU64,
}

impl<S: Size> Served<S> {
    /// The board of a service.
    pub fn new(service: Service<S>) -> Served<S>
        ensures { result.service ≡ service }
    {
        Served {
            service,
            bell: Bell::new(),
            awake: AtomicU64::new(0),
        }
    }

    /// Sleeps while the bell has not rung since it had rung so often, unless no other thread is awake.
    fn sleep<R: Wait>(&self, rt: &R, heard: u64) {
        if self.awake.fetch_sub(1, Ordering::SeqCst) > 1 {
            self.bell.sleep(rt, heard);
        }
        self.awake.fetch_add(1, Ordering::SeqCst);
    }
}

impl<S: Size + Send + Sync> Desk for Served<S> {
    ghost use Rattle.mal_pool.specs.Calls.{calls_of};
    ghost use Rattle.mal_turn.specs.Tokens.{IsOf, view};

    type Pass = Pass<S>;

    ghost workers = { λ desk. S.workers };

    ghost is_of = { λ desk pass. IsOf desk.service.turn pass };

    ghost calls = { λ pass. calls_of (view pass) };

    fn pick<R: Wait>(&self, rt: &R, pass: Pass<S>, worker: u32) -> (Pass<S>, PickAnswer) {
        let heard = self.bell.heard();
        let (pass, answer) = self.service.pick(rt, pass, worker);
        match &answer {
            // There may be more where this came from.
            Ok(Pick::Leased(_)) => self.bell.ring(),
            Ok(Pick::Idle) => self.sleep(rt, heard),
            _ => {}
        }
        (pass, answer)
    }

    fn finish<R: Wait>(&self, rt: &R, pass: Pass<S>, back: Done) -> (Pass<S>, FinishAnswer) {
        let (pass, answer) = self.service.give(rt, pass, back);
        self.bell.ring();
        (pass, answer)
    }
}

impl<S: Size + Send + Sync> Board for Served<S> {
    ghost use Rattle.mal_turn.specs.Tokens.{view};
    ghost use Rattle.mal_turn.specs.Rule.{IsWhole};
    ghost use Rattle.mal_service.specs.Passes.{LeavesHall};

    ghost is_whole = { λ pass. IsWhole (view pass).of };

    ghost leaves = { λ pass history. LeavesHall S.workers history (view pass) };

    fn post<R: Wait>(&self, rt: &R, pass: Pass<S>, post: Post) -> (Pass<S>, Result<(), PostFault>) {
        let (pass, answer) = self.service.post(rt, pass, post);
        self.bell.ring();
        (pass, answer)
    }

    #[tactic(auto, using(crate::proofs::CallLemmas::split_calls, crate::proofs::CallLemmas::split_none))]
    fn split(&self, pass: Pass<S>) -> (Pass<S>, Pass<S>) {
        self.service.split(pass)
    }

    fn join(&self, pass: Pass<S>, other: Pass<S>) -> Pass<S> {
        self.service.join(pass, other)
    }

    fn begin(&self) {
        self.awake.fetch_add(1, Ordering::SeqCst);
    }

    fn end(&self) {
        // The others look for themselves.
        self.awake.fetch_sub(1, Ordering::SeqCst);
        self.bell.ring_all();
    }

    #[tactic(auto, using(crate::proofs::CallLosses::left_loses_none))]
    fn close(self, pass: Pass<S>) -> Result<Hall, InUse> {
        let Served { service, .. } = self;
        match service.close(pass) {
            Ok(hall) => Ok(hall),
            Err(in_use) => Err(in_use),
        }
    }
}
