//! The service and its calls.
ghost use Rattle.std.specs.Prelude.{◌≡◌, ◌≤◌, ◌<◌, [], IfOk, IfErr};
ghost use Rattle.mal_hall.specs.Offered.{offered, replied, returned};
ghost use Rattle.mal_service.specs.Posts.{HoldsOfPost};
ghost use Rattle.mal_turn.specs.Numbers.{part};
ghost use Rattle.mal_turn.specs.Tokens.{IsOf, view};
ghost use Rattle.spec_hall.specs.Dressed.{keyed};
ghost use Rattle.mal_service.specs.{News.{AreNews}, Passes.{Enters, LeavesHall}, Record.{Asked, Picked, Gave, events_of}};
ghost use Rattle.mal_turn.specs.Rule.{Begins, IsWhole, child, joined, opener, splitting};

use crate::news::Looked;
use crate::noted::NotedHall;
use mal_base::{Key, Name};
use mal_hall::{FinishAnswer, Hall, PickAnswer, Post, PostFault, ReplyFault, Size};
use mal_suspend::Done;
use mal_turn::{InUse, Token, Turn};
use std::alloc::{AllocError, Global};
use std::sync::Wait;

/// The right to call a service: it goes in with a call and comes back with the answer. Contracts see the record that it
/// has seen, and its numbers.
pub type Pass<S> = Token<NotedHall<S>>;

/// A hall of so many workers that threads share, each with a pass. Whoever calls waits for the turn; the call is then
/// one entry of the one record, and is answered as the hall answers at that point.
#[derive(Drop)]
pub struct Service<S: Size> {
    turn: Turn<NotedHall<S>>,
}

impl<S: Size> Service<S> {
    /// The service of a hall of so many workers, 1 to 64, without a job, and the whole pass of it, which has seen
    /// nothing.
    pub fn new(alloc: Global, workers: u32) -> Result<(Service<S>, Pass<S>), AllocError>
        requires some { 1 ≤ workers }
        requires bound { workers ≤ 64 }
        requires size { workers ≡ S.workers }
        ensures turn { IfOk result (λ r. IsOf r.0.turn r.1) }
        ensures whole { IfOk result (λ r. view r.1 ≡ opener) }
    {
        let (turn, pass) = Turn::new(alloc, NotedHall::new(alloc, workers)?)?;
        Ok((Service { turn }, pass))
    }

    /// Posts: opens a job, posts its next revision or closes it. One entry, with the post and the hall's answer.
    pub fn post<R: Wait>(
        &self,
        rt: &R,
        pass: Pass<S>,
        post: Post,
    ) -> (Pass<S>, Result<(), PostFault>)
        requires { IsOf self.now.turn pass }
        ensures turn { IsOf self.now.turn result.0 }
        ensures entry { HoldsOfPost post result.1 (λ c. Enters S.workers (view pass) c (view result.0)) }
    {
        let mut held = self.turn.take(rt, pass);
        let answer = held.value.post(post);
        (self.turn.put(held), answer)
    }

    /// Asks for the reply to a job's revision, numbered from 1: None where it is not answered yet. One entry, with the
    /// question and the hall's answer.
    pub fn ask<R: Wait>(
        &self,
        rt: &R,
        pass: Pass<S>,
        tenant: &Name,
        job: &Name,
        r: u32,
    ) -> (Pass<S>, Result<Option<Vec<u8>>, ReplyFault>)
        requires { IsOf self.now.turn pass }
        ensures turn { IsOf self.now.turn result.0 }
        ensures entry { Enters S.workers (view pass) (Asked (keyed tenant.now job.now) r (replied result.1))
            (view result.0) }
    {
        let mut held = self.turn.take(rt, pass);
        let answer = held.value.reply(tenant, job, r);
        (self.turn.put(held), answer)
    }

    /// Asks for the reply to a job's revision as `ask` does, and tells what was entered since so many events of the
    /// record that the pass has then seen. One entry, with the question and the hall's answer. The reply is explained by
    /// the events that are told with those before them.
    pub fn look<R: Wait>(
        &self,
        rt: &R,
        alloc: Global,
        pass: Pass<S>,
        key: Key,
        r: u32,
        from: usize,
    ) -> (Pass<S>, Looked)
        requires { IsOf self.now.turn pass }
        ensures turn { IsOf self.now.turn result.0 }
        ensures entry { Enters S.workers (view pass) (Asked key r (replied result.1.reply)) (view result.0) }
        ensures news { IfOk result.1.news (λ n. AreNews from (events_of (view result.0).seen) n) }
    {
        let mut held = self.turn.take(rt, pass);
        let looked = held.value.look(alloc, &key.tenant, &key.job, r, from);
        (self.turn.put(held), looked)
    }

    /// Hands a node out to a worker, 1 to the number of workers, as `Hall::pick` does. One entry, with the worker and
    /// the hall's answer.
    pub fn pick<R: Wait>(&self, rt: &R, pass: Pass<S>, worker: u32) -> (Pass<S>, PickAnswer)
        requires turn { IsOf self.now.turn pass }
        requires some { 1 ≤ worker }
        requires bound { worker ≤ S.workers }
        ensures turn { IsOf self.now.turn result.0 }
        ensures entry { Enters S.workers (view pass) (Picked worker (offered result.1)) (view result.0) }
    {
        let mut held = self.turn.take(rt, pass);
        let answer = held.value.pick(worker);
        (self.turn.put(held), answer)
    }

    /// Gives back what came of a lease, as `Hall::finish` does. One entry, with what came back and the hall's answer.
    /// Takes no memory.
    pub fn give<R: Wait>(&self, rt: &R, pass: Pass<S>, back: Done) -> (Pass<S>, FinishAnswer)
        requires { IsOf self.now.turn pass }
        ensures turn { IsOf self.now.turn result.0 }
        ensures entry { Enters S.workers (view pass) (Gave back (returned result.1)) (view result.0) }
        ensures back { IfErr result.1 (λ s. s.back ≡ back) }
    {
        let mut held = self.turn.take(rt, pass);
        let answer = held.value.finish(back);
        (self.turn.put(held), answer)
    }

    /// The second pass is new. It has seen the same, and has a number of its own, by which no entry is in what was seen.
    pub fn split(&self, pass: Pass<S>) -> (Pass<S>, Pass<S>)
        requires { IsOf self.now.turn pass }
        ensures turn { IsOf self.now.turn result.0 × IsOf self.now.turn result.1 }
        ensures seen { ((view result.0).seen ≡ (view pass).seen) × ((view result.1).seen ≡ (view pass).seen) }
        ensures old { (view result.0).of ≡ splitting (view pass).of }
        ensures new { (view result.1).of ≡ child (view pass).of }
        ensures none { part (view result.1).of.all (view result.1).seen ≡ [] }
    {
        self.turn.split(pass)
    }

    /// One pass with the numbers of both, which has seen what both had seen.
    pub fn join(&self, pass: Pass<S>, other: Pass<S>) -> Pass<S>
        requires one { IsOf self.now.turn pass }
        requires other { IsOf self.now.turn other }
        ensures turn { IsOf self.now.turn result }
        ensures numbers { (view result).of ≡ joined (view pass).of (view other).of }
        ensures one { Begins (view result).seen (view pass).of.all (view pass).seen }
        ensures other { Begins (view result).seen (view other).of.all (view other).seen }
    {
        self.turn.join(pass, other)
    }

    /// Gives the hall back. Its history is the events of a legal record that begins with all that the pass had seen,
    /// and each entry of which is a whole pass's. It is refused only where the pass is not whole and somebody's turn
    /// was not passed on.
    pub fn close(self, pass: Pass<S>) -> Result<Hall, InUse>
        requires { IsOf self.turn pass }
        ensures workers { IfOk result (λ h. h.workers ≡ S.workers) }
        ensures hall { IfOk result (λ h. LeavesHall S.workers h.events (view pass)) }
        ensures in_use { IfErr result (λ u. (u.serving < u.ticket) × ¬ IsWhole (view pass).of) }
    {
        let Service { turn } = self;
        match turn.close(pass) {
            Ok(noted) => Ok(noted.into_hall()),
            Err(in_use) => Err(in_use),
        }
    }
}
