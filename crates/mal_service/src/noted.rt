//! The value that the passes of a service take in turns.
ghost use Rattle.std.specs.Prelude.{◌≡◌, ◌≤◌, [], IfOk, IfErr};
ghost use Rattle.mal_hall.specs.Offered.{offered, replied, returned};
ghost use Rattle.spec_hall.specs.Dressed.{keyed};
ghost use Rattle.mal_service.specs.{Passes.{HasNoted}, Record.{Asked, Picked, Gave}};
ghost use Rattle.mal_service.specs.{Entries.{noted_in}, News.{AreNews}, Posts.{HoldsOfPost}};

use crate::entry::Entry;
use crate::hall_call::HallCall;
use crate::news::{Looked, news_of};
use mal_base::Name;
use mal_hall::{Back, Hall, Pick, PickFault, Post, PostFault, ReplyFault, Size, Strange};
use mal_suspend::Done;
use mal_turn::Recorded;
use std::alloc::{AllocError, Global};
use std::marker::PhantomData;
use std::snapshot::Snapshot;

/// A hall of so many workers with the entry of its last call. It stands for the records whose events are its history.
#[derive(Drop)]
pub struct NotedHall<S: Size> {
    hall: Hall,
    noted: Option<Entry>,
    of: PhantomData<S>,
    ghost workers: { hall.workers ≡ S.workers },
    ghost some: { 1 ≤ S.workers },
    ghost bound: { S.workers ≤ 64 },
}

impl<S: Size> Recorded for NotedHall<S> {
    ghost use Rattle.mal_service.specs.Record.{StandsFor};
    ghost use Rattle.mal_service.specs.Entries.{noted_in};

    type Entry = Entry;

    ghost stands = { λ x log. StandsFor S.workers x.hall.events log };

    ghost last = { λ x. noted_in x.noted };
}

impl<S: Size> NotedHall<S> {
    /// The hall of so many workers, 1 to 64, without a job.
    pub(crate) fn new(alloc: Global, workers: u32) -> Result<NotedHall<S>, AllocError>
        requires some { 1 ≤ workers }
        requires bound { workers ≤ 64 }
        requires size { workers ≡ S.workers }
        ensures { IfOk result (λ x. x.hall.events ≡ []) }
    {
        Ok(NotedHall {
            hall: Hall::new(alloc, workers)?,
            noted: None,
            of: PhantomData,
        })
    }

    /// The hall.
    pub(crate) fn into_hall(self) -> Hall
        ensures workers { result.workers ≡ S.workers }
        ensures hall { result ≡ self.hall }
    {
        self.hall
    }

    /// Posts, and notes the hall's call that the post is.
    #[tactic(auto, using(crate::proofs::PostLemmas::post_noted))]
    pub(crate) fn post(&mut self, post: Post) -> Result<(), PostFault>
        ensures { HoldsOfPost post result
            (λ c. HasNoted S.workers self.old.hall.events c self.new.hall.events (noted_in self.new.noted)) }
    {
        let before = Snapshot::of(&self.hall);
        let posted = Snapshot::of(&post);
        let answer = self.hall.post(post);
        let told = HallCall::Posted {
            post: posted,
            answer: Snapshot::of(&answer),
        };
        self.noted = Some(Entry::of(told, before, &self.hall));
        answer
    }

    /// Asks for the reply to a job's revision, and notes the call.
    pub(crate) fn reply(
        &mut self,
        tenant: &Name,
        job: &Name,
        r: u32,
    ) -> Result<Option<Vec<u8>>, ReplyFault>
        ensures { HasNoted S.workers self.old.hall.events
            (Asked (keyed tenant.now job.now) r (replied result)) self.new.hall.events (noted_in self.new.noted) }
    {
        let before = Snapshot::of(&self.hall);
        let answer = self.hall.reply(tenant, job, r);
        let told = HallCall::Asked {
            tenant: Snapshot::of(tenant),
            job: Snapshot::of(job),
            r: Snapshot::of(&r),
            answer: Snapshot::of(&answer),
        };
        self.noted = Some(Entry::of(told, before, &self.hall));
        answer
    }

    /// Asks for the reply to a job's revision, notes the call, and tells what was entered since so many events.
    pub(crate) fn look(
        &mut self,
        alloc: Global,
        tenant: &Name,
        job: &Name,
        r: u32,
        from: usize,
    ) -> Looked
        ensures call { HasNoted S.workers self.old.hall.events
            (Asked (keyed tenant.now job.now) r (replied result.reply)) self.new.hall.events (noted_in self.new.noted) }
        ensures news { IfOk result.news (λ n. AreNews from self.new.hall.events n) }
    {
        let reply = self.reply(tenant, job, r);
        Looked {
            reply,
            news: news_of(alloc, &self.hall, from),
        }
    }

    /// Hands a node out to a worker, 1 to the number of workers, and notes the call.
    pub(crate) fn pick(&mut self, worker: u32) -> Result<Pick, PickFault>
        requires some { 1 ≤ worker }
        requires bound { worker ≤ S.workers }
        ensures { HasNoted S.workers self.old.hall.events (Picked worker (offered result)) self.new.hall.events
            (noted_in self.new.noted) }
    {
        let before = Snapshot::of(&self.hall);
        let answer = self.hall.pick(worker);
        let told = HallCall::Picked {
            worker: Snapshot::of(&worker),
            answer: Snapshot::of(&answer),
        };
        self.noted = Some(Entry::of(told, before, &self.hall));
        answer
    }

    /// Takes back what came of a lease, and notes the call.
    pub(crate) fn finish(&mut self, back: Done) -> Result<Back, Strange>
        ensures call { HasNoted S.workers self.old.hall.events (Gave back (returned result)) self.new.hall.events
            (noted_in self.new.noted) }
        ensures back { IfErr result (λ s. s.back ≡ back) }
    {
        let before = Snapshot::of(&self.hall);
        let given = Snapshot::of(&back);
        let answer = self.hall.finish(back);
        let told = HallCall::Gave {
            back: given,
            answer: Snapshot::of(&answer),
        };
        self.noted = Some(Entry::of(told, before, &self.hall));
        answer
    }
}
