//! The desk of a live service: a hall that its parts call in turns.

ghost use Rattle.std.specs.Prelude.{◌≡◌, IfOk, IfSome, Ok, Some};
ghost use Rattle.mal_hall.specs.Offered.{replied};
ghost use Rattle.mal_serve.specs.Said.{fed};

use mal_base::{Key, PickFault};
use mal_hall::{Pick, Post, ReplyFault, Size};
use mal_learn::Scratch;
use mal_live::{LiveDesk, News, Refused, Seen, Signals, Worked};
use mal_service::{Looked, Pass, Service};
use spec_feed::FeedPost;
use spec_script::Step;
use std::alloc::{AllocError, Global};
use std::sync::Wait;

/// A service with what its parts tell each other. A pass of the desk is a pass of the service: what was posted with it
/// stands in its part of the record.
#[derive(Drop)]
pub(crate) struct LiveHall<S: Size> {
    pub(crate) service: Service<S>,
    pub(crate) signals: Signals,
}

impl<S: Size + Send + Sync> LiveDesk<Pass<S>> for LiveHall<S> {
    ghost use Rattle.mal_serve.specs.Said.{said_of};
    ghost use Rattle.mal_service.specs.Record.{events_of};
    ghost use Rattle.mal_turn.specs.Tokens.{IsOf, view};

    ghost workers = { λ desk. S.workers };

    ghost is_of = { λ desk pass. IsOf desk.service.turn pass };

    ghost numbers = { λ pass. (view pass).of };

    ghost said = { λ pass. said_of (view pass) };

    ghost seen = { λ pass. events_of (view pass).seen };

    fn signals(&self) -> &Signals {
        &self.signals
    }

    fn post<R: Wait>(
        &self,
        rt: &R,
        pass: Pass<S>,
        post: FeedPost,
    ) -> (Pass<S>, Result<(), Refused>) {
        let (pass, answer) = self.service.post(rt, pass, post_of(post));
        match answer {
            Ok(()) => (pass, Ok(())),
            Err(_) => (pass, Err(Refused)),
        }
    }

    fn work<R: Wait>(
        &self,
        rt: &R,
        pass: Pass<S>,
        worker: u32,
        scratch: &mut Scratch,
    ) -> (Pass<S>, Worked) {
        let (pass, answer) = self.service.pick(rt, pass, worker);
        match answer {
            Ok(Pick::Leased(lease)) => {
                // There may be more where this came from.
                self.signals.work.ring();
                let (pass, answer) = self.service.give(rt, pass, lease.work(scratch));
                // What the hall does not take back is let go.
                drop(answer);
                (pass, Worked::Slice)
            }
            Ok(Pick::Idle) | Err(PickFault::Busy) => (pass, Worked::Idle),
            Ok(Pick::AllDone) => (pass, Worked::AllDone),
            Err(PickFault::OutOfMemory) => (pass, Worked::OutOfMemory),
        }
    }

    fn look<R: Wait>(
        &self,
        rt: &R,
        alloc: Global,
        pass: Pass<S>,
        key: Key,
        revision: u32,
        from: usize,
    ) -> (Pass<S>, Result<Seen, AllocError>) {
        let (pass, looked) = self.service.look(rt, alloc, pass, key, revision, from);
        let Looked { reply, news } = looked;
        match news {
            Ok(news) => (pass, seen_of(reply, news)),
            Err(error) => (pass, Err(error)),
        }
    }
}

/// The hall's post that a post of a feed is.
fn post_of(post: FeedPost) -> Post
    ensures { fed result ≡ post }
{
    match post {
        FeedPost::Opens { key, ask } => Post::Open {
            tenant: key.tenant,
            job: key.job,
            ask,
        },
        FeedPost::Takes { key, step } => match step {
            Step::Revise(revision) => Post::Revise {
                tenant: key.tenant,
                job: key.job,
                revision,
            },
            Step::Reask(weight) => Post::Reask {
                tenant: key.tenant,
                job: key.job,
                weight,
            },
        },
        FeedPost::Closes { key } => Post::Close {
            tenant: key.tenant,
            job: key.job,
        },
    }
}

/// What who looks is told. To a job that is not there nobody replied yet; where memory runs out for the reply, the news
/// are dropped, and come again with the next look.
fn seen_of(
    reply: Result<Option<Vec<u8>>, ReplyFault>,
    news: mal_service::News,
) -> Result<Seen, AllocError>
    ensures reply { IfOk result (λ s. IfSome s.reply (λ text. replied reply ≡ Ok (Some text.items))) }
    ensures text { IfOk result (λ s. s.news.text ≡ news.text) }
    ensures count { IfOk result (λ s. s.news.count ≡ news.count) }
{
    let reply = match reply {
        Ok(reply) => reply,
        Err(ReplyFault::NoJob) => None,
        Err(ReplyFault::OutOfMemory) => return Err(AllocError),
    };
    let mal_service::News {
        text,
        count,
        touched,
    } = news;
    Ok(Seen {
        reply,
        news: News {
            text,
            count,
            touched,
        },
    })
}
