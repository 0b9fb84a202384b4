//! The desk of a live service: what its parts call.

use crate::signals::Signals;
use mal_base::Key;
use mal_learn::Scratch;
use spec_feed::FeedPost;
use std::alloc::{AllocError, Global};
use std::sync::Wait;

/// A post was refused.
#[derive(Clone, Copy, Debug, PartialEq, Eq)]
pub struct Refused;

/// What a worker's turn came to.
#[derive(Clone, Copy, Debug, PartialEq, Eq)]
pub enum Worked {
    /// A lease was worked off and given back.
    Slice,
    /// There is nothing for the worker now.
    Idle,
    /// Every job is closed and answered.
    AllDone,
    /// Memory ran out for a pick.
    OutOfMemory,
}

/// What was entered since so many events: the lines of these, how many events there are now, and the jobs of which a
/// revision may have been answered.
#[derive(Drop)]
pub struct News {
    pub text: Vec<u8>,
    pub count: usize,
    pub touched: Vec<Key>,
}

/// What who looks is told: the reply that was asked for, where it is there, and the news.
#[derive(Drop)]
pub struct Seen {
    pub reply: Option<Vec<u8>>,
    pub news: News,
}

/// What the parts of a live service share. Each caller has a pass, which goes in with a call and comes back with the
/// answer; contracts see what was posted with it, and the history that it has seen.
pub trait LiveDesk<P: Send + Drop>: Sync {
    ghost use Rattle.std.specs.Prelude.{◌≡◌, ℕ, ◌≤◌, List, [], ◌∷◌, ◌++◌, false, Some, IfOk, IfSome, OnOk, OnErr, drop, length};
    ghost use Rattle.std.specs.List.{list_any};
    ghost use Rattle.mal_turn.specs.declared.view.Numbers.{Numbers};
    ghost use Rattle.spec_feed.specs.declared.post.FeedPost.{FeedPost};
    ghost use Rattle.spec_hall.specs.{Events.{Event, moves}, Legal.{Legal}};
    ghost use Rattle.spec_live.specs.Live.{IsFront, event_lines, reply_in, to};

    /// How many workers its hall has.
    ghost workers: { Self → ℕ };

    /// Whether a pass is of this desk.
    ghost is_of: { Self → P → Type 0 };

    /// The numbers of a pass, which say whose it is.
    ghost numbers: { P → Numbers };

    /// What was posted with a pass.
    ghost said: { P → List FeedPost };

    /// The history that a pass has seen.
    ghost seen: { P → List Event };

    /// What its parts tell each other.
    fn signals(&self) -> &Signals;

    /// Posts. After a refusal nothing was posted.
    fn post<R: Wait>(&self, rt: &R, pass: P, post: FeedPost) -> (P, Result<(), Refused>)
        requires of { is_of self.now pass }
        ensures of { is_of self.now result.0 }
        ensures numbers { numbers result.0 ≡ numbers pass }
        ensures posted { OnOk result.1 (said result.0 ≡ said pass ++ post ∷ []) }
        ensures refused { OnErr result.1 (said result.0 ≡ said pass) };

    /// Works as a worker, 1 to the number of workers, for one turn: picks, works the lease off, and gives it back.
    fn work<R: Wait>(&self, rt: &R, pass: P, worker: u32, scratch: &mut Scratch) -> (P, Worked)
        requires of { is_of self.now pass }
        requires low { 1 ≤ worker }
        requires high { worker ≤ workers self.now }
        ensures of { is_of self.now result.0 }
        ensures numbers { numbers result.0 ≡ numbers pass }
        ensures said { said result.0 ≡ said pass };

    /// Asks for the reply to a job's revision, and for what was entered since so many events: of the same history, which
    /// the pass has then seen.
    fn look<R: Wait>(
        &self,
        rt: &R,
        alloc: Global,
        pass: P,
        key: Key,
        revision: u32,
        from: usize,
    ) -> (P, Result<Seen, AllocError>)
        requires of { is_of self.now pass }
        ensures of { is_of self.now result.0 }
        ensures numbers { numbers result.0 ≡ numbers pass }
        ensures said { said result.0 ≡ said pass }
        ensures grown { IsFront (seen pass) (seen result.0) }
        ensures legal { Legal (workers self.now) (seen result.0) }
        ensures stay { list_any moves (seen result.0) ≡ false }
        ensures reply { IfOk result.1
            (λ s. IfSome s.reply (λ text. reply_in (seen result.0) (to key revision) ≡ Some text.items)) }
        ensures news { IfOk result.1 (λ s. s.news.text.items ≡ event_lines (drop from (seen result.0))) }
        ensures count { IfOk result.1 (λ s. s.news.count ≡ length (seen result.0)) };
}
