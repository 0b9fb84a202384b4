//! Boards: desks at which tenants post, and which give their hall back in the end.

use mal_hall::{Desk, Hall, Post, PostFault};
use mal_turn::InUse;
use std::sync::Wait;

/// A desk at which tenants post, with passes that are split and joined. In the end it gives its hall, of which no lease
/// was lost.
pub trait Board: Desk + Drop {
    ghost use Rattle.std.specs.Prelude.{◌≡◌, ◌<◌, List, [], ◌∷◌, ◌++◌, IfOk, IfErr};
    ghost use Rattle.mal_hall.specs.Desks.{Posted};
    ghost use Rattle.mal_pool.specs.Within.{IsWithin};
    ghost use Rattle.spec_hall.specs.Events.{Event};
    ghost use Rattle.spec_run.specs.Losses.{NoneIsLost};

    /// Whether a pass is the whole of its board's: no other is left.
    ghost is_whole: { Self.Pass → Type 0 };

    /// Which histories a hall may have that was called with a pass, and with others.
    ghost leaves: { Self.Pass → List Event → Type 0 };

    /// Posts for a tenant. After a refusal the hall is as before.
    fn post<R: Wait>(
        &self,
        rt: &R,
        pass: Self::Pass,
        post: Post,
    ) -> (Self::Pass, Result<(), PostFault>)
        requires of { Self.is_of self.now pass }
        ensures of { Self.is_of self.now result.0 }
        ensures calls { Self.calls result.0 ≡ Self.calls pass ++ Posted post result.1 ∷ [] };

    /// A second pass, for another caller, by which no call was made.
    fn split(&self, pass: Self::Pass) -> (Self::Pass, Self::Pass)
        requires of { Self.is_of self.now pass }
        ensures of { Self.is_of self.now result.0 }
        ensures other { Self.is_of self.now result.1 }
        ensures calls { Self.calls result.0 ≡ Self.calls pass }
        ensures none { Self.calls result.1 ≡ [] };

    /// One pass of two, which tells the calls of both.
    fn join(&self, pass: Self::Pass, other: Self::Pass) -> Self::Pass
        requires of { Self.is_of self.now pass }
        requires other { Self.is_of self.now other }
        ensures of { Self.is_of self.now result }
        ensures one { IsWithin (Self.calls pass) (Self.calls result) }
        ensures both { IsWithin (Self.calls other) (Self.calls result) };

    /// A thread begins to call the board: it posts, or gives back what it was leased, before it ends.
    fn begin(&self) {}

    /// A thread calls the board no more.
    fn end(&self) {}

    /// Gives the hall that was called. It is in use only where the pass is not whole and a holder did not pass its turn on;
    /// the hall is given up then.
    fn close(self, pass: Self::Pass) -> Result<Hall, InUse>
        requires of { Self.is_of self pass }
        ensures workers { IfOk result (λ h. h.workers ≡ Self.workers self) }
        ensures none_lost { IfOk result (λ h. NoneIsLost h.events) }
        ensures hall { IfOk result (λ h. leaves pass h.events) }
        ensures in_use { IfErr result (λ u. (u.serving < u.ticket) × ¬ is_whole pass) };
}
