//! Leases that are kept inside a hall, and what comes of them.

ghost use Rattle.std.specs.Prelude.{◌≡◌, ◌↔◌, IfOk, IsTrue, Some};
ghost use Rattle.mal_hall.specs.Applied.{IsBackOf, listed_in};
ghost use Rattle.mal_base.specs.declared.verdict.Outcome.TheVariants.{Ran};
ghost use Rattle.mal_history.specs.Shared.{shared};

use mal_history::{Event, Share, Shares};
use mal_learn::Scratch;
use mal_suspend::{Done, Lease};
use std::alloc::AllocError;
use std::sync::Arc;

/// Works a lease off. A slice that runs out of memory is refused, with the error that says so.
pub fn ran(lease: Lease, scratch: &mut Scratch) -> Result<Done, AllocError>
    ensures { IfOk result (λ done. IsBackOf lease Ran (Some done)) }
{
    lease.work(scratch).into_ran()
}

/// Whether an event is a balancing that lists these volumes.
pub fn lists(event: &Event, volumes: &Shares) -> bool
    ensures { IsTrue result ↔ (listed_in event.now ≡ Some volumes.now) }
{
    match event {
        Event::Balance { volumes: listed } => are_same(listed.as_slice(), volumes.as_slice()),
        _ => false,
    }
}

/// Whether these are the same volumes of the same jobs in the same order.
fn are_same(shares: &[Arc<Share>], others: &[Arc<Share>]) -> bool
    ensures { IsTrue result ↔ (shared shares.now ≡ shared others.now) }
{
    if shares.len() != others.len() {
        return false;
    }
    for i in 0..shares.len() {
        if !shares[i].is_same(&others[i]) {
            return false;
        }
    }
    true
}
