//! The passes of the parts of a live service: one pass is split, and put together again.

ghost use Rattle.std.specs.Prelude.{◌≡◌, ◌≤◌, ℕ, List, [], IfOk, IsSomeAnd};
ghost use Rattle.std.specs.List.{All};
ghost use Rattle.mal_serve.specs.Passing.{AreSeated};
ghost use Rattle.mal_serve.specs.Said.{said_of};
ghost use Rattle.mal_service.specs.Record.{events_of};
ghost use Rattle.spec_live.specs.Live.{IsFront};
ghost use Rattle.mal_turn.specs.Many.{children, join_all, split_times};
ghost use Rattle.mal_turn.specs.Tokens.{IsOf, view};
ghost use Rattle.mal_turn.specs.declared.view.Numbers.{Numbers};

use mal_parts::Seat;
use mal_service::{Pass, Service, Size};
use std::alloc::{AllocError, Global};

/// Gives each worker a seat with a pass of its own, with which nothing was posted.
pub(crate) fn seat_all<Z: Size>(
    alloc: Global,
    service: &Service<Z>,
    pass: Pass<Z>,
    workers: u32,
) -> Result<(Pass<Z>, Vec<Seat<Pass<Z>>>), AllocError>
    requires { IsOf service.now.turn pass }
    ensures of { IfOk result (λ r. IsOf service.now.turn r.0) }
    ensures numbers { IfOk result (λ r. (view r.0).of ≡ split_times workers (view pass).of) }
    ensures said { IfOk result (λ r. said_of (view r.0) ≡ said_of (view pass)) }
    ensures seats { IfOk result
        (λ r. All (λ s. IsSomeAnd s.pass (IsOf service.now.turn) × (1 ≤ s.worker) × (s.worker ≤ workers)) r.1.items) }
    ensures seated { IfOk result
        (λ r. AreSeated (λ n p. ((view p).of ≡ n) × (said_of (view p) ≡ [])) r.1.items (children workers (view pass).of)) }
{
    let mut pass = pass;
    let mut seats = Vec::new(alloc);
    for before in 0..workers {
        let (mine, theirs) = service.split(pass);
        pass = mine;
        seats.push(Seat {
            worker: before + 1,
            pass: Some(theirs),
        })?;
    }
    Ok((pass, seats))
}

/// Puts the passes in seats, with which nothing was posted, together with another.
pub(crate) fn take_in<Z: Size>(
    service: &Service<Z>,
    pass: Pass<Z>,
    seats: Vec<Seat<Pass<Z>>>,
) -> Pass<Z>
    requires of { IsOf service.now.turn pass }
    requires seats { All (λ s. IsSomeAnd s.pass (λ p. IsOf service.now.turn p × (said_of (view p) ≡ []))) seats.items }
    ensures of { IsOf service.now.turn result }
    ensures numbers { (ns : List Numbers) → AreSeated (λ n p. (view p).of ≡ n) seats.items ns
        → (view result).of ≡ join_all (view pass).of ns }
    ensures said { said_of (view result) ≡ said_of (view pass) }
    ensures front { IsFront (events_of (view pass).seen) (events_of (view result).seen) }
{
    let mut pass = pass;
    for seat in seats {
        let Some(other) = seat.pass else {
            unreachable!()
        };
        pass = service.join(pass, other);
    }
    pass
}
