//! The volumes of a balancing.

ghost use Rattle.std.specs.Prelude.{◌≡◌, ℕ, ◌≤◌, IfOk};
ghost use Rattle.spec_balance.specs.Fair.{IsFair, volume_at};
ghost use Rattle.spec_hall.specs.{Seats.{jobs_in, shares_by, balanced_by}, States.{live_asks}};
ghost use Rattle.mal_seats.specs.Filled.{filled_in};

use crate::seat::Seat;
use mal_balance::fair;
use mal_base::Ask;
use mal_history::Shares;
use std::alloc::{AllocError, Global};

/// What the live jobs ask for, by opening.
fn asks_of_live(alloc: Global, seats: &[Seat]) -> Result<Vec<Ask>, AllocError>
    ensures { IfOk result (λ v. v.items ≡ live_asks (jobs_in seats.now)) }
{
    let mut asks = Vec::new(alloc);
    asks.reserve(seats.len())?;
    for seat in seats {
        if seat.is_live() {
            asks.push(seat.ask())?;
        }
    }
    Ok(asks)
}

/// Fair volumes of the live jobs for 1 to 64 workers, by opening.
pub fn volumes(alloc: Global, seats: &[Seat], workers: u32) -> Result<Vec<u32>, AllocError>
    requires some { 1 ≤ workers }
    requires bound { workers ≤ 64 }
    ensures fair { IfOk result (λ v. IsFair workers (live_asks (jobs_in seats.now)) v.items) }
{
    let asks = asks_of_live(alloc, seats)?;
    let mut volumes = vec![in alloc; 0; asks.len()]?;
    fair(&asks, workers, &mut volumes);
    Ok(volumes)
}

/// The volume at a place, 0 where there is none.
fn volume_of(volumes: &[u32], n: usize) -> u32
    ensures { result ≡ volume_at volumes.now n }
{
    match volumes.get(n) {
        None => 0,
        Some(volume) => *volume,
    }
}

/// What a balancing notes of the live jobs that gives them these volumes, by opening.
pub fn shares(alloc: Global, seats: &[Seat], volumes: &[u32]) -> Result<Shares, AllocError>
    ensures { IfOk result (λ v. v ≡ shares_by volumes.now seats.now) }
{
    let mut shares = Shares::new(alloc);
    shares.reserve(volumes.len())?;
    let mut live = 0;
    for seat in seats {
        if seat.is_live() {
            seat.note_share(volume_of(volumes, live), &mut shares)?;
            live += 1;
        }
    }
    Ok(shares)
}

/// Gives the live jobs these volumes, by opening, and all others none.
pub fn balance(seats: &mut [Seat], volumes: &[u32])
    requires { (n : ℕ) → volume_at volumes.now n ≤ 64 }
    ensures { seats.new ≡ balanced_by volumes.now seats.old }
{
    let mut live = 0;
    for seat in seats.iter_mut() {
        let is_live = seat.is_live();
        seat.balance(volume_of(volumes, live));
        if is_live {
            live += 1;
        }
    }
}

/// The places of the jobs that have a volume after a balancing that gives the live ones these, by opening.
pub fn filled_by(alloc: Global, seats: &[Seat], volumes: &[u32]) -> Result<Vec<usize>, AllocError>
    ensures { IfOk result (λ v. v.items ≡ filled_in (balanced_by volumes.now seats.now)) }
{
    let mut filled = Vec::new(alloc);
    let mut live = 0;
    for (at, seat) in seats.iter().enumerate() {
        let is_live = seat.is_live();
        if seat.balanced_volume(volume_of(volumes, live)) > 0 {
            filled.push(at)?;
        }
        if is_live {
            live += 1;
        }
    }
    Ok(filled)
}
