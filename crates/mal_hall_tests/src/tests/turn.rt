//! Threads that add to a total in turns. The record is a list of the amounts that were added.

ghost use Rattle.std.specs.Prelude.{ℕ, ◌≡◌, ◌<◌};
ghost use Rattle.std.specs.Thread.{IsSync};
ghost use Rattle.mal_turn.specs.{Rule.{Extends, IsWhole}, Many.{IsBack}};
ghost use Rattle.mal_turn.specs.Tokens.{view, IsOf};

use mal_turn::{Token, Turn};
use std::alloc::{AllocError, Global};
use std::sync::Wait;
use std::test::Fail;
use std::thread::{Threads, join};
use tally::Tally;

mod tally;

/// Adds an amount: one entry more of the token's part.
fn add<R: Wait>(rt: &R, turn: &Turn<Tally>, token: Token<Tally>, amount: u64) -> Token<Tally>
    requires { IsOf turn.now token }
    ensures turn { IsOf turn.now result }
    ensures numbers { (view result).of ≡ (view token).of }
    ensures entry { (added : ℕ) × Extends (view token) added (view result) }
{
    let mut held = turn.take(rt, token);
    held.value.add(amount);
    turn.put(held)
}

/// Adds an amount so many times.
fn add_times<R: Wait>(
    rt: &R,
    turn: &Turn<Tally>,
    mut token: Token<Tally>,
    amount: u64,
    times: u32,
) -> Token<Tally>
    requires { IsOf turn.now token }
    ensures turn { IsOf turn.now result }
    ensures numbers { (view result).of ≡ (view token).of }
{
    for _made in 0..times {
        token = add(rt, turn, token, amount);
    }
    token
}

/// Adds an amount so many times in each of so many threads, which are doubled so often.
fn add_all<R: Threads + Wait + Sync>(
    rt: &R,
    turn: &Turn<Tally>,
    token: Token<Tally>,
    doublings: u32,
    times: u32,
) -> Token<Tally>
    requires { IsOf turn.now token }
    ensures turn { IsOf turn.now result }
    ensures back { IsBack (view token).of (view result).of }
{
    if doublings == 0 {
        return add_times(rt, turn, token, 7, times);
    }
    let (one, two) = turn.split(token);
    let (one, two) = join(
        rt,
        || -> Token<Tally>
            requires { (0 < doublings) × IsSync R.row × IsOf turn.now one }
            ensures { IsOf turn.entry.now result × IsBack (view one).of (view result).of }
        { add_all(rt, turn, one, doublings - 1, times) },
        || -> Token<Tally>
            requires { (0 < doublings) × IsSync R.row × IsOf turn.now two }
            ensures { IsOf turn.entry.now result × IsBack (view two).of (view result).of }
        { add_all(rt, turn, two, doublings - 1, times) },
    );
    turn.join(one, two)
}

/// The total of a turn that is closed by its whole token.
fn closed(turn: Turn<Tally>, token: Token<Tally>) -> u64
    requires of { IsOf turn token }
    requires whole { IsWhole (view token).of }
{
    match turn.close(token) {
        Ok(tally) => tally.total(),
        Err(_) => unreachable!(),
    }
}

/// The total that threads made, which are doubled so often.
fn total<R: Threads + Wait + Sync>(
    rt: &R,
    alloc: Global,
    doublings: u32,
    times: u32,
) -> Result<u64, AllocError> {
    let (turn, token) = Turn::new(alloc, Tally::new())?;
    let token = add_all(rt, &turn, token, doublings, times);
    Ok(closed(turn, token))
}

/// A turn that nobody used, and those that two and sixteen threads used.
#[test]
fn threads_make_one_sum(rt: HostRuntime) -> Result<(), Fail> {
    assert!(rt; total(&rt, rt.alloc(), 0, 0)? == 0);
    assert!(rt; total(&rt, rt.alloc(), 1, 100)? == 1_400);
    assert!(rt; total(&rt, rt.alloc(), 4, 50)? == 5_600);
    Ok(())
}

/// What one token adds is what the next holder finds.
#[test]
fn a_holder_finds_what_was_put_back(rt: HostRuntime) -> Result<(), Fail> {
    let (turn, token) = Turn::new(rt.alloc(), Tally::new())?;
    let (one, two) = turn.split(token);
    let one = add(&rt, &turn, one, 5);
    let held = turn.take(&rt, two);
    let found = held.value.total();
    let mut held = held;
    held.value.add(1);
    let two = turn.put(held);
    let all = turn.join(one, two);
    assert!(rt; found == 5);
    assert!(rt; closed(turn, all) == 6);
    Ok(())
}

#[test]
fn a_token_that_is_not_whole_gets_the_value(rt: HostRuntime) -> Result<(), Fail> {
    let (turn, token) = Turn::new(rt.alloc(), Tally::new())?;
    let part = add(&rt, &turn, turn.split(token).1, 5);
    let closed = turn.close(part);
    assert!(rt; closed.map_or(0, |tally| tally.total()) == 5);
    Ok(())
}

/// Splits a token three times, adds by each, and joins them in another order.
fn joined_in_another_order<R: Wait>(rt: &R, alloc: Global) -> Result<u64, AllocError> {
    let (turn, token) = Turn::new(alloc, Tally::new())?;
    let (token, one) = turn.split(token);
    let (token, two) = turn.split(token);
    let (token, three) = turn.split(token);
    let one = add(rt, &turn, one, 1);
    let two = add(rt, &turn, two, 10);
    let three = add(rt, &turn, three, 100);
    let token = turn.join(token, two);
    let token = turn.join(token, three);
    let token = turn.join(token, one);
    Ok(closed(turn, token))
}

#[test]
fn a_token_split_three_times_and_joined_in_another_order_is_whole(
    rt: HostRuntime,
) -> Result<(), Fail> {
    assert!(rt; joined_in_another_order(&rt, rt.alloc())? == 111);
    Ok(())
}
