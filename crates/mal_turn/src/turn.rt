//! The calls of a turn.
ghost use Rattle.std.specs.Prelude.{IfErr, IfOk, true, false, ◌≡◌, ◌≢◌, ◌<◌, ◌++◌, [], ◌∷◌};
ghost use Rattle.mal_turn.specs.Numbers.{part};
ghost use Rattle.mal_turn.specs.Rule.{Begins, Has, IsWhole, Leaves, opener, splitting, child, joined};
ghost use Rattle.mal_turn.specs.Tokens.{view, held_view, IsOf, IsHeldOf};

use crate::steps::{Cut, Glue, Look};
use crate::table::{Held, HeldOf, InUse, SERVING, TICKET, Token, TokenOf, Turn};
use crate::view::Recorded;
use crate::waiting::Waiting;
use atomic_table::{Refused, Table};
use std::alloc::{AllocError, Global};
use std::sync::Wait;

impl<T: Recorded + Drop> Turn<T> {
    /// The token is whole. The value stands for no entries.
    pub fn new(alloc: Global, value: T) -> Result<(Turn<T>, Token<T>), AllocError>
        requires { T.stands value [] }
        ensures { IfOk result (λ r. IsOf r.0 r.1 × (view r.1 ≡ opener)) }
    {
        let mut slots = Vec::with_capacity(alloc, 1)?;
        slots.push_reserved(Some(value));
        match Table::new(alloc, &[0, 0, 0], slots, &()) {
            Ok((table, place)) => Ok((
                Turn {
                    table,
                    waiting: Waiting::new(),
                },
                TokenOf { place },
            )),
            // The table hands the value back in the place of the allocation's error.
            Err(Refused { .. }) => Err(AllocError),
        }
    }

    /// Waits for the turn, and takes the value.
    pub fn take<R: Wait>(&self, rt: &R, token: Token<T>) -> Held<T>
        requires { IsOf self.now token }
        ensures turn { IsHeldOf self.now result }
        ensures value { T.stands result.value (held_view result).seen }
        ensures seen { Begins (held_view result).seen (view token).of.all (view token).seen }
        ensures numbers { (held_view result).of ≡ (view token).of }
        ensures first { Has (view token).of (view token).of.first }
    {
        let TokenOf { mut place } = token;
        let ticket = self.draw(rt, &mut place);
        self.wait(rt, &mut place, ticket);
        let Some(value) = self.table.shared.exchange(&mut place, 0, None) else {
            unreachable!()
        };
        HeldOf {
            value,
            place,
            ticket,
        }
    }

    /// Puts the value back, with its last entry as one entry more, and passes the turn on.
    pub fn put(&self, held: Held<T>) -> Token<T>
        requires turn { IsHeldOf self.now held }
        requires value { T.stands held.value
            ((held_view held).seen ++ ((held_view held).of.first, T.last held.value) ∷ []) }
        ensures turn { IsOf self.now result }
        ensures seen { (view result).seen
            ≡ (held_view held).seen ++ ((held_view held).of.first, T.last held.value) ∷ [] }
        ensures numbers { (view result).of ≡ (held_view held).of }
    {
        let HeldOf {
            value,
            mut place,
            ticket,
        } = held;
        // The entry is read off the value: a ghost that a call names is picked from its arguments alone, so an entry
        // that stands nowhere in them could not be named.
        self.enter(&mut place, value, ticket);
        self.pass_on(&mut place, ticket);
        TokenOf { place }
    }

    /// The second token is new. It has seen the same, and has a number of its own, by which no entry is in what was seen.
    pub fn split(&self, token: Token<T>) -> (Token<T>, Token<T>)
        requires { IsOf self.now token }
        ensures turn { IsOf self.now result.0 × IsOf self.now result.1 }
        ensures seen { ((view result.0).seen ≡ (view token).seen) × ((view result.1).seen ≡ (view token).seen) }
        ensures old { (view result.0).of ≡ splitting (view token).of }
        ensures new { (view result.1).of ≡ child (view token).of }
        ensures none { part (view result.1).of.all (view result.1).seen ≡ [] }
    {
        let TokenOf { mut place } = token;
        let new = self.table.shared.split_seat::<Cut>(&mut place);
        (TokenOf { place }, TokenOf { place: new })
    }

    /// One token with the numbers of both, which has seen what both had seen.
    pub fn join(&self, token: Token<T>, other: Token<T>) -> Token<T>
        requires one { IsOf self.now token }
        requires other { IsOf self.now other }
        ensures turn { IsOf self.now result }
        ensures numbers { (view result).of ≡ joined (view token).of (view other).of }
        ensures one { Begins (view result).seen (view token).of.all (view token).seen }
        ensures other { Begins (view result).seen (view other).of.all (view other).seen }
    {
        let TokenOf { mut place } = token;
        let TokenOf { place: other } = other;
        // Keeps what both had seen until the next look: the longer of the two alone would not do, since entries of the
        // other's numbers could stand in it that this token never saw.
        self.table.shared.join_seat::<Glue>(&mut place, other);
        self.table.shared.load::<Look>(&mut place, SERVING);
        TokenOf { place }
    }

    /// Gives the value back, unless a ticket was drawn and not passed on.
    pub fn close(self, token: Token<T>) -> Result<T, InUse>
        requires { IsOf self token }
        ensures value { IfOk result (λ x. Leaves T.stands x (view token)) }
        ensures in_use { IfErr result (λ u. (u.serving < u.ticket) × ¬ IsWhole (view token).of) }
    {
        let TokenOf { place } = token;
        let Turn { table, waiting: _ } = self;
        let mut closed = table.close_with(place);
        let ticket = closed.word(TICKET);
        let serving = closed.word(SERVING);
        let value = closed.take(0);
        closed.free();
        if !all_passed_on(ticket, serving) {
            return Err(InUse { ticket, serving });
        }
        match value {
            Some(value) => Ok(value),
            None => unreachable!(),
        }
    }
}

// Whether each ticket that was drawn was passed on.
fn all_passed_on(ticket: u64, serving: u64) -> bool
    ensures yes { result ≡ true → ticket ≡ serving }
    ensures no { result ≡ false → ticket ≢ serving }
{
    ticket == serving
}
