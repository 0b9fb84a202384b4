//! The turn, its tokens, and what a holder has.
ghost use Rattle.std.specs.Prelude.{◌≡◌, ◌+◌, ◌^◌, ◌<◌, [], ◌∷◌, None, true};
ghost use Rattle.mal_turn.specs.{declared.view.Stage.TheVariants.{Idle, Holds}, Numbers.{among}, Rule.{IsUnborn, at_stage}};

use crate::rule::TurnRule;
use crate::view::{Recorded, View};
use crate::waiting::Waiting;
use atomic_table::Table;
use std::alloc::Global;

// Indexes of words.
pub(crate) const TICKET: usize = 0;

pub(crate) const SERVING: usize = 1;

pub(crate) const HISTORY: usize = 2;

/// The table of a turn: three words, and one slot in which the value lies.
type Board<T> = Table<Option<T>, View<<T as Recorded>::Entry>, (), TurnRule<T>, Global>;

/// What a token is at that table.
pub(crate) type Place<T, E> = atomic_table::Seat<Option<T>, View<E>>;

/// A value that threads take in turns.
#[derive(Drop)]
pub struct Turn<T: Recorded + Drop> {
    pub(crate) table: Board<T>,
    pub(crate) waiting: Waiting,
    ghost wide: { (table.shared.table_id.words ≡ 3) × (table.shared.table_id.slots ≡ 1) },
}

/// The right to wait for the turn, which is split and joined.
pub type Token<T> = TokenOf<T, <T as Recorded>::Entry>;

/// A token of values of a type, with the type of their entries.
#[derive(Drop)]
pub struct TokenOf<T, E> {
    pub(crate) place: Place<T, E>,
    ghost idle: { place.me ≡ (at_stage Idle place.me.0, []) },
    ghost live: { among place.me.0.of.first place.me.0.of.all ≡ true },
    ghost unborn: { IsUnborn place.me.0.of place.me.0.seen },
}

/// The value, for as long as its holder has the turn. It is put back by `Turn::put`.
pub type Held<T> = HeldOf<T, <T as Recorded>::Entry>;

/// A held value of a type, with the type of its entries.
pub struct HeldOf<T, E> {
    pub value: T,
    pub(crate) place: Place<T, E>,
    pub(crate) ticket: u64,
    ghost holds: { place.me ≡ (at_stage (Holds ticket) place.me.0, (0, None) ∷ []) },
    ghost small: { ticket + 1 < 2 ^ 64 },
    ghost live: { among place.me.0.of.first place.me.0.of.all ≡ true },
    ghost unborn: { IsUnborn place.me.0.of place.me.0.seen },
}

/// Why a turn was not closed: a ticket was drawn that its holder never passed on, the last one; and the one that is served.
#[derive(Clone, Copy, Debug, PartialEq, Eq, Drop)]
pub struct InUse {
    pub ticket: u64,
    pub serving: u64,
}
