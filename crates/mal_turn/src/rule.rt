//! The rule that the table of a turn keeps.
//! The words are the next ticket, the ticket that is served, and the length of the record.
use crate::view::{Recorded, View};
use atomic_table::TableRule;
use std::marker::PhantomData;

/// The rule of the turn, for values of this type.
pub struct TurnRule<T> {
    of: PhantomData<T>,
}

impl<T: Recorded> TableRule<Option<T>, View<T::Entry>, ()> for TurnRule<T> {
    ghost use Rattle.mal_turn.specs.Rule.{TurnRule, opener};

    ghost holds = { λ _. TurnRule T.stands };

    ghost first = { λ _. opener };
}
