//! What each kind of step tells.
ghost use Rattle.mal_turn.specs.{Steps.{draws, looks, enters, passes}, Rule.{split_left, split_right, join_both, nobody}};

use crate::view::{Recorded, View};
use atomic_table::{Join, Play, Split};

/// The next ticket is drawn.
pub(crate) struct Draw;

impl<T, E> Play<Option<T>, View<E>> for Draw {
    ghost then = { draws };
}

/// A look at the ticket that is served.
pub(crate) struct Look;

impl<T: Recorded> Play<Option<T>, View<T::Entry>> for Look {
    ghost then = { looks T.stands };
}

/// The holder enters the value's last entry.
pub(crate) struct Enter;

impl<T: Recorded> Play<Option<T>, View<T::Entry>> for Enter {
    ghost then = { enters T.last };
}

/// The holder passes the turn on.
pub(crate) struct Pass;

impl<T, E> Play<Option<T>, View<E>> for Pass {
    ghost then = { passes };
}

/// A token is cut in two.
pub(crate) struct Cut;

impl<E> Split<View<E>> for Cut {
    ghost left = { split_left };

    ghost right = { split_right };
}

/// A token takes in another.
pub(crate) struct Glue;

impl<E> Join<View<E>> for Glue {
    ghost both = { join_both };

    ghost spent = { nobody };
}
