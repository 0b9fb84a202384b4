//! What a holder does as it gives the turn up.
ghost use Rattle.std.specs.Prelude.{◌≡◌, ◌+◌, ◌^◌, ◌<◌, ◌++◌, [], ◌∷◌, None, Some};
ghost use Rattle.mal_turn.specs.{declared.view.Stage.TheVariants.{Idle, Holds, Entered}, Rule.{at_stage, seeing}};

use crate::steps::{Enter, Pass};
use crate::table::{HISTORY, Place, SERVING, Turn};
use crate::view::Recorded;

impl<T: Recorded + Drop> Turn<T> {
    /// Puts the value into its slot, and enters its last entry.
    pub(crate) fn enter(&self, place: &mut Place<T, T::Entry>, value: T, ticket: u64)
        requires turn { place.old.table_id ≡ self.now.table.shared.table_id }
        requires holds { place.old.me ≡ (at_stage (Holds ticket) place.old.me.0, (0, None) ∷ []) }
        requires small { ticket + 1 < 2 ^ 64 }
        ensures same { place.new.table_id ≡ place.old.table_id }
        ensures entered { place.new.me
            ≡ (
              seeing (Entered ticket)
                  (place.old.me.0.seen ++ (place.old.me.0.of.first, T.last value) ∷ []) place.old.me.0,
              (0, Some value)
                  ∷ [],
            ) }
    {
        let shared = &self.table.shared;
        match shared.exchange(place, 0, Some(value)) {
            None => {}
            Some(_) => unreachable!(),
        }
        shared.compare_exchange::<Enter>(place, HISTORY, ticket, ticket + 1);
    }

    /// Serves the next ticket.
    pub(crate) fn pass_on(&self, place: &mut Place<T, T::Entry>, ticket: u64)
        requires turn { place.old.table_id ≡ self.now.table.shared.table_id }
        requires entered { (x : T) × (place.old.me ≡ (at_stage (Entered ticket) place.old.me.0, (0, Some x) ∷ []))
            × T.stands x place.old.me.0.seen }
        requires small { ticket + 1 < 2 ^ 64 }
        ensures same { place.new.table_id ≡ place.old.table_id }
        ensures idle { place.new.me ≡ (at_stage Idle place.old.me.0, []) }
    {
        self.table.shared.store::<Pass>(place, SERVING, ticket + 1);
        self.wake();
    }
}
