//! Entries of the record.
ghost use Rattle.std.specs.Prelude.{◌≡◌, drop, length};
ghost use Rattle.mal_service.specs.Entries.{answered};
ghost use Rattle.mal_service.specs.Record.{entry};

use crate::hall_call::HallCall;
use mal_hall::Hall;
use std::marker::Model;
use std::snapshot::Snapshot;

/// One call of the hall, as the record has it. Contracts see the call with its arguments, its answer, and the events
/// that it entered: those that the hall after the call has beyond the hall before it.
#[derive(Drop)]
pub struct Entry {
    told: HallCall,
    before: Snapshot<Hall>,
    after: Snapshot<Hall>,
}

impl Model for Entry {
    ghost use Rattle.std.specs.Prelude.{drop, length};
    ghost use Rattle.mal_service.specs.Record.{Entry as Entered, entry};
    ghost use Rattle.mal_service.specs.Entries.{answered};

    ghost Value = { Entered };

    ghost view = { λ e. entry (answered e.told) (drop (length e.before.value.events) e.after.value.events) };
}

impl Entry {
    /// The entry of a call, of the hall before it, and of the hall now.
    pub(crate) fn of(told: HallCall, before: Snapshot<Hall>, hall: &Hall) -> Entry
        ensures { result ≡ entry (answered told) (drop (length before.value.events) hall.now.events) }
    {
        Entry {
            told,
            before,
            after: Snapshot::of(hall),
        }
    }
}
