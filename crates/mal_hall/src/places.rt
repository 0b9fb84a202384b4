//! Where jobs sit.

ghost use Rattle.std.specs.Prelude.{◌≡◌};
ghost use Rattle.mal_hall.specs.{HallView.{place_by}, Named.{found}};
ghost use Rattle.spec_hall.specs.Dressed.{keyed};

use crate::names::Names;
use mal_base::Name;
use mal_seats::Seats;

/// The place of the job with this key: of the names that jobs ever had here, one that is not there has a number that no
/// seat has.
pub fn place_of(names: &Names, seats: &Seats, tenant: Name, job: Name) -> Option<usize>
    ensures { result ≡ place_by (found names.now.numbers (keyed tenant job)) seats.now }
{
    match names.number_of(tenant, job) {
        None => None,
        Some(number) => seats.place_of_number(number),
    }
}
