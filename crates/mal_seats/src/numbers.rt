//! Seats by the numbers of their jobs.

ghost use Rattle.std.specs.Prelude.{◌≡◌};
ghost use Rattle.mal_seats.specs.Numbered as spec;

use crate::seat::Seat;

/// How many seats have a number below this one: the place of the job with this number is that, if it is there.
fn count_below(seats: &[Seat], number: u64) -> usize
    requires { spec.Rise seats.now }
    ensures { spec.place_if number seats.now result ≡ spec.place_numbered number seats.now }
{
    seats.partition_point(|seat| seat.number() < number)
}

/// The place of the job that has this number.
pub fn place_of_number(seats: &[Seat], number: u64) -> Option<usize>
    requires { spec.Rise seats.now }
    ensures { result ≡ spec.place_numbered number seats.now }
{
    let at = count_below(seats, number);
    match seats.get(at) {
        None => None,
        Some(seat) => {
            if seat.number() == number {
                return Some(at);
            }
            None
        }
    }
}
