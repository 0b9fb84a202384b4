//! Going over the jobs that have a volume.

ghost use Rattle.std.specs.Prelude.{◌≡◌, ◌==◌, not, map, filter};
ghost use Rattle.mal_seats.specs.Filled as spec;

use crate::seat::Seat;

/// The first of these places at which an exchange is due.
pub fn first_among(seats: &[Seat], places: &[usize]) -> Option<usize>
    ensures { result ≡ spec.first_among seats.now places.now }
{
    for at in places {
        if is_due_at(seats, *at) {
            return Some(*at);
        }
    }
    None
}

/// Whether an exchange is due of the job at this place.
fn is_due_at(seats: &[Seat], at: usize) -> bool
    ensures { result ≡ spec.is_due_at seats.now at }
{
    match seats.get(at) {
        None => false,
        Some(seat) => seat.is_exchange_due(),
    }
}

/// Takes the place of a seat that is gone out of the places, and moves those after it up. Takes no memory.
pub fn close_up(places: &mut Vec<usize>, gone: usize)
    ensures { places.new.items ≡ spec.closed_up gone places.old.items }
{
    without(places, gone);
    move_up(places, gone);
}

/// Takes a place out of the places. Takes no memory.
fn without(places: &mut Vec<usize>, gone: usize)
    ensures { places.new.items ≡ filter (λ at. not (at == gone)) places.old.items }
{
    places.retain(|at| *at != gone);
}

/// Makes each place after one that is gone one less.
fn move_up(places: &mut [usize], gone: usize)
    ensures { places.new ≡ map (spec.moved_up gone) places.old }
{
    for at in places.iter_mut() {
        if *at > gone {
            *at -= 1;
        }
    }
}
