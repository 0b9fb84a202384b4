//! Looking over the jobs of a hall, those that are here and those that were.

ghost use Rattle.std.specs.Prelude.{◌≡◌, slice_get};
ghost use Rattle.std.specs.{List.{list_any}, Option.{option_map}};
ghost use Rattle.spec_hall.specs.{Calls.{IsAdmission}, Dressed.{keyed}, Own.{is_key}, Seats.{jobs_in}, States.{keys_of, lives, names_of}};
ghost use Rattle.spec_hall.specs.Turns as turns;

use crate::hall::Hall;
use crate::places::place_of;
use crate::room::may_come;
use mal_base::{AdmitFault, Key, Name};
use mal_seats::Seats;

impl Hall {
    /// Whether a job with this key is here.
    pub fn has_job(&self, tenant: &Name, job: &Name) -> bool
        ensures { result ≡ list_any (is_key (keyed tenant.now job.now)) (keys_of self.now.events) }
    {
        place_of(&self.names, &self.seats, *tenant, *job).is_some()
    }

    /// Whether a job with this key ever was here.
    pub fn has_had(&self, tenant: &Name, job: &Name) -> bool
        ensures { result ≡ list_any (is_key (keyed tenant.now job.now)) (names_of self.now.events) }
    {
        self.names.number_of(*tenant, *job).is_some()
    }

    /// Whether a job with this key has room here, as far as the names are concerned: it is not here, and where its name
    /// is new its tenant has fewer than 64 jobs, or none and there are fewer than 64 other tenants.
    pub fn admission(&self, tenant: &Name, job: &Name) -> Result<(), AdmitFault>
        ensures { IsAdmission self.now.events (keyed tenant.now job.now) result }
    {
        if self.has_job(tenant, job) {
            return Err(AdmitFault::Present);
        }
        if self.has_had(tenant, job) {
            return Ok(());
        }
        match may_come(self.tenants, self.names.jobs_of(*tenant)) {
            Ok(()) => Ok(()),
            Err(fault) => Err(fault),
        }
    }

    /// The key of the first live job.
    pub fn first_live(&self) -> Option<Key>
        ensures { result ≡ turns.first_live self.now.events }
    {
        first_live(&self.seats)
    }
}

/// The key of the first live job of these.
fn first_live(seats: &Seats) -> Option<Key>
    ensures { result ≡ option_map (λ l. l.key) (slice_get (lives (jobs_in seats.now)) 0) }
{
    for at in 0..seats.len() {
        let seat = seats.at(at);
        if seat.is_live() {
            return Some(Key {
                tenant: seat.job().tenant(),
                job: seat.job().name(),
            });
        }
    }
    None
}
