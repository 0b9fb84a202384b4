//! Where a job is.

ghost use Rattle.std.specs.Prelude.{◌≡◌};
ghost use Rattle.mal_cluster.specs.Kept.{histories};
ghost use Rattle.spec_cluster.specs.Clusters.{home, is_had};
ghost use Rattle.spec_hall.specs.Dressed.{keyed};

use mal_base::Name;
use mal_hall::Hall;

/// Whether any of these halls ever had a job of this name.
pub fn is_had(halls: &[Hall], tenant: &Name, job: &Name) -> bool
    ensures { result ≡ is_had (keyed tenant.now job.now) (histories halls.now) }
{
    for hall in halls {
        if hall.has_had(tenant, job) {
            return true;
        }
    }
    false
}

/// The place of the hall that has a job.
pub fn home_of(halls: &[Hall], tenant: &Name, job: &Name) -> Option<usize>
    ensures { result ≡ home (keyed tenant.now job.now) (histories halls.now) }
{
    for place in 0..halls.len() {
        if halls[place].has_job(tenant, job) {
            return Some(place);
        }
    }
    None
}
