//! Which names and places are taken by the jobs of a description so far.

ghost use Rattle.std.specs.Prelude.{◌≡◌, count_by};
ghost use Rattle.std.specs.List.{list_any};
ghost use Rattle.spec_script.specs.Reading.{has_room, is_job, is_of};

use mal_base::{Limits, Name};
use mal_script::ScriptJob;

/// Whether a job is of this tenant.
fn is_of(tenant: Name, job: &ScriptJob) -> bool
    ensures { result ≡ is_of tenant job.now }
{
    tenant == job.tenant()
}

/// Whether a job is that of this tenant under this name.
fn is_job(tenant: Name, name: Name, job: &ScriptJob) -> bool
    ensures { result ≡ is_job tenant name job.now }
{
    is_of(tenant, job) && name == job.name()
}

/// Whether a tenant has a job of this name.
pub fn has_job(jobs: &[ScriptJob], tenant: Name, name: Name) -> bool
    ensures { result ≡ list_any (is_job tenant name) jobs.now }
{
    // Along the list, names of jobs only where the tenant is the same: as many jobs as are served cost some eight
    // million comparisons.
    jobs.iter().any(|job| is_job(tenant, name, job))
}

/// The number of a tenant's jobs.
fn jobs_of(jobs: &[ScriptJob], tenant: Name) -> usize
    ensures { result ≡ count_by (is_of tenant) jobs.now }
{
    jobs.iter().filter(|job| is_of(tenant, job)).count()
}

/// Whether one job more of this tenant may begin after these.
pub fn has_room(jobs: &[ScriptJob], limits: Limits, tenant: Name) -> bool
    ensures { result ≡ has_room limits tenant jobs.now }
{
    jobs_of(jobs, tenant) < limits.jobs_of_tenant && jobs.len() < limits.jobs
}
