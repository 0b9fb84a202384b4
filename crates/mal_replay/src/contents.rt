//! The revisions of a script.

ghost use Rattle.std.specs.Prelude.{◌≡◌, IfOk};
ghost use Rattle.std.specs.Option.{option_copied};
ghost use Rattle.spec_hall.specs.{Dressed.{keyed}, Own.{is_key}};
ghost use Rattle.spec_run.specs.Complete.{key_of_job};
ghost use Rattle.spec_run.specs.Accounted.{job_under, numbered, posted_in, revision_in};
ghost use Rattle.spec_script.specs.Script.{revisions};

use mal_base::Name;
use mal_history::{Event, PostKind};
use mal_revision::Revision;
use mal_script::{Script, ScriptJob};
use std::alloc::AllocError;

/// What the script posts in an event: a copy of its revision, none where it lacks the revision or the event is no
/// Revise.
pub fn posted_in(script: &Script, event: &Event) -> Result<Option<Revision>, AllocError>
    ensures { IfOk result (λ o. o ≡ posted_in script.now event.now) }
{
    let Some(post) = event.post() else {
        return Ok(None);
    };
    match post.kind {
        PostKind::Revision(number) => copied(script, post.tenant, post.job, number),
        _ => Ok(None),
    }
}

/// A copy of the revision of this number that a script has for a job, none where it lacks it.
fn copied(
    script: &Script,
    tenant: Name,
    job: Name,
    number: u32,
) -> Result<Option<Revision>, AllocError>
    ensures { IfOk result (λ o. o ≡ revision_in script.now (keyed tenant job) number) }
{
    match revision_in(script, tenant, job, number) {
        None => Ok(None),
        Some(revision) => Ok(Some(revision.copy()?)),
    }
}

/// The revision of this number that a script has for a job, none where it lacks it.
fn revision_in(script: &Script, tenant: Name, job: Name, number: u32) -> Option<&Revision>
    ensures { option_copied result ≡ revision_in script.now (keyed tenant job) number }
{
    match job_under(script.jobs(), tenant, job) {
        None => None,
        Some(job) => numbered(job, number),
    }
}

/// The revision of this number, counted from 1, of a job.
fn numbered(job: &ScriptJob, number: u32) -> Option<&Revision>
    ensures { option_copied result ≡ numbered number (revisions job.now) }
{
    if number == 0 {
        return None;
    }
    job.revision(number as usize - 1)
}

/// The job of this name of a tenant.
fn job_under(jobs: &[ScriptJob], tenant: Name, name: Name) -> Option<&ScriptJob>
    ensures { option_copied result ≡ job_under (keyed tenant name) jobs.now }
{
    for job in jobs {
        if is_job(job, tenant, name) {
            return Some(job);
        }
    }
    None
}

/// Whether a job is of this tenant and has this name.
fn is_job(job: &ScriptJob, tenant: Name, name: Name) -> bool
    ensures { result ≡ is_key (keyed tenant name) (key_of_job job.now) }
{
    tenant == job.tenant() && name == job.name()
}
