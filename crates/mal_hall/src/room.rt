//! Whether a hall takes a further job, and a job a further revision.

ghost use Rattle.std.specs.Prelude.{◌≡◌, ◌+◌, ◌<◌, true, false, ◌==◌, if◌then◌else◌, List, [], length, Some, None, Err, MatchOption, IfOk, IfErr, OnOk};
ghost use Rattle.std.specs.List.{list_any};
ghost use Rattle.mal_revision.specs.Posted.{is_posted};
ghost use Rattle.spec_hall.specs.{Calls.{IsAdmission, IsOpening, IsRevising}, Events.{Event}, Own.{is_key}, Room.{HasRoomFor, IsOver}, States.{names_of, states}, Legal.{job_of, jobs_of, tenant_count}};
ghost use Rattle.mal_base.specs.{Asks.{Terms}, Limits.{limits}};
ghost use Rattle.spec_job.specs.KeyedJob.{Key};

use mal_base::{AdmitFault, LIMITS, LimitKind, OpenFault, ReviseFault};
use mal_job::Job;
use mal_revision::Revision;

/// How many tenants a hall with so many tenants has after a further job of a tenant with so many jobs, or why it does
/// not take the job: the tenant has 64 jobs, or there are 64 other tenants.
pub fn tenants_after(tenants: usize, jobs: usize) -> Result<usize, OpenFault>
    ensures count { IfOk result (λ n. n ≡ tenants + (if 0 == jobs then 1 else 0)) }
    ensures few { IfOk result (λ n. jobs < limits.jobs_of_tenant) }
    ensures others { IfOk result (λ n. jobs ≡ 0 → tenants < limits.tenants) }
    ensures refusal { IfErr result
        (λ fault. (k : Key) (ask : Terms) (past : List Event) → list_any (is_key k) (names_of past) ≡ false
        → jobs ≡ jobs_of k.tenant (names_of past) → tenants ≡ tenant_count (names_of past)
        → IsOpening past k ask (Err fault) []) }
{
    if jobs >= LIMITS.jobs_of_tenant {
        return Err(OpenFault::TenantFull);
    }
    if jobs > 0 {
        return Ok(tenants);
    }
    if tenants >= LIMITS.tenants {
        return Err(OpenFault::HallFull);
    }
    Ok(tenants + 1)
}

/// Whether a job comes whose name is new, of a tenant with so many names, to a hall with so many tenants: the tenant has
/// fewer than 64, and where it has none there are fewer than 64 other tenants.
pub fn may_come(tenants: usize, jobs: usize) -> Result<(), AdmitFault>
    ensures few { OnOk result (jobs < limits.jobs_of_tenant) }
    ensures others { OnOk result (jobs ≡ 0 → tenants < limits.tenants) }
    ensures refusal { IfErr result
        (λ fault. (k : Key) (past : List Event) → job_of k (states past) ≡ None
        → list_any (is_key k) (names_of past) ≡ false → jobs ≡ jobs_of k.tenant (names_of past)
        → tenants ≡ tenant_count (names_of past) → IsAdmission past k (Err fault)) }
{
    if jobs >= LIMITS.jobs_of_tenant {
        return Err(AdmitFault::TenantFull);
    }
    if jobs > 0 {
        return Ok(());
    }
    if tenants >= LIMITS.tenants {
        return Err(AdmitFault::HallFull);
    }
    Ok(())
}

/// The number of a job's next revision, or why the job does not take it: it is closed, it has 256 revisions, or it has
/// no room for the clauses or the literals.
pub fn next_number(job: &Job, revision: &Revision) -> Result<u32, ReviseFault>
    ensures open { IfOk result (λ n. job.now.titled.state.closed ≡ false) }
    ensures number { IfOk result (λ n. n ≡ length job.now.titled.state.revisions + 1) }
    ensures few { IfOk result (λ n. length job.now.titled.state.revisions < limits.revisions) }
    ensures room { IfOk result (λ n. HasRoomFor job.now.titled.state.revisions revision.now) }
    ensures form { is_posted revision.now ≡ true }
    ensures refusal { IfErr result
        (λ fault. (k : Key) (past : List Event) → job_of k (states past) ≡ Some job.now.titled
        → IsRevising past k revision.now (Err fault) []) }
{
    // For the proof.
    let _ = revision.clauses();
    if job.is_closed() {
        return Err(ReviseFault::Closed);
    }
    let posted = job.revisions().len();
    if posted == LIMITS.revisions {
        return Err(ReviseFault::RevisionsFull);
    }
    match limit_passed(job, revision) {
        Some(which) => Err(ReviseFault::JobFull { which }),
        None => Ok(posted as u32 + 1),
    }
}

/// Which limit of a job a further revision would pass: 2^20 clauses, then 2^24 literals, over all revisions. The job
/// keeps both numbers.
fn limit_passed(job: &Job, revision: &Revision) -> Option<LimitKind>
    ensures limit { MatchOption result (HasRoomFor job.now.titled.state.revisions revision.now)
        (λ which. IsOver which job.now.titled.state.revisions revision.now) }
    ensures form { is_posted revision.now ≡ true }
{
    let clauses = job.clauses() as u64 + revision.clauses().len() as u64;
    if clauses > LIMITS.clauses as u64 {
        return Some(LimitKind::Clauses);
    }
    let literals = job.literals() + revision.literals() as u64;
    if literals > LIMITS.literals as u64 {
        return Some(LimitKind::Literals);
    }
    None
}
