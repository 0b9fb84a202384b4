//! What a limit counts.

/// What a limit counts: the variables, the clauses or the literals of a job, the tenants, the jobs of a tenant, or the
/// revisions of a job.
#[derive(Clone, Copy, Debug, PartialEq, Eq)]
pub enum LimitKind {
    Variables,
    Clauses,
    Literals,
    Tenants,
    Jobs,
    Revisions,
}
