//! What is served.

/// How much of each kind is served at most. Contracts see the numbers.
#[derive(Clone, Copy, Debug, PartialEq, Eq)]
pub struct Limits {
    /// The variables of a formula.
    pub variables: u32,
    /// The clauses of a job.
    pub clauses: usize,
    /// The literals of a job's clauses.
    pub literals: usize,
    /// The tenants of a hall or of a script.
    pub tenants: usize,
    /// The jobs of all tenants.
    pub jobs: usize,
    /// The jobs of a tenant.
    pub jobs_of_tenant: usize,
    /// The revisions of a job.
    pub revisions: usize,
    /// A job's priority.
    pub priority: u32,
    /// The workers that a job asks for.
    pub demand: u32,
    /// The slices of a revision.
    pub slices: u32,
    /// The soft literals of an optimum.
    pub softs: usize,
    /// The assumptions of which a minimal core is sought.
    pub assumptions: usize,
}

/// The limits of what is served. A literal may be of a greater variable ([`crate::Var::MAX`]), and numbers of clauses
/// leave room for as many.
pub const LIMITS: Limits = Limits {
    variables: 65_536,
    clauses: 1 << 20,
    literals: 1 << 24,
    tenants: 64,
    jobs: 4096,
    jobs_of_tenant: 64,
    revisions: 256,
    priority: 1000,
    demand: 64,
    slices: 4096,
    softs: 128,
    assumptions: 255,
};
