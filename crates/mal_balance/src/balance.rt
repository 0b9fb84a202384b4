//! The balancer: one worker for each of the first jobs, and the rest one by one.

ghost use Rattle.std.specs.Prelude.{◌≡◌, ℕ, ◌*◌, ◌+◌, ◌<◌, ◌≤◌, ◌↔◌, List, length, IsTrue};
ghost use Rattle.mal_base.specs.Limits.{limits};
ghost use Rattle.spec_balance.specs.Fair.{priority_at, demand_at, volume_at, IsFair};
ghost use Rattle.mal_balance.specs.Greedy.{IsGreedy, IsBest, IsNext};

use mal_base::Ask;

/// Shares 1 to 64 workers among live jobs, given by opening: `out` gets a volume for each job. Each of the first jobs,
/// at most as many as there are workers, gets one worker; the rest go one by one to the job with the highest priority
/// for each worker that it has, of those below their demand; a tie goes to the job that was opened earlier.
pub fn fair(jobs: &[Ask], workers: u32, out: &mut [u32])
    requires same_length { length jobs.now ≡ length out.old }
    requires some { 1 ≤ workers }
    requires bound { workers ≤ 64 }
    ensures fair { IsFair workers jobs.now out.new }
    ensures unique { (vs : List ℕ) → IsFair workers jobs.now vs → vs ≡ out.new }
{
    let workers = workers as usize;
    let first = jobs.len().min(workers);
    give_one_each(jobs, first, out);
    for made in first..workers {
        match neediest(jobs, first, out) {
            Some(job) => give_one(jobs, first, job, out),
            None => return,
        }
    }
}

/// One worker for each of the first jobs and none for the others; no demand is below 1.
fn give_one_each(jobs: &[Ask], first: usize, out: &mut [u32])
    requires within { first ≤ length jobs.now }
    requires same_length { length jobs.now ≡ length out.old }
    ensures { IsGreedy jobs.now first first out.new }
{
    out.fill(0);
    for job in 0..first {
        out[job] = demand_of(jobs, job).min(1);
    }
}

/// One worker more for this job, which comes next.
fn give_one(jobs: &[Ask], first: usize, job: usize, out: &mut [u32])
    requires next { IsNext jobs.now out.old first job }
    requires within { first ≤ length jobs.now }
    requires same_length { length jobs.now ≡ length out.old }
    ensures { (made : ℕ) → IsGreedy jobs.now first made out.old → IsGreedy jobs.now first (made + 1) out.new }
{
    if out[job] < demand_of(jobs, job) {
        out[job] += 1;
    }
}

/// The job that the next worker goes to: of the first jobs that are below their demand, the one with the best claim.
fn neediest(jobs: &[Ask], first: usize, volumes: &[u32]) -> Option<usize>
    requires within { first ≤ length jobs.now }
    requires same_length { length jobs.now ≡ length volumes.now }
    requires some { (i : ℕ) → i < first → 1 ≤ volume_at volumes.now i }
    ensures { IsBest jobs.now volumes.now first result }
{
    let mut best = None;
    for job in 0..first {
        best = better(jobs, volumes, best, job);
    }
    best
}

/// The job with the best claim, where one job more is looked at.
fn better(jobs: &[Ask], volumes: &[u32], best: Option<usize>, job: usize) -> Option<usize>
    requires within { job < length jobs.now }
    requires same_length { length jobs.now ≡ length volumes.now }
    requires some { (i : ℕ) → i ≤ job → 1 ≤ volume_at volumes.now i }
    requires best { IsBest jobs.now volumes.now job best }
    ensures { IsBest jobs.now volumes.now (job + 1) result }
{
    if demand_of(jobs, job) <= volumes[job] {
        return best;
    }
    match best {
        None => Some(job),
        Some(other) if has_better_claim(jobs, volumes, job, other) => Some(job),
        Some(other) => Some(other),
    }
}

/// Whether the job has a higher priority than the other for each worker that it has.
fn has_better_claim(jobs: &[Ask], volumes: &[u32], job: usize, other: usize) -> bool
    requires job_within { job < length jobs.now }
    requires other_within { other < length jobs.now }
    requires same_length { length jobs.now ≡ length volumes.now }
    ensures { IsTrue result
        ↔ (priority_at jobs.now other * volume_at volumes.now job < priority_at jobs.now job * volume_at volumes.now other) }
{
    let claim = u64::from(priority_of(jobs, job)) * u64::from(volumes[other]);
    let other_claim = u64::from(priority_of(jobs, other)) * u64::from(volumes[job]);
    other_claim < claim
}

/// The priority of the job at a place, at most 1,000.
fn priority_of(jobs: &[Ask], job: usize) -> u32
    requires { job < length jobs.now }
    ensures value { result ≡ priority_at jobs.now job }
    ensures bound { result ≤ limits.priority }
{
    jobs[job].priority()
}

/// The demand of the job at a place, at least 1.
fn demand_of(jobs: &[Ask], job: usize) -> u32
    requires { job < length jobs.now }
    ensures value { result ≡ demand_at jobs.now job }
    ensures some { 1 ≤ result }
    ensures bound { result ≤ limits.demand }
{
    jobs[job].demand()
}
