//! How many workers jobs can use.

ghost use Rattle.std.specs.Prelude.{◌≡◌, ◌≤◌, min};
ghost use Rattle.mal_base.specs.Limits.{limits};
ghost use Rattle.mal_pool.specs.Parts.{demand_of, most_after, most_of};

use mal_script::{ScriptJob, Step};

/// How many of so many workers the jobs can use at a time: no more than they ask for together.
pub fn useful(jobs: &[ScriptJob], workers: u32) -> u32
    requires { workers ≤ 64 }
    ensures { result ≡ min workers (demand_of jobs.now) }
{
    let mut sum = 0;
    for job in jobs {
        let demand = most_of(job);
        if workers <= sum + demand {
            return workers;
        }
        sum += demand;
    }
    sum
}

/// The most workers that a job asks for at a time, by its opening or by a new ask: at most 64.
fn most_of(job: &ScriptJob) -> u32
    ensures value { result ≡ most_of job.now }
    ensures bound { result ≤ limits.demand }
{
    let steps = job.steps();
    let mut most = job.ask().demand();
    for step in steps {
        most = most_after(most, step);
    }
    most
}

/// The same after one more step.
fn most_after(most: u32, step: &Step) -> u32
    ensures value { result ≡ most_after most step.now }
    ensures bound { most ≤ limits.demand → result ≤ limits.demand }
{
    match step {
        Step::Revise(_) => most,
        Step::Reask(weight) => most.max(weight.demand()),
    }
}
