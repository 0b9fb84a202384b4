//! What a tenant posts by a script, one after the other.

ghost use Rattle.std.specs.Prelude.{◌≡◌, ◌≤◌, ◌<◌, ◌+◌, ◌^◌, ◌∷◌, [], length, take, drop, flat_map, slice_get, IfSome, MatchOption};
ghost use Rattle.std.specs.Option.{option_copied};
ghost use Rattle.mal_posts.specs.Dues.{IsNumbered, due, event_of, jobs_from, left_in, of_tenant};
ghost use Rattle.spec_hall.specs.{Events.{Open}, Own.{is_text}};
ghost use Rattle.spec_run.specs.Complete.{job_events, key_of_job, open_events};
ghost use Rattle.spec_script.specs.Script.{revisions_at, revisions_in};

use mal_base::Name;
use mal_script::{ScriptJob, Step, revisions_of};
use std::marker::Model;
use std::slice;

/// How far a tenant has posted: of the job at this place of the script so many steps, and of its later jobs nothing.
#[derive(Clone, Copy, PartialEq, Eq, Debug)]
pub struct Left {
    pub job: usize,
    pub posted: usize,
}

/// What is to be posted next: a job's opening, a step of it, which comes with the number of the job's next revision, or
/// its closing.
#[derive(Clone, Copy)]
pub enum Due<'a> {
    Opening(&'a ScriptJob),
    Step(&'a ScriptJob, &'a Step, usize),
    Closing(&'a ScriptJob),
}

/// What a tenant has still to post: the openings of its jobs, then job by job the steps and the closing. Contracts see
/// the jobs of the script and the events that are due.
#[derive(Drop)]
pub struct Cursor<'a> {
    jobs: &'a [ScriptJob],
    opening: usize,
    at: Left,
    number: usize,
}

impl<'a> Model for Cursor<'a> {
    ghost use Rattle.mal_posts.specs.Course.{Course};

    ghost Value = { Course };

    ghost use Rattle.mal_posts.specs.Dues.{IsNumbered, jobs_from, left_in};
    ghost use Rattle.spec_run.specs.Complete.{open_events};

    ghost view = { λ c. record {
      jobs = c.jobs.now;
      openings = open_events (jobs_from c.jobs.now c.opening);
      others = left_in c.jobs.now c.at;
    } };

    ghost invariant = { λ c. IsNumbered c.jobs.now c.at c.number };
}

impl<'a> Cursor<'a> {
    /// All that a tenant posts.
    pub(crate) fn of_tenant(jobs: &'a [ScriptJob], tenant: Name) -> Cursor<'a>
        ensures jobs { result.jobs ≡ jobs.now }
        ensures openings { result.openings ≡ open_events (of_tenant tenant jobs.now) }
        ensures others { result.others ≡ flat_map job_events (of_tenant tenant jobs.now) }
    {
        let first = place_of(jobs, tenant, 0);
        Cursor {
            jobs,
            opening: first,
            at: Left {
                job: first,
                posted: 0,
            },
            number: 1,
        }
    }

    /// What a tenant posts after its openings.
    pub fn opened(jobs: &'a [ScriptJob], tenant: Name) -> Cursor<'a>
        ensures jobs { result.jobs ≡ jobs.now }
        ensures openings { result.openings ≡ [] }
        ensures others { result.others ≡ flat_map job_events (of_tenant tenant jobs.now) }
    {
        Cursor {
            jobs,
            opening: jobs.len(),
            at: Left {
                job: place_of(jobs, tenant, 0),
                posted: 0,
            },
            number: 1,
        }
    }

    /// What was left after the openings: the rest of the job there, and the later jobs of its tenant.
    pub fn of_left(jobs: &'a [ScriptJob], left: Left) -> Cursor<'a>
        ensures jobs { result.jobs ≡ jobs.now }
        ensures openings { result.openings ≡ [] }
        ensures others { result.others ≡ left_in jobs.now left }
    {
        Cursor {
            jobs,
            opening: jobs.len(),
            at: left,
            number: number_at(jobs, left),
        }
    }

    /// What is posted of a job after its opening.
    pub fn of_job(job: &'a ScriptJob) -> Cursor<'a>
        ensures openings { result.openings ≡ [] }
        ensures others { result.others ≡ job_events job.now }
    {
        Cursor::of_left(slice::from_ref(job), Left { job: 0, posted: 0 })
    }

    /// How far the tenant has posted after its openings.
    pub fn left(&self) -> Left
        ensures { self.now.others ≡ left_in self.now.jobs result }
    {
        self.at
    }

    /// What is due next, which then is due no more.
    pub fn next(&mut self) -> Option<Due<'a>>
        ensures jobs { self.new.jobs ≡ self.old.jobs }
        ensures opened { self.old.openings ≡ [] → self.new.openings ≡ [] }
        ensures due { MatchOption result (due self.old ≡ []) (λ d. due self.old ≡ event_of d ∷ due self.new) }
    {
        match self.next_opening() {
            Some(job) => Some(Due::Opening(job)),
            None => self.next_other(),
        }
    }

    /// The job that is to be opened next.
    fn next_opening(&mut self) -> Option<&'a ScriptJob>
        ensures jobs { self.new.jobs ≡ self.old.jobs }
        ensures others { self.new.others ≡ self.old.others }
        ensures openings { MatchOption result ((self.old.openings ≡ []) × (self.new.openings ≡ []))
            (λ j. self.old.openings ≡ Open (key_of_job j.now) j.now.ask ∷ self.new.openings) }
    {
        let jobs = self.jobs;
        match jobs.get(self.opening) {
            None => None,
            Some(job) => {
                self.opening = place_of(jobs, job.tenant(), self.opening + 1);
                Some(job)
            }
        }
    }

    /// What is due next after the openings.
    fn next_other(&mut self) -> Option<Due<'a>>
        ensures jobs { self.new.jobs ≡ self.old.jobs }
        ensures openings { self.new.openings ≡ self.old.openings }
        ensures others { MatchOption result (self.old.others ≡ []) (λ d. self.old.others ≡ event_of d ∷ self.new.others) }
    {
        let jobs = self.jobs;
        match jobs.get(self.at.job) {
            None => None,
            Some(job) => match step_at(job, self.at.posted) {
                Some(step) => {
                    let due = Due::Step(job, step, self.number);
                    self.number = number_after(step, self.number);
                    self.at.posted += 1;
                    Some(due)
                }
                None => {
                    self.at = Left {
                        job: place_of(jobs, job.tenant(), self.at.job + 1),
                        posted: 0,
                    };
                    self.number = 1;
                    Some(Due::Closing(job))
                }
            },
        }
    }
}

/// The place of the next job of a tenant from a place of the script on: after all jobs where there is none.
fn place_of(jobs: &[ScriptJob], tenant: Name, from: usize) -> usize
    ensures { of_tenant tenant (drop from jobs.now) ≡ jobs_from jobs.now result }
{
    for place in from..jobs.len() {
        if is_of(&jobs[place], tenant) {
            return place;
        }
    }
    jobs.len()
}

/// The step at this place of a job.
fn step_at(job: &ScriptJob, at: usize) -> Option<&Step>
    ensures step { option_copied result ≡ slice_get job.now.steps at }
    ensures low { IfSome result (λ _. at < 2 ^ 63) }
{
    job.steps().get(at)
}

/// Whether a job is of this tenant.
fn is_of(job: &ScriptJob, tenant: Name) -> bool
    ensures { result ≡ is_text tenant job.now.tenant }
{
    tenant == job.tenant()
}

/// The number of the next revision of the job at a place.
fn number_at(jobs: &[ScriptJob], left: Left) -> usize
    ensures { IsNumbered jobs.now left result }
{
    match jobs.get(left.job) {
        None => 1,
        Some(job) => number_behind(job.steps(), left.posted),
    }
}

/// The number of a job's next revision after so many of these steps.
fn number_behind(steps: &[Step], posted: usize) -> usize
    ensures { result ≡ length (revisions_in (take posted steps.now)) + 1 }
{
    let mut number = 1;
    for at in 0..posted.min(steps.len()) {
        number = number_after(&steps[at], number);
    }
    number
}

/// The number of a job's next revision after a step, before which it was this number.
fn number_after(step: &Step, number: usize) -> usize
    requires { number ≤ 2 ^ 63 }
    ensures number { result ≡ number + length (revisions_at step.now) }
    ensures bound { result ≤ number + 1 }
{
    number + revisions_of(step)
}
