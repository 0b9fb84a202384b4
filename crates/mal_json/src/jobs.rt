//! The jobs of a description, as they are read.

ghost use Rattle.std.specs.Prelude.{◌≡◌, ◌+◌, ◌∷◌, ◌++◌, [], codes, count_by, length, map, Ok};
ghost use Rattle.mal_base.specs.Limits.{limits};
ghost use Rattle.serde_json.specs.View.{view};
ghost use Rattle.spec_script.specs.Formed.{tenants_of, with_name};
ghost use Rattle.spec_json.specs.{Numbers.{ask_in}, Reading.{admitted, asked, with_job, with_jobs, with_steps}, Shape.{at, is_revision, steps_in, text_in}};
ghost use Rattle.mal_json.specs.ReadResult.{Gives};

use crate::numbers;
use crate::shape::{is_revision, names};
use crate::steps::{all_stepped, limit};
use crate::taken::{has_job, has_room};
use mal_base::{Ask, LIMITS, LimitKind, Name};
use mal_script::{ScriptJob, is_among};
use serde_json::Value;
use spec_json::JsonFault;
use std::alloc::Global;
use std::marker::Model;

/// The jobs of a description that are read, and their tenants, each once. Contracts see the jobs.
#[derive(Drop)]
pub struct Jobs {
    jobs: Vec<ScriptJob>,
    tenants: Vec<Name>,
}

impl Model for Jobs {
    ghost use Rattle.std.specs.Prelude.{◌≡◌, List};
    ghost use Rattle.spec_script.specs.{Formed.{tenants_of}, Script.{ScriptedJob}};

    ghost Value = { List ScriptedJob };

    ghost view = { λ j. j.jobs.items };

    ghost invariant = { λ j. j.tenants.items ≡ tenants_of j.jobs.items };
}

impl Jobs {
    /// No job.
    pub fn new(alloc: Global) -> Jobs
        ensures { result ≡ [] }
    {
        Jobs {
            jobs: Vec::new(alloc),
            tenants: Vec::new(alloc),
        }
    }

    /// The jobs themselves.
    pub fn finish(self) -> Vec<ScriptJob>
        ensures { result.items ≡ self }
    {
        self.jobs
    }

    /// The number of the job that is read next, from 1 on.
    fn next_number(&self) -> usize
        ensures { result ≡ length self.now + 1 }
    {
        self.jobs.len() + 1
    }

    /// How many tenants there are with this one.
    fn tenants_with(&self, tenant: Name) -> usize
        ensures { result ≡ length (with_name (tenants_of self.now) tenant) }
    {
        if is_among(tenant, self.tenants.as_slice()) {
            self.tenants.len()
        } else {
            self.tenants.len() + 1
        }
    }

    /// The jobs with one more.
    fn push(mut self, job: ScriptJob) -> Result<Jobs, JsonFault>
        ensures { Gives (λ j. j) result (Ok (self ++ job ∷ [])) }
    {
        let tenant = job.tenant();
        self.jobs.reserve(1)?;
        if !is_among(tenant, self.tenants.as_slice()) {
            self.tenants.reserve(1)?;
            self.tenants.push_reserved(tenant);
        }
        self.jobs.push_reserved(job);
        Ok(self)
    }

    /// The jobs with the job of a value more, whose steps are read now.
    fn with_steps(
        self,
        tenant: Name,
        name: Name,
        ask: Ask,
        value: &Value,
    ) -> Result<Jobs, JsonFault>
        requires tenant { tenant ≡ text_in (at (codes "tenant") (view value.now)) }
        requires name { name ≡ text_in (at (codes "name") (view value.now)) }
        ensures { Gives (λ j. j) result (with_steps self (view value.now) ask) }
    {
        let alloc = *self.jobs.allocator();
        let steps = all_stepped(alloc, self.next_number(), numbers::items_at(value, "steps"))?;
        let job = ScriptJob::new(tenant, name, ask, steps);
        self.push(job)
    }

    /// The jobs with the job of a value more, where it may follow them.
    fn admitted(self, tenant: Name, name: Name, ask: Ask, value: &Value) -> Result<Jobs, JsonFault>
        requires tenant { tenant ≡ text_in (at (codes "tenant") (view value.now)) }
        requires name { name ≡ text_in (at (codes "name") (view value.now)) }
        ensures { Gives (λ j. j) result (admitted limits self tenant name (view value.now) ask) }
    {
        let number = self.next_number();
        if self.tenants_with(tenant) > LIMITS.tenants {
            return Err(limit(number, LimitKind::Tenants));
        }
        if has_job(self.jobs.as_slice(), tenant, name) {
            return Err(JsonFault::Duplicate { job: number });
        }
        if !has_room(self.jobs.as_slice(), LIMITS, tenant) {
            return Err(limit(number, LimitKind::Jobs));
        }
        if revisions_in(value) > LIMITS.revisions {
            return Err(limit(number, LimitKind::Revisions));
        }
        self.with_steps(tenant, name, ask, value)
    }

    /// The same where its numbers make an ask.
    fn asked(self, tenant: Name, name: Name, value: &Value) -> Result<Jobs, JsonFault>
        requires tenant { tenant ≡ text_in (at (codes "tenant") (view value.now)) }
        requires name { name ≡ text_in (at (codes "name") (view value.now)) }
        ensures { Gives (λ j. j) result (asked limits self (view value.now) (ask_in (view value.now))) }
    {
        match numbers::ask(value) {
            Some(ask) => self.admitted(tenant, name, ask, value),
            None => Err(JsonFault::Range {
                job: self.next_number(),
            }),
        }
    }

    /// The jobs with the job of a value more.
    pub fn with_job(self, value: &Value) -> Result<Jobs, JsonFault>
        ensures { Gives (λ j. j) result (with_job limits self (view value.now)) }
    {
        match names(value) {
            Some((tenant, name)) => self.asked(tenant, name, value),
            None => Err(JsonFault::Shape {
                job: self.next_number(),
            }),
        }
    }
}

/// How many of these values are revisions.
fn count_revisions(values: &[Value]) -> usize
    ensures { result ≡ count_by (λ v. is_revision (view v)) values.now }
{
    values.iter().filter(|value| is_revision(value)).count()
}

/// How many revisions a job has.
fn revisions_in(value: &Value) -> usize
    ensures { result ≡ count_by is_revision (steps_in (view value.now)) }
{
    count_revisions(numbers::items_at(value, "steps"))
}

/// The jobs that these values are, or the first fault of them.
pub fn all_jobs(alloc: Global, values: &[Value]) -> Result<Vec<ScriptJob>, JsonFault>
    ensures { Gives (λ v. v.items) result (with_jobs limits [] (map view values.now)) }
{
    let mut jobs = Jobs::new(alloc);
    let mut rest = values;
    while let Some((value, behind)) = rest.split_first() {
        jobs = jobs.with_job(value)?;
        rest = behind;
    }
    Ok(jobs.finish())
}
