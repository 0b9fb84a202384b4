//! A script and its jobs.

ghost use Rattle.std.specs.Prelude.{◌≡◌, ◌+◌, ◌≤◌, ◌++◌, ◌∷◌, [], length, slice_get, OnOk, OnErr};
ghost use Rattle.std.specs.{List.{count_by}, Option.{option_copied}};
ghost use Rattle.mal_script.specs.{Counting.{is_revision, revision_of}, ReadResult.{of_jobs}};
ghost use Rattle.mal_base.specs.Limits.{limits};
ghost use Rattle.spec_script.specs.{Formed.{IsScript}, Script.{revisions, revisions_at}};

use mal_base::{Ask, Name};
use mal_revision::Revision;
use spec_script::Step;
use std::alloc::{AllocError, Global};
use std::marker::Model;

/// A job of a script: its tenant, its name, its ask and its steps. Contracts see the four.
#[derive(Drop)]
pub struct ScriptJob {
    tenant: Name,
    name: Name,
    ask: Ask,
    steps: Vec<Step>,
}

impl Model for ScriptJob {
    ghost use Rattle.spec_script.specs.Script.{ScriptedJob};

    ghost Value = { ScriptedJob };

    ghost view = { λ j. record { tenant = j.tenant; name = j.name; ask = j.ask; steps = j.steps.items } };
}

impl ScriptJob {
    /// The job of a tenant under a name, with its ask and its steps. Takes no memory.
    pub fn new(tenant: Name, name: Name, ask: Ask, steps: Vec<Step>) -> ScriptJob
        ensures { result ≡ record { tenant = tenant; name = name; ask = ask; steps = steps.items } }
    {
        ScriptJob {
            tenant,
            name,
            ask,
            steps,
        }
    }

    /// Puts a step after the others. If memory runs out, the job is as before.
    pub(crate) fn push(&mut self, step: Step) -> Result<(), AllocError>
        ensures job { OnOk result
            (self.new
            ≡ record {
              tenant = self.old.tenant;
              name = self.old.name;
              ask = self.old.ask;
              steps = self.old.steps ++ step
                  ∷ [];
            }) }
        ensures count { OnOk result
            (length (revisions self.new) ≡ length (revisions self.old) + length (revisions_at step)) }
        ensures err { OnErr result (self.new ≡ self.old) }
    {
        match self.steps.reserve(1) {
            Ok(()) => {
                self.steps.push_reserved(step);
                Ok(())
            }
            Err(error) => {
                drop(step);
                Err(error)
            }
        }
    }

    /// Where its memory comes from.
    pub(crate) fn allocator(&self) -> Global {
        *self.steps.allocator()
    }

    /// The tenant's name.
    pub fn tenant(&self) -> Name
        ensures { result ≡ self.now.tenant }
    {
        self.tenant
    }

    /// The job's name.
    pub fn name(&self) -> Name
        ensures { result ≡ self.now.name }
    {
        self.name
    }

    /// What the job asks for.
    pub fn ask(&self) -> Ask
        ensures { result ≡ self.now.ask }
    {
        self.ask
    }

    /// The steps, in the order of the text.
    pub fn steps(&self) -> &[Step]
        ensures { result.now ≡ self.now.steps }
    {
        self.steps.as_slice()
    }

    /// How many revisions are among the steps.
    pub fn revision_count(&self) -> usize
        ensures { result ≡ length (revisions self.now) }
    {
        count_revisions(self.steps())
    }

    /// The revision at this place among the revisions, counted from 0.
    pub fn revision(&self, at: usize) -> Option<&Revision>
        ensures { option_copied result ≡ slice_get (revisions self.now) at }
    {
        let mut left = at;
        for step in self.steps() {
            match revision_of(step) {
                None => {}
                Some(revision) => {
                    if left == 0 {
                        return Some(revision);
                    }
                    left -= 1;
                }
            }
        }
        None
    }
}

/// How many revisions a step posts: one or none.
pub fn revisions_of(step: &Step) -> usize
    ensures count { result ≡ length (revisions_at step.now) }
    ensures bound { result ≤ 1 }
{
    match step {
        Step::Revise(_) => 1,
        Step::Reask(_) => 0,
    }
}

/// How many of these steps post revisions.
fn count_revisions(steps: &[Step]) -> usize
    ensures { result ≡ count_by is_revision steps.now }
{
    steps.iter().filter(|step| is_revision(step)).count()
}

/// The revision that a step posts.
fn revision_of(step: &Step) -> Option<&Revision>
    ensures { option_copied result ≡ revision_of step.now }
{
    match step {
        Step::Revise(revision) => Some(revision),
        Step::Reask(_) => None,
    }
}

/// Whether a step posts a revision.
fn is_revision(step: &Step) -> bool
    ensures { result ≡ is_revision step.now }
{
    revisions_of(step) == 1
}

/// A script: its jobs, which are in form and within the limits that are served. Contracts see the list.
#[derive(Drop)]
pub struct Script {
    jobs: Vec<ScriptJob>,
}

impl Model for Script {
    ghost use Rattle.mal_script.specs.ReadResult.{of_jobs};
    ghost use Rattle.mal_base.specs.Limits.{limits};
    ghost use Rattle.spec_script.specs.{Formed.{IsScript}, Script.{Scripted}};

    ghost Value = { Scripted };

    ghost view = { λ s. record { jobs = s.jobs.items } };

    ghost invariant = { λ s. IsScript limits (of_jobs s.jobs.items) };
}

impl Script {
    /// The script of these jobs, which are in form and within the limits that are served. Takes no memory.
    pub fn of_form(jobs: Vec<ScriptJob>) -> Script
        requires { IsScript limits (of_jobs jobs.items) }
        ensures { result ≡ of_jobs jobs.items }
    {
        Script { jobs }
    }

    /// The jobs, in the order of the text. They are in form and within the limits that are served.
    pub fn jobs(&self) -> &[ScriptJob]
        ensures jobs { result.now ≡ self.now.jobs }
        ensures formed { IsScript limits self.now }
    {
        self.jobs.as_slice()
    }
}
