//! The steps of a job, as they are read.

ghost use Rattle.std.specs.Prelude.{◌≡◌, ◌≤◌, ◌&&◌, [], false, map, nat_abs, true};
ghost use Rattle.std.specs.List.{list_all};
ghost use Rattle.mal_base.specs.{Clauses.{clash, rises}, Formulas.{is_clause_of, is_within}, Limits.{limits}};
ghost use Rattle.serde_json.specs.View.{view};
ghost use Rattle.spec_json.specs.Numbers.{assumptions_in, clauses_in, has_number, is_above, is_none, variables_in};
ghost use Rattle.spec_json.specs.Reading.{all_stepped, bounded, reasked, revised, revision_in, stepped, with_consistent, with_revision};
ghost use Rattle.spec_json.specs.declared.fault.JsonFault.TheVariants.{Limit};
ghost use Rattle.mal_json.specs.ReadResult.{Gives};

use crate::clauses::{clause_list, sorted_literals};
use crate::numbers;
use crate::shape::is_revision;
use mal_base::{ClauseList, LIMITS, LimitKind, Lit};
use mal_revision::{Revision, opposite};
use mal_script::Step;
use serde_json::Value;
use spec_json::JsonFault;
use std::alloc::Global;
use std::marker::Model;

/// The steps of a job that are read, and how many clauses and literals their revisions have. Contracts see the steps.
#[derive(Drop)]
pub struct Steps {
    steps: Vec<Step>,
    clauses: usize,
    literals: usize,
}

impl Model for Steps {
    ghost use Rattle.std.specs.Prelude.{List};
    ghost use Rattle.spec_script.specs.declared.step.Step as script;
    ghost use Rattle.mal_json.specs.Counted.{IsCounted};

    ghost Value = { List script.Step };

    ghost view = { λ s. s.steps.items };

    ghost invariant = { λ s. IsCounted s.steps.items s.clauses s.literals };
}

impl Steps {
    /// No step.
    pub fn new(alloc: Global) -> Steps
        ensures { result ≡ [] }
    {
        Steps {
            steps: Vec::new(alloc),
            clauses: 0,
            literals: 0,
        }
    }

    /// The steps themselves.
    pub fn finish(self) -> Vec<Step>
        ensures { result.items ≡ self }
    {
        self.steps
    }

    /// The steps with a revision more, where the job may have its clauses and literals.
    fn with_revision(
        mut self,
        job: usize,
        variables: u32,
        clauses: ClauseList,
        assumptions: &[Lit],
    ) -> Result<Steps, JsonFault>
        requires few { variables ≤ limits.variables }
        requires clauses { list_all (is_clause_of variables) clauses ≡ true }
        requires assumed { (rises assumptions.now && is_within variables assumptions.now) ≡ true }
        ensures { Gives
            (λ s. s) result
            (with_revision job self
            (record { variables = variables; clauses = clauses; assumptions = assumptions.now })) }
    {
        let (more, longer) = (clauses.len(), clauses.literals());
        if LIMITS.clauses - self.clauses < more {
            return Err(limit(job, LimitKind::Clauses));
        }
        if LIMITS.literals - self.literals < longer {
            return Err(limit(job, LimitKind::Literals));
        }
        let alloc = *self.steps.allocator();
        let Ok(revision) = Revision::new(alloc, variables, clauses, assumptions) else {
            return Err(JsonFault::OutOfMemory);
        };
        self.steps.reserve(1)?;
        self.steps.push_reserved(Step::Revise(revision));
        self.clauses += more;
        self.literals += longer;
        Ok(self)
    }

    /// The steps with the revision of a value more, whose numbers are in range.
    fn consistent(self, job: usize, variables: u32, value: &Value) -> Result<Steps, JsonFault>
        requires own { variables ≡ nat_abs (variables_in (view value.now)) }
        requires few { variables ≤ limits.variables }
        requires some { has_number is_none (clauses_in (view value.now)) (assumptions_in (view value.now)) ≡ false }
        requires low { has_number
            (is_above variables) (clauses_in (view value.now)) (assumptions_in (view value.now)) ≡ false }
        ensures { Gives
            (λ s. s) result
            (with_consistent job self (revision_in (view value.now)) (clash (revision_in (view value.now)).assumptions)) }
    {
        let alloc = *self.steps.allocator();
        let assumptions = sorted_literals(alloc, numbers::items_at(value, "assumptions"))?;
        match opposite(assumptions.as_slice()) {
            Some(var) => return Err(JsonFault::Opposite { job, var }),
            None => {}
        }
        let clauses = clause_list(alloc, numbers::items_at(value, "clauses"))?;
        self.with_revision(job, variables, clauses, assumptions.as_slice())
    }

    /// The same where each literal is of one of the variables.
    fn bounded(self, job: usize, variables: u32, value: &Value) -> Result<Steps, JsonFault>
        requires own { variables ≡ nat_abs (variables_in (view value.now)) }
        requires few { variables ≤ limits.variables }
        requires some { has_number is_none (clauses_in (view value.now)) (assumptions_in (view value.now)) ≡ false }
        ensures { Gives (λ s. s) result (bounded job self (view value.now)) }
    {
        if numbers::has_above(u64::from(variables), value) {
            return Err(JsonFault::VarTooLarge { job });
        }
        self.consistent(job, variables, value)
    }

    /// The steps with the revision of a value more.
    fn revised(self, job: usize, value: &Value) -> Result<Steps, JsonFault>
        ensures { Gives (λ s. s) result (revised job self (view value.now)) }
    {
        let variables = numbers::whole_at(value, "variables");
        if variables < 0 || numbers::has_none(value) {
            return Err(JsonFault::Range { job });
        }
        let variables = variables.unsigned_abs();
        if variables > u64::from(LIMITS.variables) {
            return Err(limit(job, LimitKind::Variables));
        }
        self.bounded(job, variables as u32, value)
    }

    /// The steps with the change of the ask of a value more.
    fn reasked(mut self, job: usize, value: &Value) -> Result<Steps, JsonFault>
        ensures { Gives (λ s. s) result (reasked job self (view value.now)) }
    {
        let Some(weight) = numbers::weight(value) else {
            return Err(JsonFault::Range { job });
        };
        self.steps.reserve(1)?;
        self.steps.push_reserved(Step::Reask(weight));
        Ok(self)
    }

    /// The steps with the step of a value more.
    fn stepped(self, job: usize, value: &Value) -> Result<Steps, JsonFault>
        ensures { Gives (λ s. s) result (stepped job self (view value.now)) }
    {
        if is_revision(value) {
            self.revised(job, value)
        } else {
            self.reasked(job, value)
        }
    }
}

/// There are too many of these in a job.
pub fn limit(job: usize, which: LimitKind) -> JsonFault
    ensures { result ≡ Limit job which }
{
    JsonFault::Limit { job, which }
}

/// The steps of the job of this number that these values are, or the first fault of them.
pub fn all_stepped(alloc: Global, job: usize, values: &[Value]) -> Result<Vec<Step>, JsonFault>
    ensures { Gives (λ v. v.items) result (all_stepped job [] (map view values.now)) }
{
    let mut steps = Steps::new(alloc);
    let mut rest = values;
    while let Some((value, behind)) = rest.split_first() {
        steps = steps.stepped(job, value)?;
        rest = behind;
    }
    Ok(steps.finish())
}
