//! A revision: clauses that are added to a job, and assumptions for one answer.

ghost use Rattle.std.specs.Prelude.{◌≡◌, ◌≤◌, ◌^◌, ◌↔◌, true, IsTrue, IfOk, IfErr, MatchResult};
ghost use Rattle.mal_base.specs.{Limits.{limits}, Formulas.{literals_of}, Clauses.{climbs, HaveSame}};
ghost use Rattle.mal_revision.specs.{Posted.{Posted, is_posted}, Refused.{IsMadeOf, IsRefused}, declared.fault.RevisionFault.TheVariants.{OutOfMemory}};

use crate::fault::RevisionFault;
use crate::scan;
use mal_base::{ClauseList, Lit};
use std::alloc::{AllocError, Global};
use std::marker::Model;
use std::sync::Arc;

/// A revision of a job: the number of its variables and its clauses, within the limits (None stands for a tautology,
/// which keeps its number and counts no literal), and its assumptions, by strictly rising variable. Contracts see the
/// three. Copies share the lists, so that a copy takes no walk over the clauses.
#[derive(Drop)]
pub struct Revision {
    variables: u32,
    clauses: Arc<ClauseList>,
    assumptions: Arc<Vec<Lit>>,
}

impl Model for Revision {
    ghost use Rattle.std.specs.Prelude.{◌≡◌, true};
    ghost use Rattle.std.specs.Arc.{arc_value};
    ghost use Rattle.mal_revision.specs.Posted.{Posted, is_posted};

    ghost Value = { Posted };

    ghost view = { λ r. record { variables = r.variables; clauses = arc_value r.clauses; assumptions = (arc_value r.assumptions).items } };

    ghost invariant = { λ r. is_posted
        (record { variables = r.variables; clauses = arc_value r.clauses; assumptions = (arc_value r.assumptions).items })
        ≡ true };
}

impl Revision {
    /// The revision of these variables and clauses (None stands for a tautology) under these assumptions, in any order
    /// and with repeats.
    ///
    /// Errors, the first that holds: `Opposite` names the least variable that is assumed with both signs, `VarTooLarge`
    /// the variable of the first literal of the clauses and then of the assumptions that is above the variables (a
    /// tautology needs variable 1), `Limit` the first limit that is passed. `OutOfMemory` may come at any time.
    pub fn new(
        alloc: Global,
        variables: u32,
        clauses: ClauseList,
        assumptions: &[Lit],
    ) -> Result<Revision, RevisionFault>
        ensures made { IfOk result (λ r. IsMadeOf variables clauses assumptions.now r) }
        ensures refused { IfErr result (λ e. IsRefused variables clauses assumptions.now e) }
        ensures fits { is_posted
            (record { variables = variables; clauses = clauses; assumptions = assumptions.now }) ≡ true
            → MatchResult result
            (λ r. r ≡ record { variables = variables; clauses = clauses; assumptions = assumptions.now })
            (λ e. e ≡ OutOfMemory) }
    {
        let Ok(sorted) = Lit::sorted(alloc, assumptions) else {
            return Err(RevisionFault::OutOfMemory);
        };
        Revision::of_sorted(alloc, variables, clauses, assumptions, sorted)
    }

    /// The revision of these parts, where the assumptions have been sorted.
    fn of_sorted(
        alloc: Global,
        variables: u32,
        clauses: ClauseList,
        assumptions: &[Lit],
        sorted: Vec<Lit>,
    ) -> Result<Revision, RevisionFault>
        requires rising { climbs sorted.items ≡ true }
        requires same { HaveSame assumptions.now sorted.items }
        ensures made { IfOk result (λ r. IsMadeOf variables clauses assumptions.now r) }
        ensures refused { IfErr result (λ e. IsRefused variables clauses assumptions.now e) }
    {
        match scan::opposite(sorted.as_slice()) {
            Some(var) => return Err(RevisionFault::Opposite { var }),
            None => {}
        }
        match scan::above_parts(variables, &clauses, assumptions) {
            Some(var) => return Err(RevisionFault::VarTooLarge { var }),
            None => {}
        }
        match scan::limit_passed(variables, &clauses) {
            Some(which) => Err(RevisionFault::Limit { which }),
            None => Revision::shared(alloc, variables, clauses, sorted),
        }
    }

    /// The revision of these parts. Its lists are shared from now on.
    fn shared(
        alloc: Global,
        variables: u32,
        clauses: ClauseList,
        assumptions: Vec<Lit>,
    ) -> Result<Revision, RevisionFault>
        requires { is_posted (record { variables = variables; clauses = clauses; assumptions = assumptions.items })
            ≡ true }
        ensures { MatchResult result
            (λ r. r ≡ record { variables = variables; clauses = clauses; assumptions = assumptions.items })
            (λ e. e ≡ OutOfMemory) }
    {
        let Ok(clauses) = Arc::new(alloc, clauses) else {
            return Err(RevisionFault::OutOfMemory);
        };
        let Ok(assumptions) = Arc::new(alloc, assumptions) else {
            return Err(RevisionFault::OutOfMemory);
        };
        Ok(Revision {
            variables,
            clauses,
            assumptions,
        })
    }

    /// An equal revision. It shares the lists, so that it takes no memory and is made at once, however many clauses
    /// there are; an error only where they are shared 2^63 times.
    pub fn copy(&self) -> Result<Revision, AllocError>
        ensures { IfOk result (λ r. r ≡ self.now) }
    {
        Ok(Revision {
            variables: self.variables,
            clauses: Arc::try_clone(&self.clauses)?,
            assumptions: Arc::try_clone(&self.assumptions)?,
        })
    }

    /// Whether the other revision has the same variables, clauses and assumptions.
    pub fn same(&self, other: &Revision) -> bool
        ensures { IsTrue result ↔ (self.now ≡ other.now) }
    {
        if self.variables != other.variables {
            return false;
        }
        if !Lit::are_same(self.assumptions.as_slice(), other.assumptions.as_slice()) {
            return false;
        }
        self.clauses.same(&other.clauses)
    }

    /// The number of variables, at most those that are served.
    pub fn variables(&self) -> u32
        ensures value { result ≡ self.now.variables }
        ensures form { is_posted self.now ≡ true }
    {
        self.variables
    }

    /// The number of the literals of the clauses, at most those that are served. It takes no count.
    pub fn literals(&self) -> u32
        ensures value { result ≡ literals_of self.now.clauses }
        ensures bound { result ≤ limits.literals }
    {
        self.clauses.literals() as u32
    }

    /// The clauses, in the order of their numbers; None stands for a tautology.
    pub fn clauses(&self) -> &ClauseList
        ensures value { result.now ≡ self.now.clauses }
        ensures form { is_posted self.now ≡ true }
    {
        &self.clauses
    }

    /// The assumptions, by strictly rising variable.
    pub fn assumptions(&self) -> &[Lit]
        ensures value { result.now ≡ self.now.assumptions }
        ensures form { is_posted self.now ≡ true }
    {
        self.assumptions.as_slice()
    }
}
