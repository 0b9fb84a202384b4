//! The search for an optimum.

ghost use Rattle.std.specs.Prelude.{◌≡◌, ◌≤◌, codes, IfOk};
ghost use Rattle.spec_max.specs.Right.{IsServed};
ghost use Rattle.mal_base.specs.Limits.{limits};
ghost use Rattle.mal_max.specs.{Found.{IsFound}, Seen.{instance, seen}};

use crate::following::{concluded, improved};
use crate::optimum::{Optimum, Solution};
use crate::questions::opening;
use crate::solution::solution_in;
use mal_base::{Formula, Lines, Lit, Name};
use mal_inquiry::{Finding, Next, Search, run};
use mal_learn::Scratch;
use mal_revision::Revision;
use std::alloc::{AllocError, Global};

/// The optimum of a formula with these soft literals, of its variables and 128 at most, where formula and counter are
/// within the limits. It is found by one job, the job `max` of the tenant `max`, in a hall of one worker on this thread:
/// it is asked for a model, and then for one that costs less, until there is none or an answer is unknown. Each of these
/// questions, 129 at most, may spend so many slices, 1 to 4,096.
pub fn solve(
    alloc: Global,
    formula: &Formula,
    softs: &[Lit],
    slices: u32,
    scratch: &mut Scratch,
) -> Result<Optimum, AllocError>
    requires served { IsServed (instance formula.now softs.now) }
    requires some { 1 ≤ slices }
    requires bound { slices ≤ limits.slices }
    ensures { IfOk result (λ o. IsFound slices (instance formula.now softs.now) (seen o)) }
{
    run(
        alloc,
        own_name(),
        slices,
        &Optimizing { formula, softs },
        scratch,
    )
}

/// The name of the job of a search, and of its tenant.
fn own_name() -> Name
    ensures { result ≡ codes "max" }
{
    let Some(name) = Name::of(b"max") else {
        unreachable!();
    };
    name
}

/// A formula with soft literals, of which the optimum is searched for. A state is the best solution so far.
#[derive(Drop)]
struct Optimizing<'a> {
    formula: &'a Formula,
    softs: &'a [Lit],
}

impl Search for Optimizing<'_> {
    ghost use Rattle.std.specs.Prelude.{◌≡◌, Option, None};
    ghost use Rattle.std.specs.Option.{option_map};
    ghost use Rattle.spec_max.specs.{Optimum.{concluded, opening, step}, Right.{IsServed}};
    ghost use Rattle.spec_max.specs.Optimum as max;
    ghost use Rattle.mal_max.specs.Seen.{instance, seen, solution_of};

    type State = Option<Solution>;

    type Proved = Option<Solution>;

    type Outcome = Optimum;

    ghost Stood = { Option max.Solution };

    ghost Reached = { max.Optimum };

    ghost stood = { λ proofs best. option_map solution_of best };

    ghost proved = { λ best lines. concluded (option_map solution_of best) lines };

    ghost reached = { seen };

    ghost served = { λ w. IsServed (instance w.formula.now w.softs.now) };

    ghost start = { λ w. None };

    ghost question = { λ w. opening (instance w.formula.now w.softs.now) };

    ghost step = { λ w. step (instance w.formula.now w.softs.now) };

    fn first(&self, alloc: Global) -> Result<(Option<Solution>, Revision), AllocError> {
        Ok((None, opening(alloc, self.formula, self.softs)?))
    }

    fn after(
        &self,
        alloc: Global,
        state: Option<Solution>,
        number: u32,
        found: Finding,
    ) -> Result<Next<Option<Solution>, Option<Solution>, Optimum>, AllocError> {
        match found {
            Finding::Model(model) => {
                let better = solution_in(alloc, self.formula, self.softs, &model)?;
                improved(alloc, self.formula, self.softs, better)
            }
            Finding::Failed(_) => Ok(Next::Proves(state, number)),
            Finding::Unknown(cause) => Ok(Next::Ends(Optimum::Unknown { best: state, cause })),
        }
    }

    fn with_lines(outcome: Option<Solution>, lines: Lines) -> Optimum
        ensures { seen result ≡ concluded (option_map solution_of outcome) lines.lines }
    {
        concluded(outcome, lines)
    }
}
