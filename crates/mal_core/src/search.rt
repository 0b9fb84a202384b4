//! The search for a minimal core, over one job.

ghost use Rattle.std.specs.Prelude.{◌≡◌, ◌≤◌, codes, IfOk};
ghost use Rattle.spec_core.specs.Right.{IsServed};
ghost use Rattle.mal_base.specs.Limits.{limits};
ghost use Rattle.mal_core.specs.{Found.{IsFound}, Seen.{instance, seen}};

use crate::following::{going, models_of, satisfied};
use crate::outcome::{Minimal, Narrowed, Narrowing};
use crate::questions::opening;
use mal_base::{Formula, Lines, Lit, Name};
use mal_inquiry::{Finding, Next, Search, run};
use mal_learn::Scratch;
use mal_revision::Revision;
use std::alloc::{AllocError, Global};

/// Searches for a minimal core of a formula under assumptions of its variables, which rise by variable, 255 at most. It
/// is found by one job, the job `core` of the tenant `core`, in a hall of one worker on this thread: it is asked for a
/// model of the formula under all assumptions, and then without each literal of the core in turn, until each has a model
/// without it or an answer is unknown. Each of these questions, 256 at most, may spend so many slices, 1 to 4,096.
pub fn minimal(
    alloc: Global,
    formula: &Formula,
    assumptions: &[Lit],
    slices: u32,
    scratch: &mut Scratch,
) -> Result<Minimal, AllocError>
    requires served { IsServed (instance formula.now assumptions.now) }
    requires some { 1 ≤ slices }
    requires bound { slices ≤ limits.slices }
    ensures { IfOk result (λ m. IsFound slices (instance formula.now assumptions.now) (seen m)) }
{
    let search = Minimizing {
        formula,
        assumptions,
    };
    run(alloc, own_name(), slices, &search, scratch)
}

/// The name of the job of a search, and of its tenant.
fn own_name() -> Name
    ensures { result ≡ codes "core" }
{
    let Some(name) = Name::of(b"core") else {
        unreachable!();
    };
    name
}

/// A formula under assumptions, of which a minimal core is searched for. A state is the core so far.
#[derive(Drop)]
struct Minimizing<'a> {
    formula: &'a Formula,
    assumptions: &'a [Lit],
}

impl Search for Minimizing<'_> {
    ghost use Rattle.std.specs.Prelude.{◌≡◌, Option, None};
    ghost use Rattle.spec_core.specs.{Core.{opening, step}, Right.{IsServed}};
    ghost use Rattle.spec_core.specs.Core as core;
    ghost use Rattle.mal_core.specs.Seen.{instance, narrowed_by, proved_by, seen};

    type State = Option<Narrowing>;

    type Proved = Narrowing;

    type Outcome = Minimal;

    ghost Stood = { Option core.Narrowed };

    ghost Reached = { core.Minimal };

    ghost stood = { narrowed_by };

    ghost proved = { proved_by };

    ghost reached = { seen };

    ghost served = { λ w. IsServed (instance w.formula.now w.assumptions.now) };

    ghost start = { λ w. None };

    ghost question = { λ w. opening (instance w.formula.now w.assumptions.now) };

    ghost step = { λ w. step (instance w.formula.now w.assumptions.now) };

    fn first(&self, alloc: Global) -> Result<(Option<Narrowing>, Revision), AllocError> {
        Ok((None, opening(alloc, self.formula, self.assumptions)?))
    }

    fn after(
        &self,
        alloc: Global,
        state: Option<Narrowing>,
        number: u32,
        found: Finding,
    ) -> Result<Next<Option<Narrowing>, Narrowing, Minimal>, AllocError> {
        match found {
            Finding::Model(model) => satisfied(alloc, self.formula, self.assumptions, state, model),
            Finding::Failed(core) => {
                let narrowing = Narrowing {
                    core,
                    proof: number,
                    models: models_of(alloc, state),
                };
                going(alloc, self.formula, self.assumptions, narrowing)
            }
            Finding::Unknown(cause) => Ok(Next::Ends(Minimal::Unknown { cause })),
        }
    }

    fn with_lines(outcome: Narrowing, lines: Lines) -> Minimal
        ensures { seen result ≡ proved_by outcome lines.lines }
    {
        Minimal::Core(Narrowed {
            core: outcome.core,
            lines,
            models: outcome.models,
        })
    }
}
