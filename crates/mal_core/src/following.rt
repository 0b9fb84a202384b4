//! What follows what is told.

ghost use Rattle.std.specs.Prelude.{◌≡◌, IfOk};
ghost use Rattle.spec_inquiry.specs.Searches.{Proofs};
ghost use Rattle.spec_core.specs.{Core.{going, models_of, satisfied}, Right.{IsServed}};
ghost use Rattle.mal_core.specs.Seen.{LeadsTo, core_by, instance, narrowed_by, next_of};

use crate::outcome::{Minimal, Narrowing};
use crate::questions::without_next;
use mal_base::{Formula, Lit, Values};
use mal_inquiry::Next;
use std::alloc::{AllocError, Global};

/// What follows a model: the first satisfies all assumptions, and each other lets the next literal stay.
pub fn satisfied(
    alloc: Global,
    formula: &Formula,
    assumptions: &[Lit],
    narrowing: Option<Narrowing>,
    model: Values,
) -> Result<Next<Option<Narrowing>, Narrowing, Minimal>, AllocError>
    requires served { IsServed (instance formula.now assumptions.now) }
    requires asked { LeadsTo (instance formula.now assumptions.now)
        (λ proofs. satisfied (instance formula.now assumptions.now) (narrowed_by proofs narrowing) model) }
    ensures { IfOk result (λ next. (proofs : Proofs) → next_of proofs next
        ≡ satisfied (instance formula.now assumptions.now) (narrowed_by proofs narrowing) model) }
{
    match narrowing {
        None => Ok(Next::Ends(Minimal::Satisfiable { model })),
        Some(mut narrowing) => {
            narrowing.models.push(model)?;
            going(alloc, formula, assumptions, narrowing)
        }
    }
}

/// What follows a core: where each literal has a model without it the search ends with the lines of its proof, and else it
/// is asked without the first that has none.
pub fn going(
    alloc: Global,
    formula: &Formula,
    assumptions: &[Lit],
    narrowing: Narrowing,
) -> Result<Next<Option<Narrowing>, Narrowing, Minimal>, AllocError>
    requires served { IsServed (instance formula.now assumptions.now) }
    requires asked { LeadsTo (instance formula.now assumptions.now)
        (λ proofs. going (instance formula.now assumptions.now) (core_by proofs narrowing)) }
    ensures { IfOk result (λ next. (proofs : Proofs) → next_of proofs next
        ≡ going (instance formula.now assumptions.now) (core_by proofs narrowing)) }
{
    if narrowing.models.len() == narrowing.core.len() {
        let proof = narrowing.proof;
        return Ok(Next::Proves(narrowing, proof));
    }
    let question = without_next(alloc, formula, &narrowing)?;
    Ok(Next::Asks(Some(narrowing), question))
}

/// The models so far.
pub fn models_of(alloc: Global, narrowing: Option<Narrowing>) -> Vec<Values>
    ensures { (proofs : Proofs) → result.items ≡ models_of (narrowed_by proofs narrowing) }
{
    match narrowing {
        None => Vec::new(alloc),
        Some(narrowing) => narrowing.models,
    }
}
