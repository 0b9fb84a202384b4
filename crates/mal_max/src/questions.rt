//! The questions of a search.

ghost use Rattle.std.specs.Prelude.{◌≡◌, ◌≤◌, length, IfOk};
ghost use Rattle.spec_max.specs.{Optimum.{cheaper, opening}, Right.{IsServed}};
ghost use Rattle.mal_max.specs.Seen.{instance};

use crate::counter::{Counter, with_counter};
use mal_base::{ClauseList, Formula, Lit};
use mal_inquiry::posted;
use mal_revision::Revision;
use std::alloc::{AllocError, Global};

/// The first question: formula and counter.
pub fn opening(alloc: Global, formula: &Formula, softs: &[Lit]) -> Result<Revision, AllocError>
    requires { IsServed (instance formula.now softs.now) }
    ensures { IfOk result (λ r. r ≡ opening (instance formula.now softs.now)) }
{
    let counter = Counter::of(formula.variables(), softs);
    let clauses = with_counter(alloc, formula, softs)?;
    posted(alloc, counter.last(), clauses, &[])
}

/// The question for a model that costs less than this.
pub fn cheaper(
    alloc: Global,
    formula: &Formula,
    softs: &[Lit],
    cost: u32,
) -> Result<Revision, AllocError>
    requires served { IsServed (instance formula.now softs.now) }
    requires some { 1 ≤ cost }
    requires bound { cost ≤ length softs.now }
    ensures { IfOk result (λ r. r ≡ cheaper (instance formula.now softs.now) cost) }
{
    let counter = Counter::of(formula.variables(), softs);
    let less = counter.costs_less(cost);
    posted(alloc, counter.last(), ClauseList::new(alloc), &[less])
}
