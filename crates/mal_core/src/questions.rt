//! The questions of a search.

ghost use Rattle.std.specs.Prelude.{◌≡◌, ◌<◌, length, true, IfOk};
ghost use Rattle.mal_revision.specs.Posted.{is_posted};
ghost use Rattle.spec_core.specs.{Core.{opening}, Right.{IsServed}};
ghost use Rattle.mal_core.specs.Seen.{instance, without};

use crate::outcome::Narrowing;
use mal_base::{ClauseList, Formula, Lit};
use mal_inquiry::{copied, posted};
use mal_revision::Revision;
use std::alloc::{AllocError, Global};

/// The first question: the formula under all assumptions.
pub fn opening(
    alloc: Global,
    formula: &Formula,
    assumptions: &[Lit],
) -> Result<Revision, AllocError>
    requires { IsServed (instance formula.now assumptions.now) }
    ensures { IfOk result (λ r. r ≡ opening (instance formula.now assumptions.now)) }
{
    let clauses = copied(alloc, formula.clauses())?;
    posted(alloc, formula.variables(), clauses, assumptions)
}

/// The question without the first literal of a core so far that has no model, which may be posted.
pub fn without_next(
    alloc: Global,
    formula: &Formula,
    narrowing: &Narrowing,
) -> Result<Revision, AllocError>
    requires next { length narrowing.now.models.items < length narrowing.now.core.items }
    requires posted { is_posted (without formula.now.variables narrowing.now) ≡ true }
    ensures { IfOk result (λ r. r ≡ without formula.now.variables narrowing.now) }
{
    let mut others = Vec::from_slice(alloc, narrowing.core.as_slice())?;
    others.remove(narrowing.models.len());
    posted(
        alloc,
        formula.variables(),
        ClauseList::new(alloc),
        others.as_slice(),
    )
}
