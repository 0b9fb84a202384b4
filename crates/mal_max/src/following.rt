//! What follows what is told.

ghost use Rattle.std.specs.Prelude.{◌≡◌, ◌≤◌, length, IfOk};
ghost use Rattle.std.specs.Option.{option_map};
ghost use Rattle.spec_inquiry.specs.Searches.{Proofs};
ghost use Rattle.spec_max.specs.{Optimum.{concluded, improved}, Right.{IsServed}};
ghost use Rattle.mal_max.specs.Seen.{instance, next_of, seen, solution_of};

use crate::optimum::{Optimum, Solution};
use crate::questions::cheaper;
use mal_base::{Formula, Lines, Lit};
use mal_inquiry::Next;
use std::alloc::{AllocError, Global};

/// What follows a solution: one of cost 0 is the best, and of any other it is asked for less.
pub fn improved(
    alloc: Global,
    formula: &Formula,
    softs: &[Lit],
    found: Solution,
) -> Result<Next<Option<Solution>, Option<Solution>, Optimum>, AllocError>
    requires served { IsServed (instance formula.now softs.now) }
    requires few { found.cost ≤ length softs.now }
    ensures { IfOk result
        (λ next. (proofs : Proofs) → next_of proofs next ≡ improved (instance formula.now softs.now) (solution_of found)) }
{
    if found.cost == 0 {
        return Ok(Next::Ends(Optimum::Best {
            solution: found,
            lines: Lines::new(alloc),
        }));
    }
    let question = cheaper(alloc, formula, softs, found.cost)?;
    Ok(Next::Asks(Some(found), question))
}

/// What these lines say: that the best solution so far is the best, or, where there is none, that nothing satisfies the
/// formula.
pub fn concluded(best: Option<Solution>, lines: Lines) -> Optimum
    ensures { seen result ≡ concluded (option_map solution_of best) lines.lines }
{
    match best {
        None => Optimum::NoModel { lines },
        Some(solution) => Optimum::Best { solution, lines },
    }
}
