//! The solution in a model of formula and counter.

ghost use Rattle.std.specs.Prelude.{◌≡◌, ◌≤◌, length, take, IfOk};
ghost use Rattle.spec_max.specs.{Cost.{cost}, Optimum.{solution_in}};
ghost use Rattle.mal_base.specs.Limits.{limits};
ghost use Rattle.mal_max.specs.Seen.{instance, solution_of};

use crate::optimum::Solution;
use mal_base::{Formula, Lit, Values};
use mal_sat::is_true;
use std::alloc::{AllocError, Global};

/// The solution in a model of formula and counter: the values of the formula's variables, and what they cost.
pub fn solution_in(
    alloc: Global,
    formula: &Formula,
    softs: &[Lit],
    model: &Values,
) -> Result<Solution, AllocError>
    requires whole { formula.now.variables ≤ length model.now }
    requires few { length softs.now ≤ limits.softs }
    ensures { IfOk result (λ s. solution_of s ≡ solution_in (instance formula.now softs.now) model.now) }
{
    let values = &model.as_slice()[..formula.variables() as usize];
    let cost = cost(softs, values);
    Ok(Solution {
        model: Values::of(Vec::from_slice(alloc, values)?),
        cost,
    })
}

/// How many of the soft literals the model makes false.
fn cost(softs: &[Lit], model: &[bool]) -> u32
    requires { length softs.now ≤ limits.softs }
    ensures { result ≡ cost softs.now model.now }
{
    softs.iter().filter(|lit| !is_true(model, **lit)).count() as u32
}
