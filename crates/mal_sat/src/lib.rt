//! Whether an assignment satisfies a formula and assumptions.
#![tactic(auto)]

ghost use Rattle.std.specs.Prelude.{◌≡◌, ◌<◌, length, get_or, None};
ghost use Rattle.std.specs.List.{list_all, list_any};
ghost use Rattle.spec_logic.specs.Logic.{value_of, is_true_in, satisfies_clause, satisfies, satisfies_with};

use mal_base::{ClauseList, Formula, Lit, Var};

/// Whether every clause of the formula has a true literal and every assumption is true, where `model` lists the truth
/// values of the variables from 1 on. A variable past its end is false, and a tautology has a true literal. Takes no
/// memory.
pub fn satisfies(formula: &Formula, assumptions: &[Lit], model: &[bool]) -> bool
    ensures { result ≡ satisfies_with model.now formula.now.clauses assumptions.now }
{
    are_satisfied(model, formula.clauses()) && are_true(model, assumptions)
}

/// Whether every clause is satisfied.
fn are_satisfied(model: &[bool], clauses: &ClauseList) -> bool
    ensures { result ≡ satisfies model.now clauses.now }
{
    for place in 0..clauses.len() {
        if !is_satisfied(model, clauses, place) {
            return false;
        }
    }
    true
}

/// Whether the clause at a place has a true literal; a tautology has one.
fn is_satisfied(model: &[bool], clauses: &ClauseList, place: usize) -> bool
    requires { place < length clauses.now }
    ensures { result ≡ satisfies_clause model.now (get_or clauses.now place None) }
{
    match clauses.at(place) {
        None => true,
        Some(lits) => has_true(model, lits),
    }
}

/// Whether one of the literals is true.
fn has_true(model: &[bool], lits: &[Lit]) -> bool
    ensures { result ≡ list_any (is_true_in model.now) lits.now }
{
    lits.iter().any(|lit| is_true(model, *lit))
}

/// Whether each of the literals is true.
fn are_true(model: &[bool], lits: &[Lit]) -> bool
    ensures { result ≡ list_all (is_true_in model.now) lits.now }
{
    lits.iter().all(|lit| is_true(model, *lit))
}

/// Whether a literal is true, where `model` lists the truth values of the variables from 1 on, and a variable past its end
/// is false. Takes no memory.
pub fn is_true(model: &[bool], lit: Lit) -> bool
    ensures { result ≡ is_true_in model.now lit }
{
    if lit.is_positive() {
        value(model, lit.var())
    } else {
        !value(model, lit.var())
    }
}

/// The value of a variable, false past the end of the list.
fn value(model: &[bool], var: Var) -> bool
    ensures { result ≡ value_of model.now var }
{
    let place = var.number() as usize - 1;
    match model.get(place) {
        Some(value) => *value,
        None => false,
    }
}
