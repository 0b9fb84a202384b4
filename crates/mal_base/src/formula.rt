//! Formulas in conjunctive normal form.

ghost use Rattle.std.specs.Prelude.{◌≡◌, ◌≢◌, ◌<◌, ◌≤◌, true, length, get_or, None, MatchOption};
ghost use Rattle.std.specs.List.{list_all};
ghost use Rattle.mal_base.specs.Limits.{limits};
ghost use Rattle.mal_base.specs.Formulas.{is_formula, is_within, is_clause_of, is_within_limits, literals_of};

use crate::clause_list::ClauseList;
use crate::limits::LIMITS;
use crate::literal::Lit;
use std::marker::Model;

/// A formula: the number of its variables (at most 65,536) and its clauses (at most 2^20 with at most 2^24 literals,
/// all of its variables). None stands for a tautology, which keeps its number, counts no literal and needs a variable.
/// Contracts see the two.
#[derive(Drop)]
pub struct Formula {
    variables: u32,
    clauses: ClauseList,
}

impl Model for Formula {
    ghost use Rattle.std.specs.Prelude.{◌≡◌, true};
    ghost use Rattle.mal_base.specs.Formulas.{Formulated, is_formula};

    ghost Value = { Formulated };

    ghost view = { λ f. record { variables = f.variables; clauses = f.clauses } };

    ghost invariant = { λ f. is_formula (record { variables = f.variables; clauses = f.clauses }) ≡ true };
}

impl Formula {
    /// The formula of so many variables and these clauses. None exactly where a limit is passed, a literal is above the
    /// variables, or a tautology stands where there is no variable. Takes no memory.
    pub fn new(variables: u32, clauses: ClauseList) -> Option<Formula>
        ensures { MatchOption result (is_formula (record { variables = variables; clauses = clauses }) ≢ true)
            (λ f. (f ≡ record { variables = variables; clauses = clauses }) × (is_formula f ≡ true)) }
    {
        if is_formula(variables, &clauses) {
            Some(Formula { variables, clauses })
        } else {
            None
        }
    }

    /// The number of variables, at most 65,536.
    pub fn variables(&self) -> u32
        ensures value { result ≡ self.now.variables }
        ensures form { is_formula self.now ≡ true }
    {
        self.variables
    }

    /// The clauses, in the order of their numbers from 1 on; None stands for a tautology.
    pub fn clauses(&self) -> &ClauseList
        ensures value { result.now ≡ self.now.clauses }
        ensures form { is_formula self.now ≡ true }
    {
        &self.clauses
    }

    /// The number of the literals of the clauses, at most 2^24.
    pub fn literals(&self) -> u32
        ensures value { result ≡ literals_of self.now.clauses }
        ensures bound { result ≤ limits.literals }
    {
        self.clauses.literals() as u32
    }

    /// The clauses themselves; the formula is given up. Takes no memory.
    pub fn into_clauses(self) -> ClauseList
        ensures { result ≡ self.clauses }
    {
        self.clauses
    }
}

/// Whether so many variables and these clauses are a formula.
fn is_formula(variables: u32, clauses: &ClauseList) -> bool
    ensures { result ≡ is_formula (record { variables = variables; clauses = clauses.now }) }
{
    is_within_limits(variables, clauses) && are_clauses_of(variables, clauses)
}

/// Whether so many variables and these clauses are within the limits.
fn is_within_limits(variables: u32, clauses: &ClauseList) -> bool
    ensures { result ≡ is_within_limits variables clauses.now }
{
    variables <= LIMITS.variables
        && clauses.len() <= LIMITS.clauses
        && clauses.literals() <= LIMITS.literals
}

/// Whether each of these clauses is of so many variables.
fn are_clauses_of(variables: u32, clauses: &ClauseList) -> bool
    ensures { result ≡ list_all (is_clause_of variables) clauses.now }
{
    for place in 0..clauses.len() {
        if !is_clause_of(variables, clauses, place) {
            return false;
        }
    }
    true
}

/// Whether the clause at a place is of so many variables; a tautology needs one.
fn is_clause_of(variables: u32, clauses: &ClauseList, place: usize) -> bool
    requires { place < length clauses.now }
    ensures { result ≡ is_clause_of variables (get_or clauses.now place None) }
{
    match clauses.at(place) {
        None => 1 <= variables,
        Some(lits) => is_within(variables, lits),
    }
}

/// Whether each literal is of one of so many variables.
fn is_within(variables: u32, lits: &[Lit]) -> bool
    ensures { result ≡ is_within variables lits.now }
{
    lits.iter().all(|l| l.var().number() <= variables)
}
