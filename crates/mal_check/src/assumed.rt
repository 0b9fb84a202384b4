//! Assumptions among which literals are looked for.

ghost use Rattle.std.specs.Prelude.{◌≡◌, ◌==◌, true};
ghost use Rattle.std.specs.{List.{list_any, list_all}, List.Sorted.{IsNonDecreasing}};
ghost use Rattle.mal_base.specs.Literals.{negated};
ghost use Rattle.spec_logic.specs.Refutation.{contradicts};

use mal_base::{Clause, Lit};

/// Whether one of the clauses has negated assumptions alone.
pub fn has_contradiction(assumptions: &[Lit], clauses: &[Option<Clause>]) -> bool
    ensures { result ≡ list_any (contradicts assumptions.now) clauses.now }
{
    let rising = are_rising(assumptions);
    clauses
        .iter()
        .any(|clause| contradicts(assumptions, rising, clause))
}

/// Whether no literal is less than the one before it.
fn are_rising(lits: &[Lit]) -> bool
    ensures { result ≡ true → IsNonDecreasing lits.now }
{
    lits.is_sorted()
}

/// Whether a clause has negated assumptions alone; a tautology does not.
fn contradicts(assumptions: &[Lit], rising: bool, clause: &Option<Clause>) -> bool
    requires { rising ≡ true → IsNonDecreasing assumptions.now }
    ensures { result ≡ contradicts assumptions.now clause.now }
{
    match clause {
        None => false,
        Some(clause) => are_negated(assumptions, rising, clause.lits()),
    }
}

/// Whether each literal is the negation of an assumption.
fn are_negated(assumptions: &[Lit], rising: bool, lits: &[Lit]) -> bool
    requires { rising ≡ true → IsNonDecreasing assumptions.now }
    ensures { result ≡ list_all (λ l. list_any (λ a. a == negated l) assumptions.now) lits.now }
{
    lits.iter()
        .all(|lit| is_assumed(assumptions, rising, lit.negate()))
}

/// Whether a literal is an assumption. Where the assumptions rise it is looked for by halving.
fn is_assumed(assumptions: &[Lit], rising: bool, lit: Lit) -> bool
    requires { rising ≡ true → IsNonDecreasing assumptions.now }
    ensures { result ≡ list_any (λ a. a == lit) assumptions.now }
{
    if rising {
        is_among(assumptions, lit)
    } else {
        assumptions.iter().any(|assumption| *assumption == lit)
    }
}

/// Whether a literal is one of those that rise.
fn is_among(lits: &[Lit], lit: Lit) -> bool
    requires { IsNonDecreasing lits.now }
    ensures { result ≡ list_any (λ a. a == lit) lits.now }
{
    lits.binary_search(&lit).is_ok()
}
