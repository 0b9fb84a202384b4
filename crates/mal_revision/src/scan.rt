//! What a revision's parts are tested for.

ghost use Rattle.std.specs.Prelude.{◌≡◌, ◌<◌, true, length, get_or, None};
ghost use Rattle.std.specs.List.{list_all};
ghost use Rattle.mal_base.specs.{Clauses.{clash}, Formulas.{is_within, is_clause_of}};
ghost use Rattle.mal_revision.specs.Refused.{above, above_in, first_above, or_else, limit_passed};

use mal_base::{ClauseList, LIMITS, LimitKind, Lit, Var};

/// The first variable that two literals in a row have.
pub fn opposite(lits: &[Lit]) -> Option<Var>
    ensures { result ≡ clash lits.now }
{
    let (first, rest) = lits.split_first()?;
    let mut last = first.var().number();
    for lit in rest {
        let var = lit.var();
        if var.number() == last {
            return Some(var);
        }
        last = var.number();
    }
    None
}

/// The variable of the first literal that is above this one.
fn above(variables: u32, lits: &[Lit]) -> Option<Var>
    ensures value { result ≡ above variables lits.now }
    ensures form { result ≡ None → is_within variables lits.now ≡ true }
{
    for lit in lits {
        let var = lit.var();
        if variables < var.number() {
            return Some(var);
        }
    }
    None
}

/// The variable of the first literal of the clause at a place that is above this one; a tautology needs one variable.
fn above_at(variables: u32, clauses: &ClauseList, place: usize) -> Option<Var>
    requires { place < length clauses.now }
    ensures value { result ≡ above_in variables (get_or clauses.now place None) }
    ensures form { result ≡ None → is_clause_of variables (get_or clauses.now place None) ≡ true }
{
    match clauses.at(place) {
        None if variables < 1 => Some(Var::of(1)),
        None => None,
        Some(lits) => above(variables, lits),
    }
}

/// The variable of the first literal of the clauses that is above this one.
fn first_above(variables: u32, clauses: &ClauseList) -> Option<Var>
    ensures value { result ≡ first_above variables clauses.now }
    ensures form { result ≡ None → list_all (is_clause_of variables) clauses.now ≡ true }
{
    for place in 0..clauses.len() {
        match above_at(variables, clauses, place) {
            Some(var) => return Some(var),
            None => {}
        }
    }
    None
}

/// The variable of the first literal of the clauses, and then of the assumptions, that is above this one.
pub fn above_parts(variables: u32, clauses: &ClauseList, assumptions: &[Lit]) -> Option<Var>
    ensures value { result ≡ or_else (first_above variables clauses.now) (above variables assumptions.now) }
    ensures form { result ≡ None → list_all (is_clause_of variables) clauses.now ≡ true }
    ensures assumed { result ≡ None → is_within variables assumptions.now ≡ true }
{
    match first_above(variables, clauses) {
        Some(var) => Some(var),
        None => above(variables, assumptions),
    }
}

/// The first limit that these variables and clauses pass.
pub fn limit_passed(variables: u32, clauses: &ClauseList) -> Option<LimitKind>
    ensures { result ≡ limit_passed variables clauses.now }
{
    if variables > LIMITS.variables {
        return Some(LimitKind::Variables);
    }
    if clauses.len() > LIMITS.clauses {
        return Some(LimitKind::Clauses);
    }
    if clauses.literals() > LIMITS.literals {
        return Some(LimitKind::Literals);
    }
    None
}
