//! What the parts of an image are tested for.

ghost use Rattle.std.specs.Prelude.{◌≡◌, ◌≤◌, [], true, false, IfOk, MatchOption};
ghost use Rattle.mal_base.specs.{Limits.{greatest_variable}, Formulas.{is_within}};
ghost use Rattle.mal_freeze.specs.{Imaged.{are_new, is_order, may_follow, all_follow, are_literals, are_clauses, numbers_rise}, Trailing.{IsTrailOf}};

use mal_base::{Clause, Lit, NumberedClause, TrailEntry, Var};
use mal_trail::Trail;
use std::alloc::{AllocError, Global};

/// Whether each literal is of a variable up to the greatest.
fn is_within(greatest: u32, lits: &[Lit]) -> bool
    ensures { result ≡ is_within greatest lits.now }
{
    for lit in lits {
        if greatest < lit.var().number() {
            return false;
        }
    }
    true
}

/// Whether these are literals of the variables up to the greatest, by strictly rising variable.
pub fn are_literals(alloc: Global, greatest: u32, lits: &[Lit]) -> Result<bool, AllocError>
    ensures { IfOk result (λ b. b ≡ are_literals greatest lits.now) }
{
    match Clause::of_rising(alloc, lits)? {
        None => Ok(false),
        Some(clause) => Ok(is_within(greatest, clause.lits())),
    }
}

/// Whether the literals of each clause are of the variables up to the greatest.
pub fn are_clauses(greatest: u32, clauses: &[NumberedClause]) -> bool
    ensures { result ≡ are_clauses greatest clauses.now }
{
    for held in clauses {
        if !is_clause(greatest, held.clause()) {
            return false;
        }
    }
    true
}

/// Whether the literals of a clause are of the variables up to the greatest.
fn is_clause(greatest: u32, clause: &Clause) -> bool
    ensures { result ≡ are_literals greatest clause.now }
{
    is_within(greatest, clause.lits())
}

/// Whether the numbers of the clauses rise strictly.
pub fn numbers_rise(clauses: &[NumberedClause]) -> bool
    ensures { result ≡ numbers_rise 0 clauses.now }
{
    let mut last: u64 = 0;
    for held in clauses {
        let number = held.id().number();
        if number <= last {
            return false;
        }
        last = number;
    }
    true
}

/// Whether each of the variables 1 to the greatest stands here once.
pub fn is_order(alloc: Global, greatest: u32, order: &[Var]) -> Result<bool, AllocError>
    requires { greatest ≤ greatest_variable }
    ensures { IfOk result (λ b. b ≡ is_order greatest order.now) }
{
    if order.len() != greatest as usize {
        return Ok(false);
    }
    are_new(alloc, greatest, order)
}

/// Whether each of these variables is at most the greatest, and none stands twice.
fn are_new(alloc: Global, greatest: u32, order: &[Var]) -> Result<bool, AllocError>
    requires { greatest ≤ greatest_variable }
    ensures { IfOk result (λ b. b ≡ are_new greatest [] order.now) }
{
    let mut marks = Vec::new(alloc);
    marks.resize(greatest as usize + 1, false)?;
    for var in order {
        let number = var.number() as usize;
        if marks.len() <= number {
            return Ok(false);
        }
        if marks[number] {
            return Ok(false);
        }
        marks[number] = true;
    }
    Ok(true)
}

/// The trail of these entries, with room for the variables up to the greatest. None exactly where one of them may not
/// stand after those before it.
pub fn trail_of(
    alloc: Global,
    greatest: u32,
    entries: &[TrailEntry],
) -> Result<Option<Trail>, AllocError>
    requires { greatest ≤ greatest_variable }
    ensures { IfOk result
        (λ o. MatchOption o (all_follow greatest [] entries.now ≡ false) (λ t. IsTrailOf greatest entries.now t)) }
{
    let mut trail = Trail::new(alloc);
    trail.reserve(greatest)?;
    for entry in entries {
        if !may_follow(greatest, &trail, *entry) {
            return Ok(None);
        }
        trail.push(entry.lit, entry.reason, entry.level);
    }
    Ok(Some(trail))
}

/// Whether an entry of a variable up to the greatest may stand after those of a trail.
fn may_follow(greatest: u32, trail: &Trail, entry: TrailEntry) -> bool
    ensures { result ≡ may_follow greatest trail.now.entries entry }
{
    let var = entry.lit.var();
    if greatest < var.number() {
        return false;
    }
    if trail.has_value(var) {
        return false;
    }
    let level = trail.level();
    if entry.level < level {
        return false;
    }
    entry.level <= level + 1
}
