//! The clauses and the assumptions of a step.

ghost use Rattle.std.specs.Prelude.{◌≡◌, ◌≤◌, ◌∷◌, ◌++◌, [], false, map, nat_abs, IfOk, OnOk};
ghost use Rattle.std.specs.List.{list_any};
ghost use Rattle.mal_base.specs.Limits.{greatest_variable};
ghost use Rattle.serde_json.specs.View.{view};
ghost use Rattle.spec_dimacs.specs.{Merged.{clause_of, sorted}, Reading.{code_of}};
ghost use Rattle.spec_json.specs.{Numbers.{is_above, is_none}, Reading.{literals}, Shape.{numbers_in}};
ghost use Rattle.mal_json.specs.Values.{lists_of, numbers_of};

use crate::numbers::whole;
use crate::shape::items;
use mal_base::{Clause, ClauseList, Lit, Var};
use serde_json::Value;
use std::alloc::{AllocError, Global};

/// The literal that a number stands for.
fn literal(number: i64) -> Lit
    requires some { is_none number ≡ false }
    requires bound { is_above greatest_variable number ≡ false }
    ensures { result ≡ code_of number }
{
    Var::of(number.unsigned_abs() as u32).literal(number > 0)
}

/// Puts the literals that numbers stand for after others, in their order and with repeats.
fn fill(lits: &mut Vec<Lit>, numbers: &[Value]) -> Result<(), AllocError>
    requires some { list_any is_none (numbers_of numbers.now) ≡ false }
    requires bound { list_any (is_above greatest_variable) (numbers_of numbers.now) ≡ false }
    ensures { OnOk result (lits.new.items ≡ lits.old.items ++ literals (numbers_of numbers.now)) }
{
    let mut rest = numbers;
    while let Some((number, behind)) = rest.split_first() {
        lits.push(literal(whole(number)))?;
        rest = behind;
    }
    Ok(())
}

/// The same of the numbers of a list.
fn put_literals(lits: &mut Vec<Lit>, list: &Value) -> Result<(), AllocError>
    requires some { list_any is_none (numbers_in (view list.now)) ≡ false }
    requires bound { list_any (is_above greatest_variable) (numbers_in (view list.now)) ≡ false }
    ensures { OnOk result (lits.new.items ≡ lits.old.items ++ literals (numbers_in (view list.now))) }
{
    fill(lits, items(list))
}

/// Puts the clause of literals after others, which are put in clause order.
fn push(clauses: &mut ClauseList, lits: &mut Vec<Lit>) -> Result<(), AllocError>
    ensures { OnOk result (clauses.new ≡ clauses.old ++ clause_of lits.old.items ∷ []) }
{
    if Clause::merge(lits) {
        clauses.push_rising(lits.as_slice())
    } else {
        clauses.push_tautology()
    }
}

/// Puts the clause of the numbers of a list after others. The literals are made in `lits`.
fn put_clause(clauses: &mut ClauseList, lits: &mut Vec<Lit>, list: &Value) -> Result<(), AllocError>
    requires some { list_any is_none (numbers_in (view list.now)) ≡ false }
    requires bound { list_any (is_above greatest_variable) (numbers_in (view list.now)) ≡ false }
    ensures { OnOk result (clauses.new ≡ clauses.old ++ clause_of (literals (numbers_in (view list.now))) ∷ []) }
{
    lits.clear();
    put_literals(lits, list)?;
    push(clauses, lits)
}

/// The clauses of these lists of numbers.
pub fn clause_list(alloc: Global, lists: &[Value]) -> Result<ClauseList, AllocError>
    requires some { list_any (list_any is_none) (lists_of lists.now) ≡ false }
    requires bound { list_any (list_any (is_above greatest_variable)) (lists_of lists.now) ≡ false }
    ensures { IfOk result (λ c. c ≡ map (λ numbers. clause_of (literals numbers)) (lists_of lists.now)) }
{
    let mut clauses = ClauseList::new(alloc);
    let mut lits = Vec::new(alloc);
    let mut rest = lists;
    while let Some((list, behind)) = rest.split_first() {
        put_clause(&mut clauses, &mut lits, list)?;
        rest = behind;
    }
    Ok(clauses)
}

/// The literals of these numbers by rising code, each once.
pub fn sorted_literals(alloc: Global, numbers: &[Value]) -> Result<Vec<Lit>, AllocError>
    requires some { list_any is_none (numbers_of numbers.now) ≡ false }
    requires bound { list_any (is_above greatest_variable) (numbers_of numbers.now) ≡ false }
    ensures { IfOk result (λ v. v.items ≡ sorted (literals (numbers_of numbers.now))) }
{
    let mut lits = Vec::new(alloc);
    fill(&mut lits, numbers)?;
    Lit::sort(&mut lits);
    Ok(lits)
}
