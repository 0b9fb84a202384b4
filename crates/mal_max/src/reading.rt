//! Reading a formula and the line of soft literals after it.

ghost use Rattle.std.specs.Prelude.{◌≡◌, ◌<◌, ◌≤◌, ◌+◌, ◌^◌, ◌++◌, true, drop, length, nat_lt, IfOk};
ghost use Rattle.mal_base.specs.Limits.{limits};
ghost use Rattle.mal_base.specs.Formulas.{is_within, literals_of};
ghost use Rattle.mal_base.specs.declared.line_fault.LineFault.TheVariants.{Limit};
ghost use Rattle.spec_text.specs.Inputs.{words_of};
ghost use Rattle.spec_max.specs.Right.{IsServed};
ghost use Rattle.mal_instance.specs.Reading as lits;
ghost use Rattle.mal_instance.specs.ReadResult.{Gives, GivesLits, seen};
ghost use Rattle.mal_instance.specs.declared.fault.LitsError.TheVariants as error;
ghost use Rattle.mal_max.specs.{Reading.{limited, literals_in, read_text, softs_of}, Grammar.{Spells}, ReadResult.{seen_instance}};

use crate::counter::push_counter;
use crate::input::Instance;
use mal_base::{ClauseList, Formula, LIMITS, LimitKind, LineFault, Lit};
use mal_instance::{InputFault, LitsError, Opened, ended, read_opening};
use mal_script::literals;
use mal_text::first_word;
use std::alloc::Global;

/// The instance that a text spells: a formula by DIMACS CNF, a line `w`, literals and 0, and then only empty lines and
/// comments.
///
/// Errors: `NoLine` where no line begins with the word `w`; else the first fault of the formula, which is all lines
/// before that one; else of that line `BadLine`, `Range`, `TooMany` where there are more than 128 literals, or the first
/// of the limits of variables, clauses and literals that formula and counter pass; else `BadLine` of a later line.
/// `OutOfMemory` may come at any time.
pub fn read(alloc: Global, text: &[u8]) -> Result<Instance, InputFault>
    requires { length text.now < 2 ^ 63 }
    // Which instance or which fault it is.
    ensures exact { Gives seen_instance result (read_text text.now) }
    // What is read is spelled so.
    ensures spelled { IfOk result (λ w. Spells text.now (seen_instance w)) }
    // It is searched as it is.
    ensures served { IfOk result (λ w. IsServed (seen_instance w)) }
{
    first(alloc, text)
}

/// The instance of a text, or its first fault.
fn first(alloc: Global, text: &[u8]) -> Result<Instance, InputFault>
    requires { length text.now < 2 ^ 63 }
    ensures { Gives seen_instance result (read_text text.now) }
{
    let opened = read_opening(alloc, text, b"w")?;
    let softs = read_softs(alloc, &opened)?;
    Ok(Instance {
        formula: opened.formula,
        softs,
    })
}

/// The soft literals of a text that is read up to their line.
fn read_softs(alloc: Global, opened: &Opened) -> Result<Vec<Lit>, InputFault>
    requires { opened.now.line + length opened.now.rest.now < 2 ^ 63 }
    ensures { Gives (λ v. v.items) result (lits.literals_of softs_of (seen opened.now)) }
{
    match line_softs(alloc, opened.row, &opened.formula) {
        Ok(softs) => ended(softs, opened.line, opened.rest),
        Err(error) => Err(error.on_line(opened.line)),
    }
}

/// The soft literals of their line.
fn line_softs(alloc: Global, row: &[u8], formula: &Formula) -> Result<Vec<Lit>, LitsError>
    ensures { GivesLits (λ v. v.items) result (softs_of formula.now (drop 1 (words_of row.now))) }
{
    let softs = line_literals(alloc, row, formula)?;
    within_limits(alloc, formula, softs)
}

/// The literals of their line, 128 at most.
fn line_literals(alloc: Global, row: &[u8], formula: &Formula) -> Result<Vec<Lit>, LitsError>
    ensures value { GivesLits (λ v. v.items) result (literals_in formula.now (drop 1 (words_of row.now))) }
    ensures within { IfOk result (λ v. is_within formula.now.variables v.items ≡ true) }
    ensures few { IfOk result (λ v. length v.items ≤ limits.softs) }
{
    let Some((_, words)) = first_word(row) else {
        return Err(LitsError::Wrong {
            fault: LineFault::BadLine,
        });
    };
    let lits = literals(alloc, words, formula.variables())?;
    if lits.len() > LIMITS.softs {
        return Err(LitsError::Exceeds);
    }
    Ok(lits)
}

/// These soft literals, where formula and counter are within the limits.
fn within_limits(alloc: Global, formula: &Formula, softs: Vec<Lit>) -> Result<Vec<Lit>, LitsError>
    requires within { is_within formula.now.variables softs.items ≡ true }
    requires few { length softs.items ≤ limits.softs }
    ensures { GivesLits (λ v. v.items) result (limited (record { formula = formula.now; softs = softs.items })) }
{
    let count = softs.len() as u32;
    if formula.variables() + count * count > LIMITS.variables {
        return Err(over(LimitKind::Variables));
    }
    let mut counter = ClauseList::new(alloc);
    push_counter(&mut counter, formula.variables(), softs.as_slice())?;
    if has_more_clauses(formula, &counter) {
        return Err(over(LimitKind::Clauses));
    }
    if has_more_literals(formula, &counter) {
        return Err(over(LimitKind::Literals));
    }
    Ok(softs)
}

/// The fault of a line that there are more of these than may be.
fn over(which: LimitKind) -> LitsError
    ensures { result ≡ error.Wrong (Limit which) }
{
    LitsError::Wrong {
        fault: LineFault::Limit { which },
    }
}

/// Whether a formula and more clauses are more clauses than may be.
fn has_more_clauses(formula: &Formula, more: &ClauseList) -> bool
    ensures { result ≡ nat_lt limits.clauses (length (formula.now.clauses ++ more.now)) }
{
    more.len() > LIMITS.clauses - formula.clauses().len()
}

/// Whether a formula and more clauses have more literals than may be.
fn has_more_literals(formula: &Formula, more: &ClauseList) -> bool
    ensures { result ≡ nat_lt limits.literals (literals_of (formula.now.clauses ++ more.now)) }
{
    more.literals() > LIMITS.literals - formula.literals() as usize
}
