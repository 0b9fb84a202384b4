//! Reading a formula and the line of assumptions after it.

ghost use Rattle.std.specs.Prelude.{◌≡◌, ◌<◌, ◌≤◌, ◌+◌, ◌^◌, ◌∷◌, [], true, drop, length, IfOk};
ghost use Rattle.spec_text.specs.Inputs.{words_of};
ghost use Rattle.spec_core.specs.Right.{IsServed};
ghost use Rattle.mal_instance.specs.{Rows.{begins}, Reading.{literals_of}, ReadResult.{Gives, GivesLits, seen}};
ghost use Rattle.mal_core.specs.{Reading.{assumptions_of, read_text, word}, Grammar.{Spells}, ReadResult.{seen_instance}};

use crate::input::Instance;
use mal_base::{Formula, LIMITS, Lit};
use mal_instance::{InputFault, LitsError, Opened, ended, read_opening};
use mal_script::assumptions;
use std::alloc::Global;

/// The instance that a text spells: a formula by DIMACS CNF, a line `a`, literals and 0, and then only empty lines and
/// comments.
///
/// Errors: `NoLine` where no line begins with the word `a`; else the first fault of the formula, which is all lines
/// before that one; else of that line `BadLine`, `Range`, `Opposite` with the least variable that is assumed with both
/// signs, or `TooMany` where more than 255 are assumed; else `BadLine` of a later line. `OutOfMemory` may come at any
/// time.
pub fn read(alloc: Global, text: &[u8]) -> Result<Instance, InputFault>
    requires { length text.now < 2 ^ 63 }
    // Which instance or which fault it is.
    ensures exact { Gives seen_instance result (read_text text.now) }
    // What is read is spelled so.
    ensures spelled { IfOk result (λ w. Spells text.now (seen_instance w)) }
    // It is searched as it is.
    ensures served { IfOk result (λ w. IsServed (seen_instance w)) }
{
    first(alloc, text)
}

/// The instance of a text, or its first fault.
fn first(alloc: Global, text: &[u8]) -> Result<Instance, InputFault>
    requires { length text.now < 2 ^ 63 }
    ensures { Gives seen_instance result (read_text text.now) }
{
    let opened = read_opening(alloc, text, b"a")?;
    let assumptions = read_assumptions(alloc, &opened)?;
    Ok(Instance {
        formula: opened.formula,
        assumptions,
    })
}

/// The assumptions of a text that is read up to their line.
fn read_assumptions(alloc: Global, opened: &Opened) -> Result<Vec<Lit>, InputFault>
    requires begins { begins (word ∷ []) (words_of opened.now.row.now) ≡ true }
    requires short { opened.now.line + length opened.now.rest.now < 2 ^ 63 }
    ensures { Gives (λ v. v.items) result (literals_of assumptions_of (seen opened.now)) }
{
    match line_assumptions(alloc, opened.row, &opened.formula) {
        Ok(lits) => ended(lits, opened.line, opened.rest),
        Err(error) => Err(error.on_line(opened.line)),
    }
}

/// The assumptions of their line, which begins with the word `a`.
fn line_assumptions(alloc: Global, row: &[u8], formula: &Formula) -> Result<Vec<Lit>, LitsError>
    requires { begins (word ∷ []) (words_of row.now) ≡ true }
    ensures { GivesLits (λ v. v.items) result (assumptions_of formula.now (drop 1 (words_of row.now))) }
{
    let lits = assumptions(alloc, row, formula.variables())?;
    if lits.len() > LIMITS.assumptions {
        return Err(LitsError::Exceeds);
    }
    Ok(lits)
}
