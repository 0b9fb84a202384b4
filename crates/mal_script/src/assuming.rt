//! The words of assumptions, as they are read.

ghost use Rattle.std.specs.Prelude.{◌≡◌, ◌≤◌, [], map, false, true, nat_abs, ℕ, None, IfOk};
ghost use Rattle.mal_base.specs.{Limits.{greatest_variable}, Clauses.{clash, rises}, Formulas.{is_within}};
ghost use Rattle.spec_text.specs.{Inputs.{words_of}, Numbers.{number_in}};
ghost use Rattle.spec_dimacs.specs.Reading.{code_of};
ghost use Rattle.spec_script.specs.Assumptions.{assumptions_in, assumptions_of, consistent, literals_from, closed};
ghost use Rattle.mal_script.specs.ReadResult.{GivesAssumed};

use crate::fault::AssumptionFault;
use mal_base::{Lit, Var};
use mal_revision::opposite;
use mal_text::{NumberFault, first_word, number};
use std::alloc::Global;

/// The literal that a number other than 0 stands for.
fn literal(number: i64) -> Lit
    requires some { 1 ≤ nat_abs number }
    requires bound { nat_abs number ≤ greatest_variable }
    ensures { result ≡ code_of number }
{
    Var::of(number.unsigned_abs() as u32).literal(number > 0)
}

/// The literals after which a 0 stands: nothing stands after the 0, and no literal is above the variables.
fn closed(lits: Vec<Lit>, above: bool, behind: &[u8]) -> Result<Vec<Lit>, AssumptionFault>
    ensures value { (max : ℕ)
        → GivesAssumed
        (λ v. v.items) result (closed lits.items above (map (λ word. number_in word max) (words_of behind.now))) }
    ensures same { IfOk result (λ v. v.items ≡ lits.items) }
{
    if first_word(behind).is_some() {
        return Err(AssumptionFault::BadLine);
    }
    if above {
        return Err(AssumptionFault::Range);
    }
    Ok(lits)
}

/// The literals of a line's words, of variables up to this one, in their order and with repeats, up to the 0 that ends
/// the line.
///
/// Errors, the first that holds: `BadLine` where the words have another form, `Range` where a literal is above the
/// variables. `OutOfMemory` may come at any time.
pub fn literals(alloc: Global, line: &[u8], variables: u32) -> Result<Vec<Lit>, AssumptionFault>
    requires { variables ≤ greatest_variable }
    ensures value { GivesAssumed
        (λ v. v.items) result (literals_from [] false (map (λ word. number_in word variables) (words_of line.now))) }
    ensures within { IfOk result (λ v. is_within variables v.items ≡ true) }
{
    let mut lits = Vec::new(alloc);
    let mut above = false;
    let mut rest = line;
    while let Some((word, behind)) = first_word(rest) {
        match number(word, u64::from(variables)) {
            Err(NumberFault::NotANumber) => return Err(AssumptionFault::BadLine),
            Err(NumberFault::TooLarge) => above = true,
            Ok(number) => {
                if number == 0 {
                    return closed(lits, above, behind);
                }
                lits.reserve(1)?;
                lits.push_reserved(literal(number));
            }
        }
        rest = behind;
    }
    Err(AssumptionFault::BadLine)
}

/// These literals, where no variable stands with both signs.
fn consistent(lits: Vec<Lit>) -> Result<Vec<Lit>, AssumptionFault>
    ensures value { GivesAssumed (λ v. v.items) result (consistent lits.items (clash lits.items)) }
    ensures same { IfOk result (λ v. (v.items ≡ lits.items) × (clash lits.items ≡ None)) }
{
    match opposite(lits.as_slice()) {
        Some(var) => Err(AssumptionFault::Opposite { var }),
        None => Ok(lits),
    }
}

/// The assumptions of a line's words, which are literals of variables up to this one and then a 0: by rising variable,
/// each once.
pub fn assumptions_in(
    alloc: Global,
    line: &[u8],
    variables: u32,
) -> Result<Vec<Lit>, AssumptionFault>
    requires { variables ≤ greatest_variable }
    ensures value { GivesAssumed (λ v. v.items) result (assumptions_in variables (words_of line.now)) }
    ensures rising { IfOk result (λ v. rises v.items ≡ true) }
    ensures within { IfOk result (λ v. is_within variables v.items ≡ true) }
{
    let lits = literals(alloc, line, variables)?;
    let sorted = Lit::sorted(alloc, lits.as_slice())?;
    consistent(sorted)
}

/// The assumptions of a line, which is the word `a`, literals of variables up to this one, in any order and with
/// repeats, and then a 0: by rising variable, each once.
///
/// Errors, the first that holds: `BadLine` where the line has another form, `Range` where a literal is above the
/// variables, `Opposite` with the least variable that is assumed with both signs. `OutOfMemory` may come at any time.
pub fn assumptions(alloc: Global, line: &[u8], variables: u32) -> Result<Vec<Lit>, AssumptionFault>
    requires { variables ≤ greatest_variable }
    ensures value { GivesAssumed (λ v. v.items) result (assumptions_of variables (words_of line.now)) }
    ensures rising { IfOk result (λ v. rises v.items ≡ true) }
    ensures within { IfOk result (λ v. is_within variables v.items ≡ true) }
{
    let Some((first, others)) = first_word(line) else {
        return Err(AssumptionFault::BadLine);
    };
    if first != b"a".as_slice() {
        return Err(AssumptionFault::BadLine);
    }
    assumptions_in(alloc, others, variables)
}
