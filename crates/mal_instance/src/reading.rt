//! Reading a text up to its line of literals, and to its end.

ghost use Rattle.std.specs.Prelude.{◌≡◌, ◌≤◌, ◌<◌, ◌+◌, ◌^◌, ◌∷◌, [], true, length, IfOk};
ghost use Rattle.std.specs.List.{list_any};
ghost use Rattle.spec_text.specs.Inputs.{words_of};
ghost use Rattle.spec_dimacs.specs.Rows.{rows_of};
ghost use Rattle.mal_instance.specs.{Rows.{begins}, Reading.{ended, opened}, ReadResult.{Gives, seen}};

use crate::fault::InputFault;
use crate::formula::{begins, read_formula};
use crate::opened::Opened;
use mal_base::{LineFault, Lit};
use mal_dimacs::is_passed;
use mal_text::first_line;
use std::alloc::Global;

/// A text up to its line of literals, which is the first that begins with this word.
///
/// Errors: `NoLine` where no line does; else the first fault of the formula, which is all lines before that one.
/// `OutOfMemory` may come at any time.
pub fn read_opening<'a>(
    alloc: Global,
    text: &'a [u8],
    word: &[u8],
) -> Result<Opened<'a>, InputFault>
    ensures value { Gives seen result (opened word.now (rows_of text.now)) }
    ensures begins { IfOk result (λ o. begins (word.now ∷ []) (words_of o.row.now) ≡ true) }
    ensures short { IfOk result (λ o. o.line + length o.rest.now ≤ length text.now) }
{
    if !has_line(text, word) {
        return Err(InputFault::NoLine);
    }
    let (formula, lines, rest) = read_formula(alloc, text, &[word])?;
    match first_line(rest) {
        Some((row, rest)) => Ok(Opened {
            formula,
            line: lines + 1,
            row,
            rest,
        }),
        None => Err(InputFault::NoLine),
    }
}

/// Whether a line of a text begins with this word.
pub fn has_line(text: &[u8], word: &[u8]) -> bool
    ensures { result ≡ list_any (begins (word.now ∷ [])) (rows_of text.now) }
{
    let mut rest = text;
    while let Some((row, after)) = first_line(rest) {
        if begins(row, &[word]) {
            return true;
        }
        rest = after;
    }
    false
}

/// These literals, where after so many lines only such lines follow as are passed over. Else the first line that is
/// neither empty nor a comment is a `BadLine`.
pub fn ended(lits: Vec<Lit>, line: u64, text: &[u8]) -> Result<Vec<Lit>, InputFault>
    requires { line + length text.now < 2 ^ 63 }
    ensures value { Gives (λ v. v.items) result (ended lits.items line (rows_of text.now)) }
    ensures same { IfOk result (λ v. v.items ≡ lits.items) }
{
    let mut rest = text;
    let mut line = line;
    while let Some((row, after)) = first_line(rest) {
        line += 1;
        if !is_passed(row) {
            return Err(InputFault::Formula {
                line,
                fault: LineFault::BadLine,
            });
        }
        rest = after;
    }
    Ok(lits)
}
