//! Reading the lines of a formula that other lines follow.

ghost use Rattle.std.specs.Prelude.{◌≡◌, ◌≤◌, ◌+◌, None, length, map, max, IfOk};
ghost use Rattle.std.specs.{List.{list_any}, Str.{bytes_eq}};
ghost use Rattle.spec_text.specs.{Faults.{GivesBy}, Inputs.{words_of}};
ghost use Rattle.spec_dimacs.specs.{Rows.{rows_of}, Reading.{at_end, on_line}};
ghost use Rattle.mal_instance.specs.{Rows.{begins, formula_of, formula_rows, rows_after}, ReadResult.{located_of}};

use mal_base::Formula;
use mal_dimacs::{BlockReader, DimacsFault, after_line, at_end};
use mal_text::{first_line, first_word};
use std::alloc::Global;

/// The formula of the lines before the first one that begins with one of these words, how many lines these are, and the
/// text after them. A fault is the first of these lines; one at their end is of the last of them, of line 1 where there
/// is none.
pub fn read_formula<'a>(
    alloc: Global,
    text: &'a [u8],
    words: &[&[u8]],
) -> Result<(Formula, u64, &'a [u8]), DimacsFault>
    ensures formula { GivesBy located_of (λ t. t.0) result (formula_of (map (λ w. w.now) words.now) (rows_of text.now)) }
    ensures lines { IfOk result (λ t. t.1 ≡ length (formula_rows (map (λ w. w.now) words.now) (rows_of text.now))) }
    ensures after { IfOk result (λ t. rows_of t.2.now ≡ rows_after (map (λ w. w.now) words.now) (rows_of text.now)) }
    ensures short { IfOk result (λ t. t.1 + length t.2.now ≤ length text.now) }
{
    let mut rest = text;
    let mut line: u64 = 0;
    let mut reader = None;
    while let Some((row, after)) = first_line(rest) {
        if begins(row, words) {
            return finish(reader, line, rest);
        }
        line += 1;
        match after_line(alloc, reader, row) {
            Ok(read) => reader = read,
            Err(error) => return Err(error.on_line(line)),
        }
        rest = after;
    }
    finish(reader, line, rest)
}

/// Whether a line begins with one of these words.
pub fn begins(line: &[u8], words: &[&[u8]]) -> bool
    ensures { result ≡ begins (map (λ w. w.now) words.now) (words_of line.now) }
{
    match first_word(line) {
        None => false,
        Some((first, _)) => is_among(first, words),
    }
}

/// Whether this is one of these words.
fn is_among(first: &[u8], words: &[&[u8]]) -> bool
    ensures { result ≡ list_any (bytes_eq first.now) (map (λ w. w.now) words.now) }
{
    for word in words {
        if first == *word {
            return true;
        }
    }
    false
}

/// The formula of all its lines, of which there are so many, and the text after them.
fn finish<'a>(
    reader: Option<BlockReader>,
    line: u64,
    rest: &'a [u8],
) -> Result<(Formula, u64, &'a [u8]), DimacsFault>
    ensures formula { GivesBy located_of (λ t. t.0) result (on_line (max 1 line) (at_end reader)) }
    ensures same { IfOk result (λ t. (t.1 ≡ line) × (t.2.now ≡ rest.now)) }
{
    match at_end(reader) {
        Ok(formula) => Ok((formula, line, rest)),
        // On the last line of the formula, line 1 where there is none.
        Err(fault) => Err(DimacsFault::Fault {
            line: line.max(1),
            fault,
        }),
    }
}
