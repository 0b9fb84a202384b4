//! What a word is, and the literal that a number stands for.

ghost use Rattle.std.specs.Prelude.{◌≡◌, ◌≤◌, nat_abs};
ghost use Rattle.mal_base.specs.Limits.{greatest_variable};
ghost use Rattle.spec_text.specs.Inputs.{words_of};
ghost use Rattle.spec_dimacs.specs.{Rows.{is_comment, is_passed}, Reading.{code_of}};

use mal_base::{Lit, Var};
use mal_text::first_word;

/// Whether a word begins a comment.
pub fn is_comment(word: &[u8]) -> bool
    ensures { result ≡ is_comment word.now }
{
    match word {
        [b'c', ..] => true,
        _ => false,
    }
}

/// The literal that a number stands for.
pub fn literal(number: i64) -> Lit
    requires some { 1 ≤ nat_abs number }
    requires bound { nat_abs number ≤ greatest_variable }
    ensures { result ≡ code_of number }
{
    let var = Var::of(number.unsigned_abs() as u32);
    var.literal(number > 0)
}

/// Whether a line is passed over: it has no word, or is a comment.
pub fn is_passed(line: &[u8]) -> bool
    ensures { result ≡ is_passed (words_of line.now) }
{
    match first_word(line) {
        None => true,
        Some((first, _)) => is_comment(first),
    }
}
