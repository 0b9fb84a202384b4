//! Reading a text line by line, and a line word by word.
ghost use Rattle.std.specs.Prelude.{◌≡◌, ◌<◌, ◌≤◌, false, [], ◌∷◌, map, length, get_or, IfOk, IfSome, MatchOption};
ghost use Rattle.spec_text.specs.Inputs.{lines_of, words_of, is_blank, is_word_line};

use std::alloc::{AllocError, Global};

/// The first line of a text, without its line end, and the text after it. An empty text has no line.
pub fn first_line(text: &[u8]) -> Option<(&[u8], &[u8])>
    ensures lines { MatchOption result (lines_of text.now ≡ [])
        (λ cut. lines_of text.now ≡ cut.0.now ∷ lines_of cut.1.now) }
    ensures shorter { IfSome result (λ cut. length cut.1.now < length text.now) }
{
    if text.is_empty() {
        return None;
    }
    for (index, byte) in text.iter().enumerate() {
        if *byte == b'\n' {
            return Some((&text[..index], &text[index + 1..]));
        }
    }
    Some((text, &[]))
}

/// The words of a line: its longest runs of bytes that are not spaces, tabs or carriage returns.
pub fn words(alloc: Global, line: &[u8]) -> Result<Vec<&[u8]>, AllocError>
    ensures { IfOk result (λ found. map (λ w. w.now) found.items ≡ words_of line.now) }
{
    line.split(|byte| is_blank(*byte))
        .filter(|part| !part.is_empty())
        .collect(alloc)
}

/// The first word of a line, and the line after it. A line of blanks alone has no word. A line may be the whole input,
/// and a list of its words would take many times its size; so it is cut word by word.
pub fn first_word(line: &[u8]) -> Option<(&[u8], &[u8])>
    ensures words { MatchOption result (words_of line.now ≡ [])
        (λ cut. words_of line.now ≡ cut.0.now ∷ words_of cut.1.now) }
    ensures shorter { IfSome result (λ cut. length cut.1.now < length line.now) }
{
    let line = without_blanks(line);
    if line.is_empty() {
        return None;
    }
    Some(word_in_front(line))
}

/// Whether a line is this one word.
pub fn is_word_line(line: &[u8], word: &[u8]) -> bool
    ensures { result ≡ is_word_line word.now (words_of line.now) }
{
    match first_word(line) {
        None => false,
        Some((first, rest)) => match first_word(rest) {
            None => first == word,
            Some(_) => false,
        },
    }
}

/// The line without the blanks before its first word.
fn without_blanks(line: &[u8]) -> &[u8]
    ensures words { words_of result.now ≡ words_of line.now }
    ensures shorter { length result.now ≤ length line.now }
    ensures word { length result.now ≡ 0 → words_of line.now ≡ [] }
    ensures first { is_blank (get_or result.now 0 0) ≡ false }
{
    for (index, byte) in line.iter().enumerate() {
        if !is_blank(*byte) {
            return &line[index..];
        }
    }
    &[]
}

/// The word that a line begins with, and the line after it.
fn word_in_front(line: &[u8]) -> (&[u8], &[u8])
    requires some { 0 < length line.now }
    requires first { is_blank (get_or line.now 0 0) ≡ false }
    ensures words { words_of line.now ≡ result.0.now ∷ words_of result.1.now }
    ensures shorter { length result.1.now < length line.now }
{
    for (index, byte) in line.iter().enumerate() {
        if is_blank(*byte) {
            return (&line[..index], &line[index + 1..]);
        }
    }
    (line, &[])
}

/// Whether a byte is a space, a tab or a carriage return.
fn is_blank(byte: u8) -> bool
    ensures { result ≡ is_blank byte }
{
    byte == b' ' || byte == b'\t' || byte == b'\r'
}
