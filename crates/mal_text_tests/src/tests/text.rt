//! Words, numbers and lines that are read and written.

use mal_text::{
    NumberFault, end_line, first_line, first_word, number, put_line, put_number, put_word, words,
};
use std::alloc::{AllocError, Global};

/// Words as numbers of a magnitude up to 12.
const NUMBERS: [(&[u8], Result<i64, NumberFault>); 3] = [
    (b"-01", Ok(-1)),
    (b"-0", Err(NumberFault::NotANumber)),
    (b"99999999999999999999999", Err(NumberFault::TooLarge)),
];

#[test]
fn number_words_are_told_apart(rt: HostRuntime) {
    for (word, known) in &NUMBERS {
        assert!(rt; number(word, 12) == *known);
    }
}

/// Writes a line by one call, and one word by word.
fn put_two_lines(out: &mut Vec<u8>) -> Result<(), AllocError> {
    put_line(out, b"p", &[b"cnf", b"3"])?;
    put_number(out, -17)?;
    put_word(out, b"0")?;
    end_line(out)
}

/// Whether this is the text of both.
fn are_written(alloc: Global, known: &[u8]) -> bool {
    let mut out = Vec::new(alloc);
    put_two_lines(&mut out).is_ok() && out.as_slice() == known
}

#[test]
fn lines_are_written_with_one_space(rt: HostRuntime) {
    assert!(rt; are_written(rt.alloc(), b"p cnf 3\n-17 0\n"));
}

/// Whether a line has these words.
fn has_words(alloc: Global, line: &[u8], known: &[&[u8]]) -> bool {
    match words(alloc, line) {
        Err(_) => false,
        Ok(found) => found.as_slice() == known,
    }
}

#[test]
fn a_line_with_tabs_is_cut_into_words(rt: HostRuntime) {
    assert!(rt; has_words(rt.alloc(), b" 1\t-2  0\r", &[b"1", b"-2", b"0"]));
}

/// The first line of a text and what is after it, or its first word.
fn first(is_line: bool, text: &[u8]) -> Option<(&[u8], &[u8])> {
    if is_line {
        first_line(text)
    } else {
        first_word(text)
    }
}

/// Whether a text is cut into these two lines or words alone.
fn is_cut(is_line: bool, text: &[u8], pieces: [&[u8]; 2]) -> Option<bool> {
    let (one, behind) = first(is_line, text)?;
    let (other, rest) = first(is_line, behind)?;
    Some([one, other] == pieces && first(is_line, rest).is_none())
}

/// Texts that are cut into lines, the last of which has no end, and into words.
const CUTS: [(bool, &[u8], [&[u8]; 2]); 2] = [
    (true, b"a b\nc", [b"a b", b"c"]),
    (false, b" 1\t-2\r", [b"1", b"-2"]),
];

#[test]
fn lines_and_words_are_cut_one_by_one(rt: HostRuntime) {
    for (is_line, text, pieces) in &CUTS {
        assert!(rt; is_cut(*is_line, text, *pieces) == Some(true));
    }
}
