//! Reading a line of a proof.

ghost use Rattle.std.specs.Prelude.{◌≡◌, ◌==◌, ◌<◌, ◌≤◌, ◌^◌, false, Some, length, IfOk, IfSome};
ghost use Rattle.std.specs.Option.{option_map};
ghost use Rattle.spec_text.specs.{Inputs.{words_of}, Numbers.{number_in, is_digit}};
ghost use Rattle.mal_text.specs.Numbers.{BeginsWithDigits};
ghost use Rattle.spec_dimacs.specs.Merged.{clause_of};
ghost use Rattle.spec_lrat.specs.{Reading.{greatest_id, behind_l, before_end, behind_end, numbers_of, literals_of, id_said, deleting, added, behind_id, reading_of, reading}, Grammar.{Spells}};
ghost use Rattle.mal_lrat.specs.{LineView.{seen}, IdLists.{listing, list_said, continued, negative_behind, adding_listed, literal_or_end}, Answers.{Gives, GivesWords, CutsNumber}};

use crate::fault::LineFault;
use crate::line::Line;
use mal_base::{Clause, ClauseId, LIMITS, Lit};
use mal_text::{first_word, number, number_in_front};
use std::alloc::{AllocError, Global};

/// The greatest id of a clause in a proof.
const GREATEST_ID: u64 = 1 << 62;

/// Room for ids is made at once for so many bytes each; more room is made where they are shorter.
const BYTES_OF_ID: usize = 5;

/// The greatest number to which a digit is put where ids are written as most are; that of a solver's clause, 2^32 and more,
/// is still one. A test against a number below 2^31 is the cheaper one.
const MOST: u64 = 2_000_000_000;

/// The numbers at the end of a line, as they are read: the ids before the first 0, which are magnitudes; whether one of
/// all numbers is negative; and whether the last one is 0 and no other.
#[derive(Drop)]
struct IdList {
    ids: Vec<ClauseId>,
    has_negative: bool,
    is_closed: bool,
}

/// The line that a text without line ends spells, where `last` is the greater of the number of original clauses and the
/// last id that was added. The text is `id`, literals, `0`, hints, `0`, or `id`, `d`, ids, `0`, and may begin with the
/// word `l`; the id before `d` is read and not compared. The faults are looked for in the order of `LineFault` over the
/// whole line.
pub fn read_line(alloc: Global, line: &[u8], last: u64) -> Result<Line, LineFault>
    ensures exact { Gives seen result (reading last (words_of line.now)) }
    ensures spelled { IfOk result (λ read. Spells last (words_of line.now) (seen read)) }
{
    line_of(alloc, behind_l(line), last)
}

/// The words after a leading word `l`.
fn behind_l(words: &[u8]) -> &[u8]
    ensures { words_of result.now ≡ behind_l (words_of words.now) }
{
    match first_word(words) {
        None => words,
        Some((first, rest)) => {
            if first == b"l".as_slice() {
                rest
            } else {
                words
            }
        }
    }
}

/// The line of these words.
fn line_of(alloc: Global, words: &[u8], last: u64) -> Result<Line, LineFault>
    ensures { Gives seen result (reading_of last (words_of words.now)) }
{
    let Some((word, rest)) = first_word(words) else {
        return Err(LineFault::MissingZero);
    };
    match id_in(word) {
        Some(id) => behind_id(alloc, id, rest, last),
        None => Err(LineFault::BadNumber),
    }
}

/// The line of an id and the words after it.
fn behind_id(alloc: Global, id: ClauseId, words: &[u8], last: u64) -> Result<Line, LineFault>
    ensures { Gives seen result (behind_id last id (words_of words.now)) }
{
    match first_word(words) {
        None => addition(alloc, id, words, last),
        Some((first, rest)) => {
            if first == b"d".as_slice() {
                deletion(alloc, rest)
            } else {
                addition(alloc, id, words, last)
            }
        }
    }
}

/// The deletion of the ids that words say.
fn deletion(alloc: Global, words: &[u8]) -> Result<Line, LineFault>
    ensures { Gives seen result (deleting (numbers_of (words_of words.now))) }
{
    let ids = id_list(alloc, words)?;
    if ids.has_negative {
        return Err(LineFault::BadNumber);
    }
    if !ids.is_closed {
        return Err(LineFault::MissingZero);
    }
    Ok(Line::Delete { ids: ids.ids })
}

/// The line that adds the clause of this id, of the words of its literals and hints.
fn addition(alloc: Global, id: ClauseId, words: &[u8], last: u64) -> Result<Line, LineFault>
    ensures { Gives seen result (added last id (words_of words.now)) }
{
    // Judged word by word first: words up to the first 0 are literals, those after it hints, also where the line has
    // no right form.
    let (lits, hint_words) = literals(alloc, words)?;
    let hints = id_list(alloc, hint_words)?;
    added(alloc, id, lits.as_slice(), hints, last)
}

/// The line that adds the clause of this id and these literals, with these hints.
fn added(
    alloc: Global,
    id: ClauseId,
    lits: &[Lit],
    hints: IdList,
    last: u64,
) -> Result<Line, LineFault>
    ensures { Gives seen result (adding_listed last id lits.now (listing hints)) }
{
    if !hints.is_closed {
        return Err(LineFault::MissingZero);
    }
    if id.number() <= last {
        return Err(LineFault::IdNotRising {
            last,
            id: id.number(),
        });
    }
    if hints.has_negative {
        return Err(LineFault::NegativeHint);
    }
    let clause = clause(alloc, lits)?;
    Ok(Line::Add {
        id,
        clause,
        hints: hints.ids,
    })
}

/// The clause of these literals, none for a tautology. Those that rise already are not sorted.
fn clause(alloc: Global, lits: &[Lit]) -> Result<Option<Clause>, AllocError>
    ensures { IfOk result (λ c. c ≡ clause_of lits.now) }
{
    match Clause::of_rising(alloc, lits)? {
        Some(clause) => Ok(Some(clause)),
        None => Clause::of_lits(alloc, lits),
    }
}

/// The id that a word says.
fn id_in(word: &[u8]) -> Option<ClauseId>
    ensures { result ≡ id_said (number_in word.now greatest_id) }
{
    let Ok(number) = number(word, GREATEST_ID) else {
        return None;
    };
    if number < 0 {
        return None;
    }
    ClauseId::of(number as u64)
}

/// The literal that a word says, none for a 0.
fn literal_in(word: &[u8]) -> Result<Option<Lit>, LineFault>
    ensures { GivesWords (λ lit. lit) result (literal_or_end word.now) }
{
    match number(word, u64::from(LIMITS.variables)) {
        Ok(number) => Ok(Lit::of_dimacs(number as i32)),
        Err(_) => Err(LineFault::BadNumber),
    }
}

/// The literals that the words before the first 0 say, and the words after it.
fn literals(alloc: Global, words: &[u8]) -> Result<(Vec<Lit>, &[u8]), LineFault>
    ensures lits { GivesWords (λ r. r.0.items) result (literals_of (before_end (words_of words.now))) }
    ensures behind { IfOk result (λ r. words_of r.1.now ≡ behind_end (words_of words.now)) }
{
    let mut lits = Vec::new(alloc);
    let mut rest = words;
    while let Some((word, behind)) = first_word(rest) {
        match literal_in(word)? {
            Some(lit) => {
                lits.reserve(1)?;
                lits.push_reserved(lit);
            }
            None => return Ok((lits, behind)),
        }
        rest = behind;
    }
    Ok((lits, rest))
}

/// The numbers with a magnitude up to 2^62 that words say.
fn id_list(alloc: Global, words: &[u8]) -> Result<IdList, LineFault>
    ensures { GivesWords listing result (list_said (words_of words.now)) }
{
    let mut ids = Vec::with_capacity(alloc, words.len() / BYTES_OF_ID)?;
    let mut rest = plain_ids(&mut ids, words)?;
    let mut has_negative = false;
    while let Some((number, behind)) = first_number(rest)? {
        match ClauseId::of(number.unsigned_abs()) {
            Some(id) => {
                ids.reserve(1)?;
                ids.push_reserved(id);
            }
            None => {
                return Ok(IdList {
                    ids,
                    has_negative: has_negative_behind(has_negative, behind)?,
                    is_closed: has_no_word(behind),
                });
            }
        }
        has_negative = has_negative || number < 0;
        rest = behind;
    }
    Ok(IdList {
        ids,
        has_negative,
        is_closed: false,
    })
}

/// Puts the ids that words begin with after others, as long as each is written as most are, and gives the words after
/// them. All that is not written so is left to the readers of any number.
fn plain_ids<'a>(ids: &mut Vec<ClauseId>, words: &'a [u8]) -> Result<&'a [u8], AllocError>
    ensures { IfOk result (λ rest. continued ids.new.items false (list_said (words_of rest.now))
        ≡ continued ids.old.items false (list_said (words_of words.now))) }
{
    let mut rest = words;
    while let Some((number, after)) = plain_number(rest) {
        match ClauseId::of(number) {
            Some(id) => {
                ids.reserve(1)?;
                ids.push_reserved(id);
            }
            None => return Ok(rest),
        }
        rest = after;
    }
    Ok(rest)
}

/// The number that a line begins with, where it is above 0 and not large and has digits alone and a space after them,
/// and the line after the space. None says nothing of the line.
fn plain_number(line: &[u8]) -> Option<(u64, &[u8])>
    ensures number { IfSome result (λ cut. BeginsWithDigits line.now cut.0 cut.1.now) }
    ensures bound { IfSome result (λ cut. cut.0 ≤ 2 ^ 62) }
    ensures shorter { IfSome result (λ cut. length cut.1.now < length line.now) }
{
    let mut value: u64 = 0;
    for (index, byte) in line.iter().enumerate() {
        if !is_digit(*byte) {
            if value == 0 || *byte != b' ' {
                return None;
            }
            return Some((value, &line[index + 1..]));
        }
        if value > MOST {
            return None;
        }
        value = value * 10 + (u64::from(*byte) - u64::from(b'0'));
    }
    None
}

/// Whether a byte is a decimal digit.
fn is_digit(byte: u8) -> bool
    ensures { result ≡ is_digit byte }
{
    b'0' <= byte && byte <= b'9'
}

/// Whether a number was negative before, or one of those that these words say is.
fn has_negative_behind(before: bool, words: &[u8]) -> Result<bool, LineFault>
    ensures { GivesWords (λ b. b) result (option_map (negative_behind before) (numbers_of (words_of words.now))) }
{
    let mut has_negative = before;
    let mut rest = words;
    while let Some((number, behind)) = first_number(rest)? {
        has_negative = has_negative || number < 0;
        rest = behind;
    }
    Ok(has_negative)
}

/// The number with a magnitude up to 2^62 that the first word of a line says, and the line after the word. None for a
/// line of blanks alone.
fn first_number(line: &[u8]) -> Result<Option<(i64, &[u8])>, LineFault>
    ensures number { CutsNumber (λ cut. cut.0) (λ cut. words_of cut.1.now) result (words_of line.now) }
    ensures shorter { IfOk result (λ o. IfSome o (λ cut. length cut.1.now < length line.now)) }
{
    match number_in_front(line) {
        Some((number, behind)) => Ok(Some((number, behind))),
        None => number_of_word(line),
    }
}

/// The same, word by word.
fn number_of_word(line: &[u8]) -> Result<Option<(i64, &[u8])>, LineFault>
    ensures number { CutsNumber (λ cut. cut.0) (λ cut. words_of cut.1.now) result (words_of line.now) }
    ensures shorter { IfOk result (λ o. IfSome o (λ cut. length cut.1.now < length line.now)) }
{
    let Some((word, behind)) = first_word(line) else {
        return Ok(None);
    };
    match number(word, GREATEST_ID) {
        Ok(number) => Ok(Some((number, behind))),
        Err(_) => Err(LineFault::BadNumber),
    }
}

/// Whether a line is of blanks alone.
fn has_no_word(line: &[u8]) -> bool
    ensures { result ≡ (length (words_of line.now) == 0) }
{
    first_word(line).is_none()
}
