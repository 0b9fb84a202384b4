//! The readers of numbers.
ghost use Rattle.std.specs.Prelude.{◌≡◌, ◌<◌, ◌≤◌, ◌^◌, SomeIff};
ghost use Rattle.spec_text.specs.Numbers.{number_in, magnitude_in, is_numeral, is_digit, with_digit, value_of};
ghost use Rattle.std.specs.List.{list_all};
ghost use Rattle.mal_text.specs.Numbers.{word_of, magnitude_word_of};

use super::NumberFault;

/// Reads a number with a magnitude of at most `max`: an optional minus sign and one digit or more. Leading zeros are
/// allowed; a plus sign and a zero after a minus sign are not.
pub fn number(word: &[u8], max: u64) -> Result<i64, NumberFault>
    requires { max < 2 ^ 63 }
    ensures { word_of result ≡ number_in word.now max }
{
    match word {
        [b'-', digits @ ..] => match magnitude(digits, max)? {
            0 => Err(NumberFault::NotANumber),
            value => Ok(-(value as i64)),
        },
        digits => Ok(magnitude(digits, max)? as i64),
    }
}

/// Reads a number without a sign, of at most `max`: one digit or more. Leading zeros are allowed.
pub fn magnitude(word: &[u8], max: u64) -> Result<u64, NumberFault>
    ensures { magnitude_word_of result ≡ magnitude_in word.now max }
{
    if !is_numeral(word) {
        return Err(NumberFault::NotANumber);
    }
    value_at_most(word, max).ok_or(NumberFault::TooLarge)
}

/// Whether a word is one digit or more, and nothing else.
fn is_numeral(word: &[u8]) -> bool
    ensures { result ≡ is_numeral word.now }
{
    !word.is_empty() && are_digits(word)
}

/// Whether each byte is a digit.
fn are_digits(word: &[u8]) -> bool
    ensures { result ≡ list_all is_digit word.now }
{
    word.iter().all(|byte| b'0' <= *byte && *byte <= b'9')
}

/// The value of a string of digits, where it is at most `max`.
fn value_at_most(digits: &[u8], max: u64) -> Option<u64>
    ensures { SomeIff result (value_of digits.now ≤ max) (value_of digits.now) }
{
    let mut value: u64 = 0;
    for digit in digits {
        match with_digit(value, *digit) {
            Some(longer) => value = longer,
            None => return None,
        }
    }
    if value <= max { Some(value) } else { None }
}

/// A number with one more digit after it, where it fits.
fn with_digit(value: u64, digit: u8) -> Option<u64>
    ensures { SomeIff result (with_digit value digit < 2 ^ 64) (with_digit value digit) }
{
    match value.checked_mul(10) {
        Some(tens) => tens.checked_add(digit.saturating_sub(b'0') as u64),
        None => None,
    }
}
