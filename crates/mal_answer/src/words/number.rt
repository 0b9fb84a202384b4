//! Numbers among the words: decimal digits without a sign and without a leading zero.

ghost use Rattle.std.specs.Prelude.{◌≡◌, ◌↔◌, ◌<◌, IsTrue, decimal};
ghost use Rattle.mal_answer.specs.{Forms.{number_by}, Found.{IsDecimalOf, IsWithin}};

use itoa::Buffer;

/// The number from `least` to `most` that a word is.
#[tactic(auto, using(crate::proofs::Decimals::number_lemmas))]
pub fn number(word: &str, least: u32, most: u32) -> Option<u32>
    ensures { result ≡ number_by least most word.now }
{
    match decimal(word) {
        Some(number) => within(number, least, most),
        None => None,
    }
}

/// The number where it is from `least` to `most`.
fn within(number: u32, least: u32, most: u32) -> Option<u32>
    ensures { IsWithin least most number result }
{
    if number < least {
        return None;
    }
    if most < number {
        return None;
    }
    Some(number)
}

/// The number below 2^32 that a word is.
fn decimal(word: &str) -> Option<u32>
    ensures { IsDecimalOf result word.now }
{
    let Ok(number) = word.parse::<u32>() else {
        return None;
    };
    // One spelling for one meaning: 04 and +4 are refused.
    if is_decimal(word, number) {
        Some(number)
    } else {
        None
    }
}

/// Whether a word is this number in decimal digits.
fn is_decimal(word: &str, number: u32) -> bool
    ensures { IsTrue result ↔ (word.now ≡ decimal number) }
{
    let mut buffer = Buffer::new();
    word == buffer.format(number)
}
