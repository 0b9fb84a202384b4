//! The words of an ask: writing and reading them.

ghost use Rattle.std.specs.Prelude.{◌≡◌, ◌∷◌, flat_map, OnOk};
ghost use Rattle.spec_text.specs.{Asks.{ask_in, ask_words, is_first, is_number, number_said, profile_in, profile_words, weight_in}, Inputs.{words_of}};
ghost use Rattle.mal_text.specs.Numbers.{word_of};

use crate::numbers::{NumberFault, number};
use crate::read::first_word;
use crate::taker::{Taker, put_words};
use itoa::Buffer;
use mal_base::{Ask, LIMITS, Profile, Weight};
use spec_text::AskFault;

/// Whether a profile is the first one, for which no word has to stand.
pub fn is_first(profile: Profile) -> bool
    ensures { result ≡ is_first profile }
{
    profile.number() == Profile::Plain.number()
}

/// Puts the words of an ask, each after a space.
pub fn put_ask<T: Taker>(out: &mut T, ask: Ask) -> Result<(), T::Fault>
    ensures { OnOk result (T.took out.old out.new (flat_map (λ w. 32 ∷ w) (ask_words ask))) }
{
    let mut priority = Buffer::new();
    let mut demand = Buffer::new();
    let mut slices = Buffer::new();
    let words = [
        priority.format(ask.priority()).as_bytes(),
        demand.format(ask.demand()).as_bytes(),
        slices.format(ask.slices()).as_bytes(),
    ];
    put_words(out, &words)?;
    put_profile(out, ask.profile())?;
    Ok(())
}

/// Puts the words of a profile, each after a space. The first profile has none.
pub fn put_profile<T: Taker>(out: &mut T, profile: Profile) -> Result<(), T::Fault>
    ensures { OnOk result (T.took out.old out.new (flat_map (λ w. 32 ∷ w) (profile_words profile))) }
{
    let mut number = Buffer::new();
    let words = [number.format(profile.number()).as_bytes()];
    if is_first(profile) {
        put_words(out, &words[..0])
    } else {
        put_words(out, &words)
    }
}

/// The number that the words of a profile say: that of the first profile where there is no word. More words than one are
/// no number.
pub fn profile_in(words: &[u8]) -> Result<i64, NumberFault>
    ensures { word_of result ≡ profile_in (words_of words.now) }
{
    let Some((word, behind)) = first_word(words) else {
        return Ok(i64::from(Profile::Plain.number()));
    };
    match first_word(behind) {
        None => number(word, u64::from(Profile::LAST)),
        Some(_) => Err(NumberFault::NotANumber),
    }
}

/// The ask of the words of a priority, a demand and a number of slices, and of what was read for the number of the
/// profile. A word that is no number comes before a number outside its range.
pub fn ask_in(
    priority: &[u8],
    demand: &[u8],
    slices: &[u8],
    profile: Result<i64, NumberFault>,
) -> Result<Ask, AskFault>
    ensures { result ≡ ask_in priority.now demand.now slices.now (word_of profile) }
{
    let priority = number(priority, u64::from(LIMITS.priority));
    let demand = number(demand, u64::from(LIMITS.demand));
    let slices = number(slices, u64::from(LIMITS.slices));
    if !is_number(priority) || !is_number(demand) || !is_number(slices) || !is_number(profile) {
        return Err(AskFault::NotNumbers);
    }
    let ask = Ask::of_numbers(
        number_said(priority),
        number_said(demand),
        number_said(slices),
        number_said(profile),
    );
    ask.ok_or(AskFault::OutOfRange)
}

/// The weight of the words of a priority and a demand. A word that is no number comes before a number outside its range.
pub fn weight_in(priority: &[u8], demand: &[u8]) -> Result<Weight, AskFault>
    ensures { result ≡ weight_in priority.now demand.now }
{
    let priority = number(priority, u64::from(LIMITS.priority));
    let demand = number(demand, u64::from(LIMITS.demand));
    if !is_number(priority) || !is_number(demand) {
        return Err(AskFault::NotNumbers);
    }
    Weight::of(number_said(priority), number_said(demand)).ok_or(AskFault::OutOfRange)
}

/// Whether a word that was read as this says a number.
fn is_number(word: Result<i64, NumberFault>) -> bool
    ensures { result ≡ is_number (word_of word) }
{
    match word {
        Err(NumberFault::NotANumber) => false,
        Err(NumberFault::TooLarge) => true,
        Ok(_) => true,
    }
}

/// The number of a word that was read as this; where it has none that is wanted 0, which is in no range.
fn number_said(word: Result<i64, NumberFault>) -> i64
    ensures { result ≡ number_said (word_of word) }
{
    match word {
        Ok(number) => number,
        Err(_) => 0,
    }
}
