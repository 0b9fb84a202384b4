//! The asks of jobs, and what is changed of them, as they are read.

ghost use Rattle.std.specs.Prelude.{◌≡◌, ◌≢◌, ◌∷◌, [], ℕ, List, Err, MatchOption};
ghost use Rattle.spec_text.specs.Inputs.{words_of};
ghost use Rattle.spec_script.specs.Reading.{asked, of_words, weight_in, weighed};

use mal_base::{Ask, LineFault, Weight};
use mal_text::{ask_in, first_word, profile_in};
use spec_text::AskFault;

/// What words say, the fault as that of their line.
fn of_words<X>(said: Result<X, AskFault>) -> Result<X, LineFault>
    ensures { result ≡ of_words said }
{
    match said {
        Ok(value) => Ok(value),
        Err(AskFault::NotNumbers) => Err(LineFault::BadLine),
        Err(AskFault::OutOfRange) => Err(LineFault::Range),
    }
}

/// The ask of the words of a priority, a demand and a number of slices, and of the words after them.
pub fn asked(priority: &[u8], demand: &[u8], slices: &[u8], behind: &[u8]) -> Result<Ask, LineFault>
    ensures { result ≡ asked priority.now demand.now slices.now (words_of behind.now) }
{
    of_words(ask_in(priority, demand, slices, profile_in(behind)))
}

/// The weight of the words of a priority and a demand.
fn weighed(priority: &[u8], demand: &[u8]) -> Result<Weight, LineFault>
    ensures { result ≡ weighed priority.now demand.now }
{
    of_words(mal_text::weight_in(priority, demand))
}

/// The weight of the words of a line, which are those of a priority and a demand.
pub fn weight_in(words: &[u8]) -> Result<Weight, LineFault>
    ensures { result ≡ weight_in (words_of words.now) }
{
    match two_words(words) {
        Some((priority, demand)) => weighed(priority, demand),
        None => Err(LineFault::BadLine),
    }
}

/// The two words of a line. None exactly where the line has fewer or more.
fn two_words(line: &[u8]) -> Option<(&[u8], &[u8])>
    ensures { MatchOption result ((a b : List ℕ) → words_of line.now ≢ a ∷ b ∷ [])
        (λ w. words_of line.now ≡ w.0.now ∷ w.1.now ∷ []) }
{
    let (first, others) = first_word(line)?;
    let (second, others) = first_word(others)?;
    match first_word(others) {
        None => Some((first, second)),
        Some(_) => None,
    }
}
