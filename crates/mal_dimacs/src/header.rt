//! The header of a block.

ghost use Rattle.std.specs.Prelude.{◌≡◌, ◌∷◌, [], List, ℕ, Err, MatchOption};
ghost use Rattle.spec_text.specs.{Inputs.{words_of}, Numbers.{magnitude_in}};
ghost use Rattle.mal_text.specs.Numbers.{magnitude_word_of};
ghost use Rattle.spec_dimacs.specs.Reading.{opened, opened_with};
ghost use Rattle.mal_dimacs.specs.Counts.{opens_with};
ghost use Rattle.mal_base.specs.declared.block_fault.BlockFault.TheVariants.{BadHeader};

use mal_base::{BlockFault, LIMITS, LimitKind};
use mal_text::{NumberFault, first_word, magnitude};

/// The number of variables and the number of clauses that a header line declares, each at most as many as
/// are served.
pub fn counts(line: &[u8]) -> Result<(u32, u32), BlockFault>
    ensures { opens_with result ≡ opened (words_of line.now) }
{
    match count_words(line) {
        Some((variables, clauses)) => counts_of(variables, clauses),
        None => Err(BlockFault::BadHeader),
    }
}

/// The words of the two numbers of a header line.
fn count_words(line: &[u8]) -> Option<(&[u8], &[u8])>
    ensures { MatchOption result (opened (words_of line.now) ≡ Err BadHeader)
        (λ x. opened (words_of line.now) ≡ opened_with x.0.now x.1.now) }
{
    let (p, rest) = first_word(line)?;
    let (cnf, rest) = first_word(rest)?;
    match (p, cnf) {
        (b"p", b"cnf") => two_words(rest),
        _ => None,
    }
}

/// The words of a line that has two words.
fn two_words(line: &[u8]) -> Option<(&[u8], &[u8])>
    ensures { MatchOption result ((first second : List ℕ) → words_of line.now ≡ first ∷ second ∷ [] → ⊥)
        (λ x. words_of line.now ≡ x.0.now ∷ x.1.now ∷ []) }
{
    let (first, rest) = first_word(line)?;
    let (second, rest) = first_word(rest)?;
    match first_word(rest) {
        None => Some((first, second)),
        Some(_) => None,
    }
}

/// The two numbers of a header.
fn counts_of(variables: &[u8], clauses: &[u8]) -> Result<(u32, u32), BlockFault>
    ensures { opens_with result ≡ opened_with variables.now clauses.now }
{
    match (
        count(variables, LIMITS.variables),
        count(clauses, LIMITS.clauses as u32),
    ) {
        (Err(NumberFault::NotANumber), _) => Err(BlockFault::BadHeader),
        (_, Err(NumberFault::NotANumber)) => Err(BlockFault::BadHeader),
        (Err(NumberFault::TooLarge), _) => Err(BlockFault::Limit {
            which: LimitKind::Variables,
        }),
        (_, Err(NumberFault::TooLarge)) => Err(BlockFault::Limit {
            which: LimitKind::Clauses,
        }),
        (Ok(variables), Ok(clauses)) => Ok((variables, clauses)),
    }
}

/// The number without a sign that a word says, up to `max`.
fn count(word: &[u8], max: u32) -> Result<u32, NumberFault>
    ensures { magnitude_word_of result ≡ magnitude_in word.now max }
{
    match magnitude(word, u64::from(max)) {
        Ok(number) => Ok(number as u32),
        Err(fault) => Err(fault),
    }
}
