//! Cutting pieces into lines, and lines into words.

ghost use Rattle.std.specs.Prelude.{◌≡◌, ◌≢◌, ℕ, List, ◌∷◌, ◌++◌, [], true, MatchOption};
ghost use Rattle.std.specs.List.{list_all};
ghost use Rattle.spec_text.specs.Inputs.{words_of};
ghost use Rattle.mal_feed.specs.Coming.{is_inside};

use mal_text::first_word;

/// The bytes before the first line end, and those after it.
pub fn cut(piece: &[u8]) -> Option<(&[u8], &[u8])>
    ensures { MatchOption result (list_all is_inside piece.now ≡ true)
        (λ c. (piece.now ≡ c.0.now ++ 10 ∷ c.1.now) × (list_all is_inside c.0.now ≡ true)) }
{
    for (index, byte) in piece.iter().enumerate() {
        if *byte == b'\n' {
            return Some((&piece[..index], &piece[index + 1..]));
        }
    }
    None
}

/// The only word of a line. None exactly where the line has no word or more than one.
pub fn only_word(line: &[u8]) -> Option<&[u8]>
    ensures { MatchOption result ((word : List ℕ) → words_of line.now ≢ word ∷ [])
        (λ word. words_of line.now ≡ word.now ∷ []) }
{
    match first_word(line) {
        Some((word, others)) if first_word(others).is_none() => Some(word),
        _ => None,
    }
}

/// The first four words of a line, and what is after them. None exactly where the line has fewer words.
pub fn four_words(line: &[u8]) -> Option<(&[u8], &[u8], &[u8], &[u8], &[u8])>
    ensures { MatchOption result
        ((a b c d : List ℕ) (rest : List (List ℕ)) → words_of line.now ≢ a ∷ b ∷ c ∷ d ∷ rest)
        (λ w. words_of line.now ≡ w.0.now ∷ w.1.now ∷ w.2.now ∷ w.3.now ∷ words_of w.4.now) }
{
    let (first, others) = first_word(line)?;
    let (second, others) = first_word(others)?;
    let (third, others) = first_word(others)?;
    let (fourth, rest) = first_word(others)?;
    Some((first, second, third, fourth, rest))
}
