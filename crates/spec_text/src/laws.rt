//! The laws of texts, words and numbers.
ghost use Rattle.spec_text.specs.{Laws.{DecimalsAreClean, LiteralsAreClean, DecimalsDiffer, LiteralsDiffer, WordsAgain, LinesAgain, TextsDiffer, JoinedWordByWord, WordsReadAgain, LinesReadAgain, NumbersReadAgain}, Examples.{NumberExamples, TextExamples}};

/// A written number is a clean word: it is not empty and has neither blanks nor line ends.
#[tactic(auto, using(crate::proofs::Clean::decimals_are_clean))]
pub fn decimals_are_clean()
    ensures { DecimalsAreClean }
{}

/// A written literal is a clean word.
#[tactic(auto, using(crate::proofs::Clean::literals_are_clean))]
pub fn literals_are_clean()
    ensures { LiteralsAreClean }
{}

/// Two numbers of 64 bits that are written alike are equal.
#[tactic(auto, using(crate::proofs::Clean::decimals_differ))]
pub fn decimals_differ()
    ensures { DecimalsDiffer }
{}

/// Two literals that are written alike are equal.
#[tactic(auto, using(crate::proofs::Clean::literals_differ))]
pub fn literals_differ()
    ensures { LiteralsDiffer }
{}

/// A line that is cut at its spaces gives its words again.
#[tactic(auto, using(crate::proofs::Again::words_again))]
pub fn words_again()
    ensures { WordsAgain }
{}

/// A text that is cut at its line ends gives its lines again.
#[tactic(auto, using(crate::proofs::Again::lines_again))]
pub fn lines_again()
    ensures { LinesAgain }
{}

/// Two lists of lines with one text are equal.
#[tactic(auto, using(crate::proofs::Again::texts_differ))]
pub fn texts_differ()
    ensures { TextsDiffer }
{}

/// The words of a line stand one after another, each but the first after a space.
#[tactic(auto, using(crate::proofs::Again::joined_word_by_word))]
pub fn joined_word_by_word()
    ensures { JoinedWordByWord }
{}

/// The words of a written line are read again.
#[tactic(auto, using(crate::proofs::Read::words_read_again))]
pub fn words_read_again()
    ensures { WordsReadAgain }
{}

/// The lines of a written text are read again.
#[tactic(auto, using(crate::proofs::Read::lines_read_again))]
pub fn lines_read_again()
    ensures { LinesReadAgain }
{}

/// A written number is read again.
#[tactic(auto, using(crate::proofs::Numerals::numbers_read_again))]
pub fn numbers_read_again()
    ensures { NumbersReadAgain }
{}

/// What small words are read as where a number is wanted.
#[tactic(auto, using(crate::proofs::Examples::number_examples))]
pub fn number_examples()
    ensures { NumberExamples }
{}

/// What small literals, lines and texts are written as and read as.
#[tactic(auto, using(crate::proofs::Examples::text_examples))]
pub fn text_examples()
    ensures { TextExamples }
{}
