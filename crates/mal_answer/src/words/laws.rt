//! Laws on the meaning of words, as the contracts of functions without a body.

ghost use Rattle.mal_answer.specs.{WordExamples.{HasExamples}, WordLaws.{AskedIsAsks, OneMeaning}};

/// What a subcommand asks for is what the table of commands gives.
pub fn what_is_asked()
    ensures { AskedIsAsks }
{}

/// Words ask for one thing at most.
pub fn words_have_one_meaning()
    ensures { OneMeaning }
{}

/// The worked examples mean what is known.
pub fn word_examples()
    ensures { HasExamples }
{}
