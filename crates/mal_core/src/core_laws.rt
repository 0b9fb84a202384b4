//! Laws about minimal cores and their texts, as the contracts of functions without a body.

ghost use Rattle.mal_core.specs.Examples.{HasTexts};

/// What small cores and other ends of a search are written as.
pub fn text_examples()
    ensures { HasTexts }
{}
