//! Laws about optima and their texts, as the contracts of functions without a body.

ghost use Rattle.mal_max.specs.Examples.{HasTexts};

/// What small optima are written as.
pub fn text_examples()
    ensures { HasTexts }
{}
