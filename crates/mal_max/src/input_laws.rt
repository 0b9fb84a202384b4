//! Laws about instances and their texts, as the contracts of functions without a body.

ghost use Rattle.mal_max.specs.{InputExamples.{HasInputs}, InputLaws.{SpelledIsRead, SpelledIsServed}};

/// What small texts say.
pub fn input_examples()
    ensures { HasInputs }
{}

/// A text spells an instance exactly where reading gives it. So no text spells two, and none that has a first fault
/// spells one.
pub fn spelled_is_read()
    ensures { SpelledIsRead }
{}

/// What a text spells is served.
pub fn spelled_is_served()
    ensures { SpelledIsServed }
{}
