//! Laws about instances and their texts, as the contracts of functions without a body.

ghost use Rattle.mal_instance.specs.Examples.{HasExamples};

/// What is said of small texts.
pub fn instance_examples()
    ensures { HasExamples }
{}
