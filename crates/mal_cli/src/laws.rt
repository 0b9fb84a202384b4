//! Laws of what the program does, as the contracts of functions that do nothing.

ghost use Rattle.mal_cli.specs.Live.{FeedsAreServed};

/// A feed that is known is served to its end where no device fails, unless memory runs out.
pub fn feeds_are_served()
    ensures { FeedsAreServed }
{}
