//! What is promised of a text that comes in pieces.

ghost use Rattle.std.specs.Prelude.{◌≡◌, ℕ, List};
ghost use Rattle.mal_base.specs.Limits.{limits};
ghost use Rattle.spec_feed.specs.Reading.{read_feed};
ghost use Rattle.mal_feed.specs.Coming.{nothing_came, reading_on};

/// Reading on before the first piece is reading the text.
#[tactic(auto, using(crate::proofs::Pieces::from_the_start))]
pub fn read_from_the_start()
    ensures { (text : List ℕ) → reading_on nothing_came text ≡ read_feed limits text }
{}
