//! Sizes of halls that threads share.

use std::marker::Brand;

/// How many workers a hall has that threads share: of what they share, contracts know the type alone.
pub trait Size {
    ghost use Rattle.std.specs.Prelude.{ℕ};

    ghost workers: { ℕ };
}

impl Size for Brand {
    ghost workers = { 1 };
}
