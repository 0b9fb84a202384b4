//! Links from watch to watch.

ghost use Rattle.std.specs.Prelude.{◌≡◌, ◌<◌, Some, None};
ghost use Rattle.mal_watch.specs.Links.{nowhere};

use std::marker::Model;

/// A watch, or none: in four bytes. Contracts see it as an option.
#[derive(Clone, Copy, Drop)]
pub struct Link {
    code: u32,
}

impl Model for Link {
    ghost use Rattle.std.specs.Prelude.{ℕ, Option};
    ghost use Rattle.std.proofs.Common.{refl};
    ghost use Rattle.mal_watch.specs.{Links.{watch_of, code_of}, LinkLaws.{code-back}};

    ghost Value = { Option ℕ };

    ghost view = { λ l. watch_of l.code };

    ghost inverse = { λ n. record { code = code_of n } };

    ghost inverse_ok = { λ l h. rw (code-back l.code) refl };
}

impl Link {
    /// No watch.
    pub fn none() -> Link
        ensures { result ≡ None }
    {
        Link { code: u32::MAX }
    }

    /// A watch below 2^32 - 1.
    pub fn to(watch: usize) -> Link
        requires { watch < nowhere }
        ensures { result ≡ Some watch }
    {
        Link { code: watch as u32 }
    }

    /// The watch, if there is one.
    pub fn watch(self) -> Option<usize>
        ensures { result ≡ self }
    {
        if self.code == u32::MAX {
            return None;
        }
        Some(self.code as usize)
    }
}
