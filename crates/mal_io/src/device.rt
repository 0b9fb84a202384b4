//! What every source and every sink does.
ghost use Rattle.std.specs.Prelude.{◌≡◌, ◌<◌, ◌≤◌, ℕ, List, IfOk, OnOk, OnErr, length};
ghost use Rattle.std.specs.{Io.{ReadsAtMost, WritesAtMost}, Io.KnownBytes.{ReadConsumes, WriteAppends}, declared.option.Option.{Option}};
ghost use Rattle.mal_io.specs.Moves.{Rose};

use thiserror::Error;

/// A device failed in a call, and counted it.
#[derive(Clone, Copy, Debug, PartialEq, Eq, Error)]
#[error("the device failed")]
pub struct Failed;

/// A device that gives bytes.
pub trait Source {
    /// The bytes still to come, where they are known.
    ghost left: { Self → Option (List ℕ) };

    /// How often the device has failed, up to the largest `u64`.
    ghost faults: { Self → ℕ };

    /// Moves the next bytes to the front of `into`, at most its length, and says how many. 0 for a
    /// slice that is not empty is the end of the input. After `Failed` no byte is lost; only then the count of
    /// faults rises.
    fn take(&mut self, into: &mut [u8]) -> Result<usize, Failed>
        ensures bound { ReadsAtMost result into.new }
        ensures bytes { ReadConsumes (left self.old) (left self.new) result into.new }
        ensures later { faults self.old ≤ faults self.new }
        ensures cause { OnErr result (Rose (faults self.old) (faults self.new)) }
        ensures counted { OnOk result (faults self.new ≡ faults self.old) };
}

/// A device that takes bytes.
pub trait Sink {
    /// The bytes that it got, where they are known.
    ghost got: { Self → Option (List ℕ) };

    /// How often the device has failed, up to the largest `u64`.
    ghost faults: { Self → ℕ };

    /// Takes bytes from the front of `bytes`, at least one where there is one, and says how many.
    /// After `Failed` it got nothing; only then the count of faults rises.
    fn put(&mut self, bytes: &[u8]) -> Result<usize, Failed>
        ensures bound { WritesAtMost result bytes.now }
        ensures bytes { WriteAppends (got self.old) (got self.new) result bytes.now }
        ensures moves { IfOk result (λ n. 0 < length bytes.now → 0 < n) }
        ensures later { faults self.old ≤ faults self.new }
        ensures cause { OnErr result (Rose (faults self.old) (faults self.new)) }
        ensures counted { OnOk result (faults self.new ≡ faults self.old) };
}
