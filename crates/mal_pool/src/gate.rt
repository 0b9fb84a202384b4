//! Gates: what a worker passes before and after each slice.

/// Where a worker stands: before a slice or after it.
#[derive(Clone, Copy, PartialEq, Eq, Debug)]
pub enum Point {
    Before,
    After,
}

/// What a worker is told at a gate.
#[derive(Clone, Copy, PartialEq, Eq, Debug)]
pub enum Step {
    Go,
    Stop,
}

/// What a worker passes before and after each slice, with the number of the start and its own.
pub trait Gate: Sync {
    ghost use Rattle.std.specs.Prelude.{◌≡◌, ℕ, Bool, if◌then◌else◌};
    ghost use Rattle.mal_pool.specs.{declared.gate.Point.{Point}, declared.gate.Step.TheVariants.{Go, Stop}};

    /// Where the gate stops a worker: at this point, of the start of this number, a worker of this number.
    ghost stops: { Self → Point → ℕ → ℕ → Bool };

    /// Stops the worker exactly where the gate does.
    fn at(&self, point: Point, start: u64, worker: u32) -> Step
        ensures { result ≡ (if stops self.now point start worker then Stop else Go) };
}

/// A gate that stands open.
#[derive(Clone, Copy, Debug)]
pub struct PlainGate;

impl Gate for PlainGate {
    ghost use Rattle.std.specs.Prelude.{false};

    ghost stops = { λ gate point start worker. false };

    fn at(&self, _point: Point, _start: u64, _worker: u32) -> Step {
        Step::Go
    }
}
