//! Counts that a type or a layout has no room for.

ghost use Rattle.std.specs.Prelude.{◌≡◌, ◌+◌, ◌<◌, ◌≤◌, IfOk, IfErr};

use std::alloc::AllocError;

/// What is held and what comes, where no more than `most` may be held. More than that is told as out of memory. No
/// other function of the workspace makes an `AllocError`: all others hand on what an allocation, or this one, answered.
pub fn grown(held: usize, more: usize, most: usize) -> Result<usize, AllocError>
    ensures sum { IfOk result (λ n. n ≡ held + more) }
    ensures fits { IfOk result (λ _. held + more ≤ most) }
    ensures beyond { IfErr result (λ _. most < held + more) }
{
    match held.checked_add(more) {
        Some(sum) if sum <= most => Ok(sum),
        _ => Err(AllocError),
    }
}
