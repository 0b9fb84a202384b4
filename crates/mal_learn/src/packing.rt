//! Lines in no more room than they need.

ghost use Rattle.std.specs.Prelude.{◌≡◌, IfOk};
ghost use Rattle.mal_learn.specs.Packed.{literals_of, hints_of};

use crate::scratch::Scratch;
use mal_base::{Lines, grown};
use std::alloc::{AllocError, Global};

/// Equal lines, in no more room than they need where memory for them is there; a scratch keeps the room that the lines
/// had, for the next slice. A slice may have 800 kilobytes of room and derive little.
pub fn packed(alloc: Global, lines: Lines, scratch: &mut Scratch) -> Lines
    ensures { result.lines ≡ lines.lines }
{
    match copy_of(alloc, &lines) {
        Err(_) => lines,
        Ok(copy) => {
            scratch.keep_spare(lines);
            copy
        }
    }
}

/// Equal lines, in no more room than they need.
fn copy_of(alloc: Global, lines: &Lines) -> Result<Lines, AllocError>
    ensures { IfOk result (λ c. c.lines ≡ lines.now.lines) }
{
    let (literals, hints) = sizes_of(lines)?;
    let mut copy = Lines::new(alloc);
    copy.reserve(lines.count(), literals, hints)?;
    for n in 0..lines.count() {
        copy.push_reserved(lines.id(n), lines.lits(n), lines.hints(n));
    }
    Ok(copy)
}

/// How many literals and how many hints lines have. Sizes that no memory holds are out of memory.
fn sizes_of(lines: &Lines) -> Result<(usize, usize), AllocError>
    ensures literals { IfOk result (λ n. n.0 ≡ literals_of lines.now.lines) }
    ensures hints { IfOk result (λ n. n.1 ≡ hints_of lines.now.lines) }
{
    let mut literals = 0;
    let mut hints = 0;
    for n in 0..lines.count() {
        literals = grown(literals, lines.lits(n).len(), usize::MAX)?;
        hints = grown(hints, lines.hints(n).len(), usize::MAX)?;
    }
    Ok((literals, hints))
}
