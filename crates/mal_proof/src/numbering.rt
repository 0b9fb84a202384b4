//! Numbers of lines in a proof.

ghost use Rattle.std.specs.Prelude.{◌≡◌, ◌+◌, ◌<◌, ◌≤◌, ◌^◌, map, IfOk};
ghost use Rattle.std.specs.List.Sorted.{IsStrictlyIncreasing};
ghost use Rattle.spec_proof.specs.Trimmed.{AreRising, new_id, renumbered};

use crate::ids::place_of;
use crate::lent::{LentLine, ids_of, lend_all, push};
use mal_base::{ClauseId, Lines};
use std::alloc::{AllocError, Global};

/// Lines by rising number with the numbers from m + 1 on, and their hints with them; the hints of original clauses
/// stay.
pub fn renumber(alloc: Global, lines: &Lines, m: u64) -> Result<Lines, AllocError>
    requires rising { AreRising lines.now.lines }
    requires few { m < 2 ^ 32 }
    ensures { IfOk result (λ out. out.lines ≡ renumbered m lines.now.lines) }
{
    let mut lent = Vec::with_capacity(alloc, lines.count())?;
    lend_all(&mut lent, lines)?;
    renumber_lent(alloc, lent.as_slice(), m)
}

/// The same of lent lines.
fn renumber_lent(alloc: Global, lines: &[LentLine<'_>], m: u64) -> Result<Lines, AllocError>
    requires rising { AreRising lines.now }
    requires few { m < 2 ^ 32 }
    ensures { IfOk result (λ out. out.lines ≡ renumbered m lines.now) }
{
    let ids = ids_of(alloc, lines)?;
    let mut out = Lines::new(alloc);
    for line in lines {
        let id = new_id(ids.as_slice(), m, line.id);
        let hints = new_ids(alloc, ids.as_slice(), m, line.hints)?;
        push(&mut out, id, line.lits, hints.as_slice())?;
    }
    Ok(out)
}

/// The new numbers of hints.
fn new_ids(
    alloc: Global,
    ids: &[ClauseId],
    m: u64,
    hints: &[ClauseId],
) -> Result<Vec<ClauseId>, AllocError>
    requires rising { IsStrictlyIncreasing ids.now }
    requires few { m < 2 ^ 32 }
    ensures { IfOk result (λ out. out.items ≡ map (new_id m ids.now) hints.now) }
{
    let mut out = Vec::with_capacity(alloc, hints.len())?;
    for hint in hints {
        out.push(new_id(ids, m, *hint))?;
    }
    Ok(out)
}

/// The new number of what had this number.
fn new_id(ids: &[ClauseId], m: u64, id: ClauseId) -> ClauseId
    requires rising { IsStrictlyIncreasing ids.now }
    requires few { m < 2 ^ 32 }
    ensures { result ≡ new_id m ids.now id }
{
    match place_of(ids, id) {
        // No condition on hints: what no line has stays as it is. That hints are held is a part of being derived.
        None => id,
        Some(place) => numbered(m + place as u64 + 1),
    }
}

/// The number of a clause, which is at least 1.
fn numbered(number: u64) -> ClauseId
    requires { 1 ≤ number }
    ensures { result ≡ number }
{
    match ClauseId::of(number) {
        Some(id) => id,
        None => unreachable!(),
    }
}
