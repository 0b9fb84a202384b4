//! The lines that a goal needs.

ghost use Rattle.std.specs.Prelude.{◌≡◌, Bool, false, length, map, filter, replicate, IfOk};
ghost use Rattle.mal_base.specs.NumberedClause.{Line};
ghost use Rattle.spec_proof.specs.Trimmed.{AreRising, IsTrimmed, is_needed, reached_in, ids_of};
ghost use Rattle.mal_proof.specs.Marks.{AreMarks};

use crate::ids::{mark, mark_all};
use crate::lent::{LentLine, ids_of, push};
use mal_base::{ClauseId, Lines};
use std::alloc::{AllocError, Global};

/// Copies of those lines, given by rising number, that are reached backwards from a goal over hints.
pub fn trimmed(alloc: Global, lines: &[LentLine<'_>], goal: ClauseId) -> Result<Lines, AllocError>
    requires { IsTrimmed lines.now }
    ensures { IfOk result (λ out. out.lines ≡ reached_in goal lines.now) }
{
    let marks = needed(alloc, lines, goal)?;
    marked(alloc, lines, marks.as_slice())
}

/// Marks of the lines that are reached.
fn needed(alloc: Global, lines: &[LentLine<'_>], goal: ClauseId) -> Result<Vec<bool>, AllocError>
    requires { AreRising lines.now }
    ensures { IfOk result
        (λ marks. AreMarks (is_needed goal (reached_in goal lines.now)) (ids_of lines.now) marks.items) }
{
    let ids = ids_of(alloc, lines)?;
    let mut marks = vec![in alloc; false; lines.len()]?;
    mark_needed(lines, ids.as_slice(), marks.as_mut_slice(), goal);
    Ok(marks)
}

/// Marks the lines that are reached, in one pass backwards.
fn mark_needed(lines: &[LentLine<'_>], ids: &[ClauseId], marks: &mut [bool], goal: ClauseId)
    requires rising { AreRising lines.now }
    requires ids { ids.now ≡ ids_of lines.now }
    requires none { marks.old ≡ replicate (length lines.now) false }
    ensures { AreMarks (is_needed goal (reached_in goal lines.now)) ids.now marks.new }
{
    mark(ids, marks, goal);
    // A hint has a lesser number than its line, so one pass is enough.
    for n in (0..lines.len()).rev() {
        if marks[n] {
            let line = &lines[n];
            mark_all(ids, marks, line.hints);
        }
    }
}

/// Copies of the marked lines.
fn marked(alloc: Global, lines: &[LentLine<'_>], marks: &[bool]) -> Result<Lines, AllocError>
    requires { length marks.now ≡ length lines.now }
    ensures { (test : Line → Bool) → marks.now ≡ map test lines.now
        → IfOk result (λ out. out.lines ≡ filter test lines.now) }
{
    let mut out = Lines::new(alloc);
    for place in 0..lines.len() {
        if marks[place] {
            let line = &lines[place];
            push(&mut out, line.id, line.lits, line.hints)?;
        }
    }
    Ok(out)
}
