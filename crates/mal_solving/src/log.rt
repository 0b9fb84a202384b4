//! The lines that a solver derived.

ghost use Rattle.std.specs.Prelude.{◌≡◌, ◌++◌, [], Some, None, IfOk, OnOk, if◌then◌else◌};
ghost use Rattle.spec_proof.specs.Log.{IsOrderly};
ghost use Rattle.mal_solving.specs.Loaded.{lines_kept, needed_of, MayEnter, IsEntered, AreLast};

use mal_base::{ClauseId, Lines, Lit, grown};
use mal_learn::{Scratch, packed};
use mal_proof::{Log, renumber};
use std::alloc::{AllocError, Global};

/// A log without lines, where proofs are to be kept. Takes no memory.
pub fn empty_log(alloc: Global, proving: bool) -> Option<Log>
    ensures { lines_kept result ≡ (if proving then Some [] else None) }
{
    if proving { Some(Log::new(alloc)) } else { None }
}

/// Puts the lines of a slice after those that are kept. Where memory runs out none are kept any more. Where none are
/// kept, the lines go, and a scratch keeps their room for the next slice.
pub fn enter(alloc: Global, log: &mut Option<Log>, lines: Lines, scratch: &mut Scratch)
    requires { MayEnter (lines_kept log.old) lines.lines }
    ensures { IsEntered (lines_kept log.old) lines.lines (lines_kept log.new) }
{
    match log {
        None => scratch.keep_spare(lines),
        Some(kept) => {
            let lines = packed(alloc, lines, scratch);
            if append(kept, lines).is_err() {
                *log = None;
            }
        }
    }
}

/// Puts lines after others.
fn append(log: &mut Log, lines: Lines) -> Result<(), AllocError>
    requires { IsOrderly (log.old.lines ++ lines.lines) }
    ensures { OnOk result (log.new.lines ≡ log.old.lines ++ lines.lines) }
{
    grown(log.count(), lines.count(), usize::MAX)?;
    log.reserve_chunks(1)?;
    log.append_chunk(lines, false);
    Ok(())
}

/// The negations of the last line's literals; nothing where there is no line.
pub fn last_negated(alloc: Global, lines: &Lines) -> Result<Vec<Lit>, AllocError>
    ensures { IfOk result (λ lits. AreLast lines.now.lines lits.items) }
{
    let count = lines.count();
    if count == 0 {
        return Ok(Vec::new(alloc));
    }
    lines
        .lits(count - 1)
        .iter()
        .map(|lit| lit.negate())
        .collect(alloc)
}

/// Of the lines that are kept those that a goal needs, numbered after so many clauses.
pub fn refutation(
    alloc: Global,
    log: &Option<Log>,
    goal: ClauseId,
    clauses: u32,
) -> Result<Lines, AllocError>
    ensures { IfOk result (λ lines. lines.lines ≡ needed_of goal clauses (lines_kept log.now)) }
{
    match log {
        None => Ok(Lines::new(alloc)),
        Some(log) => {
            let needed = log.trim(goal)?;
            renumber(alloc, &needed, u64::from(clauses))
        }
    }
}
