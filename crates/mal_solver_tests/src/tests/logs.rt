//! Logs whose trimmed proofs are known.

ghost use Rattle.std.specs.Prelude.{◌≢◌, IsTrue, All};
ghost use Rattle.spec_proof.specs.Log.{IsAbove};

use super::values::{ids, lits};
use mal_base::{ClauseId, Lines, Lit};
use mal_proof::{Log, renumber};
use std::alloc::Global;

/// Whether no line of a log has a number.
fn is_fresh(log: &Log, id: ClauseId) -> bool
    ensures { IsTrue result → All (λ other. other.id ≢ id) log.now.lines }
{
    for n in 0..log.count() {
        if log.id(n) == id {
            return false;
        }
    }
    true
}

/// Whether a line has the number of a derived clause above all its hints.
fn is_above(id: ClauseId, lits: &[Lit], hints: &[ClauseId]) -> bool
    ensures { IsTrue result → IsAbove (record { id = id; lits = lits.now; hints = hints.now }) }
{
    id.number() >= 1 << 32 && hints.iter().all(|hint| *hint < id)
}

/// Enters a line whose number is free, derived and above its hints.
fn append(log: &mut Log, id: ClauseId, lits: &[Lit], hints: &[ClauseId]) -> Option<()> {
    if !is_fresh(log, id) || !is_above(id, lits, hints) {
        return None;
    }
    log.reserve(1, lits.len().saturating_add(hints.len())).ok()?;
    log.append_reserved(id, lits, hints);
    Some(())
}

/// Enters a line with this number, these literals and these hints.
fn enter(alloc: Global, log: &mut Log, number: u64, numbers: &[i32], hints: &[u64]) -> Option<()> {
    let id = ClauseId::of(number)?;
    let lits = lits(alloc, numbers)?;
    let hints = ids(alloc, hints)?;
    append(log, id, lits.as_slice(), hints.as_slice())
}

/// What is trimmed of a log for a goal, numbered after so many original clauses.
fn proof(alloc: Global, log: &Log, goal: u64, originals: u64) -> Option<Lines> {
    if originals >= 1 << 32 {
        return None;
    }
    let lines = log.trim(ClauseId::of(goal)?).ok()?;
    renumber(alloc, &lines, originals).ok()
}

/// The number of the first line.
const FIRST: u64 = 1 << 32;

/// Enters 1,000 lines of these literals and as many hints, the first of which is the line before.
fn enter_all(alloc: Global, log: &mut Log, numbers: &[i32]) -> Option<()> {
    let mut hints = vec![in alloc; 1; 500].ok()?;
    for n in 0..1_000 {
        enter(alloc, log, FIRST + n, numbers, hints.as_slice())?;
        hints[0] = FIRST + n;
    }
    Some(())
}

/// A log of 1,000 lines of 500 literals and 500 hints each.
fn filled(alloc: Global) -> Option<Log> {
    let mut log = Log::new(alloc);
    let numbers: Vec<i32> = (1..501).collect(alloc).ok()?;
    enter_all(alloc, &mut log, numbers.as_slice())?;
    Some(log)
}

/// Of a log of 1,000 lines the numbers of the first one and the last, and of line 500 the count of the literals and the
/// first hint.
fn shown(log: &Log) -> Option<[u64; 4]> {
    if log.count() != 1_000 {
        return None;
    }
    let hint = log.hints(500).first()?;
    Some([
        log.id(0).number(),
        log.id(999).number(),
        log.lits(500).len() as u64,
        hint.number(),
    ])
}

/// Of 1,000 lines the number of the last one and its first hint.
fn last_shown(lines: &Lines) -> Option<[u64; 2]> {
    if lines.count() != 1_000 {
        return None;
    }
    let hint = lines.hints(999).first()?;
    Some([lines.id(999).number(), hint.number()])
}

/// What is shown of the lines of a log as a proof.
fn trimmed(alloc: Global, log: &Log) -> Option<[u64; 2]> {
    let lines = proof(alloc, log, FIRST + 999, 1)?;
    last_shown(&lines)
}

/// What that log shows, and what is shown of its lines as a proof.
fn all_shown(alloc: Global) -> Option<(Option<[u64; 4]>, Option<[u64; 2]>)> {
    let log = filled(alloc)?;
    Some((shown(&log), trimmed(alloc, &log)))
}

#[test]
fn a_log_takes_a_million_numbers(rt: HostRuntime) {
    let known = Some([FIRST, FIRST + 999, 500, FIRST + 499]);
    assert!(rt; all_shown(rt.alloc()) == Some((known, Some([1_001, 1_000]))));
}
