//! What the reply to a revision is made of.

ghost use Rattle.std.specs.Prelude.{◌≡◌, map, IfOk};
ghost use Rattle.std.specs.Option.{option_copied};
ghost use Rattle.mal_base.specs.Literals.{negated};
ghost use Rattle.mal_proof.specs.Goals.{last_lits};
ghost use Rattle.spec_job.specs.Proofs.{lits_at};
ghost use Rattle.mal_job.specs.{Among.{among}, Viewed.{shared}};

use mal_base::{Answer, ClauseId, Lines, Lit, Values};
use mal_proof::Log;
use mal_revision::Revision;
use std::alloc::{AllocError, Global};
use std::sync::Arc;

/// The answer to a revision, numbered from 1.
pub fn answer_at(answers: &[Answer], r: u32) -> Option<&Answer>
    ensures { option_copied result ≡ among r answers.now }
{
    if r == 0 {
        return None;
    }
    answers.get(r as usize - 1)
}

/// A revision, numbered from 1.
pub fn revision_at(revisions: &[Arc<Revision>], r: u32) -> Option<&Revision>
    ensures { option_copied result ≡ among r (shared revisions.now) }
{
    if r == 0 {
        return None;
    }
    match revisions.get(r as usize - 1) {
        None => None,
        Some(revision) => Some(&**revision),
    }
}

/// The literals of the last of these lines, none where there is no line.
pub fn last_lits(lines: &Lines) -> &[Lit]
    ensures { result.now ≡ last_lits lines.now.lines }
{
    match lines.count().checked_sub(1) {
        None => &[],
        Some(last) => lines.lits(last),
    }
}

/// The literals of the line of a log with this number, none where there is no such line.
pub fn lits_at(log: &Log, goal: ClauseId) -> &[Lit]
    ensures { result.now ≡ lits_at goal log.now.lines }
{
    for n in 0..log.count() {
        if log.id(n) == goal {
            return log.lits(n);
        }
    }
    &[]
}

/// The negations of literals.
pub fn negations(alloc: Global, lits: &[Lit]) -> Result<Vec<Lit>, AllocError>
    ensures { IfOk result (λ out. out.items ≡ map negated lits.now) }
{
    lits.iter().map(|lit| lit.negate()).collect(alloc)
}

/// The same values once more.
pub fn copied(alloc: Global, values: &Values) -> Result<Values, AllocError>
    ensures { IfOk result (λ copy. copy ≡ values.now) }
{
    let mut items = Vec::new(alloc);
    items.extend_from_slice(values.as_slice())?;
    Ok(Values::of(items))
}
