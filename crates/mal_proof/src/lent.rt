//! Lines of a log, lent.

ghost use Rattle.std.specs.Prelude.{◌≡◌, ◌<◌, ◌++◌, ◌∷◌, [], length, slice_get, Some, OnOk, IfOk};
ghost use Rattle.spec_proof.specs.{Log.{AreApart}, Trimmed.{by_id, ids_of}};
ghost use Rattle.mal_proof.specs.Goals.{up_to};

use mal_base::{ClauseId, Lines, Lit};
use std::alloc::{AllocError, Global};
use std::marker::Model;

/// A line that stands in a log. Contracts see the line.
#[derive(Drop)]
pub struct LentLine<'a> {
    pub id: ClauseId,
    pub lits: &'a [Lit],
    pub hints: &'a [ClauseId],
}

impl<'a> Model for LentLine<'a> {
    ghost use Rattle.mal_base.specs.NumberedClause.{Line};

    ghost Value = { Line };

    ghost view = { λ l. record { id = l.id; lits = l.lits.now; hints = l.hints.now } };
}

/// A line of these, counted from 0, lent.
fn lend<'a>(lines: &'a Lines, n: usize) -> LentLine<'a>
    requires { n < length lines.now.lines }
    ensures { slice_get lines.now.lines n ≡ Some result }
{
    LentLine {
        id: lines.id(n),
        lits: lines.lits(n),
        hints: lines.hints(n),
    }
}

/// Puts lines after others, lent.
pub fn lend_all<'a>(all: &mut Vec<LentLine<'a>>, lines: &'a Lines) -> Result<(), AllocError>
    ensures { OnOk result (all.new.items ≡ all.old.items ++ lines.now.lines) }
{
    for n in 0..lines.count() {
        all.push(lend(lines, n))?;
    }
    Ok(())
}

/// Puts those lines after others, lent, whose numbers are this one at most.
pub fn lend_up_to<'a>(
    all: &mut Vec<LentLine<'a>>,
    lines: &'a Lines,
    most: ClauseId,
) -> Result<(), AllocError>
    ensures { OnOk result (all.new.items ≡ all.old.items ++ up_to most lines.now.lines) }
{
    let bound = most.number();
    for n in 0..lines.count() {
        let line = lend(lines, n);
        if line.id.number() <= bound {
            all.push(line)?;
        }
    }
    Ok(())
}

/// Sorts lines by rising number.
pub fn sort(lines: &mut Vec<LentLine<'_>>)
    requires { AreApart lines.old.items }
    ensures { lines.new.items ≡ by_id lines.old.items }
{
    lines.sort_unstable_by_key(|line| line.id);
}

/// The numbers of lines.
pub fn ids_of(alloc: Global, lines: &[LentLine<'_>]) -> Result<Vec<ClauseId>, AllocError>
    ensures { IfOk result (λ ids. ids.items ≡ ids_of lines.now) }
{
    lines.iter().map(|line| line.id).collect(alloc)
}

/// Copies a line after others.
pub fn push(
    lines: &mut Lines,
    id: ClauseId,
    lits: &[Lit],
    hints: &[ClauseId],
) -> Result<(), AllocError>
    ensures { OnOk result
        (lines.new.lines ≡ lines.old.lines ++ record { id = id; lits = lits.now; hints = hints.now } ∷ []) }
{
    lines.reserve(1, lits.len(), hints.len())?;
    lines.push_reserved(id, lits, hints);
    Ok(())
}
