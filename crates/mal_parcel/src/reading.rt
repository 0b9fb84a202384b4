//! Reading the lines of a slice.

ghost use Rattle.std.specs.Prelude.{◌≡◌, [], ◌∷◌, ◌++◌, true, IfOk, Ok};
ghost use Rattle.mal_lrat.specs.LineView.{seen};
ghost use Rattle.mal_parcel.specs.{Taking.{Takes}, Told.{IsPut, line_in, line_read, lines_in}};

use mal_base::{ClauseId, Lines, Lit};
use mal_lrat::{Line, LineFault, read_line};
use mal_text::first_line;
use std::alloc::{AllocError, Global};

/// The lines of this text. None where it is no text of lines.
pub fn lines_of(alloc: Global, text: &[u8]) -> Result<Option<Lines>, AllocError>
    ensures { IfOk result (λ o. Takes (λ v. v.lines) o (lines_in text.now)) }
{
    let mut lines = Lines::new(alloc);
    let mut rest = text;
    while let Some((line, behind)) = first_line(rest) {
        if !put_line(alloc, &mut lines, line)? {
            return Ok(None);
        }
        rest = behind;
    }
    Ok(Some(lines))
}

/// Puts the line that a text without line end spells after the others. Answers whether it is one of a slice.
fn put_line(alloc: Global, lines: &mut Lines, line: &[u8]) -> Result<bool, AllocError>
    ensures { IfOk result (λ put. IsPut (line_in line.now) put lines.old.lines lines.new.lines) }
{
    match read_line(alloc, line, 0) {
        Ok(read) => put_read(lines, &read),
        Err(LineFault::OutOfMemory) => Err(AllocError),
        Err(LineFault::BadNumber) => Ok(false),
        Err(LineFault::MissingZero) => Ok(false),
        Err(LineFault::IdNotRising { .. }) => Ok(false),
        Err(LineFault::NegativeHint) => Ok(false),
    }
}

/// Puts a line that was read after the others. Answers whether it is one of a slice, which a deletion and a tautology
/// are not.
fn put_read(lines: &mut Lines, read: &Line) -> Result<bool, AllocError>
    ensures { IfOk result (λ put. IsPut (line_read (Ok (seen read.now))) put lines.old.lines lines.new.lines) }
{
    match read {
        Line::Delete { .. } => Ok(false),
        Line::Add { id, clause, hints } => match clause {
            None => Ok(false),
            Some(clause) => put(lines, *id, clause.lits(), hints.as_slice()),
        },
    }
}

/// Puts a line after the others.
fn put(
    lines: &mut Lines,
    id: ClauseId,
    lits: &[Lit],
    hints: &[ClauseId],
) -> Result<bool, AllocError>
    ensures { IfOk result (λ b. (b ≡ true)
        × (lines.new.lines ≡ lines.old.lines ++ record { id = id; lits = lits.now; hints = hints.now } ∷ [])) }
{
    lines.reserve(1, lits.len(), hints.len())?;
    lines.push_reserved(id, lits, hints);
    Ok(true)
}
