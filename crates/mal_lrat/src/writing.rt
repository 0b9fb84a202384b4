//! Writing a line of a proof.

ghost use Rattle.std.specs.Prelude.{◌≡◌, ◌∷◌, ◌++◌, Some, IfOk, OnOk, OnErr};
ghost use Rattle.std.specs.Io.{StartsWith};
ghost use Rattle.spec_text.specs.{Lines.{line_of}, Numbers.{decimal_word, literal_word}};
ghost use Rattle.spec_logic.specs.Refutation.ProofLine.{Add, Delete};
ghost use Rattle.spec_lrat.specs.Written.{words_of_ids, words_of_lits, row_of};
ghost use Rattle.mal_lrat.specs.{LineView.{seen}, Spaced.{spaced}};

use crate::line::Line;
use itoa::Buffer;
use mal_base::{Clause, ClauseId, Lit, Var};
use mal_text::{end_line, put_decimal, put_word};
use std::alloc::{AllocError, Global};

/// The text of a line, with its line end and without a leading `l`. A tautology is written as the literals 1 and -1, a
/// deletion with the id 1 before its `d`.
pub fn write_line(alloc: Global, line: &Line) -> Result<Vec<u8>, AllocError>
    ensures { IfOk result (λ text. text.items ≡ line_of (row_of (seen line.now))) }
{
    match line {
        Line::Add { id, clause, hints } => addition(alloc, *id, clause, hints.as_slice()),
        Line::Delete { ids } => deletion(alloc, ids.as_slice()),
    }
}

/// The text of a line that adds a clause.
fn addition(
    alloc: Global,
    id: ClauseId,
    clause: &Option<Clause>,
    hints: &[ClauseId],
) -> Result<Vec<u8>, AllocError>
    ensures { IfOk result (λ text. text.items ≡ line_of (row_of (Add id clause.now hints.now))) }
{
    let mut out = Vec::new(alloc);
    match clause {
        None => {
            let var = Var::of(1);
            put_added(
                &mut out,
                id,
                &[var.literal(true), var.literal(false)],
                hints,
            )?;
        }
        Some(clause) => put_added(&mut out, id, clause.lits(), hints)?,
    }
    Ok(out)
}

/// Writes the line that adds the clause of these literals, with its line end and without a leading `l`. The one place
/// where such a line is written; mal_dimacs has a writer of literals of its own, since neither crate stands on the
/// other. Where memory is refused nothing is written.
pub fn put_added(
    out: &mut Vec<u8>,
    id: ClauseId,
    lits: &[Lit],
    hints: &[ClauseId],
) -> Result<(), AllocError>
    ensures written { OnOk result (out.new.items ≡ out.old.items ++ line_of (row_of (Add id (Some lits.now) hints.now))) }
    ensures unchanged { OnErr result (out.new.items ≡ out.old.items) }
{
    let start = out.len();
    match append_added(out, id, lits, hints) {
        Ok(()) => Ok(()),
        Err(error) => {
            out.truncate(start);
            Err(error)
        }
    }
}

/// Writes the line that adds a clause, or, where memory is refused, the beginning of one.
fn append_added(
    out: &mut Vec<u8>,
    id: ClauseId,
    lits: &[Lit],
    hints: &[ClauseId],
) -> Result<(), AllocError>
    ensures written { OnOk result (out.new.items ≡ out.old.items ++ line_of (row_of (Add id (Some lits.now) hints.now))) }
    ensures kept { OnErr result (StartsWith out.new.items out.old.items) }
{
    put_first_id(out, id)?;
    put_lits(out, lits)?;
    put_ids(out, hints)?;
    end_line(out)?;
    Ok(())
}

/// The text of a line that deletes clauses.
fn deletion(alloc: Global, ids: &[ClauseId]) -> Result<Vec<u8>, AllocError>
    ensures { IfOk result (λ text. text.items ≡ line_of (row_of (Delete ids.now))) }
{
    let mut out = Vec::from_slice(alloc, b"1 d")?;
    put_ids(&mut out, ids)?;
    end_line(&mut out)?;
    Ok(out)
}

/// Writes an id, with no space before it. Where memory is refused nothing is written.
fn put_first_id(out: &mut Vec<u8>, id: ClauseId) -> Result<(), AllocError>
    ensures written { OnOk result (out.new.items ≡ out.old.items ++ decimal_word id) }
    ensures unchanged { OnErr result (out.new.items ≡ out.old.items) }
{
    let mut buffer = Buffer::new();
    out.extend_from_slice(buffer.format(id.number()).as_bytes())?;
    Ok(())
}

/// Writes literals and a 0, each after a space. Where memory is refused nothing is written.
pub fn put_lits(out: &mut Vec<u8>, lits: &[Lit]) -> Result<(), AllocError>
    ensures written { OnOk result (out.new.items ≡ out.old.items ++ spaced (words_of_lits lits.now)) }
    ensures unchanged { OnErr result (out.new.items ≡ out.old.items) }
{
    let start = out.len();
    match append_lits(out, lits) {
        Ok(()) => Ok(()),
        Err(error) => {
            out.truncate(start);
            Err(error)
        }
    }
}

/// Writes literals and a 0, each after a space, or, where memory is refused, some of the first.
fn append_lits(out: &mut Vec<u8>, lits: &[Lit]) -> Result<(), AllocError>
    ensures written { OnOk result (out.new.items ≡ out.old.items ++ spaced (words_of_lits lits.now)) }
    ensures kept { OnErr result (StartsWith out.new.items out.old.items) }
{
    for lit in lits {
        put_lit(out, *lit)?;
    }
    put_word(out, b"0")?;
    Ok(())
}

/// Writes a space and then a literal. Where memory is refused nothing is written.
fn put_lit(out: &mut Vec<u8>, lit: Lit) -> Result<(), AllocError>
    ensures written { OnOk result (out.new.items ≡ out.old.items ++ 32 ∷ literal_word lit) }
    ensures unchanged { OnErr result (out.new.items ≡ out.old.items) }
{
    let mut buffer = Buffer::new();
    put_word(out, buffer.format(lit.dimacs()).as_bytes())?;
    Ok(())
}

/// Writes ids and a 0, each after a space, or, where memory is refused, some of the first.
fn put_ids(out: &mut Vec<u8>, ids: &[ClauseId]) -> Result<(), AllocError>
    ensures written { OnOk result (out.new.items ≡ out.old.items ++ spaced (words_of_ids ids.now)) }
    ensures kept { OnErr result (StartsWith out.new.items out.old.items) }
{
    for id in ids {
        put_decimal(out, id.number())?;
    }
    put_word(out, b"0")?;
    Ok(())
}
