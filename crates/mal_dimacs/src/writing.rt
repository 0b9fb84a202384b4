//! Writing formulas as DIMACS CNF.

ghost use Rattle.std.specs.Prelude.{◌≡◌, ◌<◌, ◌++◌, flat_map, length, get_or, None, IfOk, OnOk, OnErr};
ghost use Rattle.std.specs.Io.{StartsWith};
ghost use Rattle.spec_text.specs.Lines.{line_of, text_of};
ghost use Rattle.spec_dimacs.specs.Written.{clause_words, closed_words, formula_rows, header_words, spelling};
ghost use Rattle.mal_dimacs.specs.Spaced.{spaced};

use mal_base::{ClauseList, Formula, Lit};
use mal_text::{end_line, put_decimal, put_line, put_number};
use std::alloc::{AllocError, Global};

/// The text of a formula: a header, and a line for each clause with its literals by rising variable. A tautology is
/// written as the literals 1 and -1.
pub fn write(alloc: Global, formula: &Formula) -> Result<Vec<u8>, AllocError>
    ensures { IfOk result (λ text. text.items ≡ spelling formula.now) }
{
    let mut out = Vec::new(alloc);
    put_block(&mut out, formula.variables(), formula.clauses())?;
    Ok(out)
}

/// Writes the lines of the formula of these variables and clauses after a text, as `write` does. Where memory is
/// refused nothing is written.
pub fn put_block(out: &mut Vec<u8>, variables: u32, clauses: &ClauseList) -> Result<(), AllocError>
    ensures written { OnOk result
        (out.new.items
        ≡ out.old.items ++ text_of (formula_rows (record { variables = variables; clauses = clauses.now }))) }
    ensures unchanged { OnErr result (out.new.items ≡ out.old.items) }
{
    let start = out.len();
    match append_block(out, variables, clauses) {
        Ok(()) => Ok(()),
        Err(error) => {
            out.truncate(start);
            Err(error)
        }
    }
}

/// Writes the lines of a formula, or, where memory is refused, the beginning of them.
fn append_block(out: &mut Vec<u8>, variables: u32, clauses: &ClauseList) -> Result<(), AllocError>
    ensures written { OnOk result
        (out.new.items
        ≡ out.old.items ++ text_of (formula_rows (record { variables = variables; clauses = clauses.now }))) }
    ensures kept { OnErr result (StartsWith out.new.items out.old.items) }
{
    put_header(out, variables, clauses.len())?;
    put_clauses(out, clauses)?;
    Ok(())
}

/// Writes a header line, or, where memory is refused, the beginning of one.
fn put_header(out: &mut Vec<u8>, variables: u32, clauses: usize) -> Result<(), AllocError>
    ensures written { OnOk result (out.new.items ≡ out.old.items ++ line_of (header_words variables clauses)) }
    ensures kept { OnErr result (StartsWith out.new.items out.old.items) }
{
    out.extend_from_slice(b"p cnf")?;
    put_decimal(out, u64::from(variables))?;
    put_decimal(out, clauses as u64)?;
    end_line(out)?;
    Ok(())
}

/// Writes a line for each clause, or, where memory is refused, for some of the first.
fn put_clauses(out: &mut Vec<u8>, clauses: &ClauseList) -> Result<(), AllocError>
    ensures written { OnOk result (out.new.items ≡ out.old.items ++ flat_map (λ c. line_of (clause_words c)) clauses.now) }
    ensures kept { OnErr result (StartsWith out.new.items out.old.items) }
{
    for place in 0..clauses.len() {
        put_clause(out, clauses, place)?;
    }
    Ok(())
}

/// Writes the line of the clause at a place, or of a tautology. Where memory is refused nothing is written.
fn put_clause(out: &mut Vec<u8>, clauses: &ClauseList, place: usize) -> Result<(), AllocError>
    requires { place < length clauses.now }
    ensures written { OnOk result
        (out.new.items ≡ out.old.items ++ line_of (clause_words (get_or clauses.now place None))) }
    ensures unchanged { OnErr result (out.new.items ≡ out.old.items) }
{
    match clauses.at(place) {
        None => {
            put_line(out, b"1", &[b"-1", b"0"])?;
            Ok(())
        }
        Some(lits) => {
            put_closed(out, lits)?;
            Ok(())
        }
    }
}

/// Writes a line of literals and then a 0 after a text. Where memory is refused nothing is written.
pub fn put_closed(out: &mut Vec<u8>, lits: &[Lit]) -> Result<(), AllocError>
    ensures written { OnOk result (out.new.items ≡ out.old.items ++ line_of (closed_words lits.now)) }
    ensures unchanged { OnErr result (out.new.items ≡ out.old.items) }
{
    let start = out.len();
    match append_closed(out, lits) {
        Ok(()) => Ok(()),
        Err(error) => {
            out.truncate(start);
            Err(error)
        }
    }
}

/// Writes a line of literals and then a 0, or, where memory is refused, the beginning of one.
fn append_closed(out: &mut Vec<u8>, lits: &[Lit]) -> Result<(), AllocError>
    ensures written { OnOk result (out.new.items ≡ out.old.items ++ line_of (closed_words lits.now)) }
    ensures kept { OnErr result (StartsWith out.new.items out.old.items) }
{
    for lit in lits {
        put_literal(out, *lit)?;
    }
    out.extend_from_slice(b"0\n")?;
    Ok(())
}

/// Writes a literal and a space, or, where memory is refused, the literal alone or nothing.
fn put_literal(out: &mut Vec<u8>, lit: Lit) -> Result<(), AllocError>
    ensures written { OnOk result (out.new.items ≡ out.old.items ++ spaced lit) }
    ensures kept { OnErr result (StartsWith out.new.items out.old.items) }
{
    put_number(out, i64::from(lit.dimacs()))?;
    out.push(b' ')?;
    Ok(())
}
