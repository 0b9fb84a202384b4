//! Reading claims up to their proofs.

ghost use Rattle.std.specs.Prelude.{◌≡◌, ◌≤◌, ◌<◌, ◌+◌, ◌^◌, length, IfOk};
ghost use Rattle.std.specs.List.{list_any};
ghost use Rattle.mal_base.specs.Limits.{limits};
ghost use Rattle.spec_dimacs.specs.Rows.{rows_of};
ghost use Rattle.mal_claim.specs.{Claims.{is_proof_line, assumed, to_proof, opened}, ReadResult.{Gives, IsAssumed, opened_seen, seen_assumed}};

use crate::fault::ClaimFault;
use crate::opened::Opened;
use mal_base::{LineFault, Lit};
use mal_dimacs::is_passed;
use mal_instance::read_formula;
use mal_script::{AssumptionFault, assumptions};
use mal_text::{first_line, is_word_line};
use std::alloc::Global;

/// Whether a line of a text is the one word `proof`.
pub fn has_proof(text: &[u8]) -> bool
    ensures { result ≡ list_any is_proof_line (rows_of text.now) }
{
    let mut rest = text;
    while let Some((row, after)) = first_line(rest) {
        if is_word_line(row, b"proof") {
            return true;
        }
        rest = after;
    }
    false
}

/// The formula and the assumptions of a text in which a line is the word `proof`, and the text of the proof.
pub fn read_opening(alloc: Global, text: &[u8]) -> Result<Opened, ClaimFault>
    requires { length text.now < 2 ^ 63 }
    ensures value { Gives (λ o. opened_seen o) result (opened (rows_of text.now)) }
    ensures shorter { IfOk result (λ o. length o.proof.now ≤ length text.now) }
{
    let (formula, line, rest) = read_formula(alloc, text, &[b"a".as_slice(), b"proof"])?;
    let (assumptions, proof) = read_assumptions(alloc, rest, line, formula.variables())?;
    Ok(Opened {
        formula,
        assumptions,
        proof,
    })
}

/// The assumptions after so many lines of a formula of these variables, and the text after the line `proof`.
fn read_assumptions(
    alloc: Global,
    text: &[u8],
    line: u64,
    variables: u32,
) -> Result<(Vec<Lit>, &[u8]), ClaimFault>
    requires variables { variables ≤ limits.variables }
    requires short { line + length text.now < 2 ^ 63 }
    ensures value { Gives (λ t. seen_assumed t.0.items t.1.now) result (assumed variables line (rows_of text.now)) }
    ensures shorter { IfOk result (λ t. length t.1.now ≤ length text.now) }
{
    let Some((row, after)) = first_line(text) else {
        return Err(ClaimFault::NoProof);
    };
    if is_word_line(row, b"proof") {
        return Ok((Vec::new(alloc), after));
    }
    match assumptions(alloc, row, variables) {
        Ok(lits) => to_proof(lits, line + 1, after),
        Err(fault) => Err(on_line(line + 1, fault)),
    }
}

/// These assumptions, and the text after the line `proof`, before which only such lines stand as are passed over.
fn to_proof(lits: Vec<Lit>, line: u64, text: &[u8]) -> Result<(Vec<Lit>, &[u8]), ClaimFault>
    requires short { line + length text.now < 2 ^ 63 }
    ensures value { Gives (λ t. seen_assumed t.0.items t.1.now) result (to_proof lits.items line (rows_of text.now)) }
    ensures shorter { IfOk result (λ t. length t.1.now ≤ length text.now) }
{
    let mut rest = text;
    let mut line = line;
    while let Some((row, after)) = first_line(rest) {
        if is_word_line(row, b"proof") {
            return Ok((lits, after));
        }
        line += 1;
        if !is_passed(row) {
            return Err(ClaimFault::Formula {
                line,
                fault: LineFault::BadLine,
            });
        }
        rest = after;
    }
    Err(ClaimFault::NoProof)
}

/// The refusal of assumptions as the fault of this line.
fn on_line(line: u64, fault: AssumptionFault) -> ClaimFault
    ensures { IsAssumed line fault result }
{
    match fault {
        AssumptionFault::BadLine => ClaimFault::Formula {
            line,
            fault: LineFault::BadLine,
        },
        AssumptionFault::Range => ClaimFault::Formula {
            line,
            fault: LineFault::Range,
        },
        AssumptionFault::Opposite { var } => ClaimFault::Formula {
            line,
            fault: LineFault::Opposite { var },
        },
        AssumptionFault::OutOfMemory => ClaimFault::OutOfMemory,
    }
}
