//! Reading the rows of a proof.

ghost use Rattle.std.specs.Prelude.{◌≡◌};
ghost use Rattle.std.specs.Option.{option_map};
ghost use Rattle.spec_text.specs.Inputs.{words_of};
ghost use Rattle.mal_claim.specs.{Answers.{Gives}, Proofs.{last_of, read_of, row_at}};
ghost use Rattle.mal_lrat.specs.LineView.{seen};

use mal_dimacs::is_passed;
use mal_lrat::{Line, LineFault, read_line};
use std::alloc::Global;

/// The line of a text that is no line of a proof, and why; or where memory ran out.
#[derive(Clone, Copy, Debug, Drop)]
pub struct ProofFault {
    pub line: u64,
    pub fault: LineFault,
}

/// The line of a proof that a row spells, where `last` is the greater of the number of original clauses and the last id
/// that was added. None for an empty row and for a comment.
pub fn read_row(
    alloc: Global,
    number: u64,
    row: &[u8],
    last: u64,
) -> Result<Option<Line>, ProofFault>
    ensures { Gives (λ o. read_of number last (option_map seen o)) result (row_at number last (words_of row.now)) }
{
    if is_passed(row) {
        return Ok(None);
    }
    match read_line(alloc, row, last) {
        Ok(line) => Ok(Some(line)),
        Err(fault) => Err(ProofFault {
            line: number,
            fault,
        }),
    }
}

/// The last id that was added, after a row that spells this line, if it spells one.
pub fn last_behind(last: u64, line: &Option<Line>) -> u64
    ensures { result ≡ last_of last (option_map seen line.now) }
{
    match line {
        Some(Line::Add { id, .. }) => id.number(),
        _ => last,
    }
}
