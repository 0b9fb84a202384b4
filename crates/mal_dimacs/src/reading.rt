//! Reading a text of DIMACS CNF.

ghost use Rattle.std.specs.Prelude.{◌≡◌, true, None, IfOk, MatchResult};
ghost use Rattle.mal_base.specs.Formulas.{Formulated, is_formula};
ghost use Rattle.spec_dimacs.specs.{Grammar.{Spells}, Written.{spelling}, Reading.{after_line, at_end, read_text}};
ghost use Rattle.mal_dimacs.specs.{declared.fault.DimacsFault.TheVariants.{OutOfMemory}, Reads.{Gives, GivesAt}};
ghost use Rattle.spec_text.specs.Inputs.{words_of};

use crate::block::BlockReader;
use crate::fault::{DimacsError, DimacsFault};
use crate::words::is_passed;
use mal_base::{BlockFault, Formula};
use mal_text::first_line;
use std::alloc::Global;

/// The formula of a text of DIMACS CNF: comments and empty lines, a header `p cnf V C`, numbers that are C clauses,
/// each closed by a 0, and maybe a line `%` and a line `0`.
///
/// Errors: the first fault of the text, from its beginning, with its line; faults at the end are on the last line.
/// `OutOfMemory` may come at any time.
pub fn read(alloc: Global, text: &[u8]) -> Result<Formula, DimacsFault>
    ensures exact { GivesAt result (read_text text.now) }
    ensures spelled { IfOk result (λ f. Spells text.now f) }
    ensures read { (f : Formulated) → Spells text.now f → MatchResult result (λ g. g ≡ f) (λ e. e ≡ OutOfMemory) }
    ensures again { (f : Formulated) → is_formula f ≡ true → text.now ≡ spelling f
        → MatchResult result (λ g. g ≡ f) (λ e. e ≡ OutOfMemory) }
{
    first(alloc, text)
}

/// The formula of a text, or its first fault with its line.
fn first(alloc: Global, text: &[u8]) -> Result<Formula, DimacsFault>
    ensures { GivesAt result (read_text text.now) }
{
    let mut rest = text;
    let mut line: u64 = 0;
    let mut reader = None;
    while let Some((row, behind)) = first_line(rest) {
        line += 1;
        match after_line(alloc, reader, row) {
            Ok(read) => reader = read,
            Err(error) => return Err(error.on_line(line)),
        }
        rest = behind;
    }
    match at_end(reader) {
        Ok(formula) => Ok(formula),
        Err(fault) => Err(DimacsFault::Fault {
            line: line.max(1),
            fault,
        }),
    }
}

/// The reader after one more line of a text, none before the header.
pub fn after_line(
    alloc: Global,
    reader: Option<BlockReader>,
    line: &[u8],
) -> Result<Option<BlockReader>, DimacsError>
    ensures { Gives result (after_line (words_of line.now) reader) }
{
    match reader {
        None => before_header(alloc, line),
        Some(reader) => Ok(Some(reader.row(line)?)),
    }
}

/// The reader after a line before which only such lines stand as are passed over.
fn before_header(alloc: Global, line: &[u8]) -> Result<Option<BlockReader>, DimacsError>
    ensures { Gives result (after_line (words_of line.now) None) }
{
    if is_passed(line) {
        return Ok(None);
    }
    match BlockReader::of_header(alloc, line) {
        Ok(reader) => Ok(Some(reader)),
        Err(fault) => Err(DimacsError::Fault(fault)),
    }
}

/// The formula at the end of a text.
pub fn at_end(reader: Option<BlockReader>) -> Result<Formula, BlockFault>
    ensures { result ≡ at_end reader }
{
    match reader {
        None => Err(BlockFault::BadHeader),
        Some(reader) => reader.finish(),
    }
}
