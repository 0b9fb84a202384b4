//! The blocks of a script, read line by line.

ghost use Rattle.std.specs.Prelude.{◌≡◌};
ghost use Rattle.spec_text.specs.Inputs.{words_of};
ghost use Rattle.spec_dimacs.specs.Reading as dimacs;
ghost use Rattle.spec_script.specs.Reading.{in_block};
ghost use Rattle.mal_script.specs.ReadResult.{Leaves};

use crate::fault::LineRefusal;
use mal_base::{Formula, LineFault};
use mal_dimacs::{BlockReader, DimacsError};
use std::alloc::Global;

/// The block after the words of a header. Takes no memory.
pub fn opened(alloc: Global, line: &[u8]) -> Result<BlockReader, LineFault>
    ensures { result ≡ in_block (dimacs.opened (words_of line.now)) }
{
    match BlockReader::of_header(alloc, line) {
        Ok(block) => Ok(block),
        Err(fault) => Err(LineFault::Dimacs { fault }),
    }
}

/// Reads a line of a block in place.
pub fn take_row(block: &mut BlockReader, line: &[u8]) -> Result<(), LineRefusal>
    ensures { Leaves result block.new (in_block (dimacs.after_row (words_of line.now) block.old)) }
{
    match block.take_row(line) {
        Ok(()) => Ok(()),
        Err(DimacsError::Fault(fault)) => Err(LineRefusal::Fault(LineFault::Dimacs { fault })),
        Err(DimacsError::OutOfMemory) => Err(LineRefusal::OutOfMemory),
    }
}

/// The formula of a block that ends. Takes no memory.
pub fn ended(block: BlockReader) -> Result<Formula, LineFault>
    ensures { result ≡ in_block (dimacs.ended block) }
{
    match block.finish() {
        Ok(formula) => Ok(formula),
        Err(fault) => Err(LineFault::Dimacs { fault }),
    }
}
