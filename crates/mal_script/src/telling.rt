//! The lines that tell what is wrong with a line of a text.

ghost use Rattle.std.specs.Prelude.{◌≡◌, ◌∷◌, [], map, codes, IfOk, MatchOption};
ghost use Rattle.spec_text.specs.Numbers.{decimal_word};
ghost use Rattle.spec_script.specs.FaultLines.{block_words, fault_line, fault_words, part_line, which_word};
ghost use Rattle.mal_script.specs.{ReadResult.{Tells}, declared.fault.ScriptFault.TheVariants.{OutOfMemory}};

use crate::fault::ScriptFault;
use itoa::Buffer;
use mal_base::{BlockFault, LimitKind, LineFault, Name};
use mal_text::put_line;
use std::alloc::{AllocError, Global};

/// The line `fault: script line L` and the fault's words, as `BadLine` or `Limit Jobs`, with its line end. None exactly
/// when out of memory.
pub fn fault_line(alloc: Global, fault: ScriptFault) -> Result<Option<Vec<u8>>, AllocError>
    ensures { IfOk result (λ o. MatchOption o (fault ≡ OutOfMemory) (λ text. Tells fault text.items)) }
{
    match fault {
        ScriptFault::Line { line, fault } => in_script(alloc, line, fault),
        ScriptFault::OutOfMemory => Ok(None),
    }
}

/// The line that tells a fault of a line of a script.
fn in_script(alloc: Global, line: u64, fault: LineFault) -> Result<Option<Vec<u8>>, AllocError>
    ensures { IfOk result (λ o. MatchOption o ⊥ (λ text. text.items ≡ fault_line line fault)) }
{
    Ok(Some(line_fault_line(alloc, b"script", line, fault)?))
}

/// The line that tells what is wrong with a line of this part of a text, as `fault: formula line 3 Range`, with its
/// line end.
pub fn line_fault_line(
    alloc: Global,
    part: &[u8],
    line: u64,
    fault: LineFault,
) -> Result<Vec<u8>, AllocError>
    ensures { IfOk result (λ text. text.items ≡ part_line part.now line (fault_words fault)) }
{
    let at = Place { part, line };
    match fault {
        LineFault::BadLine => told(alloc, at, &[b"BadLine"]),
        LineFault::Dimacs { fault } => block_line(alloc, at, fault),
        LineFault::Opposite { var } => opposite_line(alloc, at, var.number()),
        LineFault::Duplicate { tenant, job } => duplicate_line(alloc, at, tenant, job),
        LineFault::Range => told(alloc, at, &[b"Range"]),
        LineFault::Limit { which } => limit_line(alloc, at, which),
    }
}

/// A line of a part of a text.
#[derive(Clone, Copy)]
struct Place<'a> {
    part: &'a [u8],
    line: u64,
}

/// The line that tells that a variable is assumed with both signs.
fn opposite_line(alloc: Global, at: Place, var: u32) -> Result<Vec<u8>, AllocError>
    ensures { IfOk result
        (λ text. text.items ≡ part_line at.entry.part.now at.entry.line (codes "Opposite" ∷ decimal_word var ∷ [])) }
{
    let mut number = Buffer::new();
    let words = [b"Opposite".as_slice(), number.format(var).as_bytes()];
    told(alloc, at, &words)
}

/// The line that tells that a tenant has a job of this name.
fn duplicate_line(alloc: Global, at: Place, tenant: Name, job: Name) -> Result<Vec<u8>, AllocError>
    ensures { IfOk result
        (λ text. text.items ≡ part_line at.entry.part.now at.entry.line (codes "Duplicate" ∷ tenant ∷ job ∷ [])) }
{
    let words = [b"Duplicate".as_slice(), tenant.as_bytes(), job.as_bytes()];
    told(alloc, at, &words)
}

/// The line that tells that there are too many of these.
fn limit_line(alloc: Global, at: Place, which: LimitKind) -> Result<Vec<u8>, AllocError>
    ensures { IfOk result
        (λ text. text.items ≡ part_line at.entry.part.now at.entry.line (codes "Limit" ∷ which_word which ∷ [])) }
{
    told(alloc, at, &[b"Limit", which_word(which)])
}

/// The line that tells these words of a line of a part.
fn told(alloc: Global, at: Place, words: &[&[u8]]) -> Result<Vec<u8>, AllocError>
    ensures { IfOk result
        (λ text. text.items ≡ part_line at.entry.part.now at.entry.line (map (λ w. w.now) words.now)) }
{
    let mut text = Vec::new(alloc);
    text.extend_from_slice(b"fault: ")?;
    text.extend_from_slice(at.part)?;
    text.extend_from_slice(b" line ")?;
    put_line(&mut text, Buffer::new().format(at.line).as_bytes(), words)?;
    Ok(text)
}

/// The line that tells a fault of a block.
fn block_line(alloc: Global, at: Place, fault: BlockFault) -> Result<Vec<u8>, AllocError>
    ensures { IfOk result (λ text. text.items ≡ part_line at.entry.part.now at.entry.line (block_words fault)) }
{
    match fault {
        BlockFault::BadHeader => told(alloc, at, &[b"BadHeader"]),
        BlockFault::BadNumber => told(alloc, at, &[b"BadNumber"]),
        BlockFault::VarTooLarge => told(alloc, at, &[b"VarTooLarge"]),
        BlockFault::ClauseCount { declared, found } => {
            let mut one = Buffer::new();
            let mut other = Buffer::new();
            let words = [
                b"ClauseCount".as_slice(),
                one.format(declared).as_bytes(),
                other.format(found).as_bytes(),
            ];
            told(alloc, at, &words)
        }
        BlockFault::Limit { which } => limit_line(alloc, at, which),
        BlockFault::Trailing => told(alloc, at, &[b"Trailing"]),
    }
}

/// The word of a limit.
pub fn which_word(which: LimitKind) -> &'static [u8]
    ensures { result.now ≡ which_word which }
{
    match which {
        LimitKind::Variables => b"Variables",
        LimitKind::Clauses => b"Clauses",
        LimitKind::Literals => b"Literals",
        LimitKind::Tenants => b"Tenants",
        LimitKind::Jobs => b"Jobs",
        LimitKind::Revisions => b"Revisions",
    }
}
