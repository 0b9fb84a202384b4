//! Reading scripts.

ghost use Rattle.std.specs.Prelude.{◌≡◌, [], IfOk, MatchResult};
ghost use Rattle.spec_dimacs.specs.Rows.{rows_of};
ghost use Rattle.mal_base.specs.Limits.{limits};
ghost use Rattle.spec_script.specs.{Grammar.{Spells}, Reading.{read_rows, read_text}, Formed.{IsScript}, Script.{Scripted, spelling}, Within.{IsWithin}};
ghost use Rattle.mal_script.specs.{declared.fault.ScriptFault.TheVariants.{OutOfMemory}, ReadResult.{FailsAt, GivesAt, RefusedAt, of_jobs}};

use crate::fault::{LineRefusal, ScriptFault};
use crate::reader::Reader;
use crate::script::{Script, ScriptJob};
use mal_base::{LIMITS, Limits};
use mal_text::first_line;
use std::alloc::Global;

/// The script that a text spells within the limits that are served, or the first fault of the text, with its line from
/// 1 on. A fault at the end names the last line, 1 where there is none. Out of memory may come at any time.
pub fn read(alloc: Global, text: &[u8]) -> Result<Script, ScriptFault>
    // What is read is spelled so.
    ensures found { IfOk result (λ s. Spells limits text.now s) }
    // What is spelled so is read, unless memory runs out.
    ensures only { (s : Scripted) → Spells limits text.now s → MatchResult result (λ x. x ≡ s) (λ e. e ≡ OutOfMemory) }
    // Which fault it is, and where.
    ensures exact { GivesAt (λ s. s) result (read_text limits text.now) }
    // The text of a script in form is read as this script, unless memory runs out; what is read is in form.
    ensures again { (s : Scripted) → IsScript limits s → text.now ≡ spelling s
        → MatchResult result (λ x. x ≡ s) (λ e. e ≡ OutOfMemory) }
    ensures within { IfOk result (λ s. IsWithin limits s) }
    ensures formed { IfOk result (λ s. IsScript limits s) }
{
    first(alloc, text)
}

/// The script of a text, or its first fault.
fn first(alloc: Global, text: &[u8]) -> Result<Script, ScriptFault>
    ensures { GivesAt (λ s. s) result (read_text limits text.now) }
{
    match read_jobs(alloc, text, LIMITS) {
        Ok(jobs) => Ok(Script::of_form(jobs)),
        Err(fault) => Err(fault),
    }
}

/// The jobs of the script that a text spells within these limits, or the first fault of the text.
fn read_jobs(alloc: Global, text: &[u8], limits: Limits) -> Result<Vec<ScriptJob>, ScriptFault>
    ensures exact { GivesAt (λ v. of_jobs v.items) result (read_text limits text.now) }
    ensures formed { IfOk result (λ v. IsScript limits (of_jobs v.items)) }
{
    read_rows(alloc, text, limits)
}

/// The jobs of the script that the lines of a text give, one after another.
fn read_rows(alloc: Global, text: &[u8], limits: Limits) -> Result<Vec<ScriptJob>, ScriptFault>
    ensures { GivesAt (λ v. of_jobs v.items) result (read_text limits text.now) }
{
    let mut reader = Reader::new(alloc);
    match take_rows(&mut reader, text, limits) {
        Ok(lines) => match reader.finish() {
            Ok(jobs) => Ok(jobs),
            Err(refusal) => Err(refused(lines.max(1), refusal)),
        },
        Err(fault) => {
            drop(reader);
            Err(fault)
        }
    }
}

/// Reads the lines of a text, one after another. Answers how many there are.
fn take_rows(reader: &mut Reader, text: &[u8], limits: Limits) -> Result<u64, ScriptFault>
    ensures { MatchResult result
        (λ lines. read_rows limits [] lines reader.new ≡ read_rows limits (rows_of text.now) 0 reader.old)
        (λ fault. FailsAt fault (read_rows limits (rows_of text.now) 0 reader.old)) }
{
    let mut rest = text;
    let mut line: u64 = 0;
    while let Some((row, behind)) = first_line(rest) {
        line += 1;
        match reader.take_row(limits, row) {
            Ok(()) => {}
            Err(refusal) => return Err(refused(line, refusal)),
        }
        rest = behind;
    }
    Ok(line)
}

/// The refusal of this line as that of the text.
fn refused(line: u64, refusal: LineRefusal) -> ScriptFault
    ensures { RefusedAt line refusal result }
{
    match refusal {
        LineRefusal::Fault(fault) => ScriptFault::Line { line, fault },
        LineRefusal::OutOfMemory => ScriptFault::OutOfMemory,
    }
}
