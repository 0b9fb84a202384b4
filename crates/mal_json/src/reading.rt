//! Reading descriptions of jobs.

ghost use Rattle.std.specs.Prelude.{◌≡◌, IfOk, MatchResult, Ok};
ghost use Rattle.mal_base.specs.Limits.{limits};
ghost use Rattle.serde_json.specs.View.{view};
ghost use Rattle.spec_script.specs.{Formed.{IsScript}, Script.{Scripted, spelling}};
ghost use Rattle.spec_script.specs.Reading as script;
ghost use Rattle.spec_json.specs.{Grammar.{Spells}, Reading.{of_jobs, read_json, read_text, read_value}, Shape.{json_in}, declared.fault.JsonFault.TheVariants.{OutOfMemory}};
ghost use Rattle.mal_json.specs.ReadResult.{Gives};

use crate::jobs::all_jobs;
use crate::numbers::items_at;
use crate::parsing::parse;
use crate::shape::is_document;
use mal_script::{Script, ScriptJob};
use serde_json::Value;
use spec_json::JsonFault;
use std::alloc::Global;

/// The script that a description in JSON spells within the limits that are served, or the first fault of the text: job
/// by job and step by step, where jobs count from 1 and 0 is the document itself. Out of memory may come at any time.
pub fn read(alloc: Global, text: &[u8]) -> Result<Script, JsonFault>
    // What is read is spelled so.
    ensures found { IfOk result (λ s. Spells limits text.now s) }
    // What is spelled so is read, unless memory runs out.
    ensures only { (s : Scripted) → Spells limits text.now s → MatchResult result (λ x. x ≡ s) (λ e. e ≡ OutOfMemory) }
    // Which fault it is, and of which job.
    ensures exact { Gives (λ s. s) result (read_text limits text.now) }
    // What is read is in form, and is read again from the text of the script.
    ensures formed { IfOk result (λ s. IsScript limits s) }
    ensures again { IfOk result (λ s. script.read_text limits (spelling s) ≡ Ok s) }
{
    first(alloc, text)
}

/// The script of a text, or its first fault.
fn first(alloc: Global, text: &[u8]) -> Result<Script, JsonFault>
    ensures { Gives (λ s. s) result (read_text limits text.now) }
{
    match read_jobs(alloc, text) {
        Ok(jobs) => Ok(Script::of_form(jobs)),
        Err(fault) => Err(fault),
    }
}

/// The jobs of the script that a text spells, or the first fault of the text.
fn read_jobs(alloc: Global, text: &[u8]) -> Result<Vec<ScriptJob>, JsonFault>
    ensures exact { Gives (λ v. of_jobs v.items) result (read_text limits text.now) }
    ensures formed { IfOk result (λ v. IsScript limits (of_jobs v.items)) }
{
    jobs_of(alloc, text)
}

/// The jobs of a text, or its first fault.
fn jobs_of(alloc: Global, text: &[u8]) -> Result<Vec<ScriptJob>, JsonFault>
    ensures { Gives (λ v. v.items) result (read_json limits (json_in text.now)) }
{
    let value = parse(alloc, text)?;
    read_value(alloc, &value)
}

/// The jobs of a document, or its first fault.
fn read_value(alloc: Global, value: &Value) -> Result<Vec<ScriptJob>, JsonFault>
    ensures { Gives (λ v. v.items) result (read_value limits (view value.now)) }
{
    if !is_document(value) {
        return Err(JsonFault::Shape { job: 0 });
    }
    all_jobs(alloc, items_at(value, "jobs"))
}
