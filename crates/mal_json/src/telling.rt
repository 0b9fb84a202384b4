//! The lines that tell what is wrong with a description.

ghost use Rattle.std.specs.Prelude.{◌≡◌, ◌∷◌, [], codes, map, IfOk, MatchOption};
ghost use Rattle.spec_text.specs.Numbers.{decimal_word};
ghost use Rattle.spec_script.specs.FaultLines.{which_word};
ghost use Rattle.spec_json.specs.{FaultLines.{job_words, line_of_words}, declared.fault.JsonFault.TheVariants.{OutOfMemory}};
ghost use Rattle.mal_json.specs.ReadResult.{Tells};

use itoa::Buffer;
use mal_base::{LimitKind, Var};
use mal_script::which_word;
use mal_text::put_line;
use spec_json::JsonFault;
use std::alloc::{AllocError, Global};

/// The line `fault: json NotJson`, or `fault: json job J` and the fault's words, as `Shape` or `Limit Jobs`, with its
/// line end. None exactly when out of memory.
pub fn fault_line(alloc: Global, fault: JsonFault) -> Result<Option<Vec<u8>>, AllocError>
    ensures { IfOk result (λ o. MatchOption o (fault ≡ OutOfMemory) (λ text. Tells fault text.items)) }
{
    match fault {
        JsonFault::NotJson => Ok(Some(no_json_line(alloc)?)),
        JsonFault::Shape { job } => Ok(Some(told(alloc, job, &[b"Shape"])?)),
        JsonFault::Range { job } => Ok(Some(told(alloc, job, &[b"Range"])?)),
        JsonFault::Duplicate { job } => Ok(Some(told(alloc, job, &[b"Duplicate"])?)),
        JsonFault::VarTooLarge { job } => Ok(Some(told(alloc, job, &[b"VarTooLarge"])?)),
        JsonFault::Opposite { job, var } => Ok(Some(opposite_line(alloc, job, var)?)),
        JsonFault::Limit { job, which } => Ok(Some(limit_line(alloc, job, which)?)),
        JsonFault::OutOfMemory => Ok(None),
    }
}

/// The line that tells that a text is no JSON.
fn no_json_line(alloc: Global) -> Result<Vec<u8>, AllocError>
    ensures { IfOk result (λ text. text.items ≡ line_of_words (codes "NotJson" ∷ [])) }
{
    let mut text = Vec::new(alloc);
    put_line(&mut text, b"fault:", &[b"json", b"NotJson"])?;
    Ok(text)
}

/// The line that tells that a variable is assumed with both signs.
fn opposite_line(alloc: Global, job: usize, var: Var) -> Result<Vec<u8>, AllocError>
    ensures { IfOk result
        (λ text. text.items ≡ line_of_words (job_words job (codes "Opposite" ∷ decimal_word var ∷ []))) }
{
    let mut number = Buffer::new();
    let words = [
        b"Opposite".as_slice(),
        number.format(var.number()).as_bytes(),
    ];
    told(alloc, job, &words)
}

/// The line that tells that there are too many of these.
fn limit_line(alloc: Global, job: usize, which: LimitKind) -> Result<Vec<u8>, AllocError>
    ensures { IfOk result
        (λ text. text.items ≡ line_of_words (job_words job (codes "Limit" ∷ which_word which ∷ []))) }
{
    told(alloc, job, &[b"Limit", which_word(which)])
}

/// The line that tells these words of a job.
fn told(alloc: Global, job: usize, words: &[&[u8]]) -> Result<Vec<u8>, AllocError>
    ensures { IfOk result (λ text. text.items ≡ line_of_words (job_words job (map (λ w. w.now) words.now))) }
{
    let mut text = Vec::new(alloc);
    text.extend_from_slice(b"fault: json job ")?;
    put_line(&mut text, Buffer::new().format(job).as_bytes(), words)?;
    Ok(text)
}
