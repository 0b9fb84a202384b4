//! Reading a command's input.

ghost use Rattle.std.specs.Prelude.{◌≡◌, IfOk, IfErr};
ghost use Rattle.mal_answer.specs.{Answers.{IsInput, IsMissed, IsUnread, StayedCalm}, Commands.{ReadsNothing, reads}, Devices.{Gave, device}};

use crate::answer::Complaint;
use crate::words::Request;
use mal_io::{ReadAllError, Source, read_all};
use std::alloc::Global;

/// The most bytes of an input.
const LIMIT: u32 = 67_108_864;

/// The input of a command: the bytes that `source` gives to its end, at most 2^26; none where the command has no input, and
/// then the source is as before.
///
/// Errors: `Unread` only where the source failed, `TooLong` exactly where one byte more than the limit was taken,
/// `OutOfMemory` at any time. The source's count of faults stays in all cases but `Unread`.
pub fn input<S: Source>(
    alloc: Global,
    request: Request,
    source: &mut S,
) -> Result<Vec<u8>, Complaint>
    ensures given { IfOk result
        (λ v. IsInput (reads request) (device S.left S.faults source.old source.new) v.items) }
    ensures missed { IfErr result
        (λ e. IsMissed (reads request) (device S.left S.faults source.old source.new) e) }
    ensures unread { ReadsNothing request → source.new ≡ source.old }
    ensures calm { StayedCalm (device S.left S.faults source.old source.new) result }
{
    if has_input(request) {
        return all_of(alloc, source);
    }
    Ok(Vec::new(alloc))
}

/// Whether a command has an input.
fn has_input(request: Request) -> bool
    ensures { result ≡ reads request }
{
    match request {
        Request::Generate { .. } => false,
        Request::RunGenerated { .. } => false,
        _ => true,
    }
}

/// The bytes that `source` gives to its end, at most 2^26.
fn all_of<S: Source>(alloc: Global, source: &mut S) -> Result<Vec<u8>, Complaint>
    ensures gave { IfOk result (λ v. Gave (device S.left S.faults source.old source.new) v.items) }
    ensures unread { IfErr result (λ e. IsUnread (device S.left S.faults source.old source.new) e) }
    ensures calm { StayedCalm (device S.left S.faults source.old source.new) result }
{
    match read_all(alloc, source, LIMIT) {
        Ok(text) => Ok(text),
        Err(ReadAllError::TooLong) => Err(Complaint::TooLong),
        Err(ReadAllError::ReadFault) => Err(Complaint::Unread),
        Err(ReadAllError::OutOfMemory) => Err(Complaint::OutOfMemory),
    }
}
