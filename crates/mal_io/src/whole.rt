//! Reading a source to its end, and writing the whole of a text.
ghost use Rattle.std.specs.Prelude.{◌≡◌, ◌≤◌, ◌+◌, ℕ, List, length, IfOk, OnOk, OnErr, IsErrOf};
ghost use Rattle.std.specs.Io.KnownBytes.{Consumes, Appends, IsAtEnd};
ghost use Rattle.mal_io.specs.Moves.{Rose, HasTaken, GotPrefix};

use crate::device::{Sink, Source};
use std::alloc::Global;
use thiserror::Error;

/// Why a source was not read to its end.
#[derive(Clone, Copy, Debug, PartialEq, Eq, Error)]
pub enum ReadAllError {
    /// The source failed.
    #[error("the source failed")]
    ReadFault,
    /// The source gave more bytes than the limit.
    #[error("the input is too long")]
    TooLong,
    /// Memory ran out.
    #[error("out of memory")]
    OutOfMemory,
}

/// A sink failed before it got the whole text.
#[derive(Clone, Copy, Debug, PartialEq, Eq, Error)]
#[error("the sink failed")]
pub struct WriteFault;

/// All bytes that `source` has left, where they are at most `max`. `TooLong` comes exactly where
/// `max + 1` bytes were taken, `ReadFault` only where the source counted a fault; else its count stays.
pub fn read_all<S: Source>(alloc: Global, source: &mut S, max: u32) -> Result<Vec<u8>, ReadAllError>
    ensures all { IfOk result (λ v. Consumes (S.left source.old) (S.left source.new) v.items) }
    ensures end { OnOk result (IsAtEnd (S.left source.new)) }
    ensures fits { IfOk result (λ v. length v.items ≤ max) }
    ensures taken { (taken : List ℕ) × HasTaken (S.left source.old) (S.left source.new) max
        (IsErrOf result ReadAllError.TooLong) taken }
    ensures later { S.faults source.old ≤ S.faults source.new }
    ensures cause { IsErrOf result ReadAllError.ReadFault
        → Rose (S.faults source.old) (S.faults source.new) }
    ensures counted { (IsErrOf result ReadAllError.ReadFault → ⊥) → S.faults source.new ≡ S.faults source.old }
{
    let limit = max as usize + 1;
    let mut out = Vec::new(alloc);
    let mut buffer = [0u8; 4096];
    'pieces: loop {
        let room = (limit - out.len()).min(buffer.len());
        let Ok(count) = source.take(&mut buffer[..room]) else {
            return Err(ReadAllError::ReadFault);
        };
        if count == 0 {
            return Ok(out);
        }
        if out.len() + count == limit {
            return Err(ReadAllError::TooLong);
        }
        if out.extend_from_slice(&buffer[..count]).is_err() {
            return Err(ReadAllError::OutOfMemory);
        }
    }
}

/// Hands all of `bytes` to `sink`, whose count of faults then stays. After a fault the sink got a prefix of them. It
/// takes no memory.
pub fn write_all<K: Sink>(sink: &mut K, bytes: &[u8]) -> Result<(), WriteFault>
    ensures all { OnOk result (Appends (K.got sink.old) (K.got sink.new) bytes.now) }
    ensures prefix { (prefix : List ℕ) × GotPrefix (K.got sink.old) (K.got sink.new) bytes.now prefix }
    ensures later { K.faults sink.old ≤ K.faults sink.new }
    ensures cause { OnErr result (Rose (K.faults sink.old) (K.faults sink.new)) }
    ensures counted { OnOk result (K.faults sink.new ≡ K.faults sink.old) }
{
    let mut rest = bytes;
    'pieces: while !rest.is_empty() {
        match sink.put(rest) {
            Ok(count) => rest = rest.split_at(count).1,
            Err(_) => return Err(WriteFault),
        }
    }
    Ok(())
}
