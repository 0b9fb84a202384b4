//! Devices in memory: they tell their bytes, move few of them in a call, and fail when told to.
ghost use Rattle.std.specs.Prelude.{◌≡◌, ◌<◌, ◌≤◌, ◌+◌, ◌-◌, ◌^◌, ◌↔◌, ◌⊎◌, ◌++◌, [], min, length, IfOk, OnOk, OnErr, IsErr, IsTrue, vec_len, vec_capacity};
ghost use Rattle.std.specs.{Io.{ReadsAtMost, WritesAtMost}, Io.KnownBytes.{ReadConsumes, WriteAppends}};
ghost use Rattle.mal_io.specs.Moves.{Rose, FailsNext, IsFull};

use crate::device::{Failed, Sink, Source};
use std::alloc::{AllocError, Global};

/// The calls of a device in memory: how many bytes move in a call at most, which of the calls are told to fail, counted
/// from 1, how many calls there were, and how many faults.
#[derive(Drop)]
struct Calls<'a> {
    piece: usize,
    failing: &'a [u64],
    calls: u64,
    faults: u64,
    ghost moves: { 0 < piece },
}

impl<'a> Calls<'a> {
    /// Before the first call.
    fn none(piece: usize, failing: &'a [u64]) -> Self
        requires { 0 < piece }
        ensures piece { result.piece ≡ piece }
        ensures failing { result.failing.now ≡ failing.entry.now }
        ensures calls { result.calls ≡ 0 }
        ensures faults { result.faults ≡ 0 }
    {
        Calls {
            piece,
            failing,
            calls: 0,
            faults: 0,
        }
    }

    /// Counts a call, which fails where it was told to.
    fn next(&mut self) -> Result<(), Failed>
        ensures told { IsErr result ↔ FailsNext self.old.failing.now self.old.calls }
        ensures cause { OnErr result (Rose self.old.faults self.new.faults) }
        ensures later { self.old.faults ≤ self.new.faults }
        ensures counted { OnOk result (self.new.faults ≡ self.old.faults) }
        ensures calls { self.new.calls ≡ min (self.old.calls + 1) (2 ^ 64 - 1) }
        ensures same { (self.new.piece ≡ self.old.piece) × (self.new.failing.now ≡ self.old.failing.now) }
    {
        self.calls = self.calls.saturating_add(1);
        if self.failing.contains(&self.calls) {
            return Err(self.fail());
        }
        Ok(())
    }

    /// Counts a fault.
    fn fail(&mut self) -> Failed
        ensures cause { Rose self.old.faults self.new.faults }
        ensures later { self.old.faults ≤ self.new.faults }
        ensures calls { self.new.calls ≡ self.old.calls }
        ensures same { (self.new.piece ≡ self.old.piece) × (self.new.failing.now ≡ self.old.failing.now) }
    {
        self.faults = self.faults.saturating_add(1);
        Failed
    }
}

/// A source over a slice.
#[derive(Drop)]
pub struct MemSource<'a> {
    bytes: &'a [u8],
    calls: Calls<'a>,
}

impl<'a> MemSource<'a> {
    ghost use Rattle.mal_io.specs.Held.{source_left, source_calls};

    /// A source that gives `bytes`, at most `piece` (at least 1) of them in a call, and fails in the
    /// calls that `failing` numbers, counted from 1.
    pub fn new(bytes: &'a [u8], piece: usize, failing: &'a [u64]) -> Self
        requires { 0 < piece }
        ensures left { source_left result ≡ Some bytes.entry.now }
        ensures piece { (source_calls result).piece ≡ piece }
        ensures failing { (source_calls result).failing.now ≡ failing.entry.now }
        ensures faults { (source_calls result).faults ≡ 0 }
        ensures calls { (source_calls result).calls ≡ 0 }
    {
        MemSource {
            bytes,
            calls: Calls::none(piece, failing),
        }
    }
}

impl<'a> Source for MemSource<'a> {
    ghost use Rattle.mal_io.specs.Held.{source_left, source_calls};

    ghost left = { source_left };

    ghost faults = { λ s. (source_calls s).faults };

    fn take(&mut self, into: &mut [u8]) -> Result<usize, Failed>
        ensures bound { ReadsAtMost result into.new }
        ensures bytes { ReadConsumes (source_left self.old) (source_left self.new) result into.new }
        ensures later { (source_calls self.old).faults ≤ (source_calls self.new).faults }
        ensures cause { OnErr result (Rose (source_calls self.old).faults (source_calls self.new).faults) }
        ensures counted { OnOk result ((source_calls self.new).faults ≡ (source_calls self.old).faults) }
        ensures told { IsErr result ↔ FailsNext (source_calls self.old).failing.now (source_calls self.old).calls }
        ensures few { IfOk result (λ n. n ≤ (source_calls self.old).piece) }
        ensures calls { (source_calls self.new).calls ≡ min ((source_calls self.old).calls + 1) (2 ^ 64 - 1) }
    {
        self.calls.next()?;
        let count = into.len().min(self.calls.piece).min(self.bytes.len());
        let (front, rest) = self.bytes.split_at(count);
        into[..count].copy_from_slice(front);
        self.bytes = rest;
        Ok(count)
    }
}

/// A sink into a vector, with room for a number of bytes. A piece for which no room is left is a fault like any other.
#[derive(Drop)]
pub struct MemSink<'a> {
    bytes: Vec<u8>,
    room: usize,
    calls: Calls<'a>,
    ghost fits: { vec_len bytes + room ≤ vec_capacity bytes },
}

impl<'a> MemSink<'a> {
    ghost use Rattle.mal_io.specs.Held.{sink_got, sink_room, sink_calls};

    /// A sink that got nothing yet, has room for `room` bytes, takes at most `piece` (at least 1) bytes in a
    /// call, and fails in the calls that `failing` numbers, counted from 1.
    pub fn new(
        alloc: Global,
        room: usize,
        piece: usize,
        failing: &'a [u64],
    ) -> Result<Self, AllocError>
        requires { 0 < piece }
        ensures got { IfOk result (λ s. sink_got s ≡ Some []) }
        ensures room { IfOk result (λ s. sink_room s ≡ room) }
        ensures piece { IfOk result (λ s. (sink_calls s).piece ≡ piece) }
        ensures failing { IfOk result (λ s. (sink_calls s).failing.now ≡ failing.entry.now) }
        ensures faults { IfOk result (λ s. (sink_calls s).faults ≡ 0) }
        ensures calls { IfOk result (λ s. (sink_calls s).calls ≡ 0) }
    {
        let mut bytes = Vec::new(alloc);
        bytes.reserve(room)?;
        Ok(MemSink {
            bytes,
            room,
            calls: Calls::none(piece, failing),
        })
    }

    /// The bytes that it got, in order.
    pub fn bytes(&self) -> &[u8]
        ensures { Some result.now ≡ sink_got self.now }
    {
        self.bytes.as_slice()
    }
}

impl<'a> Sink for MemSink<'a> {
    ghost use Rattle.mal_io.specs.Held.{sink_got, sink_room, sink_calls};

    ghost got = { sink_got };

    ghost faults = { λ s. (sink_calls s).faults };

    fn put(&mut self, bytes: &[u8]) -> Result<usize, Failed>
        ensures bound { WritesAtMost result bytes.now }
        ensures bytes { WriteAppends (sink_got self.old) (sink_got self.new) result bytes.now }
        ensures moves { IfOk result (λ n. 0 < length bytes.now → 0 < n) }
        ensures later { (sink_calls self.old).faults ≤ (sink_calls self.new).faults }
        ensures cause { OnErr result (Rose (sink_calls self.old).faults (sink_calls self.new).faults) }
        ensures counted { OnOk result ((sink_calls self.new).faults ≡ (sink_calls self.old).faults) }
        ensures told { IsErr result
            ↔ (FailsNext (sink_calls self.old).failing.now (sink_calls self.old).calls
            ⊎ IsFull (sink_room self.old) bytes.now) }
        ensures few { IfOk result (λ n. n ≤ (sink_calls self.old).piece) }
        ensures room { IfOk result (λ n. sink_room self.new + n ≡ sink_room self.old) }
        ensures calls { (sink_calls self.new).calls ≡ min ((sink_calls self.old).calls + 1) (2 ^ 64 - 1) }
    {
        self.calls.next()?;
        if is_full(self.room, bytes) {
            return Err(self.calls.fail());
        }
        let count = bytes.len().min(self.calls.piece).min(self.room);
        let (front, _) = bytes.split_at(count);
        self.room -= count;
        push_all(&mut self.bytes, front);
        Ok(count)
    }
}

/// Whether no room is left for a piece that is not empty.
fn is_full(room: usize, bytes: &[u8]) -> bool
    ensures { IsTrue result ↔ IsFull room bytes.now }
{
    room == 0 && !bytes.is_empty()
}

/// Puts these bytes after the others, for which there is room. Takes no memory.
fn push_all(bytes: &mut Vec<u8>, front: &[u8])
    requires { vec_len bytes.old + length front.now ≤ vec_capacity bytes.old }
    ensures items { bytes.new.items ≡ bytes.old.items ++ front.now }
    ensures len { vec_len bytes.new ≡ vec_len bytes.old + length front.now }
    ensures capacity { vec_capacity bytes.new ≡ vec_capacity bytes.old }
{
    for byte in front {
        bytes.push_reserved(*byte);
    }
}
