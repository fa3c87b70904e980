//! A source and a sink in memory, which cut their bytes into pieces and fail at chosen calls.
ghost use Rattle.std.specs.Prelude.{◌≡◌, ◌≢◌, ◌<◌, ◌≤◌, ◌-◌, ◌↔◌, ◌⊎◌, [], false, Contains, IfOk};
ghost use Rattle.std.specs.Prelude.{IsErr, Ok, OnErr, OnOk, length, min, slice_get, take};
ghost use Rattle.std.specs.Io.{ReadsAtMost, WritesAtMost};
ghost use Rattle.std.specs.Io.KnownBytes.{Keeps, ReadConsumes, WriteAppends};
ghost use Rattle.hac_outside.specs.Causes.{HasCause};
ghost use Rattle.hac_outside.specs.Calls.{next_number};
ghost use Rattle.hac_outside.specs.Memory.{IsFailing, IsNextCall, IsNextRead, cut_to};
ghost use Rattle.hac_outside.specs.Seen.{HoldsMore, gives_end};

use super::calls::Calls;
use super::fault::Failed;
use super::sinks::Sink;
use super::sources::Source;
use std::alloc::{AllocError, Global};
use std::marker::Model;

/// A source over bytes in memory.
#[derive(Drop)]
pub struct MemorySource {
    bytes: Vec<u8>,
    given: usize,
    pieces: Vec<u64>,
    calls: Calls,
    ended: bool,
}

impl Model for MemorySource {
    ghost use Rattle.std.specs.Prelude.{◌≤◌, drop, vec_len};
    ghost use Rattle.hac_outside.specs.Memory.{SourceState};

    ghost Value = { SourceState };

    ghost view = { λ source. record {
      left = drop source.given source.bytes.items;
      pieces = source.pieces.items;
      failing = source.calls.failing.items;
      calls = source.calls.made;
      faults = source.calls.faults;
      ended = source.ended;
    } };

    ghost invariant = { λ source. source.given ≤ vec_len source.bytes };
}

impl MemorySource {
    /// The first read gives at most as many bytes as the first piece says, and so on; a piece of
    /// 0 counts as 1, and a read past the last piece has no such bound. A read whose number, from
    /// 1, is in `failing` is a fault: it uses up its piece, and no byte.
    pub fn new(
        alloc: Global,
        bytes: &[u8],
        pieces: &[u64],
        failing: &[u64],
    ) -> Result<MemorySource, AllocError>
        ensures left { IfOk result (λ source. source.left ≡ bytes.now) }
        ensures pieces { IfOk result (λ source. source.pieces ≡ pieces.now) }
        ensures failing { IfOk result (λ source. source.failing ≡ failing.now) }
        ensures calls { IfOk result (λ source. source.calls ≡ 0) }
        ensures faults { IfOk result (λ source. source.faults ≡ 0) }
        ensures ended { IfOk result (λ source. source.ended ≡ false) }
    {
        Ok(MemorySource {
            bytes: Vec::from_slice(alloc, bytes)?,
            given: 0,
            pieces: Vec::from_slice(alloc, pieces)?,
            calls: Calls::new(alloc, failing)?,
            ended: false,
        })
    }
}

impl Source for MemorySource {
    ghost use Rattle.std.specs.Prelude.{Some};

    ghost seen = { λ source. record
        { left = Some source.left; faults = source.faults; ended = source.ended } };

    fn read(&mut self, into: &mut [u8]) -> Result<usize, Failed>
        requires { self.old.ended ≡ false }
        ensures bound { ReadsAtMost result into.new }
        ensures bytes { ReadConsumes (Some self.old.left) (Some self.new.left) result into.new }
        ensures end { self.new.ended ≡ gives_end result into.new }
        ensures cause { HasCause self.old.faults self.new.faults result }

        // Which reads fail, and how much the others give.
        ensures fails { IsErr result ↔ Contains self.old.failing (next_number self.old.calls) }
        ensures count { IfOk result (λ count. count ≡
            cut_to (slice_get self.old.pieces self.old.calls)
            (min (length into.new) (length self.old.left))) }
        ensures counted { OnErr result (self.new.faults ≡ next_number self.old.faults) }

        // The plan stays, and the next read has the next number.
        ensures plan { IsNextRead self.old self.new }
    {
        let piece = piece_at(&self.pieces, self.calls.made);
        self.calls.begin()?;
        let count = give(&self.bytes[self.given..], piece, into);
        self.given += count;
        self.ended = count == 0 && !into.is_empty();
        Ok(count)
    }
}

// The piece of the read with this number, from 0, if the list goes that far.
fn piece_at(pieces: &[u64], calls: u64) -> Option<u64>
    ensures { result ≡ slice_get pieces.now calls }
{
    pieces.get(calls as usize).copied()
}

// Copies as many bytes of `rest` to the front of `into` as both and the piece have room for.
fn give(rest: &[u8], piece: Option<u64>, into: &mut [u8]) -> usize
    ensures count { result ≡ cut_to piece (min (length into.new) (length rest.now)) }
    ensures bound { result ≤ length rest.now }
    ensures bytes { take result into.new ≡ take result rest.now }
    ensures end { result ≡ 0 → 0 < length into.new → rest.now ≡ [] }
{
    let count = cut_to(piece, into.len().min(rest.len()));
    into[..count].copy_from_slice(&rest[..count]);
    count
}

// A count of bytes, cut to a piece where there is one.
fn cut_to(piece: Option<u64>, count: usize) -> usize
    ensures { result ≡ cut_to piece count }
{
    match piece {
        Some(piece) => count.min(piece.max(1) as usize),
        None => count,
    }
}

/// A sink into memory.
#[derive(Drop)]
pub struct MemorySink {
    bytes: Vec<u8>,
    flushed: usize,
    room: usize,
    last_call: u64,
    calls: Calls,
}

impl Model for MemorySink {
    ghost use Rattle.std.specs.Prelude.{◌+◌, ◌≤◌, vec_capacity, vec_len};
    ghost use Rattle.hac_outside.specs.Memory.{SinkState};

    ghost Value = { SinkState };

    ghost view = { λ sink. record {
      written = sink.bytes.items;
      flushed = sink.flushed;
      room = sink.room;
      last_call = sink.last_call;
      failing = sink.calls.failing.items;
      calls = sink.calls.made;
      faults = sink.calls.faults;
    } };

    ghost invariant = { λ sink. (sink.flushed ≤ vec_len sink.bytes)
        × (vec_len sink.bytes + sink.room ≤ vec_capacity sink.bytes) };
}

impl MemorySink {
    /// Takes the memory for `bytes` bytes at once: no later call takes any. Writes and flushes are
    /// numbered together, from 1. One whose number is above `calls` or is in `failing` is a
    /// fault, and so is a write of which nothing fits.
    pub fn new(
        alloc: Global,
        bytes: u64,
        calls: u64,
        failing: &[u64],
    ) -> Result<MemorySink, AllocError>
        ensures written { IfOk result (λ sink. sink.written ≡ []) }
        ensures flushed { IfOk result (λ sink. sink.flushed ≡ 0) }
        ensures room { IfOk result (λ sink. sink.room ≡ bytes) }
        ensures last_call { IfOk result (λ sink. sink.last_call ≡ calls) }
        ensures failing { IfOk result (λ sink. sink.failing ≡ failing.now) }
        ensures calls { IfOk result (λ sink. sink.calls ≡ 0) }
        ensures faults { IfOk result (λ sink. sink.faults ≡ 0) }
    {
        let room = bytes as usize;
        Ok(MemorySink {
            bytes: Vec::with_capacity(alloc, room)?,
            flushed: 0,
            room,
            last_call: calls,
            calls: Calls::new(alloc, failing)?,
        })
    }

    /// The bytes that were written.
    pub fn written(&self) -> &[u8]
        ensures { result.now ≡ self.now.written }
    {
        &self.bytes
    }
}

impl Sink for MemorySink {
    ghost use Rattle.std.specs.Prelude.{◌-◌, Some, length};

    ghost seen = { λ sink. record {
      written = Some sink.written;
      held_back = length sink.written - sink.flushed;
      faults = sink.faults;
    } };

    fn write(&mut self, bytes: &[u8]) -> Result<usize, Failed>
        ensures bound { WritesAtMost result bytes.now }
        ensures some { 0 < length bytes.now → result ≢ Ok 0 }
        ensures bytes { WriteAppends (Some self.old.written)
            (Some self.new.written) result bytes.now }
        ensures held { HoldsMore (length self.old.written - self.old.flushed)
            (length self.new.written - self.new.flushed) result }
        ensures cause { HasCause self.old.faults self.new.faults result }

        // Which writes fail, and how much the others take.
        ensures fails { IsErr result ↔ (IsFailing self.old ⊎
            ((0 < length bytes.now) × (self.old.room ≡ 0))) }
        ensures count { IfOk result (λ count. count ≡ min (length bytes.now) self.old.room) }
        ensures counted { OnErr result (self.new.faults ≡ next_number self.old.faults) }

        // What is taken is held back until it is flushed.
        ensures flushed { self.new.flushed ≡ self.old.flushed }

        // The plan stays, and the next call has the next number.
        ensures plan { IsNextCall self.old self.new }
    {
        self.calls.begin_within(self.last_call)?;
        if self.room == 0 && !bytes.is_empty() {
            return Err(self.calls.fail());
        }
        let count = bytes.len().min(self.room);
        self.bytes.extend_from_slice(&bytes[..count]).unwrap();
        self.room -= count;
        Ok(count)
    }

    fn flush(&mut self) -> Result<(), Failed>
        ensures bytes { Keeps (Some self.old.written) (Some self.new.written) }
        ensures passed { OnOk result (length self.new.written - self.new.flushed ≡ 0) }
        ensures held { length self.new.written - self.new.flushed ≤ length self.old.written -
            self.old.flushed }
        ensures cause { HasCause self.old.faults self.new.faults result }
        ensures fails { IsErr result ↔ IsFailing self.old }
        ensures counted { OnErr result (self.new.faults ≡ next_number self.old.faults) }
        ensures failed { OnErr result (self.new.flushed ≡ self.old.flushed) }
        ensures plan { IsNextCall self.old self.new }
    {
        self.calls.begin_within(self.last_call)?;
        self.flushed = self.bytes.len();
        Ok(())
    }
}
