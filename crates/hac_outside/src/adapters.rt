//! A source and a sink over std's readers and writers: a real stream tells nothing of its bytes.
ghost use Rattle.std.specs.Prelude.{◌≡◌, ◌≢◌, ◌<◌, false, Ok, length};
ghost use Rattle.std.specs.Io.{ReadsAtMost, WritesAtMost};
ghost use Rattle.std.specs.Io.KnownBytes.{Keeps, ReadConsumes, WriteAppends};

use super::fault::Failed;
use super::sinks::Sink;
use super::sources::Source;
use std::io::{ErrorKind, Read, Write};

/// A source over a reader. Each of its errors is a fault, but for an interruption by a signal:
/// then the read is tried again.
#[derive(Drop)]
pub struct StdSource<R: Read> {
    /// The reader.
    pub inner: R,
    faults: u64,
    ended: bool,
}

impl<R: Read> StdSource<R> {
    /// The source over a reader, with no faults so far.
    pub fn new(inner: R) -> StdSource<R>
        ensures inner { result.inner ≡ inner }
        ensures faults { result.faults ≡ 0 }
        ensures ended { result.ended ≡ false }
    {
        StdSource {
            inner,
            faults: 0,
            ended: false,
        }
    }
}

impl<R: Read> Source for StdSource<R> {
    ghost seen = { λ source. record
        { left = R.remaining source.inner; faults = source.faults; ended = source.ended } };

    fn read(&mut self, into: &mut [u8]) -> Result<usize, Failed> {
        let result = read_again(&mut self.inner, into);
        match result {
            Ok(count) => self.ended = count == 0 && !into.is_empty(),
            Err(_) => self.faults = self.faults.saturating_add(1),
        }
        result
    }
}

// One read, tried again where a signal interrupts it.
fn read_again<R: Read>(inner: &mut R, into: &mut [u8]) -> Result<usize, Failed>
    ensures bound { ReadsAtMost result into.new }
    ensures bytes { ReadConsumes (R.remaining inner.old) (R.remaining inner.new) result into.new }
{
    for _ in 0..u64::MAX {
        match inner.read(into) {
            Ok(count) => return Ok(count),
            Err(error) if error.kind() == ErrorKind::Interrupted => {}
            Err(_) => return Err(Failed),
        }
    }
    Err(Failed)
}

/// A sink over a writer. Each of its errors is a fault, but for an interruption by a signal: then
/// the call is tried again. A write that takes nothing of a piece that isn't empty is a fault too.
#[derive(Drop)]
pub struct StdSink<W: Write> {
    /// The writer.
    pub inner: W,
    held_back: u64,
    faults: u64,
}

impl<W: Write> StdSink<W> {
    /// The sink over a writer, with no faults so far. What the writer holds back already isn't
    /// counted.
    pub fn new(inner: W) -> StdSink<W>
        ensures inner { result.inner ≡ inner }
        ensures held { result.held_back ≡ 0 }
        ensures faults { result.faults ≡ 0 }
    {
        StdSink {
            inner,
            held_back: 0,
            faults: 0,
        }
    }
}

impl<W: Write> Sink for StdSink<W> {
    ghost use Rattle.std.specs.Prelude.{◌+◌, ◌-◌, ◌^◌, ◌≤◌, min, IfOk, OnErr, OnOk};
    ghost use Rattle.hac_outside.specs.Causes.{HasCause};
    ghost use Rattle.hac_outside.specs.Seen.{HoldsMore};

    ghost seen = { λ sink. record {
      written = W.contents sink.inner;
      held_back = sink.held_back;
      faults = sink.faults;
    } };

    fn write(&mut self, bytes: &[u8]) -> Result<usize, Failed>
        ensures bound { WritesAtMost result bytes.now }
        ensures some { 0 < length bytes.now → result ≢ Ok 0 }
        ensures bytes { WriteAppends (W.contents self.old.inner)
            (W.contents self.new.inner) result bytes.now }
        ensures held { HoldsMore self.old.held_back self.new.held_back result }
        ensures cause { HasCause self.old.faults self.new.faults result }

        // Whatever the writer is, each byte counts as held back until it is flushed, up to the end
        // of the type.
        ensures counted { IfOk result (λ count. self.new.held_back ≡
            min (self.old.held_back + count) (2 ^ 64 - 1)) }
        ensures failed { OnErr result (self.new.held_back ≡ self.old.held_back) }
    {
        let result = write_again(&mut self.inner, bytes);
        match result {
            Ok(count) => self.held_back = self.held_back.saturating_add(count as u64),
            Err(_) => self.faults = self.faults.saturating_add(1),
        }
        result
    }

    fn flush(&mut self) -> Result<(), Failed>
        ensures bytes { Keeps (W.contents self.old.inner) (W.contents self.new.inner) }
        ensures passed { OnOk result (self.new.held_back ≡ 0) }
        ensures held { self.new.held_back ≤ self.old.held_back }
        ensures cause { HasCause self.old.faults self.new.faults result }
        ensures failed { OnErr result (self.new.held_back ≡ self.old.held_back) }
    {
        let result = flush_again(&mut self.inner);
        match result {
            Ok(()) => self.held_back = 0,
            Err(_) => self.faults = self.faults.saturating_add(1),
        }
        result
    }
}

// One write, tried again where a signal interrupts it.
fn write_again<W: Write>(inner: &mut W, bytes: &[u8]) -> Result<usize, Failed>
    ensures bound { WritesAtMost result bytes.now }
    ensures some { 0 < length bytes.now → result ≢ Ok 0 }
    ensures bytes { WriteAppends (W.contents inner.old) (W.contents inner.new) result bytes.now }
{
    for _ in 0..u64::MAX {
        match inner.write(bytes) {
            Ok(count) if count > 0 || bytes.is_empty() => return Ok(count),
            Err(error) if error.kind() == ErrorKind::Interrupted => {}
            _ => return Err(Failed),
        }
    }
    Err(Failed)
}

// One flush, tried again where a signal interrupts it.
fn flush_again<W: Write>(inner: &mut W) -> Result<(), Failed>
    ensures bytes { Keeps (W.contents inner.old) (W.contents inner.new) }
{
    for _ in 0..u64::MAX {
        match inner.flush() {
            Ok(()) => return Ok(()),
            Err(error) if error.kind() == ErrorKind::Interrupted => {}
            Err(_) => return Err(Failed),
        }
    }
    Err(Failed)
}
