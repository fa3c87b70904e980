//! The devices of a script that is drawn: a source that has it, and a sink that keeps nothing.
//! Neither fails.
ghost use Rattle.std.specs.Prelude.{◌≡◌, ◌<◌, [], length, min, take, false};

use hac_outside::{Failed, Sink, Source};
use std::marker::Model;

/// A source that has the bytes of a script.
#[derive(Drop)]
pub struct ScriptSource {
    bytes: Vec<u8>,
    given: usize,
    ended: bool,
}

impl Model for ScriptSource {
    ghost use Rattle.std.specs.Prelude.{◌≤◌, drop, vec_len};
    ghost use Rattle.hac_top.specs.Devices.{ScriptLeft};

    ghost Value = { ScriptLeft };

    ghost view = { λ source. record
        { left = drop source.given source.bytes.items; ended = source.ended } };

    ghost invariant = { λ source. source.given ≤ vec_len source.bytes };
}

impl ScriptSource {
    /// A source that has given nothing yet.
    pub fn new(bytes: Vec<u8>) -> ScriptSource
        ensures { result ≡ record { left = bytes.items; ended = false } }
    {
        ScriptSource {
            bytes,
            given: 0,
            ended: false,
        }
    }
}

impl Source for ScriptSource {
    ghost use Rattle.hac_top.specs.Devices.{seen_of_script};

    ghost seen = { seen_of_script };

    fn read(&mut self, into: &mut [u8]) -> Result<usize, Failed> {
        let count = give(&self.bytes[self.given..], into);
        self.given += count;
        self.ended = count == 0 && !into.is_empty();
        Ok(count)
    }
}

// Copies as many bytes of `rest` to the front of `into` as both have room for.
fn give(rest: &[u8], into: &mut [u8]) -> usize
    ensures count { result ≡ min (length into.new) (length rest.now) }
    ensures bytes { take result into.new ≡ take result rest.now }
    ensures end { result ≡ 0 → 0 < length into.new → rest.now ≡ [] }
{
    let count = into.len().min(rest.len());
    into[..count].copy_from_slice(&rest[..count]);
    count
}

/// A sink that keeps nothing, and tells nothing of what it took.
#[derive(Clone, Copy, Debug, Drop)]
pub struct Unwritten;

impl Sink for Unwritten {
    ghost use Rattle.hac_top.specs.Devices.{seen_of_nothing};

    ghost seen = { λ _. seen_of_nothing };

    fn write(&mut self, bytes: &[u8]) -> Result<usize, Failed> {
        Ok(bytes.len())
    }

    fn flush(&mut self) -> Result<(), Failed> {
        Ok(())
    }
}
