//! Runs of the program over devices in memory.
ghost use Rattle.std.specs.Prelude.{◌≡◌, ◌<◌, [], false};

use hac_disk::{Disk, MemoryDisk};
use hac_model::Memory;
use hac_outside::{MemorySink, MemorySource, Sink, Source, Steps};
use hac_top::{Status, run};
use sem_mounts::{MemorySpaces, Spaces};
use std::alloc::{AllocError, Global};
use std::marker::Brand;
use std::process::Abort;
use std::sync::ledger::{Blank, Ledger};
use std::test::Fail;

pub const ROOM: u64 = 1 << 20;

// Room for the longest text, and some bytes more.
const DISK_ROOM: u64 = 1 << 21;

const DISK_CALLS: u64 = 1 << 10;

// The words for a run on a new store, and for one on a store that is there.
pub const NEW: [&str; 2] = ["--new", "S"];

pub const OLD: [&str; 1] = ["S"];

/// Runs the program with these words on these devices. There is no file for a space.
pub fn run_with<S: Source, K: Sink, D: Disk>(
    alloc: Global,
    words: &[&str],
    input: &mut S,
    output: &mut K,
    disk: &mut D,
) -> Result<Status, Memory>
    requires { (S.seen input.old).ended ≡ false }
{
    let mut spaces = MemorySpaces::new(alloc, &[], &[])?;
    run_on(alloc, words, input, output, disk, &mut spaces)
}

/// The same with these spaces.
pub fn run_on<S: Source, K: Sink, D: Disk, P: Spaces>(
    alloc: Global,
    words: &[&str],
    input: &mut S,
    output: &mut K,
    disk: &mut D,
    spaces: &mut P,
) -> Result<Status, Memory>
    requires unended { (S.seen input.old).ended ≡ false }
    requires unattached { (P.seen spaces.old).attached ≡ [] }
{
    run_counted::<S, K, D, P, Brand>(alloc, words, input, output, disk, spaces, Blank::new(1))
}

/// The same, with its questions for terms counted in a new ledger.
fn run_counted<S: Source, K: Sink, D: Disk, P: Spaces, L: Ledger>(
    alloc: Global,
    words: &[&str],
    input: &mut S,
    output: &mut K,
    disk: &mut D,
    spaces: &mut P,
    blank: Blank,
) -> Result<Status, Memory>
    requires unended { (S.seen input.old).ended ≡ false }
    requires unattached { (P.seen spaces.old).attached ≡ [] }
    requires name { blank.name ≡ L.name }
    requires parts { blank.parts ≡ L.parts }
    requires some { 0 < blank.parts }
{
    let mut probes: Steps<L> = Steps::new(blank);
    let mut owned = Vec::new(alloc);
    for word in words {
        owned.push(String::from_str(alloc, word)?)?;
    }
    Ok(run(alloc, &owned, input, output, disk, spaces, &mut probes))
}

/// A disk with an empty file, of whose calls those with these numbers fail.
pub fn failing_disk(alloc: Global, failing: &[u64]) -> Result<MemoryDisk, AllocError> {
    MemoryDisk::new(alloc, &[], 0, &[], DISK_ROOM, DISK_CALLS, failing)
}

/// How a script runs on a disk, with these words, and what is replied.
pub fn reply<D: Disk>(
    alloc: Global,
    words: &[&str],
    script: &[u8],
    disk: &mut D,
) -> Result<(Status, Vec<u8>), Memory> {
    let mut input = MemorySource::new(alloc, script, &[], &[])?;
    let mut output = MemorySink::new(alloc, ROOM, ROOM, &[])?;
    let status = run_with(alloc, words, &mut input, &mut output, disk)?;
    Ok((status, Vec::from_slice(alloc, output.written())?))
}

/// A script from a source in pieces, to a sink of some room, each with the calls of it that fail.
#[derive(Clone, Copy)]
pub struct Trial<'a> {
    script: &'a [u8],
    pieces: &'a [u64],
    failing_reads: &'a [u64],
    room: u64,
    failing_writes: &'a [u64],
}

/// A script from a source in one piece, to a sink that takes all.
pub fn trial_of(script: &[u8]) -> Trial<'_> {
    Trial {
        script,
        pieces: &[],
        failing_reads: &[],
        room: ROOM,
        failing_writes: &[],
    }
}

impl<'a> Trial<'a> {
    pub fn pieces(self, pieces: &'a [u64]) -> Trial<'a> {
        Trial { pieces, ..self }
    }

    pub fn failing_reads(self, failing_reads: &'a [u64]) -> Trial<'a> {
        Trial {
            failing_reads,
            ..self
        }
    }

    pub fn room(self, room: u64) -> Trial<'a> {
        Trial { room, ..self }
    }

    pub fn failing_writes(self, failing_writes: &'a [u64]) -> Trial<'a> {
        Trial {
            failing_writes,
            ..self
        }
    }
}

/// How the run on a new store ends, and what was written.
pub fn play(alloc: Global, trial: &Trial<'_>) -> Result<(Status, Vec<u8>), Memory> {
    let mut disk = failing_disk(alloc, &[])?;
    play_on(alloc, trial, &mut disk)
}

/// The same on this disk.
pub fn play_on(
    alloc: Global,
    trial: &Trial<'_>,
    disk: &mut MemoryDisk,
) -> Result<(Status, Vec<u8>), Memory> {
    let mut input = MemorySource::new(alloc, trial.script, trial.pieces, trial.failing_reads)?;
    let mut output = MemorySink::new(alloc, trial.room, ROOM, trial.failing_writes)?;
    let status = run_with(alloc, &NEW, &mut input, &mut output, disk)?;
    Ok((status, Vec::from_slice(alloc, output.written())?))
}

/// Runs a script on a disk, with these words: it ends with the status, and the text is replied.
pub fn expect_run<D: Disk>(
    rt: &impl Abort,
    alloc: Global,
    words: &[&str],
    script: &[u8],
    disk: &mut D,
    status: Status,
    text: &[u8],
) -> Result<(), Fail> {
    let (ended, replied) = reply(alloc, words, script, disk)?;
    assert_eq!(rt; ended, status, "of {script:?}");
    assert_eq!(rt; replied.as_slice(), text, "of {script:?}");
    Ok(())
}

/// Plays a trial on a new store: it ends with the status, and the text is written.
pub fn expect_play(
    rt: &impl Abort,
    alloc: Global,
    trial: &Trial<'_>,
    status: Status,
    text: &[u8],
) -> Result<(), Fail> {
    let (ended, written) = play(alloc, trial)?;
    assert_eq!(rt; ended, status, "where {text:?} is wanted");
    assert_eq!(rt; written.as_slice(), text);
    Ok(())
}
