//! Runs over sources and sinks in memory that give their bytes in pieces, fail at chosen calls, or
//! hold more than a file can say.
use crate::runs::{NEW, ROOM, Trial, expect_play, failing_disk, run_with, trial_of};
use hac_model::{SCRIPT_LIMIT, TEXT_LIMIT};
use hac_outside::{Failed, MemorySink, MemorySource, Source};
use hac_top::Status;
use std::alloc::{AllocError, Global};
use std::process::Abort;
use std::test::Fail;

#[test]
fn pieces_and_faults_leave_a_prefix(rt: HostRuntime) -> Result<(), Fail> {
    let alloc = rt.alloc();
    let script = trial_of(b"write /a x\nfly\nwrite /b");
    let bytes = script.pieces(&[1; 32]);
    let all: &[u8] = b"ok\nno bad-line\nok\n";
    let rows: [(Trial<'_>, Status, &[u8]); 11] = [
        (bytes, Status::SomeRefused, all),
        // A fault of reading: the text over the lines that came whole.
        (script.failing_reads(&[1]), Status::ReadFault, b""),
        (
            script.failing_reads(&[2]),
            Status::ReadFault,
            b"ok\nno bad-line\n",
        ),
        (script.failing_reads(&[3]), Status::SomeRefused, all),
        (bytes.failing_reads(&[11]), Status::ReadFault, b""),
        (bytes.failing_reads(&[12]), Status::ReadFault, b"ok\n"),
        (
            bytes.failing_reads(&[16]),
            Status::ReadFault,
            b"ok\nno bad-line\n",
        ),
        // A fault of writing or of a flush: the replies up to it.
        (script.failing_writes(&[1]), Status::WriteFault, b""),
        (script.failing_writes(&[2]), Status::WriteFault, b"ok\n"),
        (script.failing_writes(&[3]), Status::WriteFault, b"ok\n"),
        (script.room(5), Status::WriteFault, b"ok\nno"),
    ];
    for (trial, status, text) in rows {
        expect_play(&rt, alloc, &trial, status, text)?;
    }
    Ok(())
}

#[test]
fn words_are_refused(rt: HostRuntime) -> Result<(), Fail> {
    let alloc = rt.alloc();
    let usage: &[u8] = b"usage: hac [--new] [--tick N] [--make NUMBER] STORE [NAME=FILE]...\n";
    let rows: [(u64, &[u64], Status, &[u8]); 4] = [
        (ROOM, &[], Status::Usage, usage),
        (4, &[], Status::WriteFault, b"usag"),
        (0, &[], Status::WriteFault, b""),
        // The line is flushed.
        (ROOM, &[2], Status::WriteFault, usage),
    ];
    for (room, failing, status, text) in rows {
        expect_usage(&rt, alloc, room, failing, status, text)?;
    }
    Ok(())
}

/// A run with words that don't fit the usage, to a sink of some room of which some calls fail.
fn expect_usage(
    rt: &impl Abort,
    alloc: Global,
    room: u64,
    failing: &[u64],
    status: Status,
    text: &[u8],
) -> Result<(), Fail> {
    let mut input = MemorySource::new(alloc, b"fly\n", &[], &[])?;
    let mut output = MemorySink::new(alloc, room, ROOM, failing)?;
    let mut disk = failing_disk(alloc, &[])?;
    let words = ["--new", "S", "T"];
    let ended = run_with(alloc, &words, &mut input, &mut output, &mut disk)?;
    assert_eq!(rt; ended, status, "where {text:?} is wanted");
    assert_eq!(rt; output.written(), text);
    Ok(())
}

/// A source that makes the bytes of a script of a given length: each read gives a comment, and one
/// read near the limit begins with a command.
#[derive(Drop)]
struct LongScript<'a> {
    command: &'a [u8],
    at: u64,
    end: u64,
    commands: u64,
    ended: bool,
}

impl<'a> Source for LongScript<'a> {
    ghost use Rattle.std.specs.Prelude.{None};

    ghost seen = { λ source. record { left = None; faults = 0; ended = source.ended } };

    fn read(&mut self, into: &mut [u8]) -> Result<usize, Failed> {
        let left = self.end.saturating_sub(self.at);
        let count = left.min(into.len() as u64) as usize;
        into[..count].fill(b'#');
        if count > 0 {
            into[count - 1] = b'\n';
        }
        if self.commands == 0 && left <= 8192 && count > self.command.len() {
            into[..self.command.len()].copy_from_slice(self.command);
            self.commands = 1;
        }
        self.at = self.at.saturating_add(count as u64);
        self.ended = count == 0 && !into.is_empty();
        Ok(count)
    }
}

#[test]
fn longest_script_is_played(rt: HostRuntime) -> Result<(), Fail> {
    let alloc = rt.alloc();
    let write = b"write /a x\n".as_slice();
    // A line that asks for more bytes than a script may have.
    let put = b"put /a 9999999999\n".as_slice();
    let rows: [(u64, &[u8], Status, &[u8]); 4] = [
        (SCRIPT_LIMIT, write, Status::Done, b"ok\n"),
        (SCRIPT_LIMIT + 1, write, Status::TooLong, b"ok\n"),
        (SCRIPT_LIMIT, put, Status::SomeRefused, b"no short-put\n"),
        (SCRIPT_LIMIT + 1, put, Status::TooLong, b""),
    ];
    for (end, command, status, text) in rows {
        expect_long(&rt, alloc, end, command, status, text)?;
    }
    Ok(())
}

/// A run of a script of `end` bytes with one command near its end.
fn expect_long(
    rt: &impl Abort,
    alloc: Global,
    end: u64,
    command: &[u8],
    status: Status,
    text: &[u8],
) -> Result<(), Fail> {
    let mut input = LongScript {
        command,
        at: 0,
        end,
        commands: 0,
        ended: false,
    };
    let mut output = MemorySink::new(alloc, ROOM, ROOM, &[])?;
    let mut disk = failing_disk(alloc, &[])?;
    let ended = run_with(alloc, &NEW, &mut input, &mut output, &mut disk)?;
    assert_eq!(rt; ended, status, "of {end} bytes");
    assert_eq!(rt; output.written(), text, "of {end} bytes");
    Ok(())
}

/// A `put` of `count` bytes, of which the last are a word, and two lines behind them.
fn long_put(alloc: Global, line: &[u8], count: u64) -> Result<Vec<u8>, AllocError> {
    let mut script = Vec::from_slice(alloc, b"smkdir /s end\n")?;
    script.extend_from_slice(line)?;
    for _ in 4..count {
        script.push(b'\n')?;
    }
    script.extend_from_slice(b" endindex\nsls /s")?;
    Ok(script)
}

#[test]
fn longest_text_is_put(rt: HostRuntime) -> Result<(), Fail> {
    let alloc = rt.alloc();
    let longest = long_put(alloc, b"put /a 1048576\n", TEXT_LIMIT)?;
    let bytes = vec![in alloc; 1u64; longest.len() + 1]?;
    let trial = trial_of(&longest).pieces(&bytes);
    expect_play(&rt, alloc, &trial, Status::Done, b"ok\nok\nok\nt /a\nok\n")?;
    let rows: [(&[u8], &[u8]); 2] = [
        (b"put /a 1048577\n", b"ok\nno limit text\nok\nok\n"),
        (b"put \"\" 1048577\n", b"ok\nno bad-name\nok\nok\n"),
    ];
    for (line, text) in rows {
        expect_too_long(&rt, alloc, line, text)?;
    }
    Ok(())
}

/// A `put` of one byte more than a text may have.
fn expect_too_long(rt: &impl Abort, alloc: Global, line: &[u8], text: &[u8]) -> Result<(), Fail> {
    let script = long_put(alloc, line, TEXT_LIMIT + 1)?;
    expect_play(rt, alloc, &trial_of(&script), Status::SomeRefused, text)
}

#[test]
fn faults_inside_a_put_leave_it_unanswered(rt: HostRuntime) -> Result<(), Fail> {
    let alloc = rt.alloc();
    let script = trial_of(b"fly\nput /a 4\nabcdfly");
    let rows: [(Trial<'_>, &[u8]); 4] = [
        // Within the bytes, and directly behind the line.
        (script.pieces(&[15]).failing_reads(&[2]), b"no bad-line\n"),
        (script.pieces(&[13]).failing_reads(&[2]), b"no bad-line\n"),
        // All bytes came.
        (
            script.pieces(&[17]).failing_reads(&[2]),
            b"no bad-line\nok\n",
        ),
        (
            script.pieces(&[1; 32]).failing_reads(&[18]),
            b"no bad-line\nok\n",
        ),
    ];
    for (trial, text) in rows {
        expect_play(&rt, alloc, &trial, Status::ReadFault, text)?;
    }
    Ok(())
}
