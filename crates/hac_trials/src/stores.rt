//! Runs on one store after the other, and over disks that fail.
ghost use Rattle.std.specs.Prelude.{◌≤◌, IfOk};

use crate::runs::{NEW, OLD, Trial, expect_run, failing_disk, play_on, reply, trial_of};
use hac_disk::FuseDisk;
use hac_model::Memory;
use hac_top::Status;
use std::alloc::Global;
use std::process::Abort;
use std::test::Fail;

#[test]
fn second_run_finds_what_the_first_made(rt: HostRuntime) -> Result<(), Fail> {
    let alloc = rt.alloc();
    let mut disk = failing_disk(alloc, &[])?;
    let rows: [(&[&str], &[u8], Status, &[u8]); 4] = [
        // The file is no store yet.
        (&OLD, b"ls\n", Status::NotStore { at: 0 }, b""),
        (
            &NEW,
            b"mkdir /a\nsmkdir /s apple\nwrite /a/f apple\nindex\n",
            Status::Done,
            b"ok\nok\nok\nok\n",
        ),
        (
            &OLD,
            b"ls\nsls /s\n",
            Status::Done,
            b"d a\ns s\nok\nt /a/f\nok\n",
        ),
        (&NEW, b"mkdir /b\n", Status::AlreadyStore, b""),
    ];
    for (words, script, status, text) in rows {
        expect_run(&rt, alloc, words, script, &mut disk, status, text)?;
    }
    Ok(())
}

/// How many calls of the disk make a new store: a disk that passes fewer isn't enough.
fn calls_of_a_new_store(alloc: Global) -> Result<u64, Memory>
    ensures { IfOk result (λ calls. calls ≤ 64) }
{
    for calls in 0..64 {
        let mut disk = FuseDisk::new(failing_disk(alloc, &[])?, calls);
        let (status, _) = reply(alloc, &NEW, b"", &mut disk)?;
        if status == Status::Done {
            return Ok(calls);
        }
    }
    Ok(64)
}

#[test]
fn disk_that_stops_within_a_command(rt: HostRuntime) -> Result<(), Fail> {
    let alloc = rt.alloc();
    // The calls behind those for the new store are the record, a sync, its gate, a sync.
    let made = calls_of_a_new_store(alloc)?;
    let rows: [(u64, Status, &[u8], &[u8]); 5] = [
        (made, Status::DiskFault, b"", b"ok\n"),
        (made + 1, Status::DiskFault, b"", b"ok\n"),
        (made + 2, Status::DiskFault, b"", b"ok\n"),
        // The gate was written, though it isn't known to last.
        (made + 3, Status::DiskFault, b"", b"d a\nok\n"),
        (made + 4, Status::Done, b"ok\n", b"d a\nok\n"),
    ];
    for (calls, status, text, found) in rows {
        expect_stop(&rt, alloc, calls, status, text, found)?;
    }
    Ok(())
}

/// A command on a disk that stops after some calls ends with the status and replies the text, and
/// the next run finds what is there.
fn expect_stop(
    rt: &impl Abort,
    alloc: Global,
    calls: u64,
    status: Status,
    text: &[u8],
    found: &[u8],
) -> Result<(), Fail> {
    let mut fuse = FuseDisk::new(failing_disk(alloc, &[])?, calls);
    expect_run(rt, alloc, &NEW, b"mkdir /a\n", &mut fuse, status, text)?;
    let mut disk = fuse.into_disk();
    expect_run(rt, alloc, &OLD, b"ls\n", &mut disk, Status::Done, found)
}

#[test]
fn failed_disk_call_is_not_tried_again(rt: HostRuntime) -> Result<(), Fail> {
    let alloc = rt.alloc();
    let last = calls_of_a_new_store(alloc)? + 4;
    for call in 1..last + 1 {
        expect_failure(&rt, alloc, call, Status::DiskFault, b"")?;
    }
    let text = b"ok\nno bad-line\n";
    expect_failure(&rt, alloc, last + 1, Status::SomeRefused, text)
}

/// A run on a new store, of whose calls of the disk one fails.
fn expect_failure(
    rt: &impl Abort,
    alloc: Global,
    call: u64,
    status: Status,
    text: &[u8],
) -> Result<(), Fail> {
    let mut disk = failing_disk(alloc, &[call])?;
    let script = b"mkdir /a\nfly\n";
    expect_run(rt, alloc, &NEW, script, &mut disk, status, text)
}

#[test]
fn record_is_on_the_disk_before_the_reply(rt: HostRuntime) -> Result<(), Fail> {
    let alloc = rt.alloc();
    let script = trial_of(b"mkdir /a\nmkdir /b\nmkdir /c\n");
    let rows: [(Trial<'_>, &[u8]); 3] = [
        // The first reply can't be written, or can't be flushed: nothing behind its line is taken
        // up.
        (script.failing_writes(&[1]), b"d a\nok\n"),
        (script.failing_writes(&[2]), b"d a\nok\n"),
        (script.failing_writes(&[3]), b"d a\nd b\nok\n"),
    ];
    for (trial, found) in rows {
        expect_record(&rt, alloc, &trial, found)?;
    }
    Ok(())
}

/// After a run whose sink fails, the next run finds what was stored.
fn expect_record(
    rt: &impl Abort,
    alloc: Global,
    trial: &Trial<'_>,
    found: &[u8],
) -> Result<(), Fail> {
    let mut disk = failing_disk(alloc, &[])?;
    let (ended, _) = play_on(alloc, trial, &mut disk)?;
    assert_eq!(rt; ended, Status::WriteFault, "where {found:?} is wanted");
    expect_run(rt, alloc, &OLD, b"ls\n", &mut disk, Status::Done, found)
}
