//! Runs with checkpoints over a disk that stops at some call: what is there when the store is
//! opened again.
use crate::runs::{NEW, OLD, expect_run, failing_disk, reply};
use hac_disk::{FuseDisk, MemoryDisk};
use hac_top::Status;
use std::alloc::Global;
use std::process::Abort;
use std::test::Fail;

/// A store in which the directory `/a` was made.
const STORE: [u8; 78] = *b"\x01HACSTOR1\
    \x01\x01\0\0\0\0\0\0\0\x40\0\0\0\0\0\0\0\
    \0\0\0\0\0\0\0\0\0\0\0\0\0\0\0\0\0\
    \0\0\0\0\0\0\0\0\0\0\0\0\0\0\0\0\0\0\0\0\0\
    \x01\x08\0\0\0\x01\x01\0\0\0\0\x01a\0";

/// More calls than any run here makes.
const MOST_CALLS: u64 = 200;

#[test]
fn checkpoint_is_stopped_at_any_call(rt: HostRuntime) -> Result<(), Fail> {
    let alloc = rt.alloc();
    let script = b"checkpoint\ncheckpoint\ncheckpoint\n";
    for calls in 0..MOST_CALLS {
        let disk = MemoryDisk::new(alloc, &STORE, 0, &[], 1_000_000, 1_000, &[])?;
        let mut fuse = FuseDisk::new(disk, calls);
        let (status, replied) = reply(alloc, &OLD, script, &mut fuse)?;
        let mut disk = fuse.into_disk();
        expect_run(
            &rt,
            alloc,
            &OLD,
            b"ls\n",
            &mut disk,
            Status::Done,
            b"d a\nok\n",
        )?;
        if status == Status::Done {
            assert_eq!(rt; replied.as_slice(), b"ok\nok\nok\n".as_slice());
            return Ok(());
        }
        assert_eq!(rt; status, Status::DiskFault, "after {calls} calls");
    }
    assert!(rt; false, "no run ended");
    Ok(())
}

#[test]
fn commands_around_a_checkpoint_are_stopped_at_any_call(rt: HostRuntime) -> Result<(), Fail> {
    let alloc = rt.alloc();
    let script = b"mkdir /a\nwrite /a/f x\nsmkdir /s x\nindex\ncheckpoint\nrm /a/f\n";
    for calls in 0..MOST_CALLS {
        let mut fuse = FuseDisk::new(new_store(&rt, alloc)?, calls);
        let (status, replied) = reply(alloc, &OLD, script, &mut fuse)?;
        let mut disk = fuse.into_disk();
        let (_, found) = reply(alloc, &OLD, b"counts\n", &mut disk)?;
        let answered = replied.len() / 3;
        let kept = found.as_slice() == counts(answered) || found.as_slice() == counts(answered + 1);
        assert!(rt; kept, "after {answered} replies: {found:?}");
        if status == Status::Done {
            assert_eq!(rt; answered, 6);
            return Ok(());
        }
    }
    assert!(rt; false, "no run ended");
    Ok(())
}

/// What there is once so many of these commands were carried out.
fn counts(commands: usize) -> &'static [u8] {
    match commands {
        0 => {
            b"= files 0 documents 0 directories 0 semantic 0 mounts 0 symbolic 0 \
                transient 0 permanent 0 prohibited 0 dirty 0 next 1\nok\n"
        }
        1 => {
            b"= files 0 documents 0 directories 1 semantic 0 mounts 0 symbolic 0 \
                transient 0 permanent 0 prohibited 0 dirty 0 next 2\nok\n"
        }
        2 => {
            b"= files 1 documents 0 directories 1 semantic 0 mounts 0 symbolic 0 \
                transient 0 permanent 0 prohibited 0 dirty 1 next 3\nok\n"
        }
        3 => {
            b"= files 1 documents 0 directories 1 semantic 1 mounts 0 symbolic 0 \
                transient 0 permanent 0 prohibited 0 dirty 1 next 4\nok\n"
        }
        4 | 5 => {
            b"= files 1 documents 0 directories 1 semantic 1 mounts 0 symbolic 0 \
                transient 1 permanent 0 prohibited 0 dirty 0 next 4\nok\n"
        }
        _ => {
            b"= files 0 documents 0 directories 1 semantic 1 mounts 0 symbolic 0 \
                transient 0 permanent 0 prohibited 0 dirty 0 next 4\nok\n"
        }
    }
}

/// A disk with a store that holds the root alone.
fn new_store(rt: &impl Abort, alloc: Global) -> Result<MemoryDisk, Fail> {
    let mut disk = failing_disk(alloc, &[])?;
    expect_run(rt, alloc, &NEW, b"", &mut disk, Status::Done, b"")?;
    Ok(disk)
}
