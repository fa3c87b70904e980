//! A disk over a real file.
use hac_disk::{Disk, FileDisk};
use hac_outside::Failed;
use std::fs;
use std::process::Abort;
use std::test::Fail;

#[test]
fn disk_over_a_real_file(rt: HostRuntime) -> Result<(), Fail> {
    let mut disk = FileDisk::new(&rt);
    expect_made(&rt, &mut disk);
    expect_kept(&rt, &mut disk);
    drop(disk);
    fs::remove_file(&rt, "hac_disk_test.store")?;
    Ok(())
}

/// The file is made, and four bytes are written to it.
fn expect_made(rt: &impl Abort, disk: &mut FileDisk<'_>) {
    assert_eq!(rt; disk.len(), Err(Failed));
    assert_eq!(rt; disk.attach("hac_disk_test.store", false), Err(Failed));
    assert_eq!(rt; disk.attach("hac_disk_test.store", true), Ok(()));
    assert_eq!(rt; disk.write_at(0, b"abcd"), Ok(()));
    assert_eq!(rt; disk.sync(), Ok(()));
}

/// It is attached again, and has those bytes. Nothing is read or written behind its end.
fn expect_kept(rt: &impl Abort, disk: &mut FileDisk<'_>) {
    let mut into = [0; 3];
    assert_eq!(rt; disk.attach("hac_disk_test.store", false), Ok(()));
    assert_eq!(rt; disk.len(), Ok(4));
    assert_eq!(rt; disk.read_at(1, &mut into), Ok(()));
    assert_eq!(rt; into, *b"bcd");
    assert_eq!(rt; disk.read_at(2, &mut into), Err(Failed));
    assert_eq!(rt; disk.write_at(5, b"e"), Err(Failed));
}

#[test]
fn file_that_another_disk_has_open(rt: HostRuntime) -> Result<(), Fail> {
    let mut disk = FileDisk::new(&rt);
    let mut other = FileDisk::new(&rt);
    expect_locked(&rt, &mut disk, &mut other);
    drop(disk);
    expect_free(&rt, &mut other);
    drop(other);
    fs::remove_file(&rt, "hac_lock_test.store")?;
    Ok(())
}

/// While one disk has the file, it can be written to through that one alone.
fn expect_locked(rt: &impl Abort, disk: &mut FileDisk<'_>, other: &mut FileDisk<'_>) {
    assert_eq!(rt; disk.attach("hac_lock_test.store", true), Ok(()));
    assert_eq!(rt; other.attach("hac_lock_test.store", false), Err(Failed));
    assert_eq!(rt; other.attach("hac_lock_test.store", true), Err(Failed));
    assert_eq!(rt; disk.write_at(0, b"abcd"), Ok(()));
}

/// The other disk gets the file, with what was written to it.
fn expect_free(rt: &impl Abort, other: &mut FileDisk<'_>) {
    assert_eq!(rt; other.attach("hac_lock_test.store", false), Ok(()));
    assert_eq!(rt; other.len(), Ok(4));
}
