//! Two checkpoints of a store, call by call, on a real file.
ghost use Rattle.hac_disk.specs.Contents.{RangeWithin};
ghost use Rattle.std.specs.Prelude.{◌≡◌, ◌<◌, ◌-◌, ◌^◌};

use hac_checkpoint::{Area, Root, Slot, area_place, close_and_fill, open_root, roots, write_area};
use hac_disk::{Disk, FileDisk};
use std::fs;
use std::process::Abort;
use std::test::Fail;

/// A store in which a directory `a` was made in the root.
const STORE: [u8; 78] =
    *b"\x01HACSTOR1\x01\x01\0\0\0\0\0\0\0@\0\0\0\0\0\0\0\0\0\0\0\0\0\0\0\0\0\0\0\0\0\0\0\0\0\0\0\0\0\0\0\0\0\0\0\0\0\0\0\0\0\0\0\0\0\x01\x08\0\0\0\x01\x01\0\0\0\0\x01a\0";

/// The state of that store, as the payload of a record.
const STATE: [u8; 20] = *b"\x02\x02\0\0\0\x01\0\0\0\x01\0\0\0\0\0\0\0\x01a\x02";

#[test]
fn areas_take_turns(rt: HostRuntime) -> Result<(), Fail> {
    let mut disk = FileDisk::new(&rt);
    expect_store(&rt, &mut disk);
    assert_eq!(rt; write_area(&mut disk, 78, &STATE), Ok(103));
    expect_flip(&rt, &mut disk, root(Slot::A, 1, 64), root(Slot::B, 2, 78));
    assert_eq!(rt; write_area(&mut disk, 64, b"hi"), Ok(71));
    expect_flip(&rt, &mut disk, root(Slot::B, 2, 78), root(Slot::A, 3, 64));
    expect_bytes(
        &rt,
        &mut disk,
        26,
        b"\x01\x02\0\0\0\0\0\0\0\x4e\0\0\0\0\0\0\0",
    );
    expect_bytes(
        &rt,
        &mut disk,
        62,
        b"\0\0\x01\x02\0\0\0hi\0\0\0\0\x01a\0\x01",
    );
    drop(disk);
    fs::remove_file(&rt, "hac_area_test.store")?;
    Ok(())
}

/// The file is made, and the store is written to it.
fn expect_store(rt: &impl Abort, disk: &mut FileDisk<'_>) {
    assert_eq!(rt; disk.attach("hac_area_test.store", true), Ok(()));
    assert_eq!(rt; disk.write_at(0, &STORE), Ok(()));
}

/// What the file has at a place.
fn expect_bytes(rt: &impl Abort, disk: &mut FileDisk<'_>, at: u64, want: &[u8; 17]) {
    let mut bytes = [0; 17];
    assert_eq!(rt; disk.read_at(at, &mut bytes), Ok(()));
    assert_eq!(rt; bytes, *want);
}

/// The one root counts up to the second half of the flip, and the other from then on.
fn expect_flip<D: Disk>(rt: &impl Abort, disk: &mut D, live: Root, next: Root)
    requires head { RangeWithin (D.seen disk.old).contents 0 64 }
    requires generation { live.generation < 2 ^ 64 - 1 }
{
    assert_eq!(rt; close_and_fill(disk, live, next.start), Ok(()));
    assert_eq!(rt; roots(disk), Ok(live));
    assert_eq!(rt; open_root(disk, live), Ok(()));
    assert_eq!(rt; roots(disk), Ok(next));
}

fn root(slot: Slot, generation: u64, start: u64) -> Root
    ensures { result.generation ≡ generation }
{
    Root {
        slot,
        generation,
        start,
    }
}

#[test]
fn areas_have_their_places(rt: HostRuntime) -> Result<(), Fail> {
    for (limit, start, end, payload, want) in [
        (1 << 32, 64, 77, 20, Some(78)),
        (104, 64, 77, 20, Some(78)),
        (103, 64, 77, 20, None),
        (1 << 32, 78, 103, 8, Some(64)),
        (1 << 32, 78, 103, 9, Some(104)),
        (78, 78, 77, 8, Some(64)),
        (u64::MAX, 64, u64::MAX, 0, None),
        (u64::MAX, 64, 64, u64::MAX, None),
        (u64::MAX, u64::MAX, u64::MAX, u64::MAX - 70, Some(64)),
    ] {
        expect_place(&rt, limit, Area { start, end }, payload, want);
    }
    Ok(())
}

/// Where an area goes, or that it goes nowhere.
fn expect_place(rt: &impl Abort, limit: u64, live: Area, payload: u64, want: Option<u64>) {
    assert_eq!(rt;
        area_place(limit, live, payload),
        want,
        "{live:?}, {payload}"
    );
}
