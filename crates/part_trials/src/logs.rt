//! One look at a log, which the program does through a reader alone.
use hac_disk::MemoryDisk;
use hac_journal::{Next, next};
use std::test::Fail;

#[test]
fn record_cut_short(rt: HostRuntime) -> Result<(), Fail> {
    let alloc = rt.alloc();
    let mut disk = MemoryDisk::new(alloc, &[1, 2, 0, 0, 0, b'h', b'i'], 0, &[], 0, 9, &[])?;
    assert!(rt; matches!(next(alloc, &mut disk, 0)?, Next::Bad { at: 7 }));
    assert!(rt; matches!(next(alloc, &mut disk, 4)?, Next::End));
    Ok(())
}
