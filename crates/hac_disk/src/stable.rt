//! A write that lasts.
ghost use Rattle.std.specs.Prelude.{◌≡◌, OnErr, OnOk, length};
ghost use Rattle.hac_outside.specs.Causes.{HasCause};
ghost use Rattle.hac_disk.specs.Images.{Follows, IsSettled, LeavesOnly, Torn, TornFrom};
ghost use Rattle.hac_disk.specs.Contents.{StartsWithin, Written, WrittenInPart};

use super::disks::Disk;
use hac_outside::Failed;

/// Writes and syncs: after Ok the bytes are on the disk, and so is all that was written before.
pub fn write_stable<D: Disk>(disk: &mut D, at: u64, bytes: &[u8]) -> Result<(), Failed>
    requires { StartsWithin (D.seen disk.old).contents at }
    ensures written { OnOk result (Written (D.seen disk.old).contents at bytes.now
        (D.seen disk.new).contents) }
    ensures in_part { OnErr result (WrittenInPart (D.seen disk.old).contents at (length bytes.now)
        (D.seen disk.new).contents) }
    ensures settled { OnOk result (IsSettled (D.seen disk.new)) }
    ensures images { Follows (Torn at (length bytes.now)) (D.seen disk.old).image
        (D.seen disk.new).image }
    ensures any_moment { LeavesOnly (D.seen disk.old) (D.seen disk.new)
        (TornFrom at (length bytes.now) (D.seen disk.old).image) }
    ensures attached { (D.seen disk.new).attached ≡ (D.seen disk.old).attached }
    ensures cause { HasCause (D.seen disk.old).faults (D.seen disk.new).faults result }
{
    disk.write_at(at, bytes)?;
    disk.sync()
}
