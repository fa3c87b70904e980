//! Putting records behind a log, all of them or none.
ghost use Rattle.std.specs.Prelude.{◌≡◌, ◌⊎◌, ◌+◌, ◌<◌, ◌↔◌, List, ℕ, IfOk, IfSome};
ghost use Rattle.std.specs.Prelude.{IsErrOf, OnOk, length};
ghost use Rattle.hac_outside.specs.Causes.{ReportsFault};
ghost use Rattle.hac_disk.specs.Images.{IsSettled, LeavesOnly};
ghost use Rattle.hac_disk.specs.Contents.{HasByteAt, Written};
ghost use Rattle.hac_journal.specs.Appending.{Appending, ClosedAt};
ghost use Rattle.hac_journal.specs.Faults.{is_disk_fault};
ghost use Rattle.hac_journal.specs.Records.{AreShort, contents_of, log_of, records_of};

use super::fault::JournalFault;
use super::records::{OPEN, log_bytes, log_end};
use hac_disk::{Disk, write_stable};
use std::alloc::Global;

/// Puts records of these payloads behind the log that ends at `end`, and answers the log's new
/// end. All but the first gate is written and synced behind the gate that is closed; then the
/// first gate is opened and synced: so a crash leaves none of the records, or all. `Full` and
/// `Memory` come before any write. The log and the closed gate behind it end within `limit`
/// bytes. Each payload is so short that its length has four bytes.
pub fn append<D: Disk>(
    alloc: Global,
    disk: &mut D,
    limit: u64,
    end: u64,
    payloads: &[Vec<u8>],
) -> Result<u64, JournalFault>
    requires some { 0 < length payloads.now }
    requires short { AreShort (contents_of payloads.now) }
    requires place { HasByteAt (D.seen disk.old).contents end }
    ensures end { IfOk result (λ new. new ≡ end + length (records_of (contents_of payloads.now))) }
    ensures written { OnOk result (Written (D.seen disk.old).contents end
        (log_of (contents_of payloads.now))
        (D.seen disk.new).contents) }
    ensures settled { OnOk result (IsSettled (D.seen disk.new)) }
    ensures gate { IfOk result (λ new. HasByteAt (D.seen disk.new).contents new) }
    ensures full { IsErrOf result JournalFault.Full ↔
        (limit < end + length (log_of (contents_of payloads.now))) }
    ensures unwritten { (IsErrOf result JournalFault.Full ⊎ IsErrOf result JournalFault.Memory) →
        disk.new ≡ disk.old }

    // At each moment a crash leaves an image from before the call, with none of the records or with
    // all.
    ensures any_moment { IfSome (D.seen disk.old).contents (λ _.
        ((c : List ℕ) → (D.seen disk.old).image c → ClosedAt end c)
        → LeavesOnly (D.seen disk.old) (D.seen disk.new)
        (Appending end (log_of (contents_of payloads.now)) (D.seen disk.old).image)) }

    ensures attached { (D.seen disk.new).attached ≡ (D.seen disk.old).attached }
    ensures faults { ReportsFault (is_disk_fault result) (D.seen disk.old).faults
        (D.seen disk.new).faults }
{
    let Some(new_end) = log_end(limit, end, payloads) else {
        return Err(JournalFault::Full);
    };
    let log = log_bytes(alloc, payloads)?;
    write_stable(disk, end + 1, &log[1..])?;
    write_stable(disk, end, &[OPEN])?;
    Ok(new_end)
}
