//! Areas: where a new one goes, and how it is written. All bytes behind the head of a store that
//! aren't in the live area are free.
ghost use Rattle.std.specs.Prelude.{◌≡◌, ◌+◌, ◌<◌, ◌∷◌, ◌^◌, nat_le, IfOk, OnOk, length};
ghost use Rattle.byteorder.specs.Endian.{little_bytes};
ghost use Rattle.hac_outside.specs.Causes.{HasCause};
ghost use Rattle.hac_disk.specs.Contents.{HasByteAt, StartsWithin, Written};
ghost use Rattle.hac_disk.specs.Images.{IsSettled};
ghost use Rattle.hac_checkpoint.specs.Areas.{area_of, place_for};
ghost use Rattle.hac_checkpoint.specs.Writes.{WritesWithin};

use crate::heads::FIRST_AREA;
use byteorder::{ByteOrder, LittleEndian};
use hac_disk::{Disk, write_stable};
use hac_journal::{CLOSED, OPEN};
use hac_outside::Failed;

/// Where an area is.
#[derive(Clone, Copy, Debug, PartialEq, Eq)]
pub struct Area {
    /// The place of its first gate.
    pub start: u64,
    /// The place of the closed gate behind its records.
    pub end: u64,
}

/// Where a new area goes that has one record, with a payload of so many bytes. It goes before the
/// live area where there is room for it, else behind it, and nowhere if it would end behind the
/// limit. So it never lies over the live one.
pub fn area_place(limit: u64, live: Area, payload: u64) -> Option<u64>
    ensures { result ≡ place_for limit live (payload + 6) }
{
    if ends_within(live.start, FIRST_AREA, payload) {
        return Some(FIRST_AREA);
    }
    if live.end < limit && ends_within(limit, live.end + 1, payload) {
        return Some(live.end + 1);
    }
    None
}

// Whether an area at that place with such a record ends within the limit.
fn ends_within(limit: u64, at: u64, payload: u64) -> bool
    ensures { result ≡ nat_le (at + (payload + 6)) limit }
{
    at <= limit && 6 <= limit - at && payload <= limit - at - 6
}

/// Writes an area with one record, and answers the place of its closed gate. It takes no memory. No
/// root leads to the area yet, so its first gate is written open.
pub fn write_area<D: Disk>(disk: &mut D, at: u64, payload: &[u8]) -> Result<u64, Failed>
    requires place { StartsWithin (D.seen disk.old).contents at }
    requires size { length payload.now < 2 ^ 32 }
    requires room { at + 6 + length payload.now < 2 ^ 64 }
    ensures end { IfOk result (λ end. end ≡ at + 5 + length payload.now) }
    ensures written { OnOk result
        (Written (D.seen disk.old).contents at (area_of payload.now) (D.seen disk.new).contents) }
    ensures settled { OnOk result (IsSettled (D.seen disk.new)) }
    ensures gate { IfOk result (λ end. HasByteAt (D.seen disk.new).contents end) }
    ensures elsewhere { WritesWithin at (length payload.now + 6) (D.seen disk.old)
        (D.seen disk.new) }
    ensures attached { (D.seen disk.new).attached ≡ (D.seen disk.old).attached }
    ensures cause { HasCause (D.seen disk.old).faults (D.seen disk.new).faults result }
{
    let head = record_head(payload.len() as u32);
    let end = at + 5 + payload.len() as u64;
    disk.write_at(at, &head)?;
    disk.write_at(at + 5, payload)?;
    write_stable(disk, end, &[CLOSED])?;
    Ok(end)
}

// An open gate, and the length of the record behind it.
fn record_head(size: u32) -> [u8; 5]
    ensures { result ≡ 1 ∷ little_bytes 4 size }
{
    let mut head = [OPEN; 5];
    LittleEndian::write_u32(&mut head[1..], size);
    head
}
