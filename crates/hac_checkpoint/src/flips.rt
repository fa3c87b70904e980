//! The flip from one root to the next. The slot that doesn't count gets the next root behind a
//! closed gate; then its gate is opened. A crash leaves the one root or the other.
ghost use Rattle.std.specs.Prelude.{◌≡◌, ◌⊎◌, ◌+◌, ◌-◌, ◌<◌, ◌≤◌, ◌^◌, ◌++◌, ℕ, IfOk, IfSome, OnOk};
ghost use Rattle.byteorder.specs.Endian.{little_bytes};
ghost use Rattle.hac_outside.specs.Causes.{HasCause};
ghost use Rattle.hac_disk.specs.Images.{IsQuiet, LeavesOnly};
ghost use Rattle.hac_disk.specs.Contents.{RangeWithin};
ghost use Rattle.hac_checkpoint.specs.Flips.{HasRoot, HasSpareSlot, IsFilled, WritesSpare};
ghost use Rattle.hac_checkpoint.specs.Flips.{next_root, other_slot};
ghost use Rattle.hac_checkpoint.specs.Roots.{gate_of, is_open};
ghost use Rattle.hac_checkpoint.specs.Writes.{IsSettledWith, WritesWithin};

use crate::heads::{Root, Slot, gate_place};
use byteorder::{ByteOrder, LittleEndian};
use hac_disk::{Disk, write_stable};
use hac_journal::{CLOSED, OPEN};
use hac_outside::Failed;

impl Slot {
    /// The other one of the two.
    pub fn other(self) -> Slot
        ensures { result ≡ other_slot self }
    {
        match self {
            Slot::A => Slot::B,
            Slot::B => Slot::A,
        }
    }
}

/// The first half of a flip: the slot that doesn't count gets the next root, of an area that begins
/// at `start`. Its gate is closed first, where it is open. A gate that is closed isn't written: the
/// write might be torn and open it before what was in the slot.
pub fn close_and_fill<D: Disk>(disk: &mut D, live: Root, start: u64) -> Result<(), Failed>
    requires head { RangeWithin (D.seen disk.old).contents 0 64 }
    requires generation { live.generation < 2 ^ 64 - 1 }
    ensures { WritesSpare live (HasRoot live) (IsFilled live start)
        (D.seen disk.old) (D.seen disk.new) result }
{
    close_spare(disk, live)?;
    fill_spare(disk, live, start)
}

// Closes the slot that doesn't count, where it is open.
fn close_spare<D: Disk>(disk: &mut D, live: Root) -> Result<(), Failed>
    requires { RangeWithin (D.seen disk.old).contents 0 64 }
    ensures { WritesSpare live (HasRoot live) (HasSpareSlot live)
        (D.seen disk.old) (D.seen disk.new) result }
{
    let slot = live.slot.other();
    if !reads_open(disk, slot)? {
        return Ok(());
    }
    write_stable(disk, gate_place(slot) as u64, &[CLOSED])
}

// Whether the gate of a slot is open.
fn reads_open<D: Disk>(disk: &mut D, slot: Slot) -> Result<bool, Failed>
    requires { RangeWithin (D.seen disk.old).contents 0 64 }
    ensures gate { IfOk result (λ gate.
        IfSome (D.seen disk.old).contents (λ file. gate ≡ is_open slot file)) }
    ensures quiet { IsQuiet (D.seen disk.old) (D.seen disk.new) }
    ensures attached { (D.seen disk.new).attached ≡ (D.seen disk.old).attached }
    ensures cause { HasCause (D.seen disk.old).faults (D.seen disk.new).faults result }
{
    let mut gate = [CLOSED];
    disk.read_at(gate_place(slot) as u64, &mut gate)?;
    Ok(gate[0] == OPEN)
}

// Writes the next root into the slot that doesn't count, behind its gate.
fn fill_spare<D: Disk>(disk: &mut D, live: Root, start: u64) -> Result<(), Failed>
    requires head { RangeWithin (D.seen disk.old).contents 0 64 }
    requires generation { live.generation < 2 ^ 64 - 1 }
    ensures { WritesSpare live (HasSpareSlot live) (IsFilled live start)
        (D.seen disk.old) (D.seen disk.new) result }
{
    let body = slot_body(live.generation + 1, start);
    write_stable(disk, gate_place(live.slot.other()) as u64 + 1, &body)
}

// What is behind the gate of a slot.
fn slot_body(generation: u64, start: u64) -> [u8; 16]
    ensures { result ≡ little_bytes 8 generation ++ little_bytes 8 start }
{
    let mut body = [0; 16];
    LittleEndian::write_u64(&mut body, generation);
    LittleEndian::write_u64(&mut body[8..], start);
    body
}

/// The second half of a flip: the slot that `close_and_fill` filled is opened. From then on its
/// root counts.
pub fn open_root<D: Disk>(disk: &mut D, live: Root) -> Result<(), Failed>
    requires { RangeWithin (D.seen disk.old).contents 0 64 }
    ensures opened { (start : ℕ) → 64 ≤ start →
        IsSettledWith (IsFilled live start) (D.seen disk.old) →
        OnOk result (IsSettledWith (HasRoot (next_root live start)) (D.seen disk.new)) }

    // At each moment a crash leaves the live root, or the next one.
    ensures any_moment { (start : ℕ) → 64 ≤ start →
        IsSettledWith (IsFilled live start) (D.seen disk.old) →
        LeavesOnly (D.seen disk.old) (D.seen disk.new)
        (λ c. HasRoot live c ⊎ HasRoot (next_root live start) c) }

    ensures elsewhere { WritesWithin (gate_of (other_slot live.slot)) 1 (D.seen disk.old)
        (D.seen disk.new) }
    ensures attached { (D.seen disk.new).attached ≡ (D.seen disk.old).attached }
    ensures cause { HasCause (D.seen disk.old).faults (D.seen disk.new).faults result }
{
    write_stable(disk, gate_place(live.slot.other()) as u64, &[OPEN])
}
