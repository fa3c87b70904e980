//! Making a new store: all of it is written behind a closed gate, which is then opened.
ghost use Rattle.std.specs.Prelude.{◌≡◌, ◌⊎◌, ◌≤◌, ◌+◌, Err, IfSome, IsErr, IsOk, OnOk};
ghost use Rattle.hac_outside.specs.Causes.{HasCause};
ghost use Rattle.hac_disk.specs.Images.{IsQuiet, IsSettled, LeavesOnly};
ghost use Rattle.hac_disk.specs.Contents.{HasByteAt};
ghost use Rattle.hac_journal.specs.Appending.{ClosedAt};
ghost use Rattle.hac_model.specs.Run.Play.{new_setting};
ghost use Rattle.hac_store.specs.Creating.{Creates, HoldsNone, IsReady, SyncsFirst, WritesNew};
ghost use Rattle.hac_store.specs.Creating.{none_in};
ghost use Rattle.hac_store.specs.Held.{held};
ghost use Rattle.hac_store.specs.Loading.{loading};
ghost use Rattle.hac_store.specs.Stores.{Bears, IsNewOrNone, Stands, first_store};

use crate::fault::StoreFault;
use crate::opening::read_unlinked;
use crate::store::Store;
use hac_checkpoint::Slot;
use hac_core::Machine;
use hac_disk::{Disk, write_stable};
use hac_journal::{CLOSED, OPEN};
use hac_model::Version;
use hac_outside::{Failed, Steps};
use std::alloc::Global;
use std::sync::ledger::Ledger;

// A closed gate, the format's name, slot A with the first generation and the place 64, slot B with
// nothing, 21 bytes that tell nothing, and an empty log.
const NEW: [u8; 65] =
    *b"\0HACSTOR1\x01\x01\0\0\0\0\0\0\0\x40\0\0\0\0\0\0\0\0\0\0\0\0\0\0\0\0\0\0\0\0\0\0\0\0\0\0\0\0\0\0\0\0\0\0\0\0\0\0\0\0\0\0\0\0\0\0";

impl Store {
    /// Makes a new store on a disk that holds none. After `Memory` nothing was written.
    pub fn create<D: Disk, L: Ledger>(
        alloc: Global,
        disk: &mut D,
        probes: &mut Steps<L>,
    ) -> Result<Store, StoreFault>
        ensures creates { Creates (D.seen disk.old) (D.seen disk.new) result }
        ensures new { IfSome (D.seen disk.old).contents (λ file. OnOk result (IsErr (held file))) }
        ensures already { IfSome (D.seen disk.old).contents
            (λ file. result ≡ Err StoreFault.AlreadyStore → IsOk (held file)) }
        ensures quiet { IfSome (D.seen disk.old).contents (λ file. IsOk (held file) →
            IsQuiet (D.seen disk.old) (D.seen disk.new)) }
        // At each moment a crash leaves what it might have left before, or the root alone, or no
        // store.
        ensures any_moment { IfSome (D.seen disk.old).contents (λ file. IsErr (held file) →
            LeavesOnly (D.seen disk.old) (D.seen disk.new)
            (λ c. (D.seen disk.old).image c ⊎ IsNewOrNone c)) }
        // What might have been left before is gone with the opening sync.
        ensures synced { IfSome (D.seen disk.old).contents (λ file. IsErr (held file) →
            SyncsFirst D.seen D.does IsNewOrNone disk.old disk.new result) }
        ensures probes { IfSome (D.seen disk.old).contents
            (λ file. probes.new ≤ probes.old + loading file) }
    {
        disk.sync()?;
        none(read_unlinked(alloc, disk, probes).err())?;
        new_store(alloc, disk)
    }
}

// What prevents making a store, given why none was read.
fn none(found: Option<StoreFault>) -> Result<(), StoreFault>
    ensures { result ≡ none_in found }
{
    match found {
        None => Err(StoreFault::AlreadyStore),
        Some(StoreFault::NotStore { .. }) => Ok(()),
        Some(fault) => Err(fault),
    }
}

// Makes a new store over a file that holds none.
fn new_store<D: Disk>(alloc: Global, disk: &mut D) -> Result<Store, StoreFault>
    requires settled { IsSettled (D.seen disk.old) }
    requires unheld { HoldsNone (D.seen disk.old).contents }
    ensures creates { Creates (D.seen disk.old) (D.seen disk.new) result }
    ensures any_moment { IfSome (D.seen disk.old).contents
        (λ _. LeavesOnly (D.seen disk.old) (D.seen disk.new) IsNewOrNone) }
    ensures none { result ≡ Err StoreFault.AlreadyStore → ⊥ }
{
    let machine = Machine::new(alloc, Version::Two)?;
    match write_new(disk) {
        Ok(()) => Ok(Store {
            alloc,
            machine,
            slot: Slot::A,
            start: 64,
            end: 64,
            generation: 1,
            broken: false,
        }),
        Err(_) => {
            drop(machine);
            Err(StoreFault::Disk)
        }
    }
}

// Writes the bytes of a new store over a file that holds none.
fn write_new<D: Disk>(disk: &mut D) -> Result<(), Failed>
    requires settled { IsSettled (D.seen disk.old) }
    requires unheld { HoldsNone (D.seen disk.old).contents }
    ensures stands { IfSome (D.seen disk.old).contents (λ _. OnOk result
        (Stands (D.seen disk.new) new_setting)) }
    ensures place { OnOk result (Bears (D.seen disk.new) first_store) }
    ensures any_moment { IfSome (D.seen disk.old).contents
        (λ _. LeavesOnly (D.seen disk.old) (D.seen disk.new) IsNewOrNone) }
    ensures attached { (D.seen disk.new).attached ≡ (D.seen disk.old).attached }
    ensures cause { HasCause (D.seen disk.old).faults (D.seen disk.new).faults result }
{
    write_head(disk)?;
    write_stable(disk, 0, &[OPEN])
}

// Writes all of a new store but its open gate.
fn write_head<D: Disk>(disk: &mut D) -> Result<(), Failed>
    requires settled { IsSettled (D.seen disk.old) }
    requires unheld { HoldsNone (D.seen disk.old).contents }
    ensures { WritesNew IsReady (D.seen disk.old) (D.seen disk.new) result }
{
    if disk.len()? == 0 {
        return write_stable(disk, 0, &NEW);
    }
    close(disk)?;
    write_stable(disk, 1, &NEW[1..])
}

// Closes the gate of the store, where it is open.
fn close<D: Disk>(disk: &mut D) -> Result<(), Failed>
    requires some { HasByteAt (D.seen disk.old).contents 0 }
    requires settled { IsSettled (D.seen disk.old) }
    requires unheld { HoldsNone (D.seen disk.old).contents }
    ensures { WritesNew (ClosedAt 0) (D.seen disk.old) (D.seen disk.new) result }
{
    let mut gate = [OPEN];
    disk.read_at(0, &mut gate)?;
    if gate[0] != OPEN {
        return Ok(());
    }
    write_stable(disk, 0, &[CLOSED])
}
