//! Checkpoints: the state is written as a new area of version 2, in a place that the live one
//! doesn't use, and then the root flips to it. A crash leaves the one area or the other, with the
//! same state.
ghost use Rattle.std.specs.Prelude.{◌≡◌, ◌≤◌, ◌+◌, Some, IfOk, OnOk, false, length};
ghost use Rattle.hac_outside.specs.Causes.{HasCause};
ghost use Rattle.hac_disk.specs.Images.{LeavesOnly};
ghost use Rattle.hac_model.specs.Tree.Valid.{IsValid};
ghost use Rattle.hac_model.specs.Run.Checkpoints.{next_place, place_of, state_text};
ghost use Rattle.hac_model.specs.Tree.{raised};
ghost use Rattle.hac_store.specs.Checkpointing.{Checkpoints, HoldsState, IsCheckpointed, moved_to};
ghost use Rattle.hac_store.specs.Stores.{Bears, Stands, root_by};

use crate::fault::StoreFault;
use crate::store::Store;
use event_codec::write_snapshot;
use hac_checkpoint::{Area, Root, area_place, close_and_fill, open_root, write_area};
use hac_disk::Disk;
use hac_model::{Memory, STORE_LIMIT, Version};
use hac_outside::Failed;

impl Store {
    /// Writes the state as a new area of version 2, in a place that the live one doesn't use, and
    /// then flips the root to it. The log goes on behind the state, in that version. After `Full`
    /// and `Memory` nothing was written and all is as before; after `Disk` the store is broken.
    pub fn checkpoint<D: Disk>(&mut self, disk: &mut D) -> Result<(), StoreFault>
        requires intact { self.old.broken ≡ false }
        requires place { Bears (D.seen disk.old) self.old }
        ensures { Checkpoints D.seen disk.old disk.new self.old self.new result }
    {
        let payload = self.state_payload()?;
        match self.place_of(payload.len() as u64) {
            None => Err(StoreFault::Full),
            Some(at) => match self.make_live(disk, at, &payload) {
                Ok(end) => {
                    self.go_on_at(at, end);
                    Ok(())
                }
                Err(_) => {
                    self.broken = true;
                    Err(StoreFault::Disk)
                }
            },
        }
    }

    // The payload of the whole state, in version 2.
    fn state_payload(&self) -> Result<Vec<u8>, Memory>
        ensures { IfOk result
            (λ payload. payload.items ≡ state_text (raised self.now.setting.state)) }
    {
        let mut snapshot = self.machine.snapshot()?;
        snapshot.version = Version::Two;
        write_snapshot(self.alloc, &snapshot)
    }

    // Where an area with such a payload goes.
    fn place_of(&self, payload: u64) -> Option<u64>
        ensures { result ≡ place_of self.now.setting payload }
    {
        if self.generation == u64::MAX {
            return None;
        }
        let live = Area {
            start: self.start,
            end: self.end,
        };
        area_place(STORE_LIMIT, live, payload)
    }

    // Writes an area with the state, flips the root to it, and answers where its log ends.
    fn make_live<D: Disk>(&self, disk: &mut D, at: u64, payload: &[u8]) -> Result<u64, Failed>
        requires free { next_place self.now.setting ≡ Some at }
        requires text { payload.now ≡ state_text (raised self.now.setting.state) }
        requires place { Bears (D.seen disk.old) self.now }
        ensures end { IfOk result (λ end. end ≡ at + 5 + length payload.now) }
        ensures made { OnOk result (IsCheckpointed (D.seen disk.new) self.now
            (moved_to self.now at) at) }
        ensures stands { Stands (D.seen disk.old) self.now.setting →
            OnOk result (Stands (D.seen disk.new)
            (moved_to self.now at).setting) }

        // At each moment a crash leaves the old area or the new one.
        ensures any_moment { Stands (D.seen disk.old) self.now.setting →
            LeavesOnly (D.seen disk.old) (D.seen disk.new)
            (HoldsState self.now.setting.state) }

        ensures attached { (D.seen disk.new).attached ≡ (D.seen disk.old).attached }
        ensures cause { HasCause (D.seen disk.old).faults (D.seen disk.new).faults result }
    {
        let live = self.root();
        let end = write_area(disk, at, payload)?;
        close_and_fill(disk, live, at)?;
        open_root(disk, live)?;
        Ok(end)
    }

    // The root that the store goes by.
    fn root(&self) -> Root
        ensures root { result ≡ root_by self.now }
        ensures valid { IsValid self.now.setting.state }
        ensures order { self.now.setting.start ≤ self.now.setting.end }
    {
        Root {
            slot: self.slot,
            generation: self.generation,
            start: self.start,
        }
    }

    // The log goes on behind the area at that place, whose root is the next one.
    fn go_on_at(&mut self, at: u64, end: u64)
        requires free { next_place self.old.setting ≡ Some at }
        requires end { end ≡ at + 5 + length (state_text (raised self.old.setting.state)) }
        ensures { self.new ≡ moved_to self.old at }
    {
        self.machine.raise();
        self.slot = self.slot.other();
        self.start = at;
        self.end = end;
        self.generation += 1;
    }
}
