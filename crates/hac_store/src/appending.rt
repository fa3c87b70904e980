//! Events that are stored before they happen.
ghost use Rattle.std.specs.Prelude.{◌≡◌, ◌∷◌, ◌<◌, ◌≤◌, ◌+◌, [], false, length, map, replicate};
ghost use Rattle.std.specs.Prelude.{IfOk, IsErrOf, OnErr, OnOk};
ghost use Rattle.hac_journal.specs.Records.{contents_of};
ghost use Rattle.hac_model.specs.Laws.{AllHappen};
ghost use Rattle.hac_model.specs.Payload.Payloads.{event_text};
ghost use Rattle.hac_model.specs.Run.Play.{have_room};
ghost use Rattle.hac_model.specs.Tree.Costs.{costs};
ghost use Rattle.hac_model.specs.declared.events.Event.TheVariants as event;
ghost use Rattle.hac_core.specs.Drafts.{CanSettle, settled_events};
ghost use Rattle.hac_store.specs.Storing.{StoresEvents, storing_cost};
ghost use Rattle.hac_store.specs.Stores.{AreForStore, Bears, unstored_after};

use crate::fault::StoreFault;
use crate::store::Store;
use event_codec::write_event;
use hac_core::{Change, Settled};
use hac_disk::Disk;
use hac_journal::{JournalFault, append};
use hac_model::{Event, Memory, Version};
use hac_outside::Steps;
use std::alloc::Global;
use std::sync::ledger::Ledger;

impl Store {
    /// Stores an event, and then applies it. Whether there is room for it is found first. After
    /// `Full` and `Memory` nothing was written and all is as before; after `Disk` the store is
    /// broken.
    pub fn command<D: Disk, L: Ledger>(
        &mut self,
        disk: &mut D,
        change: Change,
        probes: &mut Steps<L>,
    ) -> Result<(), StoreFault>
        requires intact { self.old.broken ≡ false }
        requires can { CanSettle self.old.setting.state (Settled.Change change) }
        requires place { Bears (D.seen disk.old) self.old }
        ensures stores { StoresEvents D.seen disk.old disk.new self.old self.new
            (change.event ∷ []) result }
        ensures probes { probes.new ≤ probes.old
            + storing_cost self.old.setting (change.event ∷ []) }
    {
        match write_event(self.alloc, self.machine.version(), &change.event) {
            Ok(payload) => {
                if !self.room_for(1, payload.len() as u64) {
                    return Err(StoreFault::Full);
                }
                self.put(disk, Settled::Change(change), &[payload], probes)
            }
            Err(_) => {
                drop(change);
                Err(StoreFault::Memory)
            }
        }
    }

    /// Stores `count` index steps by one append, and then applies them: after a crash all of them
    /// are there, or none. It answers as `command` does, and `Full` wherever there is no room for
    /// them.
    pub fn steps<D: Disk, L: Ledger>(
        &mut self,
        disk: &mut D,
        count: u64,
        probes: &mut Steps<L>,
    ) -> Result<(), StoreFault>
        requires intact { self.old.broken ≡ false }
        requires some { 0 < count }
        requires happen { AllHappen self.old.setting.state (replicate count event.Step) }
        requires place { Bears (D.seen disk.old) self.old }
        ensures stores { StoresEvents D.seen disk.old disk.new self.old self.new
            (replicate count event.Step) result }
        ensures room { have_room self.old.setting (replicate count event.Step) ≡ false →
            IsErrOf result StoreFault.Full }
        ensures probes { probes.new ≤ probes.old
            + storing_cost self.old.setting (replicate count event.Step) }
    {
        if !self.room_for_steps(count) {
            return Err(StoreFault::Full);
        }
        let payloads = step_payloads(self.alloc, self.machine.version(), count)?;
        self.put(disk, Settled::Steps(count), &payloads, probes)
    }

    /// Applies an event that isn't stored: it moves a session, and nothing is judged for it. After
    /// `Memory` all is as before.
    pub fn stand<L: Ledger>(&mut self, event: Event, probes: &mut Steps<L>) -> Result<(), Memory>
        requires can { CanSettle self.old.setting.state (Settled.Session event) }
        ensures moved { OnOk result (self.new ≡ record self.old
            { setting = unstored_after self.old.setting event }) }
        ensures stayed { OnErr result (self.new ≡ self.old) }
        ensures probes { probes.new ≤ probes.old }
    {
        self.machine.prepare(Settled::Session(event), probes)?;
        self.machine.commit();
        Ok(())
    }

    // Puts the records of what is to happen behind the log, and then applies it.
    fn put<D: Disk, L: Ledger>(
        &mut self,
        disk: &mut D,
        settled: Settled,
        payloads: &[Vec<u8>],
        probes: &mut Steps<L>,
    ) -> Result<(), StoreFault>
        requires intact { self.old.broken ≡ false }
        requires some { 0 < length payloads.now }
        requires can { CanSettle self.old.setting.state settled }
        requires stored { AreForStore (settled_events settled) }
        requires texts { contents_of payloads.now ≡ map
            (event_text self.old.setting.state.version) (settled_events settled) }
        requires place { Bears (D.seen disk.old) self.old }
        ensures stores { StoresEvents D.seen disk.old disk.new self.old self.new
            (settled_events settled) result }
        ensures probes { probes.new ≤ probes.old
            + costs self.old.setting.state (settled_events settled) }
    {
        let limit = self.machine.version().store_limit();
        self.machine.prepare(settled, probes)?;
        match append(self.alloc, disk, limit, self.end, payloads) {
            Ok(end) => {
                self.machine.commit();
                self.end = end;
                Ok(())
            }
            Err(JournalFault::Disk) => {
                self.broken = true;
                Err(StoreFault::Disk)
            }
            Err(JournalFault::Full) => Err(StoreFault::Full),
            Err(JournalFault::Memory) => Err(StoreFault::Memory),
        }
    }
}

// The payloads of `count` index steps, in a version.
fn step_payloads(alloc: Global, version: Version, count: u64) -> Result<Vec<Vec<u8>>, Memory>
    ensures { IfOk result (λ payloads. contents_of payloads.items ≡ map (event_text version)
        (replicate count event.Step)) }
{
    let mut payloads = Vec::new(alloc);
    for _ in 0..count {
        payloads.push(write_event(alloc, version, &Event::Step)?)?;
    }
    Ok(payloads)
}
