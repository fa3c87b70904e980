//! The store itself: what it is made of, and what it says.
ghost use Rattle.std.specs.Prelude.{◌≡◌, replicate};
ghost use Rattle.hac_model.specs.Run.Play.{have_room};
ghost use Rattle.hac_model.specs.Tree.Valid.{IsValid};
ghost use Rattle.hac_model.specs.declared.events.Event.TheVariants as event;
ghost use Rattle.hac_store.specs.Stores.{fit_behind};

use hac_checkpoint::Slot;
use hac_core::Machine;
use std::alloc::Global;
use std::marker::Model;

// How many bytes the payload of an index step has.
const STEP_BYTES: u64 = 2;

/// A tree in a store: the machine, and where its log ends on the disk.
#[derive(Drop)]
pub struct Store {
    pub(crate) alloc: Global,
    pub(crate) machine: Machine,
    pub(crate) slot: Slot,
    pub(crate) start: u64,
    pub(crate) end: u64,
    pub(crate) generation: u64,
    pub(crate) broken: bool,
}

impl Model for Store {
    ghost use Rattle.std.specs.Prelude.{◌≤◌};
    ghost use Rattle.hac_model.specs.Tree.Valid.{IsValid};
    ghost use Rattle.hac_store.specs.Stores.{Seen, seen_code};

    ghost Value = { Seen };

    ghost coded = { seen_code };

    ghost view = { λ store. record {
      setting = record {
        state = store.machine.state;
        start = store.start;
        end = store.end;
        generation = store.generation;
      };
      slot = store.slot;
      broken = store.broken;
    } };

    ghost invariant = { λ store. IsValid store.machine.state × (store.start ≤ store.end) };
}

impl Store {
    /// The tree, for commands to be tested against it and answered from it.
    pub fn machine(&self) -> &Machine
        ensures state { result.now.state ≡ self.now.setting.state }
        ensures valid { IsValid result.now.state }
    {
        &self.machine
    }

    /// Whether `records` records with payloads of `payload` bytes each fit in the store.
    pub(crate) fn room_for(&self, records: u64, payload: u64) -> bool
        ensures { result ≡ fit_behind self.now.setting.state.version self.now.setting.end records
            payload }
    {
        let size = records.saturating_mul(payload.saturating_add(5));
        records == 0 || self.end.saturating_add(size) < self.machine.version().store_limit()
    }

    /// Whether the store has room for `count` index steps.
    pub fn room_for_steps(&self, count: u64) -> bool
        ensures { result ≡ have_room self.now.setting (replicate count event.Step) }
    {
        self.room_for(count, STEP_BYTES)
    }
}
