//! Ticking: the index steps that follow each command by themselves, behind its reply.
ghost use Rattle.std.specs.Prelude.{◌≡◌, ◌≤◌, ◌+◌, ◌⊎◌, true, false, replicate};
ghost use Rattle.hac_model.specs.Laws.{AllHappen};
ghost use Rattle.hac_model.specs.Run.Play.{have_room, steps_behind};
ghost use Rattle.hac_model.specs.Tree.Costs.{costs};
ghost use Rattle.hac_model.specs.declared.events.Event.TheVariants as event;
ghost use Rattle.hac_top.specs.Storing.{IsUsable, StoresSteps};

use crate::storing::store_steps;
use hac_disk::Disk;
use hac_outside::Steps;
use hac_store::{Store, StoreFault};
use std::sync::ledger::Ledger;

/// Stores the index steps that follow a command by themselves, and then applies them: at most
/// `most`, while a file is dirty and the store has room for the record of one more. A step that
/// doesn't fit isn't tried, so the store is never `Full`.
pub fn tick<D: Disk, L: Ledger>(
    store: &mut Store,
    disk: &mut D,
    most: u64,
    probes: &mut Steps<L>,
) -> Result<(), StoreFault>
    requires { IsUsable (D.seen disk.old) store.old }
    ensures stores { StoresSteps (D.seen disk.old) (D.seen disk.new) store.old store.new
        (steps_behind most store.old.setting) result }
    ensures probes { probes.new ≤ probes.old + costs store.old.setting.state
        (steps_behind most store.old.setting) }
{
    let count = steps_due(store, most);
    store_steps(store, disk, count, probes)
}

// How many index steps follow a command by themselves, where at most `most` do.
fn steps_due(store: &Store, most: u64) -> u64
    ensures due { steps_behind most store.now.setting ≡ replicate result event.Step }
    ensures happen { AllHappen store.now.setting.state (replicate result event.Step) }
    ensures room { have_room store.now.setting (replicate result event.Step) ≡ true }
{
    let dirty = store.machine().dirty();
    steps_with_room(store, most.min(dirty))
}

// How many of these index steps the store has room for.
fn steps_with_room(store: &Store, wanted: u64) -> u64
    ensures within { result ≤ wanted }
    ensures room { have_room store.now.setting (replicate result event.Step) ≡ true }
    ensures most { (result ≡ wanted) ⊎
        (have_room store.now.setting (replicate (result + 1) event.Step) ≡ false) }
{
    if store.room_for_steps(wanted) {
        return wanted;
    }
    let mut fits = 0;
    let mut past = wanted;
    while past - fits > 1 {
        let middle = fits + (past - fits) / 2;
        if store.room_for_steps(middle) {
            fits = middle;
        } else {
            past = middle;
        }
    }
    fits
}
