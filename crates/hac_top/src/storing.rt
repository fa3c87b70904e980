//! Storing: what a line changes is in the store, and then in the tree, before its reply is given.
ghost use Rattle.std.specs.Prelude.{◌≡◌, ◌+◌, ◌≤◌, replicate};
ghost use Rattle.hac_core.specs.Drafts.{CanSettle};
ghost use Rattle.hac_model.specs.Laws.{AllHappen};
ghost use Rattle.hac_model.specs.Script.Lines.{item_taken};
ghost use Rattle.hac_model.specs.Tree.Costs.{costs};
ghost use Rattle.hac_model.specs.declared.events.Event.TheVariants as event;
ghost use Rattle.hac_store.specs.Storing.{storing_cost};
ghost use Rattle.hac_top.specs.Deciding.{settled_turn, storing_turn};
ghost use Rattle.hac_top.specs.Storing.{IsUsable, StoresItem, StoresTurn, storing_reply};

use crate::deciding::{Decision, decide};
use crate::status::{Status, store_status};
use hac_core::Settled;
use hac_disk::Disk;
use hac_model::{LimitWord, Refusal, Reply, Seq, Taken, Text};
use hac_outside::Steps;
use hac_store::{Store, StoreFault};
use sem_mounts::Spaces;
use std::alloc::Global;
use std::sync::ledger::Ledger;

// The most index steps that one append takes.
const BATCH: u64 = 4_096;

/// Decides what a line asks for, given what was taken of the bytes behind it, and stores what it
/// changes. Gives the reply.
pub fn store_line<D: Disk, P: Spaces, L: Ledger>(
    alloc: Global,
    store: &mut Store,
    disk: &mut D,
    spaces: &mut P,
    line: Text,
    taken: Option<Taken>,
    probes: &mut Steps<L>,
) -> Result<Reply, Status>
    requires { IsUsable (D.seen disk.old) store.old }
    ensures { StoresItem (D.seen disk.old) (D.seen disk.new)
        (P.seen spaces.old) (P.seen spaces.new) store.old store.new (item_taken line taken)
        probes.old probes.new result }
{
    let decision = decide(alloc, store.machine(), spaces, line, taken, probes)?;
    match decision {
        Decision::Answer(reply) => Ok(reply),
        Decision::Change(settled) => {
            storing_reply(alloc, store_events(store, disk, settled, probes))
        }
    }
}

// The reply to a command whose events, or whose area, were to be stored.
fn storing_reply(alloc: Global, stored: Result<(), StoreFault>) -> Result<Reply, Status>
    ensures { result ≡ storing_reply stored }
{
    match stored {
        Ok(()) => Ok(Reply::Lines(Seq::new(Vec::new(alloc)))),
        Err(StoreFault::Full) => Ok(Reply::Refused(Refusal::Limit(LimitWord::Store))),
        Err(fault) => Err(store_status(fault)),
    }
}

// Applies the events of a command, once those are stored that are; or begins a new area. `Full`
// comes before any write.
fn store_events<D: Disk, L: Ledger>(
    store: &mut Store,
    disk: &mut D,
    settled: Settled,
    probes: &mut Steps<L>,
) -> Result<(), StoreFault>
    requires usable { IsUsable (D.seen disk.old) store.old }
    requires can { CanSettle store.old.setting.state settled }
    ensures stores { StoresTurn (D.seen disk.old) (D.seen disk.new) store.old store.new
        (settled_turn store.old.setting settled) (storing_reply result) }
    ensures probes { probes.new ≤ probes.old + costs store.old.setting.state
        (settled_turn store.old.setting settled).events }
{
    match settled {
        Settled::Change(change) => store.command(disk, change, probes),
        Settled::Steps(count) => store_steps(store, disk, count, probes),
        Settled::Session(event) => Ok(store.stand(event, probes)?),
        Settled::Checkpoint => store.checkpoint(disk),
    }
}

/// Stores index steps and applies them, some thousands by one append. `Full` comes before any
/// write.
pub fn store_steps<D: Disk, L: Ledger>(
    store: &mut Store,
    disk: &mut D,
    count: u64,
    probes: &mut Steps<L>,
) -> Result<(), StoreFault>
    requires usable { IsUsable (D.seen disk.old) store.old }
    requires happen { AllHappen store.old.setting.state (replicate count event.Step) }
    ensures stores { StoresTurn (D.seen disk.old) (D.seen disk.new) store.old store.new
        (storing_turn store.old.setting (replicate count event.Step)) (storing_reply result) }
    ensures probes { probes.new ≤ probes.old
        + storing_cost store.old.setting (replicate count event.Step) }
{
    if !store.room_for_steps(count) {
        return Err(StoreFault::Full);
    }
    let mut left = count;
    while left > 0 {
        let batch = left.min(BATCH);
        store.steps(disk, batch, probes)?;
        left -= batch;
    }
    Ok(())
}
