//! Opening a store: its log is read, its events happen one by one, and links are found behind them.
ghost use Rattle.std.specs.Prelude.{◌≡◌, ◌+◌, ◌<◌, ◌≤◌, ◌^◌, false, length, Ok, Err, IfOk};
ghost use Rattle.std.specs.Prelude.{IfErr, IfSome, IsTrue, OnOk};
ghost use Rattle.hac_outside.specs.Causes.{ReportsFault};
ghost use Rattle.hac_disk.specs.Images.{IsQuiet, IsSettled};
ghost use Rattle.hac_disk.specs.Contents.{HasByteAt};
ghost use Rattle.hac_model.specs.Payload.Payloads.{spelled};
ghost use Rattle.hac_model.specs.Run.History.{replay_cost};
ghost use Rattle.hac_model.specs.Tree.Costs.{opening};
ghost use Rattle.hac_model.specs.Tree.Sessions.{is_stored};
ghost use Rattle.hac_model.specs.Tree.Valid.{IsValid};
ghost use Rattle.hac_store.specs.Faults.{is_disk_fault};
ghost use Rattle.hac_store.specs.Held.{after_payload, log};
ghost use Rattle.hac_store.specs.Loading.{judging, loading, replaying};
ghost use Rattle.hac_store.specs.Opening.{Loads};
ghost use Rattle.hac_store.specs.Reading.{Judges, ReadsLog};
ghost use Rattle.hac_store.specs.Stores.{Stands};

use crate::areas::{Begun, begin};
use crate::fault::StoreFault;
use crate::store::Store;
use event_codec::{CodecFault, read_event};
use hac_checkpoint::{Root, roots};
use hac_core::Replay;
use hac_disk::Disk;
use hac_journal::{LogReader, Next};
use hac_model::Event;
use hac_outside::Steps;
use std::alloc::Global;
use std::marker::Model;
use std::sync::ledger::Ledger;

impl Store {
    /// Opens the store on a disk: syncs, reads it and applies its events. It writes nothing.
    pub fn load<D: Disk, L: Ledger>(
        alloc: Global,
        disk: &mut D,
        probes: &mut Steps<L>,
    ) -> Result<Store, StoreFault>
        ensures loads { Loads (D.seen disk.old) (D.seen disk.new) probes.old probes.new result }
        ensures sound { IfOk result (λ store. (store.broken ≡ false) ×
            IsValid store.setting.state) }
        ensures stands { IfSome (D.seen disk.old).contents (λ _. IfOk result
            (λ store. Stands (D.seen disk.new) store.setting)) }
        ensures settled { OnOk result (IsSettled (D.seen disk.new)) }
    {
        disk.sync()?;
        match read_unlinked(alloc, disk, probes) {
            Ok(unlinked) => unlinked.linked(probes),
            Err(fault) => Err(fault),
        }
    }
}

/// What a disk holds, seen as the store that it is once its links are found.
#[derive(Drop)]
pub(crate) struct Unlinked {
    alloc: Global,
    replay: Replay,
    root: Root,
    end: u64,
}

impl Model for Unlinked {
    ghost use Rattle.std.specs.Prelude.{◌≤◌, false};
    ghost use Rattle.hac_store.specs.Stores.{Seen, seen_code};

    ghost Value = { Seen };

    ghost coded = { seen_code };

    ghost view = { λ unlinked. record {
      setting = record {
        state = unlinked.replay;
        start = unlinked.root.start;
        end = unlinked.end;
        generation = unlinked.root.generation;
      };
      slot = unlinked.root.slot;
      broken = false;
    } };

    ghost invariant = { λ unlinked. unlinked.root.start ≤ unlinked.end };
}

impl Unlinked {
    // Finds the links.
    fn linked<L: Ledger>(self, probes: &mut Steps<L>) -> Result<Store, StoreFault>
        ensures store { IfOk result (λ store. store ≡ self) }
        ensures valid { IfOk result (λ store. IsValid store.setting.state) }
        ensures memory { IfErr result (λ fault. fault ≡ StoreFault.Memory) }
        ensures probes { probes.new ≤ probes.old + opening self.setting.state }
    {
        let Unlinked {
            alloc,
            replay,
            root,
            end,
        } = self;
        Ok(Store {
            alloc,
            machine: replay.machine(probes)?,
            slot: root.slot,
            start: root.start,
            end,
            generation: root.generation,
            broken: false,
        })
    }
}

/// Reads what a disk holds, and finds no links. It writes nothing.
pub(crate) fn read_unlinked<D: Disk, L: Ledger>(
    alloc: Global,
    disk: &mut D,
    probes: &mut Steps<L>,
) -> Result<Unlinked, StoreFault>
    ensures loads { Loads (D.seen disk.old) (D.seen disk.new) probes.old probes.new result }
    // What is left is enough to find the links.
    ensures opens { IfSome (D.seen disk.old).contents (λ file. IfOk result (λ unlinked.
        probes.new + opening unlinked.setting.state ≤ probes.old + loading file)) }
{
    let root = roots(disk)?;
    let Begun { mut replay, at } = begin(alloc, disk, root.start)?;
    match read_log(alloc, disk, &mut replay, at, probes) {
        Ok(end) => Ok(Unlinked {
            alloc,
            replay,
            root,
            end,
        }),
        Err(fault) => {
            drop(replay);
            Err(fault)
        }
    }
}

// Applies the events of a log, and gives the place of the closed gate behind it.
fn read_log<D: Disk, L: Ledger>(
    alloc: Global,
    disk: &mut D,
    replay: &mut Replay,
    start: u64,
    probes: &mut Steps<L>,
) -> Result<u64, StoreFault>
    ensures log { IfSome (D.seen disk.old).contents (λ file. ReadsLog result replay.new file
        (log replay.old start file)) }
    ensures ahead { IfOk result (λ end. start ≤ end) }
    ensures place { IfOk result (λ end. HasByteAt (D.seen disk.new).contents end) }
    ensures quiet { IsQuiet (D.seen disk.old) (D.seen disk.new) }
    ensures kind { (result ≡ Err StoreFault.AlreadyStore → ⊥) × (result ≡ Err StoreFault.Full → ⊥) }
    ensures attached { (D.seen disk.new).attached ≡ (D.seen disk.old).attached }
    ensures faults { ReportsFault (is_disk_fault result) (D.seen disk.old).faults
        (D.seen disk.new).faults }
    ensures probes { IfSome (D.seen disk.old).contents (λ file. probes.new ≤ probes.old
        + replaying replay.old start file) }

    // What is left is enough to find the links of the state to which the log led.
    ensures opens { OnOk result (IfSome (D.seen disk.old).contents (λ file. probes.new
        + opening replay.new ≤ probes.old + replaying replay.old start file)) }
{
    let mut reader = LogReader::new(alloc);
    let mut at = start;
    loop {
        match reader.next(disk, at)? {
            Next::Entry { payload, next } => {
                apply_payload(alloc, replay, at, &payload, probes)?;
                at = next;
            }
            Next::End => return Ok(at),
            Next::Bad { at } => return Err(StoreFault::NotStore { at }),
        }
    }
}

// Applies what the payload of a record says, given the place of its gate.
#[tactic(auto, using(crate::proofs::StoredLemmas::spelled_kept))]
fn apply_payload<L: Ledger>(
    alloc: Global,
    replay: &mut Replay,
    at: u64,
    payload: &[u8],
    probes: &mut Steps<L>,
) -> Result<(), StoreFault>
    requires { at + 5 + length payload.now < 2 ^ 64 }
    ensures judges { Judges result replay.new (after_payload replay.old at
        (spelled replay.old.version payload.now)) }
    ensures probes { probes.new ≤ probes.old
        + judging replay.old (spelled replay.old.version payload.now) }
{
    match read_event(alloc, replay.version(), payload) {
        Ok(event) => accept(replay, at, event, probes),
        Err(CodecFault::Bad { at: offset }) => Err(StoreFault::NotStore {
            at: at + 5 + offset,
        }),
        Err(CodecFault::Memory) => Err(StoreFault::Memory),
    }
}

// Applies the event of a record, if the state accepts it.
fn accept<L: Ledger>(
    replay: &mut Replay,
    at: u64,
    event: Event,
    probes: &mut Steps<L>,
) -> Result<(), StoreFault>
    requires place { at + 5 < 2 ^ 64 }
    requires stored { IsTrue (is_stored event) }
    ensures judges { Judges result replay.new (after_payload replay.old at (Ok event)) }
    ensures probes { probes.new ≤ probes.old + replay_cost replay.old event }
{
    if replay.happen(event, probes)? {
        Ok(())
    } else {
        Err(StoreFault::NotStore { at: at + 5 })
    }
}
