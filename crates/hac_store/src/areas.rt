//! Where an area begins: with a whole state, or with the root alone. Its log goes on from there.
ghost use Rattle.std.specs.Prelude.{◌≡◌, ◌+◌, ◌<◌, ◌≤◌, ◌^◌, ℕ, List, Err, IfErr, IfOk, IfSome};
ghost use Rattle.std.specs.Prelude.{length};
ghost use Rattle.hac_disk.specs.Images.{IsQuiet};
ghost use Rattle.hac_journal.specs.Finding.{Whole, found_at};
ghost use Rattle.hac_model.specs.Payload.States.{spelled_snapshot};
ghost use Rattle.hac_model.specs.Tree.{root_alone};
ghost use Rattle.hac_outside.specs.Causes.{ReportsFault};
ghost use Rattle.hac_store.specs.Faults.{is_disk_fault};
ghost use Rattle.hac_store.specs.Held.{after_snapshot, area};
ghost use Rattle.hac_store.specs.Loading.{loading_area, replaying};
ghost use Rattle.hac_store.specs.Reading.{BeginsArea, JudgesState};

use crate::fault::StoreFault;
use event_codec::{CodecFault, PayloadKind, payload_kind, read_snapshot};
use hac_core::{LoadFault, Replay};
use hac_disk::Disk;
use hac_journal::{Next, next};
use hac_model::Version;
use std::alloc::Global;

/// Where the log of an area goes on: the state, and the place of the next gate.
#[derive(Drop)]
pub(crate) struct Begun {
    pub(crate) replay: Replay,
    pub(crate) at: u64,
}

/// Begins to read an area: if its first record is a whole state, the log goes on behind it, else it
/// goes on from the root alone, with that record, whose kind tells the version.
pub(crate) fn begin<D: Disk>(alloc: Global, disk: &mut D, start: u64) -> Result<Begun, StoreFault>
    ensures area { IfSome (D.seen disk.old).contents (λ file. BeginsArea result file
        (area start file)) }
    ensures loads { IfSome (D.seen disk.old).contents (λ file. IfOk result
        (λ begun. loading_area start file ≡ replaying begun.replay begun.at file)) }
    ensures ahead { IfOk result (λ begun. start ≤ begun.at) }
    ensures quiet { IsQuiet (D.seen disk.old) (D.seen disk.new) }
    ensures kind { (result ≡ Err StoreFault.AlreadyStore → ⊥) × (result ≡ Err StoreFault.Full → ⊥) }
    ensures attached { (D.seen disk.new).attached ≡ (D.seen disk.old).attached }
    ensures faults { ReportsFault (is_disk_fault result) (D.seen disk.old).faults
        (D.seen disk.new).faults }
{
    match next(alloc, disk, start)? {
        Next::Entry { payload, next } => begin_behind(alloc, start, &payload, next),
        Next::End => begin_empty(alloc, Version::Two, start),
        Next::Bad { at } => Err(StoreFault::NotStore { at }),
    }
}

// The log goes on from the root alone, in a version.
fn begin_empty(alloc: Global, version: Version, start: u64) -> Result<Begun, StoreFault>
    ensures begun { IfOk result (λ begun. begun ≡ record
        { replay = root_alone version; at = start }) }
    ensures memory { IfErr result (λ fault. fault ≡ StoreFault.Memory) }
{
    let replay = Replay::new(alloc, version)?;
    Ok(Begun { replay, at: start })
}

// The same for an area whose first record has this payload, given the place behind it.
fn begin_behind(alloc: Global, start: u64, payload: &[u8], next: u64) -> Result<Begun, StoreFault>
    requires { next ≡ start + 5 + length payload.now }
    ensures area { (file : List ℕ) → found_at start file ≡ Whole payload.now next →
        BeginsArea result file (area start file) }
    ensures loads { (file : List ℕ) → found_at start file ≡ Whole payload.now next → IfOk result
        (λ begun. loading_area start file ≡ replaying begun.replay begun.at file) }
    ensures ahead { IfOk result (λ begun. start ≤ begun.at) }
    ensures kind { (result ≡ Err StoreFault.AlreadyStore → ⊥) × (result ≡ Err StoreFault.Full → ⊥)
        × (result ≡ Err StoreFault.Disk → ⊥) }
{
    match payload_kind(payload) {
        PayloadKind::State => {
            let replay = read_state(alloc, start, payload)?;
            Ok(Begun { replay, at: next })
        }
        PayloadKind::Event(version) => begin_empty(alloc, version, start),
    }
}

// The state that a payload holds, given the place of its gate.
fn read_state(alloc: Global, at: u64, payload: &[u8]) -> Result<Replay, StoreFault>
    requires { at + 5 + length payload.now < 2 ^ 64 }
    ensures { JudgesState result (after_snapshot at (spelled_snapshot payload.now)) }
{
    match read_snapshot(alloc, payload) {
        Ok(snapshot) => match Replay::read(alloc, snapshot) {
            Ok(replay) => Ok(replay),
            Err(LoadFault::Invalid) => Err(StoreFault::NotStore { at: at + 5 }),
            Err(LoadFault::Memory) => Err(StoreFault::Memory),
        },
        Err(CodecFault::Bad { at: offset }) => Err(StoreFault::NotStore {
            at: at + 5 + offset,
        }),
        Err(CodecFault::Memory) => Err(StoreFault::Memory),
    }
}
