//! Snapshots of whole states as the bytes of a payload, and back.
ghost use Rattle.std.specs.Prelude.{◌≡◌, ◌++◌, IfOk, IsTrue, OnOk};
ghost use Rattle.std.specs.Option.{option_copied, option_map};
ghost use Rattle.hac_model.specs.Payload.States.{is_spellable_snapshot, snapshot_field};
ghost use Rattle.hac_model.specs.Payload.States.{snapshot_payload, snapshot_text, spelled_snapshot};
ghost use Rattle.hac_model.specs.declared.snapshots.StoredEntry.{StoredEntry};
ghost use Rattle.event_codec.specs.Reading.{ReadsSnapshot};
ghost use Rattle.payload_fields.specs.Reading.{GivesField};

use crate::bodies::{put_stored, stored};
use crate::faults::CodecFault;
use crate::kinds::state_kind;
use crate::lists::{Item, list, put_list};
use crate::reading::bad;
use hac_model::{Entry, Memory, Number, Snapshot, StoredEntry, Version};
use payload_fields::{Bytes, Fault, name, num, put_num, put_short};
use std::alloc::Global;

/// The payload of what is stored of a state. Its kind is 2 in version One and 3 in version Two, and
/// numbers of entries have four bytes in version One and eight in version Two.
#[tactic(auto, using(payload_fields::proofs::PutLemmas::puts), unfolding(hac_model::specs::Payload::States::snapshot_text, hac_model::specs::Payload::States::is_spellable_snapshot))]
pub fn write_snapshot(alloc: Global, snapshot: &Snapshot) -> Result<Vec<u8>, Memory>
    requires { IsTrue (is_spellable_snapshot snapshot.now) }
    ensures { IfOk result (λ bytes. bytes.items ≡ snapshot_text snapshot.now) }
{
    let mut out = Vec::new(alloc);
    out.push(state_kind(snapshot.version))?;
    put_num(&mut out, snapshot.version, snapshot.next)?;
    put_list(&mut out, snapshot.version, snapshot.entries.as_slice())?;
    Ok(out)
}

/// The snapshot that a payload says, of the version that the payload's kind tells. It need not be
/// one of a state that there can be: numbers and parents aren't compared with one another, except
/// that the entries rise.
#[tactic(auto, unfolding(hac_model::specs::Payload::States::spelled_snapshot))]
pub fn read_snapshot(alloc: Global, bytes: &[u8]) -> Result<Snapshot, CodecFault>
    ensures snapshot { ReadsSnapshot result (spelled_snapshot bytes.now) }
    // What is read can be written.
    ensures fits { IfOk result (λ snapshot. IsTrue (is_spellable_snapshot snapshot)) }
{
    let size = bytes.len();
    let mut rest = Bytes::new(bytes);
    match payload_at(alloc, &mut rest) {
        Ok(snapshot) if rest.left() == 0 => Ok(snapshot),
        Ok(snapshot) => {
            drop(snapshot);
            Err(bad(size, rest.left()))
        }
        Err(Fault::Bad { left }) => Err(bad(size, left)),
        Err(Fault::Memory) => Err(CodecFault::Memory),
    }
}

/// The snapshot of a payload, behind the byte that says so.
#[tactic(auto, unfolding(hac_model::specs::Payload::Fields::choice_at, hac_model::specs::Payload::Fields::way_at))]
fn payload_at(alloc: Global, bytes: &mut Bytes) -> Result<Snapshot, Fault>
    ensures { GivesField result bytes.new (snapshot_payload.read bytes.old) }
{
    let left = bytes.left();
    match bytes.byte() {
        Some(2) => snapshot_at(alloc, Version::One, bytes),
        Some(3) => snapshot_at(alloc, Version::Two, bytes),
        _ => Err(Fault::Bad { left }),
    }
}

/// The snapshot of a version at the front.
fn snapshot_at(alloc: Global, version: Version, bytes: &mut Bytes) -> Result<Snapshot, Fault>
    ensures { GivesField result bytes.new ((snapshot_field version).read bytes.old) }
{
    Ok(Snapshot {
        version,
        next: num(version, bytes)?,
        entries: list(alloc, version, bytes)?,
    })
}

/// The numbers of entries rise.
impl Item for StoredEntry {
    ghost use Rattle.hac_model.specs.Payload.States.{entry_field};

    ghost item = { entry_field };

    fn read(
        alloc: Global,
        version: Version,
        bytes: &mut Bytes,
        last: Option<&StoredEntry>,
    ) -> Result<StoredEntry, Fault> {
        let number = Number::read(alloc, version, bytes, number_of(last))?;
        let parent = num(version, bytes)?;
        let name = name(alloc, bytes)?;
        let (body, documents) = stored(alloc, version, bytes)?;
        let entry = Entry {
            number,
            parent,
            name,
            body,
        };
        Ok(StoredEntry { entry, documents })
    }

    #[tactic(auto, using(payload_fields::proofs::PutLemmas::puts))]
    fn put(&self, out: &mut Vec<u8>, version: Version) -> Result<(), Memory> {
        put_num(out, version, self.entry.number)?;
        put_num(out, version, self.entry.parent)?;
        put_short(out, self.entry.name.as_bytes())?;
        put_stored(out, version, &self.entry.body, &self.documents)
    }
}

fn number_of(stored: Option<&StoredEntry>) -> Option<&Number>
    ensures { option_copied result ≡
        option_map (λ (stored : StoredEntry). stored.entry.number) (option_copied stored.entry) }
{
    match stored {
        Some(stored) => Some(&stored.entry.number),
        None => None,
    }
}
