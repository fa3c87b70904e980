//! Payloads and the events that they hold.
ghost use Rattle.std.specs.Option.{option_map_or};
ghost use Rattle.std.specs.Prelude.{◌≡◌, ◌+◌, ◌-◌, IfOk, IsTrue, List, ℕ, Ok, Err, length};
ghost use Rattle.hac_model.specs.Payload.Fields.{way_at};
ghost use Rattle.hac_model.specs.Payload.Payloads.{event_field, event_ways, mark_field, mark_ways};
ghost use Rattle.hac_model.specs.Payload.Payloads.{is_spellable, mount_ways, payload_field};
ghost use Rattle.hac_model.specs.Payload.Payloads.{query_ways, spelled};
ghost use Rattle.event_codec.specs.Reading.{ReadsEvent};
ghost use Rattle.event_codec.specs.declared.faults.CodecFault.TheVariants as codec;
ghost use Rattle.payload_fields.specs.Reading.{GivesField};

use crate::faults::CodecFault;
use crate::kinds::event_kind;
use crate::lists::{docs, told};
use hac_model::{Event, Kind, Mark, Version};
use payload_fields::{Bytes, Fault, name, num, query, space, target, text};
use std::alloc::Global;

/// The event that a payload says in a store of this version. A payload of another version's kind,
/// or of a state, is bad at 0. Numbers of entries have four bytes in version One. They have eight
/// in version Two, and one that no entry may have is bad at its first byte.
#[tactic(auto, unfolding(hac_model::specs::Payload::Payloads::spelled))]
pub fn read_event(alloc: Global, version: Version, bytes: &[u8]) -> Result<Event, CodecFault>
    ensures event { ReadsEvent result (spelled version bytes.now) }
    // What is read can be written.
    ensures fits { IfOk result (λ event. IsTrue (is_spellable version event)) }
{
    let size = bytes.len();
    let mut rest = Bytes::new(bytes);
    match payload_at(alloc, version, &mut rest) {
        Ok(event) if rest.left() == 0 => Ok(event),
        Ok(event) => {
            drop(event);
            Err(bad(size, rest.left()))
        }
        Err(Fault::Bad { left }) => Err(bad(size, left)),
        Err(Fault::Memory) => Err(CodecFault::Memory),
    }
}

/// The fault at the place in a payload of `size` bytes that has `left` bytes behind it.
pub(crate) fn bad(size: usize, left: usize) -> CodecFault
    ensures { result ≡ codec.Bad (size - left) }
{
    CodecFault::Bad {
        at: size.saturating_sub(left) as u64,
    }
}

/// The event of a payload, behind the byte that says so.
#[tactic(auto, unfolding(hac_model::specs::Payload::Fields::choice_at, hac_model::specs::Payload::Fields::way_at))]
fn payload_at(alloc: Global, version: Version, bytes: &mut Bytes) -> Result<Event, Fault>
    ensures { GivesField result bytes.new ((payload_field version).read bytes.old) }
{
    let left = bytes.left();
    match bytes.byte() {
        Some(kind) if kind == event_kind(version) => event_at(alloc, version, bytes),
        _ => Err(Fault::Bad { left }),
    }
}

/// The event at the front.
#[tactic(auto, unfolding(hac_model::specs::Payload::Fields::choice_at))]
fn event_at(alloc: Global, version: Version, bytes: &mut Bytes) -> Result<Event, Fault>
    ensures { GivesField result bytes.new ((event_field version).read bytes.old) }
{
    match bytes.byte() {
        Some(kind) => event_of(alloc, version, kind, bytes),
        None => Err(Fault::Bad { left: 0 }),
    }
}

/// The event of a kind, behind its kind byte.
#[tactic(auto, unfolding(hac_model::specs::Payload::Fields::way_at))]
fn event_of(alloc: Global, version: Version, kind: u8, bytes: &mut Bytes) -> Result<Event, Fault>
    ensures { GivesField result bytes.new (way_at (event_ways version) kind bytes.old) }
{
    match kind {
        1 => Ok(Event::Mkdir {
            dir: num(version, bytes)?,
            name: name(alloc, bytes)?,
        }),
        2 => Ok(Event::NewFile {
            dir: num(version, bytes)?,
            name: name(alloc, bytes)?,
            text: text(alloc, bytes)?,
        }),
        3 => Ok(Event::Rewrite {
            file: num(version, bytes)?,
            text: text(alloc, bytes)?,
        }),
        4 => Ok(Event::Ln {
            dir: num(version, bytes)?,
            name: name(alloc, bytes)?,
            target: target(alloc, bytes)?,
        }),
        5 => Ok(Event::Mv {
            entry: num(version, bytes)?,
            dir: num(version, bytes)?,
            name: name(alloc, bytes)?,
        }),
        6 => Ok(Event::Rm {
            entry: num(version, bytes)?,
        }),
        7 => Ok(Event::Rmdir {
            dir: num(version, bytes)?,
        }),
        _ => query_event(alloc, version, kind, bytes),
    }
}

/// The same, of what happens to semantic directories and behind those in order.
#[tactic(auto, unfolding(hac_model::specs::Payload::Fields::way_at))]
fn query_event(alloc: Global, version: Version, kind: u8, bytes: &mut Bytes) -> Result<Event, Fault>
    ensures { GivesField result bytes.new (way_at (query_ways version) kind bytes.old) }
{
    match kind {
        8 => Ok(Event::Smkdir {
            dir: num(version, bytes)?,
            name: name(alloc, bytes)?,
            query: query(alloc, version, bytes)?,
            told: told(alloc, version, bytes)?,
        }),
        9 => Ok(Event::Setq {
            dir: num(version, bytes)?,
            query: query(alloc, version, bytes)?,
            told: told(alloc, version, bytes)?,
        }),
        10 => Ok(Event::Unq {
            dir: num(version, bytes)?,
        }),
        11 => Ok(Event::Mark(Mark {
            dir: num(version, bytes)?,
            item: num(version, bytes)?,
            kind: mark(bytes)?,
        })),
        _ => mount_event(alloc, version, kind, bytes),
    }
}

/// The same, of what happens to mounts, and an index step.
#[tactic(auto, unfolding(hac_model::specs::Payload::Fields::way_at))]
fn mount_event(alloc: Global, version: Version, kind: u8, bytes: &mut Bytes) -> Result<Event, Fault>
    ensures { GivesField result bytes.new (way_at (mount_ways version) kind bytes.old) }
{
    match kind {
        12 => Ok(Event::Smount {
            dir: num(version, bytes)?,
            name: name(alloc, bytes)?,
            space: space(alloc, bytes)?,
            docs: docs(alloc, version, bytes)?,
            told: told(alloc, version, bytes)?,
        }),
        13 => Ok(Event::Ssync {
            mount: num(version, bytes)?,
            docs: docs(alloc, version, bytes)?,
            told: told(alloc, version, bytes)?,
        }),
        14 => Ok(Event::Sumount {
            mount: num(version, bytes)?,
        }),
        15 => Ok(Event::Step),
        _ => Err(Fault::Bad {
            left: bytes.left() + 1,
        }),
    }
}

/// What an item is marked as.
#[tactic(auto, unfolding(hac_model::specs::Payload::Fields::choice_at))]
fn mark(bytes: &mut Bytes) -> Result<Kind, Fault>
    ensures { GivesField result bytes.new (mark_field.read bytes.old) }
{
    let left = bytes.left();
    match bytes.byte().and_then(mark_of) {
        Some(kind) => Ok(kind),
        None => Err(Fault::Bad { left }),
    }
}

/// The mark that a byte spells.
#[tactic(auto, unfolding(hac_model::specs::Payload::Fields::way_at))]
fn mark_of(byte: u8) -> Option<Kind>
    ensures { (rest : List ℕ) → way_at mark_ways byte rest ≡
        option_map_or (λ kind. Ok (kind, rest)) result (Err (length rest + 1)) }
{
    match byte {
        0 => Some(Kind::Unlinked),
        1 => Some(Kind::Permanent),
        2 => Some(Kind::Prohibited),
        _ => None,
    }
}
