//! Events as the bytes of a payload.
ghost use Rattle.std.specs.Prelude.{◌≡◌, ◌++◌, ◌∷◌, IsTrue, IfOk, OnOk};
ghost use Rattle.hac_model.specs.Payload.Fields.{num};
ghost use Rattle.hac_model.specs.Payload.Payloads.{event_field, event_text};
ghost use Rattle.hac_model.specs.Payload.Payloads.{is_spellable, mark_field, name_field};

use crate::kinds::event_kind;
use crate::lists::{put_docs, put_told};
use hac_model::{Event, Kind, Memory, Name, Number, Version};
use payload_fields::{put_long, put_middle, put_num, put_numbered, put_query, put_short};
use std::alloc::Global;

/// The payload of an event in a store of this version: its kind is 1 in version One and 4 in
/// version Two, and numbers of entries have four bytes in version One and eight in version Two.
/// Where a session stands is never written, so a `Cd` has none.
#[tactic(auto, unfolding(hac_model::specs::Payload::Payloads::event_text, hac_model::specs::Payload::Payloads::is_spellable))]
pub fn write_event(alloc: Global, version: Version, event: &Event) -> Result<Vec<u8>, Memory>
    requires { IsTrue (is_spellable version event.now) }
    ensures { IfOk result (λ bytes. bytes.items ≡ event_text version event.now) }
{
    let mut out = Vec::new(alloc);
    out.push(event_kind(version))?;
    put_event(&mut out, version, event)?;
    Ok(out)
}

/// Adds the kind and the fields of an event.
#[tactic(auto, using(payload_fields::proofs::PutLemmas::puts))]
fn put_event(out: &mut Vec<u8>, version: Version, event: &Event) -> Result<(), Memory>
    requires { IsTrue ((event_field version).fits event.now) }
    ensures { OnOk result (out.new.items ≡ out.old.items ++
        (event_field version).text event.now) }
{
    match event {
        Event::Mkdir { dir, name } => put_named(out, version, 1, *dir, name),
        Event::NewFile { dir, name, text } => {
            put_named(out, version, 2, *dir, name)?;
            put_long(out, text.as_slice())
        }
        Event::Rewrite { file, text } => {
            put_numbered(out, version, 3, *file)?;
            put_long(out, text.as_slice())
        }
        Event::Ln { dir, name, target } => {
            put_named(out, version, 4, *dir, name)?;
            put_middle(out, target.as_slice())
        }
        Event::Mv { entry, dir, name } => {
            put_numbered(out, version, 5, *entry)?;
            put_num(out, version, *dir)?;
            put_short(out, name.as_bytes())
        }
        Event::Rm { entry } => put_numbered(out, version, 6, *entry),
        Event::Rmdir { dir } => put_numbered(out, version, 7, *dir),
        Event::Smkdir {
            dir,
            name,
            query,
            told,
        } => {
            put_named(out, version, 8, *dir, name)?;
            put_query(out, version, query)?;
            put_told(out, version, told)
        }
        Event::Setq { dir, query, told } => {
            put_numbered(out, version, 9, *dir)?;
            put_query(out, version, query)?;
            put_told(out, version, told)
        }
        Event::Unq { dir } => put_numbered(out, version, 10, *dir),
        Event::Mark(mark) => {
            put_numbered(out, version, 11, mark.dir)?;
            put_num(out, version, mark.item)?;
            put_mark(out, mark.kind)
        }
        Event::Smount {
            dir,
            name,
            space,
            docs,
            told,
        } => {
            put_named(out, version, 12, *dir, name)?;
            put_short(out, space.as_bytes())?;
            put_docs(out, version, docs)?;
            put_told(out, version, told)
        }
        Event::Ssync { mount, docs, told } => {
            put_numbered(out, version, 13, *mount)?;
            put_docs(out, version, docs)?;
            put_told(out, version, told)
        }
        Event::Sumount { mount } => put_numbered(out, version, 14, *mount),
        Event::Step => {
            out.push(15)?;
            Ok(())
        }
        Event::Cd { .. } => unreachable!(),
    }
}

/// Adds a kind, the number of a directory and a name in it.
#[tactic(auto, using(payload_fields::proofs::PutLemmas::puts))]
fn put_named(
    out: &mut Vec<u8>,
    version: Version,
    kind: u8,
    dir: Number,
    name: &Name,
) -> Result<(), Memory>
    requires dir { IsTrue ((num version).fits dir) }
    requires name { IsTrue (name_field.fits name.now) }
    ensures { OnOk result (out.new.items ≡ out.old.items ++ kind ∷
        ((num version).text dir ++ name_field.text name.now)) }
{
    put_numbered(out, version, kind, dir)?;
    put_short(out, name.as_bytes())
}

/// Adds what an item is marked as.
fn put_mark(out: &mut Vec<u8>, kind: Kind) -> Result<(), Memory>
    requires { IsTrue (mark_field.fits kind) }
    ensures { OnOk result (out.new.items ≡ out.old.items ++ mark_field.text kind) }
{
    match kind {
        Kind::Unlinked => out.push(0)?,
        Kind::Permanent => out.push(1)?,
        Kind::Prohibited => out.push(2)?,
        Kind::Transient => unreachable!(),
    }
    Ok(())
}
