//! What entries are, with the documents that are listed with them, as bytes and back.
ghost use Rattle.std.specs.Prelude.{◌≡◌, ◌++◌, ◌+◌, IsTrue, List, OnOk, ℕ, Err, Ok, length};
ghost use Rattle.std.specs.Option.{option_map_or};
ghost use Rattle.std.specs.Str.{bytes_eq};
ghost use Rattle.hac_model.specs.Payload.Fields.{way_at};
ghost use Rattle.hac_model.specs.Payload.States.{flag_field, other_text, shown_field};
ghost use Rattle.hac_model.specs.Payload.States.{stored_field, stored_ways};
ghost use Rattle.hac_model.specs.declared.versions.Version.{Version};
ghost use Rattle.payload_fields.specs.Reading.{GivesField};

use crate::lists::{list, put_list, short_list};
use hac_model::{Body, Document, Memory, Seq, Text, Version};
use payload_fields::{
    Bytes, Fault, put_long, put_middle, put_query, put_short, query, space, target, text,
};
use std::alloc::Global;

/// What the entry at the front is, and the documents that are listed with it.
#[tactic(auto, unfolding(hac_model::specs::Payload::Fields::choice_at))]
pub(crate) fn stored(
    alloc: Global,
    version: Version,
    bytes: &mut Bytes,
) -> Result<(Body, Seq<Document>), Fault>
    ensures { GivesField result bytes.new ((stored_field version).read bytes.old) }
{
    match bytes.byte() {
        Some(kind) => stored_of(alloc, version, kind, bytes),
        None => Err(Fault::Bad { left: 0 }),
    }
}

/// The same of a kind, behind its kind byte.
#[tactic(auto, unfolding(hac_model::specs::Payload::Fields::way_at))]
fn stored_of(
    alloc: Global,
    version: Version,
    kind: u8,
    bytes: &mut Bytes,
) -> Result<(Body, Seq<Document>), Fault>
    ensures { GivesField result bytes.new (way_at (stored_ways version) kind bytes.old) }
{
    match kind {
        1 => file(alloc, bytes),
        2 => Ok((Body::Dir, Seq::new(Vec::new(alloc)))),
        3 => symlink(alloc, bytes),
        4 => semantic(alloc, version, bytes),
        5 => mount(alloc, version, bytes),
        _ => Err(Fault::Bad {
            left: bytes.left() + 1,
        }),
    }
}

/// A file, behind its kind byte. It has no documents, as nothing but a mount has any.
#[tactic(auto, unfolding(hac_model::specs::Payload::Fields::way_at))]
fn file(alloc: Global, bytes: &mut Bytes) -> Result<(Body, Seq<Document>), Fault>
    ensures { (version : Version) → GivesField result bytes.new
        (way_at (stored_ways version) 1 bytes.old) }
{
    let dirty = flag(bytes)?;
    let text = text(alloc, bytes)?;
    let shown = shown(alloc, bytes, &text)?;
    Ok((Body::File { text, dirty, shown }, Seq::new(Vec::new(alloc))))
}

/// A symbolic link, behind its kind byte.
#[tactic(auto, unfolding(hac_model::specs::Payload::Fields::way_at))]
fn symlink(alloc: Global, bytes: &mut Bytes) -> Result<(Body, Seq<Document>), Fault>
    ensures { (version : Version) → GivesField result bytes.new
        (way_at (stored_ways version) 3 bytes.old) }
{
    let target = target(alloc, bytes)?;
    Ok((Body::Symlink { target }, Seq::new(Vec::new(alloc))))
}

/// A semantic directory, behind its kind byte.
#[tactic(auto, unfolding(hac_model::specs::Payload::Fields::way_at))]
fn semantic(
    alloc: Global,
    version: Version,
    bytes: &mut Bytes,
) -> Result<(Body, Seq<Document>), Fault>
    ensures { GivesField result bytes.new (way_at (stored_ways version) 4 bytes.old) }
{
    let body = Body::Semantic {
        query: query(alloc, version, bytes)?,
        permanent: list(alloc, version, bytes)?,
        prohibited: list(alloc, version, bytes)?,
    };
    Ok((body, Seq::new(Vec::new(alloc))))
}

/// A mount and its documents, behind its kind byte. What the space answered follows these.
#[tactic(auto, unfolding(hac_model::specs::Payload::Fields::way_at))]
fn mount(alloc: Global, version: Version, bytes: &mut Bytes) -> Result<(Body, Seq<Document>), Fault>
    ensures { GivesField result bytes.new (way_at (stored_ways version) 5 bytes.old) }
{
    let space = space(alloc, bytes)?;
    let documents = short_list(alloc, version, bytes)?;
    let answers = list(alloc, version, bytes)?;
    Ok((Body::Mount { space, answers }, documents))
}

/// Whether a file is dirty.
#[tactic(auto, unfolding(hac_model::specs::Payload::Fields::choice_at, hac_model::specs::Payload::Fields::way_at))]
fn flag(bytes: &mut Bytes) -> Result<bool, Fault>
    ensures { GivesField result bytes.new (flag_field.read bytes.old) }
{
    let left = bytes.left();
    match bytes.byte() {
        Some(0) => Ok(false),
        Some(1) => Ok(true),
        _ => Err(Fault::Bad { left }),
    }
}

/// The text as it was last indexed, of a file that has this text now.
#[tactic(auto, unfolding(hac_model::specs::Payload::Fields::choice_at, hac_model::specs::Payload::Fields::way_at))]
fn shown(alloc: Global, bytes: &mut Bytes, text: &Text) -> Result<Option<Text>, Fault>
    ensures { GivesField result bytes.new ((shown_field text.now).read bytes.old) }
{
    let left = bytes.left();
    match bytes.byte() {
        Some(0) => Ok(None),
        Some(1) => Ok(Some(Text::new(text.as_slice().to_vec(alloc)?))),
        Some(2) => Ok(Some(other_text(alloc, bytes, text)?)),
        _ => Err(Fault::Bad { left }),
    }
}

/// A text that isn't this one.
fn other_text(alloc: Global, bytes: &mut Bytes, than: &Text) -> Result<Text, Fault>
    ensures { GivesField result bytes.new ((other_text than.now).read bytes.old) }
{
    let bad = bytes.bad();
    let other = text(alloc, bytes)?;
    if is_same(&other, than) {
        return Err(bad);
    }
    Ok(other)
}

fn is_same(text: &Text, other: &Text) -> bool
    ensures { result ≡ bytes_eq text.now other.now }
{
    text.as_slice() == other.as_slice()
}

/// Adds what an entry is, with the documents that are listed with it.
#[tactic(auto, using(payload_fields::proofs::PutLemmas::puts))]
pub(crate) fn put_stored(
    out: &mut Vec<u8>,
    version: Version,
    body: &Body,
    documents: &Seq<Document>,
) -> Result<(), Memory>
    requires { IsTrue ((stored_field version).fits (body.now, documents.now)) }
    ensures { OnOk result (out.new.items ≡ out.old.items ++
        (stored_field version).text (body.now, documents.now)) }
{
    match body {
        Body::File { text, dirty, shown } => {
            out.push(1)?;
            put_flag(out, *dirty)?;
            put_long(out, text.as_slice())?;
            put_shown(out, text, shown)
        }
        Body::Dir => {
            out.push(2)?;
            Ok(())
        }
        Body::Symlink { target } => {
            out.push(3)?;
            put_middle(out, target.as_slice())
        }
        Body::Semantic {
            query,
            permanent,
            prohibited,
        } => {
            out.push(4)?;
            put_query(out, version, query)?;
            put_list(out, version, permanent.as_slice())?;
            put_list(out, version, prohibited.as_slice())
        }
        Body::Mount { space, answers } => {
            out.push(5)?;
            put_short(out, space.as_bytes())?;
            put_list(out, version, documents.as_slice())?;
            put_list(out, version, answers.as_slice())
        }
        Body::Document => unreachable!(),
    }
}

/// Adds whether a file is dirty.
fn put_flag(out: &mut Vec<u8>, flag: bool) -> Result<(), Memory>
    ensures { OnOk result (out.new.items ≡ out.old.items ++ flag_field.text flag) }
{
    if flag {
        out.push(1)?;
    } else {
        out.push(0)?;
    }
    Ok(())
}

/// Adds the text as it was last indexed, of a file that has this text now.
#[tactic(auto, using(payload_fields::proofs::PutLemmas::puts))]
fn put_shown(out: &mut Vec<u8>, text: &Text, shown: &Option<Text>) -> Result<(), Memory>
    requires { IsTrue ((shown_field text.now).fits shown.now) }
    ensures { OnOk result (out.new.items ≡ out.old.items ++
        (shown_field text.now).text shown.now) }
{
    match shown {
        None => {
            out.push(0)?;
            Ok(())
        }
        Some(shown) if is_same(shown, text) => {
            out.push(1)?;
            Ok(())
        }
        Some(shown) => {
            out.push(2)?;
            put_long(out, shown.as_slice())
        }
    }
}
