//! The fields that are lists, read and written: a number, and as many items.
ghost use Rattle.std.specs.Prelude.{◌≡◌, ◌<◌, ◌^◌, ℕ, List, Option, None, nat_le, ◌++◌, IsTrue};
ghost use Rattle.std.specs.Prelude.{OnOk, length};
ghost use Rattle.std.specs.Option.{option_copied};
ghost use Rattle.hac_model.specs.Payload.Fields.{Field, checked, items_at, items_fit, items_text};
ghost use Rattle.hac_model.specs.Payload.Fields.{count, list};
ghost use Rattle.hac_model.specs.Payload.Payloads.{docs_field, told_field};
ghost use Rattle.hac_model.specs.Versions.{docs_limit};
ghost use Rattle.hac_model.specs.declared.versions.Version.{Version};
ghost use Rattle.payload_fields.specs.Reading.{GivesField};

use hac_model::{Memory, Name, Number, Seq, Version};
use payload_fields::{Bytes, Fault, count, name, num, put_count, put_num, put_short};
use std::alloc::Global;

/// Something of which a payload may have a list.
pub(crate) trait Item: Sized + Drop {
    ghost item: { Version → Option Self → Field Self };

    /// The item at the front, behind another one.
    fn read(
        alloc: Global,
        version: Version,
        bytes: &mut Bytes,
        last: Option<&Self>,
    ) -> Result<Self, Fault>
        ensures { GivesField result bytes.new
            ((item version (option_copied last.entry)).read bytes.old) };

    /// Adds the bytes of the item, wherever in a list it is.
    fn put(&self, out: &mut Vec<u8>, version: Version) -> Result<(), Memory>
        requires { (last : Option Self) × IsTrue ((item version last).fits self.now) }
        ensures { OnOk result ((last : Option Self) → out.new.items ≡ out.old.items ++
            (item version last).text self.now) };
}

/// The numbers of a list rise.
impl Item for Number {
    ghost use Rattle.std.specs.Prelude.{nat_lt};
    ghost use Rattle.hac_model.specs.Payload.Fields.{checked, num};
    ghost use Rattle.hac_model.specs.Payload.Payloads.{rises};

    ghost item = { λ version last. checked (num version) (rises nat_lt last) };

    fn read(
        _alloc: Global,
        version: Version,
        bytes: &mut Bytes,
        last: Option<&Number>,
    ) -> Result<Number, Fault> {
        let bad = bytes.bad();
        let number = num(version, bytes)?;
        match last {
            Some(before) if *before >= number => Err(bad),
            _ => Ok(number),
        }
    }

    fn put(&self, out: &mut Vec<u8>, version: Version) -> Result<(), Memory> {
        put_num(out, version, *self)
    }
}

/// So do the names of documents.
impl Item for Name {
    ghost use Rattle.hac_model.specs.Payload.Fields.{checked};
    ghost use Rattle.hac_model.specs.Tree.Listing.{is_before};
    ghost use Rattle.hac_model.specs.Payload.Payloads.{name_field, rises};

    ghost item = { λ version last. checked name_field (rises is_before last) };

    fn read(
        alloc: Global,
        _version: Version,
        bytes: &mut Bytes,
        last: Option<&Name>,
    ) -> Result<Name, Fault> {
        let bad = bytes.bad();
        let name = name(alloc, bytes)?;
        match last {
            Some(before) if *before >= name => Err(bad),
            _ => Ok(name),
        }
    }

    fn put(&self, out: &mut Vec<u8>, _version: Version) -> Result<(), Memory> {
        put_short(out, self.as_bytes())
    }
}

/// An answer is a list of numbers by itself.
impl Item for Seq<Number> {
    ghost use Rattle.hac_model.specs.Payload.Payloads.{nums};

    ghost item = { λ version last. nums version };

    fn read(
        alloc: Global,
        version: Version,
        bytes: &mut Bytes,
        _last: Option<&Seq<Number>>,
    ) -> Result<Seq<Number>, Fault> {
        list(alloc, version, bytes)
    }

    fn put(&self, out: &mut Vec<u8>, version: Version) -> Result<(), Memory> {
        put_list(out, version, self.as_slice())
    }
}

/// The names of the documents of a space.
pub(crate) fn docs(alloc: Global, version: Version, bytes: &mut Bytes) -> Result<Seq<Name>, Fault>
    ensures { GivesField result bytes.new ((docs_field version).read bytes.old) }
{
    short_list(alloc, version, bytes)
}

/// What spaces answered.
pub(crate) fn told(
    alloc: Global,
    version: Version,
    bytes: &mut Bytes,
) -> Result<Seq<Seq<Number>>, Fault>
    ensures { GivesField result bytes.new ((told_field version).read bytes.old) }
{
    list(alloc, version, bytes)
}

/// Items behind their number.
pub(crate) fn list<T: Item>(
    alloc: Global,
    version: Version,
    bytes: &mut Bytes,
) -> Result<Seq<T>, Fault>
    ensures { GivesField result bytes.new ((list count (T.item version)).read bytes.old) }
{
    let count = count(bytes)?;
    items(alloc, version, bytes, count)
}

/// The same, of no more items than a mount may have documents in this version.
pub(crate) fn short_list<T: Item>(
    alloc: Global,
    version: Version,
    bytes: &mut Bytes,
) -> Result<Seq<T>, Fault>
    ensures { GivesField result bytes.new
        ((list (checked count (λ n. nat_le n (docs_limit version))) (T.item version)).read
        bytes.old) }
{
    let bad = bytes.bad();
    let count = count(bytes)?;
    if count > version.docs_limit() {
        return Err(bad);
    }
    items(alloc, version, bytes, count)
}

/// `count` items. Each takes a byte at least, so no number makes this long if the bytes are few.
fn items<T: Item>(
    alloc: Global,
    version: Version,
    bytes: &mut Bytes,
    count: u64,
) -> Result<Seq<T>, Fault>
    ensures { GivesField result bytes.new (items_at (T.item version) count None bytes.old) }
{
    let mut items = Vec::new(alloc);
    'items: for _ in 0..count {
        let item = T::read(alloc, version, bytes, items.last())?;
        items.push(item)?;
    }
    Ok(Seq::new(items))
}

/// Adds the names of the documents of a space.
#[tactic(auto, using(payload_fields::proofs::PutLemmas::puts))]
pub(crate) fn put_docs(out: &mut Vec<u8>, version: Version, docs: &Seq<Name>) -> Result<(), Memory>
    requires { IsTrue ((docs_field version).fits docs.now) }
    ensures { OnOk result (out.new.items ≡ out.old.items ++ (docs_field version).text docs.now) }
{
    put_list(out, version, docs.as_slice())
}

/// Adds what spaces answered.
#[tactic(auto, using(payload_fields::proofs::PutLemmas::puts))]
pub(crate) fn put_told(
    out: &mut Vec<u8>,
    version: Version,
    told: &Seq<Seq<Number>>,
) -> Result<(), Memory>
    requires { IsTrue ((told_field version).fits told.now) }
    ensures { OnOk result (out.new.items ≡ out.old.items ++ (told_field version).text told.now) }
{
    put_list(out, version, told.as_slice())
}

/// Adds how many items there are, and each of them.
#[tactic(auto, using(payload_fields::proofs::PutLemmas::puts))]
pub(crate) fn put_list<T: Item>(
    out: &mut Vec<u8>,
    version: Version,
    items: &[T],
) -> Result<(), Memory>
    requires count { IsTrue (count.fits (length items.now)) }
    requires items { IsTrue (items_fit (T.item version) None items.now) }
    ensures { OnOk result (out.new.items ≡ out.old.items ++
        (count.text (length items.now) ++ items_text (T.item version) None items.now)) }
{
    put_count(out, items.len() as u64)?;
    put_items(out, version, items)
}

fn put_items<T: Item>(out: &mut Vec<u8>, version: Version, items: &[T]) -> Result<(), Memory>
    requires { IsTrue (items_fit (T.item version) None items.now) }
    ensures { OnOk result
        (out.new.items ≡ out.old.items ++ items_text (T.item version) None items.now) }
{
    'items: for item in items {
        item.put(out, version)?;
    }
    Ok(())
}
