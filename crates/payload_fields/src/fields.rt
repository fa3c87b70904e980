//! The fields that are numbers or runs of bytes.
ghost use Rattle.std.specs.Prelude.{◌≡◌, ◌≤◌, ◌+◌, ◌&&◌, if◌then◌else◌, nat_le, length, take, drop};
ghost use Rattle.std.specs.Prelude.{Some, None};
ghost use Rattle.std.specs.Int.{w8, w16, w32};
ghost use Rattle.std.specs.Option.{option_copied};
ghost use Rattle.hac_model.specs.Payload.Fields.{count, num};
ghost use Rattle.hac_model.specs.declared.versions.Version.TheVariants.{Two};
ghost use Rattle.hac_model.specs.Payload.Payloads.{name_field, space_field, target_field};
ghost use Rattle.hac_model.specs.Payload.Payloads.{text_field};
ghost use Rattle.hac_model.specs.Payload.QueryFields.{word_field};
ghost use Rattle.hac_model.specs.Script.PathWords.{is_path_word};
ghost use Rattle.payload_fields.specs.Reading.{GivesField, run_in};

use crate::bytes::Bytes;
use crate::faults::Fault;
use byteorder::{ByteOrder, LittleEndian};
use hac_model::{
    NAME_LIMIT, NUMBERS_LIMIT, Name, Number, QUERY_LIMIT, TARGET_LIMIT, TEXT_LIMIT, Text, Version,
};
use hac_names::{has_long_part, is_bad, is_name, is_space_name};
use hac_words::is_word;
use std::alloc::Global;

/// The most bytes of the name of a space.
pub(crate) const SPACE_LIMIT: usize = 32;

/// How many there are of something: a number of four bytes in each version.
#[tactic(auto, unfolding(hac_model::specs::Payload::Fields::number_at))]
pub fn count(bytes: &mut Bytes) -> Result<u64, Fault>
    ensures { GivesField result bytes.new (count.read bytes.old) }
{
    if bytes.left() < 4 {
        return Err(bytes.bad());
    }
    let number = LittleEndian::read_u32(&bytes.rest()[..4]);
    bytes.skip(4);
    Ok(u64::from(number))
}

/// The number of an entry at the front: four bytes in version One, and eight in version Two.
pub fn num(version: Version, bytes: &mut Bytes) -> Result<Number, Fault>
    ensures { GivesField result bytes.new ((num version).read bytes.old) }
{
    match version {
        Version::One => Ok(Number::new(count(bytes)?)),
        Version::Two => Ok(Number::new(long_number(bytes)?)),
    }
}

/// A number of eight bytes. One that no entry may have fails at its first byte.
#[tactic(auto, unfolding(hac_model::specs::Payload::Fields::number_at))]
fn long_number(bytes: &mut Bytes) -> Result<u64, Fault>
    ensures { GivesField result bytes.new ((num Two).read bytes.old) }
{
    if bytes.left() < 8 {
        return Err(bytes.bad());
    }
    let number = LittleEndian::read_u64(&bytes.rest()[..8]);
    if number > NUMBERS_LIMIT {
        return Err(bytes.bad());
    }
    bytes.skip(8);
    Ok(number)
}

/// The name of an entry.
#[tactic(auto, unfolding(hac_model::specs::Payload::Fields::run_at))]
pub fn name(alloc: Global, bytes: &mut Bytes) -> Result<Name, Fault>
    ensures { GivesField result bytes.new (name_field.read bytes.old) }
{
    match short_run(bytes.rest(), NAME_LIMIT) {
        Some(run) if is_name(run) => {
            bytes.skip(1 + run.len());
            Ok(Name::new(run.to_vec(alloc)?))
        }
        _ => Err(bytes.bad()),
    }
}

/// The bytes behind a byte that says how many they are.
fn short_run(bytes: &[u8], most: usize) -> Option<&[u8]>
    ensures { option_copied result ≡ run_in w8 most bytes.now }
{
    let count = bytes.first()?;
    run(&bytes[1..], usize::from(*count), most)
}

/// The bytes behind two bytes that say how many they are.
fn middle_run(bytes: &[u8], most: usize) -> Option<&[u8]>
    ensures { option_copied result ≡ run_in w16 most bytes.now }
{
    if bytes.len() < 2 {
        return None;
    }
    let count = LittleEndian::read_u16(&bytes[..2]);
    run(&bytes[2..], usize::from(count), most)
}

/// The bytes behind four bytes that say how many they are.
fn long_run(bytes: &[u8], most: usize) -> Option<&[u8]>
    ensures { option_copied result ≡ run_in w32 most bytes.now }
{
    if bytes.len() < 4 {
        return None;
    }
    let count = LittleEndian::read_u32(&bytes[..4]);
    run(&bytes[4..], count as usize, most)
}

/// The first `count` bytes, if they are there and `count` is at most `most`.
fn run(bytes: &[u8], count: usize, most: usize) -> Option<&[u8]>
    ensures { option_copied result ≡ if nat_le count (length bytes.now) &&
        nat_le count most then Some (take count bytes.now) else None }
{
    if count > bytes.len() || count > most {
        return None;
    }
    Some(&bytes[..count])
}

/// The name of a space.
#[tactic(auto, unfolding(hac_model::specs::Payload::Fields::run_at))]
pub fn space(alloc: Global, bytes: &mut Bytes) -> Result<Name, Fault>
    ensures { GivesField result bytes.new (space_field.read bytes.old) }
{
    match short_run(bytes.rest(), SPACE_LIMIT) {
        Some(run) if is_space_name(run) => {
            bytes.skip(1 + run.len());
            Ok(Name::new(run.to_vec(alloc)?))
        }
        _ => Err(bytes.bad()),
    }
}

/// The bytes of a file.
#[tactic(auto, unfolding(hac_model::specs::Payload::Fields::run_at))]
pub fn text(alloc: Global, bytes: &mut Bytes) -> Result<Text, Fault>
    ensures { GivesField result bytes.new (text_field.read bytes.old) }
{
    match long_run(bytes.rest(), TEXT_LIMIT as usize) {
        Some(run) => {
            bytes.skip(4 + run.len());
            Ok(Text::new(run.to_vec(alloc)?))
        }
        None => Err(bytes.bad()),
    }
}

/// Where a symbolic link leads.
#[tactic(auto, unfolding(hac_model::specs::Payload::Fields::run_at))]
pub fn target(alloc: Global, bytes: &mut Bytes) -> Result<Text, Fault>
    ensures { GivesField result bytes.new (target_field.read bytes.old) }
{
    match middle_run(bytes.rest(), TARGET_LIMIT as usize) {
        Some(run) if is_path_word(run) => {
            bytes.skip(2 + run.len());
            Ok(Text::new(run.to_vec(alloc)?))
        }
        _ => Err(bytes.bad()),
    }
}

fn is_path_word(bytes: &[u8]) -> bool
    ensures { result ≡ is_path_word bytes.now }
{
    !is_bad(bytes) && !has_long_part(bytes)
}

/// The letters of a term.
#[tactic(auto, unfolding(hac_model::specs::Payload::Fields::run_at))]
pub(crate) fn word(alloc: Global, bytes: &mut Bytes) -> Result<Name, Fault>
    ensures { GivesField result bytes.new (word_field.read bytes.old) }
{
    match middle_run(bytes.rest(), QUERY_LIMIT) {
        Some(run) if is_word(run) => {
            bytes.skip(2 + run.len());
            Ok(Name::new(run.to_vec(alloc)?))
        }
        _ => Err(bytes.bad()),
    }
}
