//! Path words as they are read.
ghost use Rattle.std.specs.Prelude.{◌≡◌, ◌+◌, ◌<◌, ◌^◌, length, IfOk, OnOk, IsTrue};
ghost use Rattle.hac_model.specs.Tree.Paths.{are_names};
ghost use Rattle.hac_model.specs.Script.PathWords.{word_of, relative, parts};
ghost use Rattle.hac_model.specs.Script.PathWords as words;
ghost use Rattle.hac_names.specs.Reading.{ReadsWord, walked};

use crate::names::is_part;
use hac_model::{Memory, NAME_LIMIT, Name, Path, PathWord};
use std::alloc::Global;
use thiserror::Error;

/// Why bytes give no path word.
#[derive(Clone, Copy, Debug, PartialEq, Eq, Error)]
pub enum NameFault {
    /// The bytes are no word: there are none, or there is one that no name may hold.
    #[error("the word is empty, or has a control byte")]
    Bad,
    /// A part is longer than a name may be.
    #[error("a part of the word has more bytes than a name may have")]
    Limit,
    /// Memory ran out.
    #[error("out of memory")]
    Memory,
}

impl From<Memory> for NameFault {
    ghost use Rattle.hac_names.specs.declared.reading.NameFault.TheVariants as fault;

    ghost from_gives = { λ _ e. e ≡ fault.Memory };

    fn from(_memory: Memory) -> NameFault {
        NameFault::Memory
    }
}

/// The path word that bytes spell.
#[tactic(auto, unfolding(hac_model::specs::Script::PathWords::word_of))]
pub fn parse_word(alloc: Global, bytes: &[u8]) -> Result<PathWord, NameFault>
    ensures word { ReadsWord result (word_of bytes.now) }
    ensures names { IfOk result (λ word. IsTrue (are_names word.names)) }
{
    if is_bad(bytes) {
        return Err(NameFault::Bad);
    }
    if has_long_part(bytes) {
        return Err(NameFault::Limit);
    }
    let mut word = walk(alloc, bytes)?;
    if bytes[0] == b'/' {
        word.absolute = true;
        word.ups = 0;
    }
    Ok(word)
}

/// Whether bytes are no path word at all, however long its parts may be.
pub fn is_bad(bytes: &[u8]) -> bool
    ensures { result ≡ words.is_bad bytes.now }
{
    bytes.is_empty() || !bytes.split(|b| *b == b'/').all(|part| is_part(part))
}

/// Whether a part of the bytes is longer than a name may be, whatever else they are.
pub fn has_long_part(bytes: &[u8]) -> bool
    ensures { result ≡ words.has_long_part bytes.now }
{
    bytes
        .split(|b| *b == b'/')
        .any(|part| part.len() > NAME_LIMIT)
}

/// The word of the parts, as a relative one.
fn walk(alloc: Global, bytes: &[u8]) -> Result<PathWord, Memory>
    ensures { IfOk result (λ word. word ≡ relative (parts bytes.now)) }
{
    let mut word = PathWord {
        absolute: false,
        ups: 0,
        names: Path::root(alloc),
    };
    for part in bytes.split(|b| *b == b'/') {
        step(alloc, &mut word, part)?;
    }
    Ok(word)
}

/// Leads the word on by a part.
fn step(alloc: Global, word: &mut PathWord, part: &[u8]) -> Result<(), Memory>
    requires { word.old.ups + 1 < 2 ^ 64 }
    ensures { OnOk result (word.new ≡ walked word.old part.now) }
{
    match part {
        b"" | b"." => {}
        b".." if word.names.is_root() => word.ups += 1,
        b".." => word.names.pop(),
        name => word.names.push(Name::new(name.to_vec(alloc)?))?,
    }
    Ok(())
}
