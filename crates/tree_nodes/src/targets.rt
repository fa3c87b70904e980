//! Where symbolic links lead, each with the word that its bytes are.
ghost use Rattle.std.specs.Prelude.{◌≡◌, Some, IfOk, IsTrue};
ghost use Rattle.hac_model.specs.Script.PathWords.{is_target, untested_word};
ghost use Rattle.hac_model.specs.Tree.Looks.{target_word};

use hac_model::{Memory, PathWord, Text};
use hac_names::{NameFault, parse_word};
use std::alloc::Global;
use std::marker::Model;

/// The target of a symbolic link: the bytes as they were given, and the word that they are.
#[derive(Debug, Drop)]
pub struct Target {
    bytes: Text,
    word: PathWord,
}

impl Model for Target {
    ghost use Rattle.std.specs.Prelude.{◌≡◌, ℕ, List, Some};
    ghost use Rattle.hac_model.specs.Tree.Looks.{target_word};

    ghost Value = { List ℕ };

    ghost view = { λ target. target.bytes };

    ghost invariant = { λ target. target_word target.bytes ≡ Some target.word };
}

impl Target {
    /// The target that these bytes are, given their word.
    pub fn new(bytes: Text, word: PathWord) -> Target
        requires { target_word bytes ≡ Some word }
        ensures { result ≡ bytes }
    {
        Target { bytes, word }
    }

    /// The bytes as they were given.
    pub fn bytes(&self) -> &Text
        ensures { result.now ≡ self.now }
    {
        &self.bytes
    }

    /// The word that they are.
    pub fn word(&self) -> &PathWord
        ensures { target_word self.now ≡ Some result.now }
    {
        &self.word
    }
}

/// The word that a target is.
pub fn read_word(alloc: Global, target: &Text) -> Result<PathWord, Memory>
    requires { IsTrue (is_target target.now) }
    ensures { IfOk result (λ word. word ≡ untested_word target.now) }
{
    match parse_word(alloc, target.as_slice()) {
        Ok(word) => Ok(word),
        Err(NameFault::Memory) => Err(Memory),
        Err(NameFault::Bad) => unreachable!(),
        Err(NameFault::Limit) => unreachable!(),
    }
}
