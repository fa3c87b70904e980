//! The path words of a line. Where a path leads is not known here.
ghost use Rattle.std.specs.Prelude.{◌≡◌};
ghost use Rattle.hac_model.specs.Run.Answers.{Answers};
ghost use Rattle.hac_model.specs.Script.Lines.{only_path, two_paths};
ghost use Rattle.hac_model.specs.Script.PathWords.{word_of};

use crate::words::only_word;
use hac_model::{Deny, LimitWord, PathWord, Refusal};
use hac_names::{NameFault, is_bad, parse_word};
use std::alloc::Global;

/// The path word that bytes spell, or the refusal of the word.
pub fn parse_path(alloc: Global, word: &[u8]) -> Result<PathWord, Deny>
    ensures { Answers result (word_of word.now) }
{
    match parse_word(alloc, word) {
        Ok(path) => Ok(path),
        Err(NameFault::Bad) => Err(Deny::Refused(Refusal::BadName)),
        Err(NameFault::Limit) => Err(Deny::Refused(Refusal::Limit(LimitWord::Name))),
        Err(NameFault::Memory) => Err(Deny::Memory),
    }
}

/// The path word that is the only word of the bytes.
pub fn only_path(alloc: Global, bytes: &[u8]) -> Result<PathWord, Deny>
    ensures { Answers result (only_path bytes.now) }
{
    let word = only_word(alloc, bytes)?;
    parse_path(alloc, &word)
}

/// Two path words, of which a bad one counts before one with a long name.
pub fn two_paths(alloc: Global, first: &[u8], second: &[u8]) -> Result<(PathWord, PathWord), Deny>
    ensures { Answers result (two_paths first.now second.now) }
{
    if is_bad(first) || is_bad(second) {
        return Err(Deny::Refused(Refusal::BadName));
    }
    let from = parse_path(alloc, first)?;
    let to = parse_path(alloc, second)?;
    Ok((from, to))
}
