//! The line of a `put`, and the command that it spells, given what came of the bytes behind it.
ghost use Rattle.std.specs.Prelude.{◌≡◌, codes, true, IfOk};
ghost use Rattle.std.specs.Str.{bytes_eq};
ghost use Rattle.hac_model.specs.Run.Answers.{Answers, AnswersSeen};
ghost use Rattle.hac_model.specs.Script.Lines.{asked, is_put, put_to, put_length, put_of};
ghost use Rattle.hac_model.specs.Script.Lines.{put_words};
ghost use Rattle.hac_model.specs.Script.Numbers.{is_number};

use crate::numbers::{is_number, number_of};
use crate::paths::parse_path;
use crate::sessions::session_words;
use crate::words::{only_word, raw_word, split_word};
use crate::writing::limited;
use hac_model::{Command, Deny, LimitWord, Refusal, TEXT_LIMIT, Taken};
use line_reader::is_blank;
use std::alloc::Global;

/// How many bytes a `put` asks for behind its line. None where the line is no `put`, or is one that
/// is refused for its form.
pub fn put_length(line: &[u8]) -> Option<u64>
    ensures { result ≡ put_length line.now }
{
    let (_, bytes) = session_words(line)?;
    let (name, arguments) = raw_word(bytes)?;
    if !is_put(name) {
        return None;
    }
    asked(arguments)
}

/// The same, from what follows `put`: the path is any word.
fn asked(arguments: &[u8]) -> Option<u64>
    ensures { result ≡ asked (put_words arguments.now) }
{
    let (_, rest) = raw_word(arguments)?;
    let (length, behind) = raw_word(rest)?;
    if !is_blank(behind) {
        return None;
    }
    number_of(length)
}

/// Whether the word is the name of the command.
pub fn is_put(name: &[u8]) -> bool
    ensures { result ≡ is_put name.now }
{
    name == b"put".as_slice()
}

/// The path and the length, from what follows `put`: two words and no more.
#[tactic(auto, unfolding(hac_model::specs::Script::Lines::put_words))]
fn put_words(alloc: Global, arguments: &[u8]) -> Result<(Vec<u8>, Vec<u8>), Deny>
    ensures words { AnswersSeen (λ words. (words.0.items, words.1.items)) result
        (put_words arguments.now) }
    ensures length { IfOk result (λ words. is_number words.1.items ≡ true) }
{
    let (path, rest) = split_word(alloc, arguments)?;
    let length = only_word(alloc, rest)?;
    if !is_number(&length) {
        return Err(Deny::Refused(Refusal::BadLine));
    }
    Ok((path, length))
}

/// `put PATH LENGTH`, from what follows `put`: a file with the bytes that came as its text.
pub fn parse_put(alloc: Global, arguments: &[u8], taken: Option<Taken>) -> Result<Command, Deny>
    ensures { Answers result (put_of arguments.now taken) }
{
    let (path, _) = put_words(alloc, arguments)?;
    put_to(alloc, &path, taken)
}

fn put_to(alloc: Global, word: &[u8], taken: Option<Taken>) -> Result<Command, Deny>
    ensures { Answers result (put_to word.now taken) }
{
    match taken {
        Some(Taken::Whole(bytes)) => {
            let path = parse_path(alloc, word)?;
            let text = limited(bytes, TEXT_LIMIT, LimitWord::Text)?;
            Ok(Command::Write { path, text })
        }
        Some(Taken::Dropped) => {
            parse_path(alloc, word)?;
            Err(Deny::Refused(Refusal::Limit(LimitWord::Text)))
        }
        Some(Taken::Short) | None => Err(Deny::Refused(Refusal::ShortPut)),
    }
}
