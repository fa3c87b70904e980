//! The line of `write`, from what follows its name, and how many bytes a text may have.
ghost use Rattle.std.specs.Prelude.{◌≡◌, if◌then◌else◌, nat_le, length, Ok, Err};
ghost use Rattle.std.specs.Option.{ok_or};
ghost use Rattle.hac_model.specs.Run.Answers.{Answers, AnswersSeen};
ghost use Rattle.hac_model.specs.Script.Lines.{write_of};
ghost use Rattle.hac_model.specs.Script.Texts.{text_of};
ghost use Rattle.hac_model.specs.declared.replies.Refusal.TheVariants.{BadLine, Limit};

use crate::paths::parse_path;
use crate::words::{skip_one, split_word};
use hac_model::{Command, Deny, LimitWord, Refusal, TEXT_LIMIT, Text};
use hac_names::parse_text;
use std::alloc::Global;

/// `write PATH TEXT`, from what follows `write`.
#[tactic(auto, unfolding(hac_model::specs::Script::Lines::write_of))]
pub fn parse_write(alloc: Global, arguments: &[u8]) -> Result<Command, Deny>
    ensures { Answers result (write_of arguments.now) }
{
    let (word, rest) = split_word(alloc, arguments)?;
    let text = spelled_text(alloc, skip_one(rest))?;
    let path = parse_path(alloc, &word)?;
    let text = limited(Text::new(text), TEXT_LIMIT, LimitWord::Text)?;
    Ok(Command::Write { path, text })
}

/// The text that bytes spell. The line is bad where an escape in them is.
fn spelled_text(alloc: Global, bytes: &[u8]) -> Result<Vec<u8>, Deny>
    ensures { AnswersSeen (λ text. text.items) result (ok_or (text_of bytes.now) BadLine) }
{
    match parse_text(alloc, bytes)? {
        Some(text) => Ok(text),
        None => Err(Deny::Refused(Refusal::BadLine)),
    }
}

/// The bytes, where they are at most as many. The refusal has the word.
pub fn limited(bytes: Text, most: u64, word: LimitWord) -> Result<Text, Deny>
    ensures { Answers result (if nat_le (length bytes) most then Ok bytes else Err (Limit word)) }
{
    if bytes.as_slice().len() as u64 > most {
        return Err(Deny::Refused(Refusal::Limit(word)));
    }
    Ok(bytes)
}
