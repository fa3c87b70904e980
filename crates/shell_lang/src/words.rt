//! A line's words: plain ones, which end at a space, and words in quotes, which may hold spaces. A
//! raw word is a piece of the line, with its escapes in it, and it wants no memory.
ghost use Rattle.std.specs.Prelude.{◌≡◌, false, drop, slice_index};
ghost use Rattle.std.specs.List.{prefix_len, position_or_len};
ghost use Rattle.std.specs.Option.{ok_or, option_map};
ghost use Rattle.hac_model.specs.Run.Answers.{AnswersSeen};
ghost use Rattle.hac_model.specs.Bytes.{is_quote, is_space};
ghost use Rattle.hac_model.specs.Script.LineWords.{skip_spaces, first_run, after_first_run};
ghost use Rattle.hac_model.specs.Script.LineWords.{first_word, is_word_end, quoted, quoted_escape};
ghost use Rattle.hac_model.specs.Script.LineWords.{quoted_word, word_at};
ghost use Rattle.hac_model.specs.Script.Lines.{only_word};
ghost use Rattle.hac_model.specs.declared.replies.Refusal.TheVariants.{BadLine};
ghost use Rattle.shell_lang.specs.Quotes.{QuotesFirst};
ghost use Rattle.shell_lang.specs.RawWords.{GivesRaw};

use hac_model::{Deny, Refusal};
use line_reader::is_blank;
use std::alloc::Global;

/// The first word, without its quotes and their escapes, and what follows it. The line is bad where
/// there is no word, or where its quotes are wrong.
pub fn split_word(alloc: Global, bytes: &[u8]) -> Result<(Vec<u8>, &[u8]), Deny>
    ensures { AnswersSeen (λ word. (word.0.items, word.1.now)) result (first_word bytes.now) }
{
    word_at(alloc, skip_spaces(bytes))
}

/// The one word of the bytes. The line is bad where there is none, or where more follows it.
pub fn only_word(alloc: Global, bytes: &[u8]) -> Result<Vec<u8>, Deny>
    ensures { AnswersSeen (λ word. word.items) result (only_word bytes.now) }
{
    let (word, rest) = split_word(alloc, bytes)?;
    if !is_blank(rest) {
        return Err(Deny::Refused(Refusal::BadLine));
    }
    Ok(word)
}

/// The first word as it is written in the line, between its quotes if it has them, and what follows
/// it. None where the line is bad.
pub fn raw_word(bytes: &[u8]) -> Option<(&[u8], &[u8])>
    ensures { GivesRaw result (first_word bytes.now) }
{
    raw_at(skip_spaces(bytes))
}

/// The raw word at the front, with no space before it.
fn raw_at(bytes: &[u8]) -> Option<(&[u8], &[u8])>
    ensures { GivesRaw result (word_at bytes.now) }
{
    match bytes {
        [] => None,
        [b'"', rest @ ..] => raw_quoted(rest),
        _ => Some(split_run(bytes)),
    }
}

/// The raw word behind an opening quote, after whose closing quote a word may end.
fn raw_quoted(bytes: &[u8]) -> Option<(&[u8], &[u8])>
    ensures { GivesRaw result (quoted_word bytes.now) }
{
    let rest = behind_quoted(bytes)?;
    if !is_word_end(rest) {
        return None;
    }
    let end = bytes.len() - rest.len() - 1;
    Some((&bytes[..end], rest))
}

/// What follows the closing quote of the word behind an opening quote.
fn behind_quoted(bytes: &[u8]) -> Option<&[u8]>
    ensures { option_map (λ rest. rest.now) result ≡
        option_map (λ word. word.1) (quoted bytes.now) }
{
    let mut left = bytes;
    while !is_at_quote(left) {
        let (_, behind) = quoted_byte(left)?;
        left = behind;
    }
    Some(skip_one(left))
}

/// The word at the front, with no space before it.
fn word_at(alloc: Global, bytes: &[u8]) -> Result<(Vec<u8>, &[u8]), Deny>
    ensures { AnswersSeen (λ word. (word.0.items, word.1.now)) result (word_at bytes.now) }
{
    match bytes {
        [] => Err(Deny::Refused(Refusal::BadLine)),
        [b'"', rest @ ..] => quoted_word(alloc, rest),
        _ => {
            let (word, rest) = split_run(bytes);
            Ok((Vec::from_slice(alloc, word)?, rest))
        }
    }
}

/// The word behind an opening quote, after whose closing quote a word may end.
fn quoted_word(alloc: Global, bytes: &[u8]) -> Result<(Vec<u8>, &[u8]), Deny>
    ensures { AnswersSeen (λ word. (word.0.items, word.1.now)) result (quoted_word bytes.now) }
{
    let (word, rest) = unquote(alloc, bytes)?;
    if !is_word_end(rest) {
        return Err(Deny::Refused(Refusal::BadLine));
    }
    Ok((word, rest))
}

/// The word behind an opening quote, up to the closing one, and what follows that.
fn unquote(alloc: Global, bytes: &[u8]) -> Result<(Vec<u8>, &[u8]), Deny>
    ensures { AnswersSeen (λ word. (word.0.items, word.1.now)) result
        (ok_or (quoted bytes.now) BadLine) }
{
    let mut word = Vec::new(alloc);
    let mut rest = bytes;
    while !is_at_quote(rest) {
        let Some((byte, behind)) = quoted_byte(rest) else {
            return Err(Deny::Refused(Refusal::BadLine));
        };
        word.push(byte)?;
        rest = behind;
    }
    Ok((word, skip_one(rest)))
}

/// The first byte of a word in quotes, where the word goes on, and what follows it: none where no
/// closing quote comes, or where a backslash comes before anything but a quote or a backslash.
fn quoted_byte(bytes: &[u8]) -> Option<(u8, &[u8])>
    requires { is_quote (slice_index bytes.now 0) ≡ false }
    ensures { QuotesFirst quoted bytes.now result }
{
    match bytes {
        [b'\\', rest @ ..] => escaped_byte(rest),
        [byte, rest @ ..] => Some((*byte, rest)),
        [] => None,
    }
}

/// The same from behind a backslash on.
fn escaped_byte(bytes: &[u8]) -> Option<(u8, &[u8])>
    ensures { QuotesFirst quoted_escape bytes.now result }
{
    match bytes {
        [byte @ (b'"' | b'\\'), rest @ ..] => Some((*byte, rest)),
        _ => None,
    }
}

/// Whether a quote is at the front.
fn is_at_quote(bytes: &[u8]) -> bool
    ensures { result ≡ is_quote (slice_index bytes.now 0) }
{
    matches!(bytes, [b'"', ..])
}

/// Whether a word may end before the bytes.
fn is_word_end(bytes: &[u8]) -> bool
    ensures { result ≡ is_word_end bytes.now }
{
    matches!(bytes, [] | [b' ', ..])
}

/// The first run of bytes that are no spaces, and what follows it from the space behind it on. Both
/// are empty where there are only spaces.
pub fn split_run(bytes: &[u8]) -> (&[u8], &[u8])
    ensures run { result.0.now ≡ first_run bytes.now }
    ensures rest { result.1.now ≡ after_first_run bytes.now }
{
    let bytes = skip_spaces(bytes);
    bytes.split_at(run_len(bytes))
}

/// The bytes behind the first one, none where there is none.
pub fn skip_one(bytes: &[u8]) -> &[u8]
    ensures { result.now ≡ drop 1 bytes.now }
{
    match bytes {
        [_, rest @ ..] => rest,
        [] => bytes,
    }
}

/// The bytes from the first one on that is no space.
pub fn skip_spaces(bytes: &[u8]) -> &[u8]
    ensures { result.now ≡ skip_spaces bytes.now }
{
    &bytes[space_count(bytes)..]
}

/// How many spaces the bytes begin with.
fn space_count(bytes: &[u8]) -> usize
    ensures { result ≡ prefix_len is_space bytes.now }
{
    bytes.iter().take_while(|byte| **byte == b' ').count()
}

/// How many bytes come before the first space.
fn run_len(bytes: &[u8]) -> usize
    ensures { result ≡ position_or_len is_space bytes.now }
{
    bytes.iter().take_while(|byte| **byte != b' ').count()
}
