//! The words of a text, each once and in order.
ghost use Rattle.std.specs.Prelude.{◌≡◌, IfOk};
ghost use Rattle.hac_model.specs.Query.Words.{lower_case, rising_words, runs};

use crate::bytes::is_word_byte;
use crate::runs::Run;
use hac_model::{Memory, Name, Words};
use std::alloc::{AllocError, Global};

/// The words of a text, each once and in the order of their bytes. While it works it holds a copy
/// of the text.
pub fn words_of(alloc: Global, text: &[u8]) -> Result<Words, Memory>
    ensures { IfOk result (λ words. words ≡ rising_words text.now) }
{
    let text = text.to_ascii_lowercase(alloc)?;
    let mut words = runs_of(alloc, &text)?;
    words.sort_unstable();
    words.dedup();
    Ok(Words::new(names(alloc, &words)?))
}

/// The longest runs of word bytes, in the order of the text and as often as it has them. Those of a
/// text in lower case are its words. They borrow the text, so none takes memory of its own.
fn runs_of(alloc: Global, text: &[u8]) -> Result<Vec<Run<'_>>, AllocError>
    ensures { IfOk result (λ found. found.items ≡ runs text.now) }
{
    text.split(|b| !is_word_byte(*b))
        .filter(|run| !run.is_empty())
        .map(|run| Run::new(run))
        .collect(alloc)
}

fn names(alloc: Global, words: &[Run<'_>]) -> Result<Vec<Name>, AllocError>
    ensures { IfOk result (λ names. names.items ≡ words.now) }
{
    let mut names = Vec::with_capacity(alloc, words.len())?;
    for word in words {
        names.push(Name::new(Vec::from_slice(alloc, word.as_bytes())?))?;
    }
    Ok(names)
}
