//! Whether a text has a term.
ghost use Rattle.std.specs.Prelude.{◌≡◌, ◌&&◌};
ghost use Rattle.std.specs.Str.{bytes_eq};
ghost use Rattle.hac_model.specs.Query.Words.{has_bytes, has_term, is_asked, lower_case};

use crate::bytes::{is_word, is_word_byte};
use crate::standing::begins;
use crate::windows::{MOST_LETTERS, has_word};
use hac_model::Term;

/// Whether one of the text's words is what the term asks for. It takes no memory, and goes through
/// the text once.
pub fn has_term(text: &[u8], term: &Term) -> bool
    ensures { result ≡ has_term text.now term.now }
{
    let letters = term.letters();
    if letters.len() <= MOST_LETTERS && is_word(letters) {
        return has_word(text, term);
    }
    has_run(text, term)
}

// The same for any letters, run by run.
fn has_run(text: &[u8], term: &Term) -> bool
    ensures { result ≡ has_term text.now term.now }
{
    text.split(|b| !is_word_byte(*b))
        .any(|run| is_found(run, term))
}

// Whether a run, which may have no bytes, is in lower case what the term asks for.
fn is_found(run: &[u8], term: &Term) -> bool
    ensures { result ≡ (has_bytes run.now && is_asked term.now (lower_case run.now)) }
{
    !run.is_empty() && is_asked(run, term)
}

fn is_asked(run: &[u8], term: &Term) -> bool
    ensures { result ≡ is_asked term.now (lower_case run.now) }
{
    match term {
        Term::Word(letters) => spells(run, letters.as_bytes()),
        Term::Prefix(letters) => begins(run, letters.as_bytes()),
    }
}

// Whether the run is these letters in lower case.
fn spells(run: &[u8], letters: &[u8]) -> bool
    ensures { result ≡ bytes_eq letters.now (lower_case run.now) }
{
    run.len() == letters.len() && begins(run, letters)
}
