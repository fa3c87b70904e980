//! Whether a term stands at a place of a text.
ghost use Rattle.std.specs.Prelude.{◌≡◌, ◌≤◌, ◌&&◌, length, nat_eq};
ghost use Rattle.std.specs.List.{starts_with};
ghost use Rattle.hac_model.specs.Query.Words.{lower_case};
ghost use Rattle.hac_words.specs.Standing.{begins_with, may_begin, may_end, stands_at};

use crate::bytes::is_word_byte;
use hac_model::Term;

/// Whether a word begins at `at` that is what the term asks for.
#[tactic(auto, unfolding(crate::specs::Standing::stands_at))]
pub(crate) fn stands_at(text: &[u8], at: usize, term: &Term) -> bool
    requires { at ≤ length text.now }
    ensures { result ≡ stands_at text.now at term.now }
{
    may_begin(text, at) && begins_with(&text[at..], term)
}

#[tactic(auto, unfolding(crate::specs::Standing::may_begin))]
fn may_begin(text: &[u8], at: usize) -> bool
    requires { at ≤ length text.now }
    ensures { result ≡ may_begin text.now at }
{
    at == 0 || !is_word_byte(text[at - 1])
}

#[tactic(auto, unfolding(crate::specs::Standing::begins_with))]
fn begins_with(text: &[u8], term: &Term) -> bool
    ensures { result ≡ begins_with text.now term.now }
{
    match term {
        Term::Word(letters) => is_whole(text, letters.as_bytes()),
        Term::Prefix(letters) => begins(text, letters.as_bytes()),
    }
}

// Whether the text, in lower case, begins with the letters, and no word goes on behind them.
fn is_whole(text: &[u8], letters: &[u8]) -> bool
    ensures { result ≡ (starts_with nat_eq (lower_case text.now) letters.now
        && may_end text.now (length letters.now)) }
{
    begins(text, letters) && may_end(text, letters.len())
}

#[tactic(auto, unfolding(crate::specs::Standing::may_end))]
fn may_end(text: &[u8], at: usize) -> bool
    ensures { result ≡ may_end text.now at }
{
    at >= text.len() || !is_word_byte(text[at])
}

/// Whether the text, in lower case, begins with the letters.
pub(crate) fn begins(text: &[u8], letters: &[u8]) -> bool
    ensures { result ≡ starts_with nat_eq (lower_case text.now) letters.now }
{
    text.len() >= letters.len()
        && letters
            .iter()
            .zip(text)
            .all(|(letter, b)| *letter == b.to_ascii_lowercase())
}
