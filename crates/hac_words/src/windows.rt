//! Whether a text has a term whose letters are a word. The text is searched by windows: each is
//! copied in lower case, and the copy is searched for the letters as they are.
ghost use Rattle.std.specs.Prelude.{◌≡◌, ◌<◌, ◌≤◌, length, IsTrue};
ghost use Rattle.hac_model.specs.Query.Terms.{letters_in};
ghost use Rattle.hac_model.specs.Query.Words.{has_term, is_word};
ghost use Rattle.hac_words.specs.Standing.{WindowTells, window_at};

use crate::standing::stands_at;
use hac_model::Term;
use memchr::memmem::Finder;

/// How many letters a term may have to be searched by windows.
pub(crate) const MOST_LETTERS: usize = 512;

// How many bytes are copied at a time.
const WINDOW: usize = 1024;

/// Whether one of the text's words is what the term asks for.
pub(crate) fn has_word(text: &[u8], term: &Term) -> bool
    requires word { IsTrue (is_word (letters_in term.now)) }
    requires short { length (letters_in term.now) ≤ MOST_LETTERS }
    ensures { result ≡ has_term text.now term.now }
{
    let letters = term.letters();
    let finder = Finder::new(letters);
    // Letters that begin further on don't end in the window.
    let step = WINDOW + 1 - letters.len();
    let mut from = 0;
    while from < text.len() {
        if has_from(text, from, &finder, term) {
            return true;
        }
        from += step;
    }
    false
}

// Whether a word that the term asks for begins in the text from `from` on, as far as the window
// that begins there tells.
fn has_from(text: &[u8], from: usize, finder: &Finder<'_>, term: &Term) -> bool
    requires within { from < length text.now }
    requires word { IsTrue (is_word (letters_in term.now)) }
    requires finder { finder.now ≡ letters_in term.now }
    ensures { WindowTells WINDOW text.now from term.now result }
{
    let rest = &text[from..];
    let part = &rest[..rest.len().min(WINDOW)];
    let mut lower = [0; WINDOW];
    let window = &mut lower[..part.len()];
    window.copy_from_slice(part);
    window.make_ascii_lowercase();
    is_in_window(text, from, window, finder, term)
}

// The same, with that window.
fn is_in_window(text: &[u8], from: usize, window: &[u8], finder: &Finder<'_>, term: &Term) -> bool
    requires within { from < length text.now }
    requires window { window.now ≡ window_at WINDOW text.now from }
    requires word { IsTrue (is_word (letters_in term.now)) }
    requires finder { finder.now ≡ letters_in term.now }
    ensures { WindowTells WINDOW text.now from term.now result }
{
    finder
        .find_iter(window)
        .any(|found| stands_at(text, from + found, term))
}
