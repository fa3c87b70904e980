//! What a query may ask of a text, and the words that a text has.
ghost use Rattle.std.specs.Prelude.{◌≡◌};
ghost use Rattle.hac_model.specs.Query.Terms.{is_term_before, letters_in};

use crate::bytes::{Name, Seq};

/// Something that a text has or lacks, as `has_term` of the specs says.
#[derive(Clone, Debug, Drop, PartialEq, Eq)]
pub enum Term {
    /// One of the text's words is these letters. Words have no capitals, so no text has a term with
    /// one.
    Word(Name),
    /// One of the text's words begins with these letters.
    Prefix(Name),
}

/// A list of words.
pub type Words = Seq<Name>;

impl Term {
    /// The letters of the word, or of its beginning.
    pub fn letters(&self) -> &[u8]
        ensures { result.now ≡ letters_in self.now }
    {
        match self {
            Term::Word(letters) | Term::Prefix(letters) => letters.as_bytes(),
        }
    }

    /// Whether the one term comes before the other: by their letters, and a word before a prefix of
    /// the same letters.
    pub fn is_before(&self, other: &Term) -> bool
        ensures { result ≡ is_term_before self.now other.now }
    {
        match self {
            Term::Word(letters) => match other {
                Term::Word(others) => letters < others,
                Term::Prefix(others) => letters <= others,
            },
            Term::Prefix(letters) => match other {
                Term::Word(others) | Term::Prefix(others) => letters < others,
            },
        }
    }
}
