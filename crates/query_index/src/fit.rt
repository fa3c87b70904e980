//! What an index says of the words of an item.
ghost use Rattle.std.specs.Prelude.{◌≡◌};
ghost use Rattle.query_index.specs.Seen.{answer_of};

use crate::index::QueryIndex;
use crate::met::Met;
use hac_model::Term;
use std::marker::Model;

/// Which queries may hold of an item with some words, and which of their terms ask for a word.
#[derive(Drop)]
pub struct Fit<'a> {
    pub(crate) index: &'a QueryIndex,
    pub(crate) met: Met,
    // The places of the queries that may hold.
    pub(crate) places: Vec<usize>,
}

impl<'a> Model for Fit<'a> {
    ghost use Rattle.query_index.specs.Seen.{Fitting};

    ghost Value = { Fitting };

    ghost use Rattle.query_index.specs.Inner.{fitting_of, IsInOrder};

    ghost view = { fitting_of };

    ghost invariant = { IsInOrder };
}

impl<'a> Fit<'a> {
    /// The places of the queries that may hold, in order.
    pub fn places(&self) -> &[usize]
        ensures { result.now ≡ self.now.places }
    {
        self.places.as_slice()
    }

    /// Whether a term asks for one of the words. It takes one look-up, and says nothing if the
    /// index doesn't have the term's letters, so that no query has the term.
    pub fn answer(&self, term: &Term) -> Option<bool>
        ensures { result ≡ answer_of self.now term.now }
    {
        match term {
            Term::Word(letters) => self
                .index
                .is_word_met(letters.as_bytes(), self.met.words.as_slice()),
            Term::Prefix(letters) => self
                .index
                .is_beginning_met(letters.as_bytes(), self.met.beginnings.as_slice()),
        }
    }
}
