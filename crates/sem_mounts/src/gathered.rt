//! The lists of words while texts come up, one behind the other.
ghost use Rattle.std.specs.Prelude.{◌≡◌, ◌&&◌, ◌||◌, ℕ, [], IfOk, OnOk, map, nat_eq};
ghost use Rattle.hac_model.specs.Query.Words.{has_term, is_asked, is_word_byte, runs};
ghost use Rattle.hac_model.specs.declared.terms.Term.{Term};
ghost use Rattle.sem_mounts.specs.WordLists.{is_listed};

use crate::numbers::Numbers;
use crate::places::Places;
use hac_model::{Memory, Name};
use std::alloc::{AllocError, Global};
use std::marker::Model;

/// Words in the order in which they came up, each with the numbers of the documents that have it.
#[derive(Drop)]
pub(crate) struct Gathered {
    alloc: Global,
    lists: Vec<(Name, Numbers)>,
    places: Places,
}

impl Model for Gathered {
    ghost use Rattle.sem_mounts.specs.WordLists.{Lists};

    ghost Value = { Lists };

    ghost view = { λ gathered. gathered.lists.items };
}

impl Gathered {
    /// No words.
    pub(crate) fn new(alloc: Global) -> Gathered
        ensures { result ≡ [] }
    {
        Gathered {
            alloc,
            lists: Vec::new(alloc),
            places: Places::new(alloc),
        }
    }

    /// Lists a document under each word of its text.
    pub(crate) fn put_text(&mut self, text: &[u8], number: u32) -> Result<(), Memory>
        ensures { OnOk result ((n : ℕ) (term : Term) → is_listed self.new n term
            ≡ ((has_term text.now term && nat_eq n number) || is_listed self.old n term)) }
    {
        let text = text.to_ascii_lowercase(self.alloc)?;
        for word in &runs(self.alloc, &text)? {
            self.put(word, number)?;
        }
        Ok(())
    }

    // Lists a document under a word.
    fn put(&mut self, word: &[u8], number: u32) -> Result<(), Memory>
        ensures { OnOk result ((n : ℕ) (term : Term) → is_listed self.new n term
            ≡ ((is_asked term word.now && nat_eq n number) || is_listed self.old n term)) }
    {
        match self.places.find(&self.lists, word) {
            Some(place) => self.lists[place].1.put(number),
            None => self.put_first(word, number),
        }
    }

    // Lists a document under a word that has no list.
    fn put_first(&mut self, word: &[u8], number: u32) -> Result<(), Memory>
        ensures { OnOk result ((n : ℕ) (term : Term) → is_listed self.new n term
            ≡ ((is_asked term word.now && nat_eq n number) || is_listed self.old n term)) }
    {
        let word = Name::new(word.to_vec(self.alloc)?);
        self.lists.push((word, Numbers::one(self.alloc, number)?))?;
        self.places.keep_last(&self.lists)
    }

    /// The lists.
    pub(crate) fn into_lists(self) -> Vec<(Name, Numbers)>
        ensures { result.items ≡ self }
    {
        self.lists
    }
}

// The longest runs of word bytes, in the order of the text.
fn runs(alloc: Global, text: &[u8]) -> Result<Vec<&[u8]>, AllocError>
    ensures { IfOk result (λ found. map (λ run. run.now) found.items ≡ runs text.now) }
{
    text.split(|b| !is_word_byte(*b))
        .filter(|run| !run.is_empty())
        .collect(alloc)
}

#[tactic(auto, unfolding(hac_model::specs::Query::Words::is_word_byte))]
fn is_word_byte(b: u8) -> bool
    ensures { result ≡ is_word_byte b }
{
    b.is_ascii_alphanumeric() || b >= 128
}
