//! The index: which queries ask for a word.
ghost use Rattle.std.specs.Prelude.{◌≡◌, ◌++◌, ◌∷◌, ◌||◌, ℕ, [], List, Option, IfOk, OnOk};
ghost use Rattle.std.specs.Prelude.{filter, not};
ghost use Rattle.std.specs.Cmp.Lexicographic.{slice_cmp};
ghost use Rattle.std.specs.List.Sorted.{IsStrictlySortedBy};
ghost use Rattle.std.specs.Option.{option_copied, option_map};
ghost use Rattle.std.specs.Ordering.{nat_cmp};
ghost use Rattle.hac_model.specs.Query.Formula.{Formula};
ghost use Rattle.hac_model.specs.Query.Words.{has_bytes, runs, words};
ghost use Rattle.hac_model.specs.Tree.Links.{has};
ghost use Rattle.hac_model.specs.Tree.Valid.{RiseFrom};
ghost use Rattle.query_index.specs.Asking.{asks_for_change, is_listed};
ghost use Rattle.query_index.specs.Inner.{AreMet, Meets, is_under};
ghost use Rattle.query_index.specs.Numbers.{AreThose};
ghost use Rattle.query_index.specs.Seen.{ArePlaces, IsFitOf, IsIndexOf, place_of};

use crate::fit::Fit;
use crate::met::Met;
use crate::numbers::put_in_order;
use crate::postings::Postings;
use crate::queries;
use hac_model::{Memory, Name, Number, Query};
use hac_words::is_word_byte;
use std::alloc::Global;
use std::marker::Model;

/// Queries, each at its place, by the words for which they ask.
#[derive(Drop)]
pub struct QueryIndex {
    alloc: Global,
    // How many queries there are.
    count: usize,
    words: Postings,
    beginnings: Postings,
    // The places of the queries that can hold of an item that has none of their terms.
    wordless: Vec<usize>,
}

impl Model for QueryIndex {
    ghost use Rattle.query_index.specs.Seen.{Seen};

    ghost Value = { Seen };

    ghost use Rattle.query_index.specs.Inner.{seen_of};

    ghost view = { seen_of };
}

impl QueryIndex {
    /// There is no query.
    pub fn new(alloc: Global) -> QueryIndex
        ensures { IsIndexOf [] result }
    {
        QueryIndex {
            alloc,
            count: 0,
            words: Postings::new(alloc),
            beginnings: Postings::new(alloc),
            wordless: Vec::new(alloc),
        }
    }

    /// The index with one query more, or with a place at which there is none.
    pub fn with(self, query: Option<&Query<Number>>) -> Result<QueryIndex, Memory>
        ensures { (queries : List (Option (Formula ℕ))) → IsIndexOf queries self →
            IfOk result (IsIndexOf (queries ++ option_copied query.entry ∷ [])) }
    {
        let Some(next) = self.count.checked_add(1) else {
            return Err(Memory);
        };
        let QueryIndex {
            alloc,
            count,
            mut words,
            mut beginnings,
            mut wordless,
        } = self;
        queries::add(alloc, &mut words, &mut beginnings, query, count)?;
        queries::add_wordless(&mut wordless, query, count)?;
        Ok(QueryIndex {
            alloc,
            count: next,
            words,
            beginnings,
            wordless,
        })
    }

    /// The places of the queries that ask for a word that is gone, or for one that is new, in
    /// order.
    pub fn asking(&self, old: &[Name], new: &[Name]) -> Result<Vec<usize>, Memory>
        requires old { IsStrictlySortedBy (slice_cmp nat_cmp) old.now }
        requires new { IsStrictlySortedBy (slice_cmp nat_cmp) new.now }
        ensures { (queries : List (Option (Formula ℕ))) → IsIndexOf queries self.now → IfOk result
            (λ places. ArePlaces queries (asks_for_change old.now new.now) places.items) }
    {
        let mut met = Met::new(self.alloc);
        self.meet_beyond(old, new, &mut met)?;
        self.meet_beyond(new, old, &mut met)?;
        met.put_in_order();
        self.places_of(&met, Vec::new(self.alloc))
    }

    /// Which queries may hold of an item with this text, and which of their terms ask for one of
    /// its words. While it works it holds a copy of the text.
    pub fn fitting(&self, text: &[u8]) -> Result<Fit<'_>, Memory>
        ensures { (queries : List (Option (Formula ℕ))) → IsIndexOf queries self.now →
            IfOk result (IsFitOf queries (words text.now)) }
    {
        let lower = text.to_ascii_lowercase(self.alloc)?;
        let mut met = Met::new(self.alloc);
        self.meet_runs(&lower, &mut met)?;
        met.put_in_order();
        let wordless = Vec::from_slice(self.alloc, self.wordless.as_slice())?;
        let places = self.places_of(&met, wordless)?;
        Ok(Fit {
            index: self,
            met,
            places,
        })
    }

    /// Whether letters were met as a word, if a query asks for that.
    pub(crate) fn is_word_met(&self, letters: &[u8], met: &[usize]) -> Option<bool>
        requires { RiseFrom 0 met.now }
        ensures { result ≡ option_map (has met.now) (place_of self.now.words letters.now) }
    {
        self.words.is_met(letters, met)
    }

    /// Whether they were met as the beginning of a word, if a query asks for that.
    pub(crate) fn is_beginning_met(&self, letters: &[u8], met: &[usize]) -> Option<bool>
        requires { RiseFrom 0 met.now }
        ensures { result ≡ option_map (has met.now) (place_of self.now.beginnings letters.now) }
    {
        self.beginnings.is_met(letters, met)
    }

    /// These places and those of the letters that were met, in order.
    fn places_of(&self, met: &Met, places: Vec<usize>) -> Result<Vec<usize>, Memory>
        ensures { IfOk result (λ all. AreThose (λ place. (has places.items place
            || is_under self.now.words met.now.words.items place)
            || is_under self.now.beginnings met.now.beginnings.items place) all.items) }
    {
        let mut places = places;
        self.words.add_places(met.words.as_slice(), &mut places)?;
        self.beginnings
            .add_places(met.beginnings.as_slice(), &mut places)?;
        put_in_order(&mut places);
        Ok(places)
    }

    /// Adds what those of these words meet that aren't among the others.
    fn meet_beyond(&self, words: &[Name], others: &[Name], met: &mut Met) -> Result<(), Memory>
        requires { IsStrictlySortedBy (slice_cmp nat_cmp) others.now }
        ensures { OnOk result (Meets self.now
            (filter (λ word. not (is_listed others.now word)) words.now) met.old met.new) }
    {
        for word in words {
            self.meet_new(word, others, met)?;
        }
        Ok(())
    }

    /// Adds what the words meet of a text in lower case.
    fn meet_runs(&self, text: &[u8], met: &mut Met) -> Result<(), Memory>
        ensures { OnOk result (Meets self.now (runs text.now) met.old met.new) }
    {
        for run in text.split(|b| !is_word_byte(*b)) {
            self.meet_run(run, met)?;
        }
        Ok(())
    }

    /// Adds what a run meets, if it has bytes.
    fn meet_run(&self, run: &[u8], met: &mut Met) -> Result<(), Memory>
        ensures { OnOk result (Meets self.now (filter has_bytes (run.now ∷ [])) met.old met.new) }
    {
        if run.is_empty() {
            return Ok(());
        }
        self.meet(run, met)
    }

    /// Adds what a word meets, if it isn't among the others.
    fn meet_new(&self, word: &Name, others: &[Name], met: &mut Met) -> Result<(), Memory>
        requires { IsStrictlySortedBy (slice_cmp nat_cmp) others.now }
        ensures { OnOk result (Meets self.now
            (filter (λ word. not (is_listed others.now word)) (word.now ∷ [])) met.old met.new) }
    {
        if is_among(word, others) {
            return Ok(());
        }
        self.meet(word.as_bytes(), met)
    }

    /// Adds what a word meets.
    fn meet(&self, word: &[u8], met: &mut Met) -> Result<(), Memory>
        ensures { OnOk result (Meets self.now (word.now ∷ []) met.old met.new) }
    {
        self.words.meet(word, &mut met.words)?;
        self.beginnings.meet_beginnings(word, &mut met.beginnings)
    }
}

/// Whether a word is one of these.
fn is_among(word: &Name, words: &[Name]) -> bool
    requires { IsStrictlySortedBy (slice_cmp nat_cmp) words.now }
    ensures { result ≡ is_listed words.now word.now }
{
    words.binary_search(word).is_ok()
}
