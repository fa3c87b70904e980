//! Letters, and the places of the queries that ask for them.
ghost use Rattle.std.specs.Prelude.{◌≡◌, ◌==◌, ◌||◌, ◌++◌, ◌∷◌, ℕ, List, [], false, IsTrue};
ghost use Rattle.std.specs.Prelude.{OnOk, if◌then◌else◌};
ghost use Rattle.std.specs.Option.{option_map, option_map_or};
ghost use Rattle.std.specs.Str.{bytes_eq};
ghost use Rattle.hac_model.specs.Tree.Links.{has};
ghost use Rattle.hac_model.specs.Tree.Valid.{RiseFrom};
ghost use Rattle.query_index.specs.Inner.{AddsPlace, begins_at, has_letters, is_at, is_under};
ghost use Rattle.query_index.specs.Inner.{kept_at, places_in, seen_postings};
ghost use Rattle.query_index.specs.Numbers.{AddsAll};
ghost use Rattle.query_index.specs.Seen.{place_of};
ghost use Rattle.query_index.specs.Sieve.{number_of};

use crate::numbers::is_among;
use crate::sieve::{NO_LETTERS, Sieve, next};
use hac_model::Memory;
use indexmap::IndexMap;
use std::alloc::Global;
use std::marker::Model;

/// The places of the queries that ask for letters, by the letters.
type Places = IndexMap<Vec<u8>, Vec<usize>>;

/// Letters, and the places of the queries that ask for them.
#[derive(Drop)]
pub(crate) struct Postings {
    places: Places,
    // All these letters pass it.
    sieve: Sieve,
}

impl Model for Postings {
    ghost use Rattle.std.specs.Prelude.{ℕ, List};

    ghost Value = { List (List ℕ × List ℕ) };

    ghost use Rattle.query_index.specs.Inner.{seen_postings, AllPass};

    ghost view = { λ postings. seen_postings postings.places };

    ghost invariant = { AllPass };
}

impl Postings {
    /// There are no letters.
    pub(crate) fn new(alloc: Global) -> Postings
        ensures { result ≡ [] }
    {
        Postings {
            places: IndexMap::new(alloc),
            sieve: Sieve::new(alloc),
        }
    }

    /// Adds a place to those of letters.
    pub(crate) fn add(&mut self, alloc: Global, letters: &[u8], place: usize) -> Result<(), Memory>
        ensures { OnOk result (AddsPlace self.old self.new
            (λ others. bytes_eq others letters.now) place) }
    {
        self.sieve.admit(letters)?;
        make_room(alloc, &mut self.places, letters)?;
        put(&mut self.places, letters, place)
    }

    /// Where letters stand.
    fn place_of(&self, letters: &[u8]) -> Option<usize>
        ensures { result ≡ place_of self.now letters.now }
    {
        if self.sieve.passes(letters) {
            place_of(&self.places, letters)
        } else {
            None
        }
    }

    /// Adds where letters stand.
    pub(crate) fn meet(&self, letters: &[u8], met: &mut Vec<usize>) -> Result<(), Memory>
        ensures { OnOk result (AddsAll met.old.items met.new.items (is_at self.now letters.now)) }
    {
        push_some(self.place_of(letters), met)
    }

    /// Adds where all beginnings of a word stand.
    pub(crate) fn meet_beginnings(&self, word: &[u8], met: &mut Vec<usize>) -> Result<(), Memory>
        ensures { OnOk result (AddsAll met.old.items met.new.items (begins_at self.now word.now)) }
    {
        if self.places.is_empty() {
            return Ok(());
        }
        self.meet_lengths(word, met)
    }

    /// Adds them by a look at each beginning, the empty one and the whole word among them.
    fn meet_lengths(&self, word: &[u8], met: &mut Vec<usize>) -> Result<(), Memory>
        ensures { OnOk result (AddsAll met.old.items met.new.items (begins_at self.now word.now)) }
    {
        let mut number = NO_LETTERS;
        for (len, byte) in word.iter().enumerate() {
            self.meet_numbered(number, &word[..len], met)?;
            number = next(number, *byte);
        }
        self.meet_numbered(number, word, met)
    }

    /// Adds where letters stand, whose number is known.
    fn meet_numbered(
        &self,
        number: usize,
        letters: &[u8],
        met: &mut Vec<usize>,
    ) -> Result<(), Memory>
        requires { number ≡ number_of letters.now }
        ensures { OnOk result (AddsAll met.old.items met.new.items (is_at self.now letters.now)) }
    {
        if self.sieve.has_number(number) {
            push_some(place_of(&self.places, letters), met)
        } else {
            Ok(())
        }
    }

    /// Whether letters stand where some were met, if they stand anywhere.
    pub(crate) fn is_met(&self, letters: &[u8], met: &[usize]) -> Option<bool>
        requires { RiseFrom 0 met.now }
        ensures { result ≡ option_map (has met.now) (place_of self.now letters.now) }
    {
        match self.place_of(letters) {
            Some(at) => Some(is_among(at, met)),
            None => None,
        }
    }

    /// Adds the places of the letters that stand there.
    pub(crate) fn add_places(&self, met: &[usize], places: &mut Vec<usize>) -> Result<(), Memory>
        ensures { OnOk result (AddsAll places.old.items places.new.items
            (is_under self.now met.now)) }
    {
        for at in met {
            places.extend_from_slice(self.places_in(*at))?;
        }
        Ok(())
    }

    /// The places of the letters that stand in one place.
    fn places_in(&self, at: usize) -> &[usize]
        ensures { result.now ≡ places_in self.now at }
    {
        match self.places.get_index(at) {
            Some((_, places)) => places.as_slice(),
            None => &[],
        }
    }
}

/// Ensures that letters are there, with no places if they are new.
fn make_room(alloc: Global, places: &mut Places, letters: &[u8]) -> Result<(), Memory>
    ensures there { OnOk result (IsTrue (has_letters places.new letters.now)) }
    ensures places { (others : List ℕ) →
        kept_at places.new others ≡ kept_at places.old others }
    ensures others { (others : List ℕ) → IsTrue (has_letters places.new others)
        → IsTrue (has_letters places.old others || bytes_eq others letters.now) }
{
    if places.get(letters).is_none() {
        places.insert(Vec::from_slice(alloc, letters)?, Vec::new(alloc))?;
    }
    Ok(())
}

/// Adds a place to those of letters that are there.
fn put(places: &mut Places, letters: &[u8], place: usize) -> Result<(), Memory>
    requires { IsTrue (has_letters places.old letters.now) }
    ensures places { OnOk result ((others : List ℕ) → kept_at places.new others
        ≡ (if bytes_eq others letters.now then kept_at places.old others ++ place ∷ []
        else kept_at places.old others)) }
    ensures letters { (others : List ℕ) →
        has_letters places.new others ≡ has_letters places.old others }
{
    match places.get_mut(letters) {
        Some(places) => places.push(place)?,
        None => {}
    }
    Ok(())
}

/// Where letters stand.
fn place_of(places: &Places, letters: &[u8]) -> Option<usize>
    ensures { result ≡ place_of (seen_postings places.now) letters.now }
{
    places.get_index_of(letters)
}

/// Adds a number, if there is one.
fn push_some(number: Option<usize>, numbers: &mut Vec<usize>) -> Result<(), Memory>
    ensures { OnOk result (AddsAll numbers.old.items numbers.new.items
        (λ n. option_map_or (λ found. found == n) number false)) }
{
    match number {
        Some(number) => numbers.push(number)?,
        None => {}
    }
    Ok(())
}
