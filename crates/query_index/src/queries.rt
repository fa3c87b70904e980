//! Walks over a query.
ghost use Rattle.std.specs.Prelude.{◌≡◌, ◌==◌, ◌&&◌, OnOk, false, true};
ghost use Rattle.std.specs.Option.{option_copied, option_map_or};
ghost use Rattle.hac_model.specs.Query.Terms.{is_same_term};
ghost use Rattle.hac_model.specs.declared.terms.Term.TheVariants.{Prefix, Word};
ghost use Rattle.query_index.specs.Asking.{can_be};
ghost use Rattle.query_index.specs.Inner.{AddsPlace, has_beginning, has_word};
ghost use Rattle.query_index.specs.Numbers.{AddsAll};

use crate::postings::Postings;
use hac_model::{Memory, Node, Number, Query, Term};
use std::alloc::Global;

/// Adds the place of a query, if there is one that can hold of an item that has none of its terms.
pub(crate) fn add_wordless(
    wordless: &mut Vec<usize>,
    query: Option<&Query<Number>>,
    place: usize,
) -> Result<(), Memory>
    ensures { OnOk result (AddsAll wordless.old.items wordless.new.items (λ other.
        option_map_or (can_be true) (option_copied query.entry) false && place == other)) }
{
    if is_wordless(query) {
        wordless.push(place)?;
    }
    Ok(())
}

/// Whether there is a query that can hold of an item that has none of its terms.
fn is_wordless(query: Option<&Query<Number>>) -> bool
    ensures { result ≡ option_map_or (can_be true) (option_copied query.entry) false }
{
    match query {
        Some(query) => can_be(query, true),
        None => false,
    }
}

/// Whether a query can be true, or can be false, of an item that has none of its terms.
fn can_be(query: &Query<Number>, wanted: bool) -> bool
    ensures { result ≡ can_be wanted query.now }
{
    match &query.node {
        Node::Term(_) => !wanted,
        Node::Dir(_) => true,
        Node::Not(query) => can_be(query, !wanted),
        Node::And(left, right) => {
            if wanted {
                can_be(left, wanted) && can_be(right, wanted)
            } else {
                can_be(left, wanted) || can_be(right, wanted)
            }
        }
        Node::Or(left, right) => {
            if wanted {
                can_be(left, wanted) || can_be(right, wanted)
            } else {
                can_be(left, wanted) && can_be(right, wanted)
            }
        }
    }
}

/// Adds the place of a query, if there is one, to those of each of its terms.
pub(crate) fn add(
    alloc: Global,
    words: &mut Postings,
    beginnings: &mut Postings,
    query: Option<&Query<Number>>,
    place: usize,
) -> Result<(), Memory>
    ensures words { OnOk result (AddsPlace words.old words.new
        (λ letters. option_map_or (has_word letters) (option_copied query.entry) false) place) }
    ensures beginnings { OnOk result (AddsPlace beginnings.old beginnings.new
        (λ letters. option_map_or (has_beginning letters) (option_copied query.entry) false)
        place) }
{
    match query {
        Some(query) => add_terms(alloc, words, beginnings, query, place),
        None => Ok(()),
    }
}

/// Adds the place of a query to those of each of its terms.
fn add_terms(
    alloc: Global,
    words: &mut Postings,
    beginnings: &mut Postings,
    query: &Query<Number>,
    place: usize,
) -> Result<(), Memory>
    ensures words { OnOk result (AddsPlace words.old words.new
        (λ letters. has_word letters query.now) place) }
    ensures beginnings { OnOk result (AddsPlace beginnings.old beginnings.new
        (λ letters. has_beginning letters query.now) place) }
{
    match &query.node {
        Node::Term(term) => add_term(alloc, words, beginnings, term, place),
        Node::Dir(_) => Ok(()),
        Node::Not(query) => add_terms(alloc, words, beginnings, query, place),
        Node::And(left, right) | Node::Or(left, right) => {
            add_terms(alloc, words, beginnings, left, place)?;
            add_terms(alloc, words, beginnings, right, place)
        }
    }
}

/// Adds the place of a query to those of one of its terms.
fn add_term(
    alloc: Global,
    words: &mut Postings,
    beginnings: &mut Postings,
    term: &Term,
    place: usize,
) -> Result<(), Memory>
    ensures words { OnOk result (AddsPlace words.old words.new
        (λ letters. is_same_term (Word letters) term.now) place) }
    ensures beginnings { OnOk result (AddsPlace beginnings.old beginnings.new
        (λ letters. is_same_term (Prefix letters) term.now) place) }
{
    match term {
        Term::Word(letters) => words.add(alloc, letters.as_bytes(), place),
        Term::Prefix(letters) => beginnings.add(alloc, letters.as_bytes(), place),
    }
}
