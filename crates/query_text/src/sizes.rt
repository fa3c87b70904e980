//! How much a query holds, and whether that is no more than a query may.
ghost use Rattle.std.specs.Prelude.{◌≡◌, ◌-◌, if◌then◌else◌, nat_le, nat_lt};
ghost use Rattle.hac_model.specs.Query.Queries as queries;

use hac_model::{NESTING_LIMIT, Node, QUERY_LIMIT, Query, TERMS_LIMIT};
use hac_words::is_word;

/// Whether a query holds no more than a query may, and its words and beginnings of words are as
/// texts have them.
pub fn is_query<D>(query: &Query<D>) -> bool
    ensures { result ≡ queries.is_query query.now }
{
    are_terms(query)
        && terms_left(TERMS_LIMIT, query).is_some()
        && letters_left(QUERY_LIMIT, query).is_some()
        && nests_within(NESTING_LIMIT, query)
}

/// How many terms may follow those of a query, if `most` may be there in all; None if it has more.
pub fn terms_left<D>(most: u64, query: &Query<D>) -> Option<u64>
    ensures { result ≡ (if nat_lt most (queries.term_count query.now) then None else Some
        (most - queries.term_count query.now)) }
{
    match &query.node {
        Node::Term(_) | Node::Dir(_) => most.checked_sub(1),
        Node::Not(query) => terms_left(most, query),
        Node::And(left, right) | Node::Or(left, right) => {
            terms_left(terms_left(most, left)?, right)
        }
    }
}

/// Whether the words and beginnings of words of a query are as texts have them.
fn are_terms<D>(query: &Query<D>) -> bool
    ensures { result ≡ queries.are_terms query.now }
{
    match &query.node {
        Node::Term(term) => is_word(term.letters()),
        Node::Dir(_) => true,
        Node::Not(query) => are_terms(query),
        Node::And(left, right) | Node::Or(left, right) => are_terms(left) && are_terms(right),
    }
}

/// How many letters may follow those of a query, if `most` may be there in all; None if it has
/// more.
fn letters_left<D>(most: usize, query: &Query<D>) -> Option<usize>
    ensures { result ≡ (if nat_lt most (queries.letter_count query.now) then None else Some
        (most - queries.letter_count query.now)) }
{
    match &query.node {
        Node::Term(term) => most.checked_sub(term.letters().len()),
        Node::Dir(_) => Some(most),
        Node::Not(query) => letters_left(most, query),
        Node::And(left, right) | Node::Or(left, right) => {
            letters_left(letters_left(most, left)?, right)
        }
    }
}

/// Whether no term of a query has more than `most` `NOT`s round it.
fn nests_within<D>(most: u64, query: &Query<D>) -> bool
    ensures { result ≡ nat_le (queries.not_count query.now) most }
{
    match &query.node {
        Node::Term(_) | Node::Dir(_) => true,
        Node::Not(query) => most > 0 && nests_within(most - 1, query),
        Node::And(left, right) | Node::Or(left, right) => {
            nests_within(most, left) && nests_within(most, right)
        }
    }
}
