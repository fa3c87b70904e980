//! Whether mounts keep the answers that they have to keep.
ghost use Rattle.std.specs.Prelude.{◌≡◌, ◌==◌, None, filter, length};
ghost use Rattle.std.specs.List.{list_all};
ghost use Rattle.hac_model.specs.Query.Queries as queries;
ghost use Rattle.hac_model.specs.Tree.Mounts.{is_kept, terms_in, terms_in_use};
ghost use Rattle.hac_model.specs.Tree.Valid.{TermsRise};
ghost use Rattle.hac_model.specs.Tree.Valid as counted;
ghost use Rattle.hac_model.specs.Tree.ValidTest as valid;
ghost use Rattle.layout_check.specs.Rising.{DoRise};

use crate::finding::is_document_of;
use crate::rising::{do_rise, do_terms_rise};
use hac_model::{Answer, Body, Entry, Node, Number, QUERY_LIMIT, Query, State, Term, Version};
use hac_words::is_word;
use kept_facts::is_answered;

/// Whether each mount has no more documents than it may, and its answers are sound.
pub(crate) fn do_keep_well(state: &State) -> bool
    requires { DoRise state.now.entries }
    ensures { result ≡ list_all (λ entry. valid.keeps_well state.now entry.number entry.body)
        state.now.entries }
{
    state
        .entries
        .as_slice()
        .iter()
        .all(|entry| keeps_well(state, entry.number, &entry.body))
}

/// Whether it is no mount, or one that has few documents and whose answers are sound.
fn keeps_well(state: &State, mount: Number, body: &Body) -> bool
    requires { DoRise state.now.entries }
    ensures { result ≡ valid.keeps_well state.now mount body.now }
{
    match body {
        Body::Mount { answers, .. } => is_sound_mount(state, mount, answers.as_slice()),
        _ => true,
    }
}

/// Whether a mount has few documents, and keeps one answer for a term at most, each sound, and one
/// for each term in use.
#[tactic(auto, using(crate::proofs::ListLemmas::terms_rise))]
fn is_sound_mount(state: &State, mount: Number, answers: &[Answer]) -> bool
    requires { DoRise state.now.entries }
    ensures { result ≡ valid.is_sound_mount state.now mount answers.now }
{
    let entries = state.entries.as_slice();
    has_few(state.version, entries, mount)
        && do_terms_rise(answers)
        && are_answers(state, mount, answers)
        && are_all_kept(answers, entries)
}

/// Whether a directory has no more entries than a mount may have documents.
fn has_few(version: Version, entries: &[Entry], dir: Number) -> bool
    ensures { result ≡ counted.has_few version entries.now dir }
{
    count_in(entries, dir) <= version.docs_limit()
}

/// How many entries a directory has.
fn count_in(entries: &[Entry], dir: Number) -> u64
    ensures { result ≡ length (filter (λ entry. entry.parent == dir) entries.now) }
{
    entries.iter().filter(|entry| entry.parent == dir).count() as u64
}

/// Whether each answer is sound.
fn are_answers(state: &State, mount: Number, answers: &[Answer]) -> bool
    requires { DoRise state.now.entries }
    ensures { result ≡ list_all (valid.is_answer state.now mount) answers.now }
{
    answers.iter().all(|answer| is_answer(state, mount, answer))
}

/// Whether an answer is for a term that can be asked for, and names documents of a mount that rise.
fn is_answer(state: &State, mount: Number, answer: &Answer) -> bool
    requires { DoRise state.now.entries }
    ensures { result ≡ valid.is_answer state.now mount answer.now }
{
    let documents = answer.documents.as_slice();
    is_askable(&answer.term) && do_rise(documents) && are_documents_of(state, mount, documents)
}

/// Whether numbers are those of documents of a mount.
fn are_documents_of(state: &State, mount: Number, numbers: &[Number]) -> bool
    requires { DoRise state.now.entries }
    ensures { result ≡ list_all (counted.is_document_of state.now mount) numbers.now }
{
    numbers
        .iter()
        .all(|number| is_document_of(state, mount, *number))
}

/// Whether a query can hold a term.
fn is_askable(term: &Term) -> bool
    ensures { result ≡ queries.is_askable term.now }
{
    let letters = term.letters();
    is_word(letters) && letters.len() <= QUERY_LIMIT
}

/// Whether an answer is kept for each term in use.
fn are_all_kept(answers: &[Answer], entries: &[Entry]) -> bool
    requires { TermsRise None answers.now }
    ensures { result ≡ list_all (is_kept answers.now) (terms_in_use entries.now) }
{
    entries
        .iter()
        .all(|entry| are_kept_for(answers, &entry.body))
}

/// Whether an answer is kept for each term that it asks for.
fn are_kept_for(answers: &[Answer], body: &Body) -> bool
    requires { TermsRise None answers.now }
    ensures { result ≡ list_all (is_kept answers.now) (terms_in body.now) }
{
    match body {
        Body::Semantic { query, .. } => are_kept(answers, query),
        _ => true,
    }
}

/// Whether an answer is kept for each term of a query.
fn are_kept(answers: &[Answer], query: &Query<Number>) -> bool
    requires { TermsRise None answers.now }
    ensures { result ≡ list_all (is_kept answers.now) (queries.terms_of query.now) }
{
    match &query.node {
        Node::Term(term) => is_answered(answers, term),
        Node::Dir(_) => true,
        Node::Not(query) => are_kept(answers, query),
        Node::And(left, right) | Node::Or(left, right) => {
            are_kept(answers, left) && are_kept(answers, right)
        }
    }
}
