//! Which terms items have by what mounts keep, and by what these were told for a query besides.
ghost use Rattle.std.specs.Prelude.{◌≡◌, ◌<◌, ◌≤◌, ◌+◌, drop, length};
ghost use Rattle.hac_model.specs.Query.Queries.{query_meaning, terms};
ghost use Rattle.hac_model.specs.Query.Terms.{is_same_term};
ghost use Rattle.hac_model.specs.Tree.Links.{column, links, provide};
ghost use Rattle.tree_answers.specs.Asked.{atom_told, first_tells, is_document_told, tells};
ghost use Rattle.tree_answers.specs.Asked.{was_told};

use crate::asking::Question;
use crate::finding::Sight;
use hac_model::{Number, Query, Seq, Term};
use hac_outside::Steps;
use kept_links::LinkedState;
use kept_lookups::{is_document, parent_of};
use query_eval::{Atoms, judge};
use std::sync::ledger::Ledger;

/// A state with its links, and what its mounts were told besides what they keep.
#[derive(Clone, Copy)]
pub struct Told<'a> {
    /// The state.
    pub linked: &'a LinkedState,
    /// What the mounts were asked.
    pub questions: &'a [Question],
    /// The documents that have the term, for each question.
    pub documents: &'a [Seq<Number>],
}

impl<'a> Atoms for Told<'a> {
    ghost atoms = { λ told.
        atom_told told.linked.now.state told.questions.now told.documents.now };

    fn has<L: Ledger>(&self, term: &Term, item: Number, probes: &mut Steps<L>) -> bool {
        self.linked.has(term, item, probes) || is_document_told(self, term, item)
    }
}

/// Whether an item is a document, and its mount was told that it has a term.
fn is_document_told(told: &Told<'_>, term: &Term, item: Number) -> bool
    ensures { result ≡ is_document_told told.now.linked.now.state told.now.questions.now
        told.now.documents.now term.now item }
{
    let kept = told.linked.kept();
    is_document(kept, item)
        && was_told(
            told.questions,
            told.documents,
            parent_of(kept, item),
            term,
            item,
        )
}

/// Whether a mount was told that a document has a term.
fn was_told(
    questions: &[Question],
    documents: &[Seq<Number>],
    mount: Number,
    term: &Term,
    item: Number,
) -> bool
    ensures { result ≡ was_told questions.now documents.now mount term.now item }
{
    'places: for place in 0..questions.len() {
        if tells_at(questions, documents, place, mount, term, item) {
            return true;
        }
    }
    false
}

/// Whether the answer to the question at a place tells that a document of a mount has a term.
fn tells_at(
    questions: &[Question],
    documents: &[Seq<Number>],
    place: usize,
    mount: Number,
    term: &Term,
    item: Number,
) -> bool
    requires { place < length questions.now }
    ensures { result ≡ first_tells (drop place questions.now) (drop place documents.now) mount
        term.now item }
{
    if place < documents.len() {
        tells(
            &questions[place],
            documents[place].as_slice(),
            mount,
            term,
            item,
        )
    } else {
        false
    }
}

/// Whether the answer to a question tells that a document of a mount has a term.
fn tells(
    question: &Question,
    documents: &[Number],
    mount: Number,
    term: &Term,
    item: Number,
) -> bool
    ensures { result ≡ tells question.now documents.now mount term.now item }
{
    question.mount == mount && is_same_term(&question.term, term) && documents.contains(&item)
}

/// Whether two terms are one.
fn is_same_term(one: &Term, other: &Term) -> bool
    ensures { result ≡ is_same_term one.now other.now }
{
    match one {
        Term::Word(letters) => match other {
            Term::Word(others) => letters == others,
            Term::Prefix(_) => false,
        },
        Term::Prefix(letters) => match other {
            Term::Word(_) => false,
            Term::Prefix(others) => letters == others,
        },
    }
}

/// Whether an item satisfies a query.
pub fn satisfies_told<L: Ledger>(
    told: &Told<'_>,
    query: &Query<Number>,
    item: Number,
    probes: &mut Steps<L>,
) -> bool
    ensures satisfies { result ≡ query_meaning
        (atom_told told.now.linked.now.state told.now.questions.now told.now.documents.now)
        (provide told.now.linked.now.state (column (links told.now.linked.now.state) item))
        query.now item }
    ensures probes { probes.new ≤ probes.old + terms query.now }
{
    let sight = Sight {
        linked: told.linked,
    };
    judge(query, told, &sight, item, probes)
}
