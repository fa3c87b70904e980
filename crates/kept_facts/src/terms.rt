//! What a space is asked for a query, and what it tells: terms in order. It changes nothing.
ghost use Rattle.std.specs.Prelude.{◌≡◌, ◌++◌, ◌≤◌, None, IfOk, OnOk, length};
ghost use Rattle.std.specs.List.{prefix_len};
ghost use Rattle.hac_model.specs.Query.Queries.{terms_of};
ghost use Rattle.hac_model.specs.Query.Terms.{is_term_before};
ghost use Rattle.hac_model.specs.Tree.Asking.{unanswered};
ghost use Rattle.hac_model.specs.Tree.Mounting.{answers_to};
ghost use Rattle.hac_model.specs.Tree.Mounts.{terms_in_order, put_term};
ghost use Rattle.hac_model.specs.Tree.Valid.{TermsRise};
ghost use Rattle.kept_facts.specs.Answers.{AreTermsInOrder};

use crate::answers::is_answered;
use hac_model::{Answer, Memory, Node, Number, Query, Seq, Term};
use std::alloc::Global;

/// The terms of a query for which no answer is among these, in order.
pub fn unanswered(
    alloc: Global,
    query: &Query<Number>,
    answers: &[Answer],
) -> Result<Vec<Term>, Memory>
    requires { TermsRise None answers.now }
    ensures { IfOk result (λ terms. terms.items ≡ unanswered query.now answers.now) }
{
    let mut ordered = ordered_terms(alloc, query)?;
    ordered.retain(|term| !is_answered(answers, term));
    Ok(ordered)
}

/// The terms of a query in order, each once.
pub fn ordered_terms(alloc: Global, query: &Query<Number>) -> Result<Vec<Term>, Memory>
    ensures { IfOk result (λ terms. terms.items ≡ terms_in_order (terms_of query.now)) }
{
    let mut terms = Vec::new(alloc);
    push_terms(&mut terms, query)?;
    terms_in_order(alloc, terms)
}

/// The terms in order, each once.
pub fn terms_in_order(alloc: Global, mut terms: Vec<Term>) -> Result<Vec<Term>, Memory>
    ensures { IfOk result (λ ordered. ordered.items ≡ terms_in_order terms.items) }
{
    let mut ordered = Vec::new(alloc);
    'terms: while let Some(term) = terms.pop() {
        put_term(&mut ordered, term)?;
    }
    Ok(ordered)
}

/// Adds the terms of a query, in its order. It goes down as deep as the query does.
pub fn push_terms(terms: &mut Vec<Term>, query: &Query<Number>) -> Result<(), Memory>
    ensures { OnOk result (terms.new.items ≡ terms.old.items ++ terms_of query.now) }
{
    match &query.node {
        Node::Term(term) => terms.push(term.clone()?)?,
        Node::Dir(_) => {}
        Node::Not(query) => push_terms(terms, query)?,
        Node::And(left, right) | Node::Or(left, right) => {
            push_terms(terms, left)?;
            push_terms(terms, right)?;
        }
    }
    Ok(())
}

/// Puts a term into its place among terms in order, if it isn't among them yet.
fn put_term(terms: &mut Vec<Term>, term: Term) -> Result<(), Memory>
    requires { AreTermsInOrder None terms.old.items }
    ensures { OnOk result (terms.new.items ≡ put_term term terms.old.items) }
{
    let place = rank(terms.as_slice(), &term);
    if place == terms.len() || term.is_before(&terms[place]) {
        terms.insert(place, term)?;
    }
    Ok(())
}

/// How many of the terms come before this one.
fn rank(terms: &[Term], term: &Term) -> usize
    ensures within { result ≤ length terms.now }
    ensures rank { AreTermsInOrder None terms.now →
        result ≡ prefix_len (λ other. is_term_before other term.now) terms.now }
{
    terms.partition_point(|other| other.is_before(term))
}

/// What was told of terms, one list for each in their order.
pub fn answers_to(
    alloc: Global,
    terms: &[Term],
    told: &[Seq<Number>],
) -> Result<Vec<Answer>, Memory>
    requires { length told.now ≡ length terms.now }
    ensures { IfOk result (λ answers. answers.items ≡ answers_to terms.now told.now) }
{
    let mut answers = Vec::new(alloc);
    'told: for documents in told {
        let answer = answer_to(alloc, &terms[answers.len()], documents.as_slice())?;
        answers.push(answer)?;
    }
    Ok(answers)
}

/// The answer that these documents have a term.
pub fn answer_to(alloc: Global, term: &Term, documents: &[Number]) -> Result<Answer, Memory>
    ensures { IfOk result (λ answer. answer ≡
        record { term = term.now; documents = documents.now }) }
{
    let term = term.clone()?;
    let mut copied = Vec::new(alloc);
    copied.extend_from_slice(documents)?;
    Ok(Answer {
        term,
        documents: Seq::new(copied),
    })
}
