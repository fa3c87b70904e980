//! What the mounts have to be asked for a query, and what they are told by the names that their
//! spaces answer. Nobody is asked here, and nothing is kept.
ghost use Rattle.std.specs.Prelude.{◌≡◌, ◌++◌, ◌∷◌, [], map, length, IfOk, OnOk};
ghost use Rattle.std.specs.List.{flat_map};
ghost use Rattle.hac_model.specs.Run.Asks.{documents_named, query_asks, told_for, told_to};
ghost use Rattle.file_tree.specs.Answers.{numbers_of};
ghost use Rattle.tree_answers.specs.Asked.{mount_of, questions, questions_about, questions_at};

use crate::numbering;
use hac_model::{Memory, Name, Number, Query, Seq, Term};
use kept_facts::ordered_terms;
use kept_lookups::is_mount;
use kept_state::KeptState;
use std::alloc::Global;

/// A question to the space of a mount, whether its documents have a term.
#[derive(Debug, Drop)]
pub struct Question {
    /// The mount.
    pub mount: Number,
    /// The term.
    pub term: Term,
}

/// What the mounts have to be asked for a query: each in order of number, for the terms for which
/// it keeps no answer, in order.
pub fn questions(
    alloc: Global,
    kept: &KeptState,
    query: &Query<Number>,
) -> Result<Vec<Question>, Memory>
    ensures { IfOk result (λ asked. asked.items ≡ questions kept.now.state query.now) }
{
    if kept.counts().mounts == 0 {
        return Ok(Vec::new(alloc));
    }
    let terms = ordered_terms(alloc, query)?;
    questions_about(alloc, kept, terms.as_slice())
}

/// The questions about terms to all mounts.
fn questions_about(alloc: Global, kept: &KeptState, terms: &[Term]) -> Result<Vec<Question>, Memory>
    ensures { IfOk result (λ asked. asked.items
        ≡ flat_map (questions_at kept.now.state terms.now)
        (numbers_of kept.now.state.entries)) }
{
    let mut questions = Vec::new(alloc);
    for number in kept.numbers(alloc)? {
        push_questions_at(&mut questions, kept, terms, number)?;
    }
    Ok(questions)
}

/// Adds the questions about terms to the mount of a number, if it is one.
fn push_questions_at(
    questions: &mut Vec<Question>,
    kept: &KeptState,
    terms: &[Term],
    number: Number,
) -> Result<(), Memory>
    ensures { OnOk result (questions.new.items
        ≡ questions.old.items ++ questions_at kept.now.state terms.now number) }
{
    if is_mount(kept, number) {
        push_questions(questions, kept, terms, number)?;
    }
    Ok(())
}

/// Adds the questions about terms to a mount: those for which it keeps no answer.
fn push_questions(
    questions: &mut Vec<Question>,
    kept: &KeptState,
    terms: &[Term],
    mount: Number,
) -> Result<(), Memory>
    ensures { OnOk result (questions.new.items
        ≡ questions.old.items ++ questions_about kept.now.state mount terms.now) }
{
    for term in terms {
        push_question(questions, kept, term, mount)?;
    }
    Ok(())
}

/// Adds the question about a term to a mount, if it keeps no answer for it.
fn push_question(
    questions: &mut Vec<Question>,
    kept: &KeptState,
    term: &Term,
    mount: Number,
) -> Result<(), Memory>
    ensures { OnOk result (questions.new.items
        ≡ questions.old.items ++ questions_about kept.now.state mount (term.now ∷ [])) }
{
    if !kept.keeps(mount, term) {
        let term = term.clone()?;
        questions.push(Question { mount, term })?;
    }
    Ok(())
}

/// What the mounts are told by the names that their spaces answered to the questions for a query.
pub fn told_for(
    alloc: Global,
    kept: &KeptState,
    query: &Query<Number>,
    found: &[Seq<Name>],
) -> Result<Seq<Seq<Number>>, Memory>
    requires { length found.now ≡ length (query_asks kept.now.state query.now).searches }
    ensures { IfOk result (λ told. told ≡ told_for kept.now.state query.now found.now) }
{
    let questions = questions(alloc, kept, query)?;
    told_by(alloc, kept, questions.as_slice(), found)
}

/// The questions for a query to which these names were answered. Nothing is looked at where there
/// are none.
pub fn questions_answered(
    alloc: Global,
    kept: &KeptState,
    query: &Query<Number>,
    found: &[Seq<Name>],
) -> Result<Vec<Question>, Memory>
    requires { length found.now ≡ length (query_asks kept.now.state query.now).searches }
    ensures { IfOk result (λ asked. asked.items ≡ questions kept.now.state query.now) }
{
    if found.is_empty() {
        return Ok(Vec::new(alloc));
    }
    questions(alloc, kept, query)
}

/// What the mounts are told by the names that were answered to these questions.
pub fn told_by(
    alloc: Global,
    kept: &KeptState,
    questions: &[Question],
    found: &[Seq<Name>],
) -> Result<Seq<Seq<Number>>, Memory>
    requires { length found.now ≡ length questions.now }
    ensures { IfOk result (λ told. told
        ≡ told_to kept.now.state (map mount_of questions.now) found.now) }
{
    let mut told = Vec::new(alloc);
    'told: for names in found {
        let mount = questions[told.len()].mount;
        let documents = documents_named(alloc, kept, mount, names.as_slice())?;
        told.push(documents)?;
    }
    Ok(Seq::new(told))
}

/// The documents of a mount that have one of these names, in order of number.
fn documents_named(
    alloc: Global,
    kept: &KeptState,
    mount: Number,
    names: &[Name],
) -> Result<Seq<Number>, Memory>
    ensures { IfOk result (λ numbers. numbers
        ≡ documents_named kept.now.state mount names.now) }
{
    numbering::documents_named(alloc, kept.tree(), mount, names)
}
