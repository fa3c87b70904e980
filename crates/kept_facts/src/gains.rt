//! What a mount keeps once it was told more: answers, with more of them in their places. It changes
//! nothing.
ghost use Rattle.std.specs.Prelude.{◌≡◌, ◌≤◌, IfOk, OnOk, length, not};
ghost use Rattle.std.specs.List.{prefix_len};
ghost use Rattle.hac_model.specs.Query.Terms.{is_term_before};
ghost use Rattle.hac_model.specs.Tree.Asking.{put_answer, with_answers};

use crate::terms::answer_to;
use hac_model::{Answer, Memory, Term};
use std::alloc::Global;

/// Answers with more of them, each in its place.
pub fn with_answers(
    alloc: Global,
    mut more: Vec<Answer>,
    answers: &[Answer],
) -> Result<Vec<Answer>, Memory>
    ensures { IfOk result (λ all. all.items ≡ with_answers more.items answers.now) }
{
    let mut all = copied(alloc, answers)?;
    'more: while let Some(answer) = more.pop() {
        put_answer(&mut all, answer)?;
    }
    Ok(all)
}

/// A copy of answers.
fn copied(alloc: Global, answers: &[Answer]) -> Result<Vec<Answer>, Memory>
    ensures { IfOk result (λ copies. copies.items ≡ answers.now) }
{
    let mut copies = Vec::new(alloc);
    'answers: for answer in answers {
        let copy = answer_to(alloc, &answer.term, answer.documents.as_slice())?;
        copies.push(copy)?;
    }
    Ok(copies)
}

/// Puts an answer into its place among answers in order.
fn put_answer(answers: &mut Vec<Answer>, answer: Answer) -> Result<(), Memory>
    ensures { OnOk result (answers.new.items ≡ put_answer answer answers.old.items) }
{
    let place = place_for(answers.as_slice(), &answer.term);
    answers.insert(place, answer)?;
    Ok(())
}

/// How many answers there are before the first one for a term behind this one.
fn place_for(answers: &[Answer], term: &Term) -> usize
    ensures within { result ≤ length answers.now }
    ensures place { result
        ≡ prefix_len (λ answer. not (is_term_before term.now answer.term)) answers.now }
{
    for place in 0..answers.len() {
        if term.is_before(&answers[place].term) {
            return place;
        }
    }
    answers.len()
}
