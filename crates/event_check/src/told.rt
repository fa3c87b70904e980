//! Whether mounts were told what a query asks of them.
ghost use Rattle.std.specs.Prelude.{◌≡◌, ◌&&◌, IfOk};
ghost use Rattle.std.specs.List.{list_all};
ghost use Rattle.hac_model.specs.Tree.Asking.{are_all_told};
ghost use Rattle.hac_model.specs.Tree.Mounting.{is_document_of, is_told};
ghost use Rattle.event_check.specs.Told.{are_answered};

use file_tree::Tree;
use hac_model::{Memory, Number, Query, Seq};
use kept_state::KeptState;
use sorted_lists::numbers_rise;
use std::alloc::Global;
use tree_answers::{Question, questions};

/// Whether this was told to the mounts that have to be asked for a query, and nothing else.
pub fn are_all_told(
    alloc: Global,
    kept: &KeptState,
    query: &Query<Number>,
    told: &[Seq<Number>],
) -> Result<bool, Memory>
    ensures { IfOk result (λ are. are
        ≡ are_all_told kept.now.state query.now told.now kept.now.state.entries) }
{
    let questions = questions(alloc, kept, query)?;
    Ok(are_answered(kept.tree(), questions.as_slice(), told))
}

/// Whether each question was answered by documents of its mount, and no other.
fn are_answered(tree: &Tree, questions: &[Question], told: &[Seq<Number>]) -> bool
    ensures { result ≡ are_answered tree.now.state questions.now told.now }
{
    if told.len() != questions.len() {
        return false;
    }
    for i in 0..told.len() {
        if !is_told(tree, questions[i].mount, told[i].as_slice()) {
            return false;
        }
    }
    true
}

/// Whether a list names documents of a mount, each once.
fn is_told(tree: &Tree, mount: Number, numbers: &[Number]) -> bool
    ensures { result ≡ is_told tree.now.state mount numbers.now }
{
    numbers_rise(numbers) && are_documents_of(tree, mount, numbers)
}

/// Whether all of the numbers are those of documents of a mount.
fn are_documents_of(tree: &Tree, mount: Number, numbers: &[Number]) -> bool
    ensures { result ≡ list_all (is_document_of tree.now.state mount) numbers.now }
{
    for number in numbers {
        if !is_document_of(tree, mount, *number) {
            return false;
        }
    }
    true
}

/// Whether a number is that of a document of a mount.
fn is_document_of(tree: &Tree, mount: Number, number: Number) -> bool
    ensures { result ≡ is_document_of tree.now.state mount number }
{
    tree.is_document(number) && tree.parent(number) == mount
}
