//! What each mount of a tree keeps once it was told for a query. It changes nothing.
ghost use Rattle.std.specs.Prelude.{◌≡◌, ◌==◌, ◌≤◌, [], ℕ, IfOk, IsTrue, OnOk};
ghost use Rattle.std.specs.Prelude.{if◌then◌else◌, length};
ghost use Rattle.hac_model.specs.Tree.Asking.{are_all_told, with_answers};
ghost use Rattle.hac_model.specs.Tree.Mounting.{answers_to};
ghost use Rattle.kept_facts.specs.Answers.{answers_kept};
ghost use Rattle.kept_facts.specs.AnswersKept.{list_at, told_of};
ghost use Rattle.kept_state.specs.Gains.{AreGains, answers_then, asked_at};
ghost use Rattle.kept_state.specs.Parts.{IsLinked, state_of};

use crate::parts::Parts;
use hac_model::{Memory, Number, Query, Seq};
use indexmap::IndexMap;
use kept_facts::{Lists, answers_to, put_list, unanswered, with_answers};
use std::alloc::Global;

/// What each mount keeps once it was told for a query, or nothing where nothing was told: each then
/// keeps what it did.
pub fn gained(
    alloc: Global,
    kept: &Parts,
    query: &Query<Number>,
    told: &[Seq<Number>],
) -> Result<Option<Lists>, Memory>
    requires linked { IsLinked kept.now }
    requires told { IsTrue (are_all_told (state_of kept.now) query.now told.now
        (state_of kept.now).entries) }
    ensures { IfOk result (λ lists. AreGains (answers_kept kept.now.answers) query.now told.now
        kept.now.tree.state (told_of lists)) }
{
    if told.is_empty() {
        return Ok(None);
    }
    let lists = lists_then(alloc, kept, query, told)?;
    Ok(Some(lists))
}

/// The answers that each mount keeps then.
fn lists_then(
    alloc: Global,
    kept: &Parts,
    query: &Query<Number>,
    told: &[Seq<Number>],
) -> Result<Lists, Memory>
    requires linked { IsLinked kept.now }
    requires told { IsTrue (are_all_told (state_of kept.now) query.now told.now
        (state_of kept.now).entries) }
    ensures { IfOk result (λ lists. (mount : ℕ) → list_at lists mount ≡
        answers_then (answers_kept kept.now.answers) query.now told.now
        kept.now.tree.state mount) }
{
    let mut lists = IndexMap::new(alloc);
    let mut left = told;
    'entries: for number in kept.tree.numbers(alloc)? {
        let asked = put_gain(alloc, &mut lists, kept, query, left, number)?;
        left = left.split_at(asked).1;
    }
    Ok(lists)
}

/// Adds what the mount of a number keeps then, where there is one. It was told the first of these
/// lists, as many as the terms that it was asked for, which are counted.
fn put_gain(
    alloc: Global,
    lists: &mut Lists,
    kept: &Parts,
    query: &Query<Number>,
    told: &[Seq<Number>],
    mount: Number,
) -> Result<usize, Memory>
    requires linked { IsLinked kept.now }
    requires enough { length (asked_at kept.now query.now mount) ≤ length told.now }
    requires none { list_at lists.old mount ≡ [] }
    ensures asked { IfOk result (λ count. count ≡ length (asked_at kept.now query.now mount)) }
    ensures lists { OnOk result ((number : ℕ) → list_at lists.new number ≡
        (if number == mount
        then with_answers (answers_to (asked_at kept.now query.now mount) told.now)
        (answers_kept kept.now.answers mount)
        else list_at lists.old number)) }
{
    if !kept.tree.is_mount(mount) {
        return Ok(0);
    }
    let answers = kept.answers.kept_by(mount);
    let terms = unanswered(alloc, query, answers)?;
    let asked = terms.len();
    let more = answers_to(alloc, terms.as_slice(), told.split_at(asked).0)?;
    let all = with_answers(alloc, more, answers)?;
    put_list(lists, mount, Seq::new(all))?;
    Ok(asked)
}
