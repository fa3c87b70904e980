//! The lines of links: those of a semantic directory, and what a query finds anywhere.
ghost use Rattle.std.specs.Prelude.{◌≡◌, ◌≤◌, ◌+◌, ◌*◌, ◌∷◌, ◌++◌, [], filter, length, map};
ghost use Rattle.std.specs.Prelude.{if◌then◌else◌, IfOk, OnOk};
ghost use Rattle.file_tree.specs.Answers.{numbers_of};
ghost use Rattle.hac_model.specs.Query.Queries.{terms};
ghost use Rattle.hac_model.specs.Tree.Asking.{with_told};
ghost use Rattle.hac_model.specs.Tree.Costs.{finding};
ghost use Rattle.hac_model.specs.Tree.Links.{found_as, is_item, kind};
ghost use Rattle.hac_model.specs.Tree.Paths.{path_text};
ghost use Rattle.hac_model.specs.Run.Asks.{query_asks, told_for};
ghost use Rattle.hac_model.specs.Run.Play.{found_line, kind_lines, link_lines};
ghost use Rattle.hac_model.specs.Tree.{path_of};
ghost use Rattle.tree_answers.specs.NextLinks.{lesser, next_linked};
ghost use Rattle.tree_answers.specs.Told.{is_found_told};

use crate::asking::{questions_answered, told_by};
use crate::finding::{is_judged_item, kind_of};
use crate::telling::{Told, satisfies_told};
use hac_model::{Kind, Memory, Name, Number, Query, Seq};
use hac_names::print_path;
use hac_outside::Steps;
use kept_links::LinkedState;
use kept_lookups::is_document;
use kept_state::KeptState;
use std::alloc::Global;
use std::sync::ledger::Ledger;

/// The items and directories that are linked in a semantic directory, each with the letter of its
/// kind, in order of number. Only what is linked there is looked at.
pub fn link_lines(alloc: Global, linked: &LinkedState, dir: Number) -> Result<Vec<Name>, Memory>
    ensures { IfOk result (λ lines. lines.items ≡ link_lines linked.now.state dir) }
{
    linked.kept().know_valid();
    let mut lines = Vec::new(alloc);
    let mut from: u64 = 0;
    'links: while let Some(item) = next_linked(linked, dir, Number::new(from)) {
        push_number(alloc, &mut lines, linked, dir, item)?;
        from = item.get() + 1;
    }
    Ok(lines)
}

/// The first number from this one on that is linked in a directory: found, added or removed by the
/// user.
fn next_linked(linked: &LinkedState, dir: Number, from: Number) -> Option<Number>
    ensures { result ≡ next_linked linked.now.state dir from }
{
    let marks = linked.kept().marks();
    let marked = lesser(
        marks.permanent_from(dir, from),
        marks.prohibited_from(dir, from),
    );
    lesser(linked.links().transient_from(dir, from), marked)
}

/// The lesser of two numbers, or the one that there is.
fn lesser(one: Option<Number>, other: Option<Number>) -> Option<Number>
    ensures { result ≡ lesser one other }
{
    let Some(first) = one else {
        return other;
    };
    let Some(second) = other else {
        return one;
    };
    if first <= second { one } else { other }
}

/// Adds the line of a number, if it is that of something that is linked in the directory.
fn push_number(
    alloc: Global,
    lines: &mut Vec<Name>,
    linked: &LinkedState,
    dir: Number,
    item: Number,
) -> Result<(), Memory>
    ensures { OnOk result (lines.new.items ≡ lines.old.items
        ++ kind_lines (path_of linked.now.state item) (kind linked.now.state dir item)) }
{
    let kind = kind_of(linked, dir, item);
    push_link(alloc, lines, linked.kept(), item, kind)
}

/// Adds the line of an item of a kind, where it has one.
fn push_link(
    alloc: Global,
    lines: &mut Vec<Name>,
    kept: &KeptState,
    item: Number,
    kind: Kind,
) -> Result<(), Memory>
    ensures { OnOk result (lines.new.items
        ≡ lines.old.items ++ kind_lines (path_of kept.now.state item) kind) }
{
    match kind {
        Kind::Transient => lines.push(path_line(alloc, b"t ", kept, item)?)?,
        Kind::Permanent => lines.push(path_line(alloc, b"p ", kept, item)?)?,
        Kind::Prohibited => lines.push(path_line(alloc, b"x ", kept, item)?)?,
        Kind::Unlinked => {}
    }
    Ok(())
}

/// The items that a query finds anywhere, in order of number, given the names that spaces answered
/// to the questions for it. Each item is judged once.
pub fn found_lines<L: Ledger>(
    alloc: Global,
    linked: &LinkedState,
    query: &Query<Number>,
    names: &[Seq<Name>],
    probes: &mut Steps<L>,
) -> Result<Vec<Name>, Memory>
    requires { length names.now ≡ length (query_asks linked.now.state query.now).searches }
    ensures lines { let told = told_for linked.now.state query.now names.now in
        IfOk result (λ lines. lines.items ≡ map (found_line linked.now.state)
        (found_as (with_told query.now told linked.now.state) linked.now.state query.now)) }
    ensures probes { probes.new ≤ probes.old + finding linked.now.state query.now }
{
    let kept = linked.kept();
    kept.know_valid();
    let questions = questions_answered(alloc, kept, query, names)?;
    let documents = told_by(alloc, kept, questions.as_slice(), names)?;
    let told = Told {
        linked,
        questions: questions.as_slice(),
        documents: documents.as_slice(),
    };
    lines_of_found(alloc, &told, query, probes)
}

/// The lines of the items that a query finds.
fn lines_of_found<L: Ledger>(
    alloc: Global,
    told: &Told<'_>,
    query: &Query<Number>,
    probes: &mut Steps<L>,
) -> Result<Vec<Name>, Memory>
    ensures lines { IfOk result (λ lines. lines.items ≡ map (found_line told.now.linked.now.state)
        (filter (is_found_told told.now query.now)
        (numbers_of told.now.linked.now.state.entries))) }
    ensures probes { probes.new ≤ probes.old
        + length (filter (is_item told.now.linked.now.state)
        (numbers_of told.now.linked.now.state.entries)) * terms query.now }
{
    let mut lines = Vec::new(alloc);
    for number in told.linked.kept().numbers(alloc)? {
        push_found(alloc, &mut lines, told, query, number, probes)?;
    }
    Ok(lines)
}

/// Adds the line of a number, if the query finds it.
fn push_found<L: Ledger>(
    alloc: Global,
    lines: &mut Vec<Name>,
    told: &Told<'_>,
    query: &Query<Number>,
    item: Number,
    probes: &mut Steps<L>,
) -> Result<(), Memory>
    ensures lines { OnOk result (lines.new.items ≡ lines.old.items ++
        (if is_found_told told.now query.now item
        then found_line told.now.linked.now.state item ∷ []
        else [])) }
    ensures probes { probes.new ≤ probes.old
        + (if is_item told.now.linked.now.state item then terms query.now else 0) }
{
    if is_found(told, query, item, probes) {
        lines.push(found_line(alloc, told.linked.kept(), item)?)?;
    }
    Ok(())
}

/// Whether a query finds a number: that of an item that it judges, and which satisfies it. Of any
/// other number no question is asked.
fn is_found<L: Ledger>(
    told: &Told<'_>,
    query: &Query<Number>,
    number: Number,
    probes: &mut Steps<L>,
) -> bool
    ensures found { result ≡ is_found_told told.now query.now number }
    ensures probes { probes.new ≤ probes.old
        + (if is_item told.now.linked.now.state number then terms query.now else 0) }
{
    is_judged_item(told.linked.kept(), number) && satisfies_told(told, query, number, probes)
}

/// The line of an item that a query finds: its letter and its path.
fn found_line(alloc: Global, kept: &KeptState, item: Number) -> Result<Name, Memory>
    ensures { IfOk result (λ line. line ≡ found_line kept.now.state item) }
{
    if is_document(kept, item) {
        path_line(alloc, b"o ", kept, item)
    } else {
        path_line(alloc, b"f ", kept, item)
    }
}

/// A line of a letter and the path of an entry.
fn path_line(alloc: Global, letter: &[u8], kept: &KeptState, entry: Number) -> Result<Name, Memory>
    ensures { IfOk result (λ line. line ≡ letter.now ++ path_text (path_of kept.now.state entry)) }
{
    let path = kept.path_of(entry)?;
    let mut line = Vec::from_slice(alloc, letter)?;
    line.extend_from_slice(print_path(alloc, &path)?.as_bytes())?;
    Ok(Name::new(line))
}
