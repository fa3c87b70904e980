//! What depends on what, the marks and the answers after an event, by what was prepared for it. It
//! changes nothing.
ghost use Rattle.std.specs.Prelude.{◌≡◌, ◌==◌, ◌&&◌, [], IfOk, if◌then◌else◌};
ghost use Rattle.hac_model.specs.Tree.Depends.{NeverReturns};
ghost use Rattle.hac_model.specs.Tree.Facts.{put_at};
ghost use Rattle.dep_graph.specs.Graphs.{edges_of, edges_with, replaced};
ghost use Rattle.dep_graph.specs.Searches.{IsCone};
ghost use Rattle.link_kinds.specs.Seen.{kind_at};
ghost use Rattle.kept_facts.specs.After.{answers_after, edges_after, mark_after};
ghost use Rattle.kept_facts.specs.Answers.{answers_kept};

use crate::answers::Answers;
use dep_graph::{Graph, NewEdges};
use hac_model::{Answer, Event, Kind, Mark, Memory, Number};
use link_kinds::Links;
use std::alloc::Global;

/// The edges of a directory after an event.
pub fn edges_after<'a>(
    graph: &'a Graph,
    event: &Event,
    edges: &'a Option<NewEdges>,
    dir: Number,
) -> &'a [Number]
    ensures { result.now ≡ edges_after event.now edges.now graph.now dir }
{
    match event {
        Event::Smkdir { .. } | Event::Setq { .. } | Event::Mark(_) | Event::Mv { .. } => {
            edges_with(graph, edges, dir)
        }
        Event::Unq { dir: bared } | Event::Rmdir { dir: bared } => {
            edges_without(graph, *bared, dir)
        }
        _ => graph.edges(dir),
    }
}

/// The edges of a directory once the new ones are set, if there are any.
fn edges_with<'a>(graph: &'a Graph, edges: &'a Option<NewEdges>, dir: Number) -> &'a [Number]
    ensures { result.now ≡ edges_with graph.now edges.now dir }
{
    match edges {
        Some(new) if new.dir == dir => new.edges.as_slice(),
        _ => graph.edges(dir),
    }
}

/// The edges of a directory once one has none.
fn edges_without(graph: &Graph, bared: Number, dir: Number) -> &[Number]
    ensures { result.now ≡ replaced (edges_of graph.now) bared [] dir }
{
    if dir == bared { &[] } else { graph.edges(dir) }
}

/// The cone of some directories after an event.
pub fn cone_after(
    alloc: Global,
    graph: &Graph,
    event: &Event,
    edges: &Option<NewEdges>,
    dirs: &[Number],
) -> Result<Vec<Number>, Memory>
    requires { NeverReturns (edges_after event.now edges.now graph.now) }
    ensures { IfOk result (λ numbers.
        IsCone (edges_after event.now edges.now graph.now) dirs.now numbers.items) }
{
    match event {
        Event::Smkdir { .. } | Event::Setq { .. } | Event::Mark(_) | Event::Mv { .. } => {
            graph.cone(dirs, edges.as_ref())
        }
        Event::Unq { dir: bared } | Event::Rmdir { dir: bared } => {
            cone_without(alloc, graph, *bared, dirs)
        }
        _ => graph.cone(dirs, None),
    }
}

/// The cone of some directories once one has no edges.
fn cone_without(
    alloc: Global,
    graph: &Graph,
    bared: Number,
    dirs: &[Number],
) -> Result<Vec<Number>, Memory>
    requires { NeverReturns (replaced (edges_of graph.now) bared []) }
    ensures { IfOk result (λ numbers.
        IsCone (replaced (edges_of graph.now) bared []) dirs.now numbers.items) }
{
    let none = NewEdges {
        dir: bared,
        edges: Vec::new(alloc),
    };
    graph.cone(dirs, Some(&none))
}

/// The mark of an item in a directory after an event.
pub fn mark_after(marks: &Links, event: &Event, dir: Number, item: Number) -> Kind
    ensures { result ≡ mark_after event.now marks.now dir item }
{
    match event {
        Event::Mark(mark) => mark_with(marks, mark, dir, item),
        Event::Unq { dir: bared } | Event::Rmdir { dir: bared } => {
            mark_without(marks, *bared, dir, item)
        }
        _ => marks.kind(dir, item),
    }
}

/// The mark of an item in a directory once a mark is set.
fn mark_with(marks: &Links, mark: &Mark, dir: Number, item: Number) -> Kind
    ensures { result ≡ if dir == mark.now.dir && item == mark.now.item then mark.now.kind
        else kind_at marks.now dir item }
{
    if dir == mark.dir && item == mark.item {
        mark.kind
    } else {
        marks.kind(dir, item)
    }
}

/// The mark of an item in a directory once one directory has none.
fn mark_without(marks: &Links, bared: Number, dir: Number, item: Number) -> Kind
    ensures { result ≡ if dir == bared then Kind.Unlinked else kind_at marks.now dir item }
{
    if dir == bared {
        Kind::Unlinked
    } else {
        marks.kind(dir, item)
    }
}

/// The answers of a mount after an event.
pub fn answers_after<'a>(answers: &'a Answers, event: &Event, mount: Number) -> &'a [Answer]
    ensures { result.now ≡ answers_after event.now answers.now mount }
{
    match event {
        Event::Smkdir { .. } | Event::Setq { .. } | Event::Smount { .. } | Event::Ssync { .. } =>
            answers.next_of(mount),
        Event::Sumount { mount: gone } => answers_without(answers, *gone, mount),
        _ => answers.kept_by(mount),
    }
}

/// The answers of a mount once one mount keeps none.
fn answers_without(answers: &Answers, gone: Number, mount: Number) -> &[Answer]
    ensures { result.now ≡ put_at (answers_kept answers.now) gone [] mount }
{
    if mount == gone {
        &[]
    } else {
        answers.kept_by(mount)
    }
}
