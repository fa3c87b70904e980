//! What a state will be after the events that it is ready for. It asks what was prepared, and
//! changes nothing.
ghost use Rattle.std.specs.Prelude.{◌≡◌, ◌∷◌, [], IfNone, IfOk, IfSome, IsTrue};
ghost use Rattle.std.specs.Option.{option_copied};
ghost use Rattle.hac_model.specs.Tree.Depends.{NeverReturns, depends};
ghost use Rattle.hac_model.specs.Tree.Events.{accepted};
ghost use Rattle.hac_model.specs.Tree.Facts.{put_at};
ghost use Rattle.hac_model.specs.Tree.Links.{has, is_item, kept_at, lenders, query_at};
ghost use Rattle.hac_model.specs.Tree.Sessions.{is_stored};
ghost use Rattle.dep_graph.specs.Searches.{IsCone};
ghost use Rattle.kept_state.specs.After.{answers_next, are_quiet, edges_next, mark_next};
ghost use Rattle.kept_state.specs.After.{next_state, query_after, query_next};
ghost use Rattle.kept_state.specs.Readers.{mark_at};

use crate::kept::KeptState;
use crate::ready::Ready;
use dep_graph::Graph;
use file_tree::Tree;
use hac_model::{Answer, Event, Kind, Memory, Number, Query, Term};
use kept_facts::after::{answers_after, cone_after, edges_after, mark_after};
use kept_facts::lenders::{behind_first, behind_named};
use kept_facts::{Answers, had};
use link_kinds::Links;
use std::alloc::Global;

impl KeptState {
    /// The event that was prepared, if it was prepared by `prepare`: not a session's, and no steps.
    pub fn event(&self) -> Option<&Event>
        ensures ready { IfSome (option_copied result) (λ event. self.now.ready ≡ event ∷ []) }
        ensures accepted { IfSome (option_copied result)
            (λ event. IsTrue (accepted self.now.state event)) }
        ensures stored { IfSome (option_copied result) (λ event. IsTrue (is_stored event)) }
        ensures none { IfNone (option_copied result) (IsTrue (are_quiet self.now.ready)) }
    {
        match &self.ready {
            Ready::Change { event, .. } => Some(event),
            _ => None,
        }
    }

    /// What a directory will depend on.
    pub fn depends_next(&self, dir: Number) -> &[Number]
        ensures { result.now ≡ depends (next_state self.now) dir }
    {
        edges_next(&self.parts.graph, &self.ready, dir)
    }

    /// The directories that users will have added to a directory, in order of number.
    pub fn lenders_next(&self, dir: Number) -> &[Number]
        ensures { result.now ≡ lenders (next_state self.now) dir }
    {
        match query_next(&self.parts.tree, &self.ready, dir) {
            Some(query) => behind_named(behind_first(self.depends_next(dir)), query),
            None => &[],
        }
    }

    /// The directories that will reach some of these, in an order in which each comes behind those
    /// on which it will depend.
    pub fn cone_next(&self, alloc: Global, dirs: &[Number]) -> Result<Vec<Number>, Memory>
        ensures { IfOk result (λ numbers.
            IsCone (depends (next_state self.now)) dirs.now numbers.items) }
    {
        cone_next(alloc, &self.parts.graph, &self.ready, dirs)
    }

    /// The mark that an item will have in a directory. What will be no item is told a mark that it
    /// may lose.
    pub fn mark_next(&self, dir: Number, item: Number) -> Kind
        ensures { IsTrue (is_item (next_state self.now) item) →
            result ≡ mark_at (next_state self.now) dir item }
    {
        mark_next(&self.parts.marks, &self.ready, dir, item)
    }

    /// Whether a document of a mount had a term, by the answer that the mount will keep for it.
    pub fn has_answer_next(&self, mount: Number, term: &Term, document: Number) -> bool
        ensures { result ≡ has (kept_at (next_state self.now) mount term.now) document }
    {
        had(
            answers_next(&self.parts.answers, &self.ready, mount),
            term,
            document,
        )
    }
}

/// The edges of a directory after all that is ready.
fn edges_next<'a>(graph: &'a Graph, ready: &'a Ready, dir: Number) -> &'a [Number]
    ensures { result.now ≡ edges_next ready.now graph.now dir }
{
    match ready {
        Ready::Change { event, edges, .. } => edges_after(graph, event, edges, dir),
        _ => graph.edges(dir),
    }
}

/// The cone of some directories after all that is ready.
fn cone_next(
    alloc: Global,
    graph: &Graph,
    ready: &Ready,
    dirs: &[Number],
) -> Result<Vec<Number>, Memory>
    requires { NeverReturns (edges_next ready.now graph.now) }
    ensures { IfOk result (λ numbers.
        IsCone (edges_next ready.now graph.now) dirs.now numbers.items) }
{
    match ready {
        Ready::Change { event, edges, .. } => cone_after(alloc, graph, event, edges, dirs),
        _ => graph.cone(dirs, None),
    }
}

/// The query of a directory after all that is ready.
fn query_next<'a>(tree: &'a Tree, ready: &'a Ready, dir: Number) -> Option<&'a Query<Number>>
    ensures { option_copied result ≡ query_next ready.now tree.now.state dir }
{
    match ready {
        Ready::Change { event, .. } => query_after(tree, event, dir),
        _ => tree.query(dir),
    }
}

/// The query of a directory after an event.
fn query_after<'a>(tree: &'a Tree, event: &'a Event, dir: Number) -> Option<&'a Query<Number>>
    ensures { option_copied result ≡ query_after event.now tree.now.state dir }
{
    match event {
        Event::Smkdir { query, .. } => query_with(tree, tree.next_number(), Some(query), dir),
        Event::Setq {
            dir: asking,
            query,
            ..
        } => query_with(tree, *asking, Some(query), dir),
        Event::Unq { dir: bared } | Event::Rmdir { dir: bared } => {
            query_with(tree, *bared, None, dir)
        }
        _ => tree.query(dir),
    }
}

/// The query of a directory once one has another query, or none.
fn query_with<'a>(
    tree: &'a Tree,
    asking: Number,
    query: Option<&'a Query<Number>>,
    dir: Number,
) -> Option<&'a Query<Number>>
    ensures { option_copied result ≡
        put_at (query_at tree.now.state) asking (option_copied query.entry) dir }
{
    if dir == asking {
        query
    } else {
        tree.query(dir)
    }
}

/// The mark of an item in a directory after all that is ready.
fn mark_next(marks: &Links, ready: &Ready, dir: Number, item: Number) -> Kind
    ensures { result ≡ mark_next ready.now marks.now dir item }
{
    match ready {
        Ready::Change { event, .. } => mark_after(marks, event, dir, item),
        _ => marks.kind(dir, item),
    }
}

/// The answers of a mount after all that is ready.
fn answers_next<'a>(answers: &'a Answers, ready: &'a Ready, mount: Number) -> &'a [Answer]
    ensures { result.now ≡ answers_next ready.now answers.now mount }
{
    match ready {
        Ready::Change { event, .. } => answers_after(answers, event, mount),
        _ => answers.kept_by(mount),
    }
}
