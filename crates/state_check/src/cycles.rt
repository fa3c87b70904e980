//! Whether a semantic directory depends on itself.
ghost use Rattle.std.specs.Prelude.{◌≡◌, ℕ, IfOk, OnOk, filter};
ghost use Rattle.hac_model.specs.Tree as tree;
ghost use Rattle.hac_model.specs.Tree.Depends.{depends};
ghost use Rattle.hac_model.specs.Tree.ValidTest as valid;
ghost use Rattle.dep_graph.specs.Graphs.{edges_of};
ghost use Rattle.layout_check.specs.Rising.{DoRise};
ghost use Rattle.state_check.specs.Edges.{edges_put};

use dep_graph::Graph;
use hac_model::{Body, Entry, Memory, Number, State};
use kept_facts::edges_of;
use layout_check::is_directory_at;
use std::alloc::Global;

/// Whether no directory depends on itself.
pub(crate) fn is_acyclic(alloc: Global, state: &State) -> Result<bool, Memory>
    requires { DoRise state.now.entries }
    ensures { IfOk result (λ told. told ≡ valid.is_acyclic state.now) }
{
    let graph = graph_of(alloc, state)?;
    graph.is_acyclic()
}

/// The graph in which each directory has edges to those on which it depends.
fn graph_of(alloc: Global, state: &State) -> Result<Graph, Memory>
    requires { DoRise state.now.entries }
    ensures { IfOk result (λ graph. (q : ℕ) → edges_of graph q ≡ depends state.now q) }
{
    let mut graph = Graph::new(alloc);
    let entries = state.entries.as_slice();
    for entry in entries {
        put_edges(alloc, entries, entry, &mut graph)?;
    }
    Ok(graph)
}

/// Gives a directory its edges, if it is semantic.
fn put_edges(
    alloc: Global,
    entries: &[Entry],
    entry: &Entry,
    graph: &mut Graph,
) -> Result<(), Memory>
    requires { DoRise entries.now }
    ensures { OnOk result ((q : ℕ) → edges_of graph.new q
        ≡ edges_put entries.now entry.now (edges_of graph.old) q) }
{
    if let Body::Semantic {
        query,
        permanent,
        ..
    } = &entry.body
    {
        let lenders = directories_among(alloc, entries, permanent.as_slice())?;
        let edges = edges_of(alloc, entry.parent, query, lenders.as_slice())?;
        let prepared = graph.prepare_edges(entry.number, edges)?;
        graph.set_edges(prepared);
    }
    Ok(())
}

/// Those of some numbers that are directories, in their order.
pub fn directories_among(
    alloc: Global,
    entries: &[Entry],
    numbers: &[Number],
) -> Result<Vec<Number>, Memory>
    requires { DoRise entries.now }
    ensures { IfOk result (λ dirs. dirs.items
        ≡ filter (tree.is_directory_at entries.now) numbers.now) }
{
    let mut dirs = Vec::new(alloc);
    for number in numbers {
        if is_directory_at(entries, *number) {
            dirs.push(*number)?;
        }
    }
    Ok(dirs)
}
