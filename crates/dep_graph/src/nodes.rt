//! The nodes of a graph by number, each changed by itself. Nothing here knows where an edge leads.
ghost use Rattle.std.specs.Prelude.{◌≡◌, ◌⊎◌, ◌==◌, ℕ, [], true, false, nat_eq, if◌then◌else◌};
ghost use Rattle.std.specs.Prelude.{IsTrue, OnErr, OnOk, length};
ghost use Rattle.dep_graph.specs.Inner.{has_node, is_bare, kept_in};

use hac_model::{Memory, Number};
use indexmap::IndexMap;
use std::alloc::Global;

/// The edges by the numbers of their directories.
pub(crate) type Nodes = IndexMap<u64, Vec<Number>>;

/// The edges in a node, none where there is no node.
pub(crate) fn edges_at(nodes: &Nodes, dir: Number) -> &[Number]
    ensures { result.now ≡ kept_in nodes.now dir }
{
    match nodes.get(&dir.get()) {
        Some(edges) => edges.as_slice(),
        None => &[],
    }
}

/// Puts a node with no edges under a number that has no node.
pub(crate) fn make_place(alloc: Global, nodes: &mut Nodes, dir: Number) -> Result<(), Memory>
    ensures there { OnOk result (IsTrue (has_node nodes.new dir)) }
    ensures edges { (q : ℕ) → kept_in nodes.new q ≡ kept_in nodes.old q }
    ensures bare { (q : ℕ) → is_bare nodes.new q ≡ true → (q ≡ dir) ⊎ (is_bare nodes.old q ≡ true) }
    ensures err { OnErr result ((q : ℕ) → is_bare nodes.new q ≡ is_bare nodes.old q) }
{
    if !nodes.contains_key(&dir.get()) {
        nodes.insert(dir.get(), Vec::new(alloc))?;
    }
    Ok(())
}

/// Gives a node other edges. If there are none, it goes.
#[tactic(auto, using(std::proofs::lemmas::List::nil_from_length))]
pub(crate) fn put(nodes: &mut Nodes, dir: Number, edges: Vec<Number>)
    requires { IsTrue (has_node nodes.old dir) }
    ensures edges { (q : ℕ) → kept_in nodes.new q ≡
        if nat_eq q dir then edges.items else kept_in nodes.old q }
    ensures bare { (q : ℕ) → is_bare nodes.new q ≡
        if nat_eq q dir then false else is_bare nodes.old q }
{
    if edges.is_empty() {
        take_out(nodes, dir);
    } else {
        replace(nodes, dir, edges);
    }
}

/// Gives a node other edges, and some.
fn replace(nodes: &mut Nodes, dir: Number, edges: Vec<Number>)
    requires { IsTrue (has_node nodes.old dir) }
    ensures edges { (q : ℕ) → kept_in nodes.new q ≡
        if nat_eq q dir then edges.items else kept_in nodes.old q }
    ensures bare { (q : ℕ) → is_bare nodes.new q ≡
        if nat_eq q dir then length edges.items == 0 else is_bare nodes.old q }
{
    if let Some(place) = nodes.get_mut(&dir.get()) {
        *place = edges;
    }
}

/// Removes a node.
pub(crate) fn take_out(nodes: &mut Nodes, dir: Number)
    ensures edges { (q : ℕ) → kept_in nodes.new q ≡
        if nat_eq q dir then [] else kept_in nodes.old q }
    ensures bare { (q : ℕ) → is_bare nodes.new q ≡
        if nat_eq q dir then false else is_bare nodes.old q }
{
    nodes.swap_remove(&dir.get());
}

/// Removes a node that has no edges.
pub(crate) fn take_out_bare(nodes: &mut Nodes, dir: Number)
    ensures edges { (q : ℕ) → kept_in nodes.new q ≡ kept_in nodes.old q }
    ensures bare { (q : ℕ) → is_bare nodes.new q ≡
        if nat_eq q dir then false else is_bare nodes.old q }
{
    if edges_at(nodes, dir).is_empty() {
        take_out(nodes, dir);
    }
}
