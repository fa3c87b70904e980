//! The graph itself, what it says of a directory, and its changes. Those that may want memory are
//! prepared.
ghost use Rattle.std.specs.Prelude.{◌≡◌, ℕ, [], Some, None, IfOk, OnOk, OnErr};
ghost use Rattle.std.specs.Option.{option_copied};
ghost use Rattle.dep_graph.specs.Graphs.{edges_of, edges_with, replaced};

use crate::nodes::{self, Nodes};
use hac_model::{Memory, Number};
use indexmap::IndexMap;
use std::alloc::Global;
use std::marker::Model;

/// The semantic directories with the edges of each, seen as their list and as which of them is
/// ready for new edges. The first edge of a directory leads to its own directory, the next ones to
/// those that its query names, in the query's order, and the last to those that users added to it,
/// in order of number. A directory with no edges isn't there.
#[derive(Drop)]
pub struct Graph {
    pub(crate) alloc: Global,
    // A node has edges, but for that of the directory that is ready, which may have none yet.
    pub(crate) nodes: Nodes,
    pub(crate) ready: Option<Number>,
}

impl Model for Graph {
    ghost use Rattle.dep_graph.specs.Graphs.{Seen, seen_code};

    ghost Value = { Seen };

    ghost coded = { seen_code };

    ghost use Rattle.dep_graph.specs.Inner.{seen_of, AreNodesKept};

    ghost view = { seen_of };

    ghost invariant = { AreNodesKept };
}

/// The edges that a directory is to have, while the graph is ready for them.
#[derive(Debug, Drop)]
pub struct NewEdges {
    /// The directory.
    pub dir: Number,
    /// Its edges, that to its own directory first.
    pub edges: Vec<Number>,
}

impl Graph {
    /// No directory.
    pub fn new(alloc: Global) -> Graph
        ensures { result ≡ record { nodes = []; ready = None } }
    {
        Graph {
            alloc,
            nodes: IndexMap::new(alloc),
            ready: None,
        }
    }

    /// The edges of a directory, none where it isn't there.
    pub fn edges(&self, dir: Number) -> &[Number]
        ensures { result.now ≡ edges_of self.now dir }
    {
        nodes::edges_at(&self.nodes, dir)
    }

    /// The edges of a directory as they will be once the next ones are set, if there are any.
    pub(crate) fn edges_with<'a>(&'a self, next: Option<&'a NewEdges>, dir: Number) -> &'a [Number]
        ensures { result.now ≡ edges_with self.now (option_copied next.entry) dir }
    {
        match next {
            Some(next) if next.dir == dir => next.edges.as_slice(),
            _ => self.edges(dir),
        }
    }

    /// Prepares new edges of a directory. No edge changes, whatever the answer.
    pub fn prepare_edges(&mut self, dir: Number, edges: Vec<Number>) -> Result<NewEdges, Memory>
        ensures prepared { IfOk result (λ new. new ≡ record { dir = dir; edges = edges }) }
        ensures ok { OnOk result (self.new.ready ≡ Some dir) }
        ensures err { OnErr result (self.new.ready ≡ None) }
        ensures edges { (q : ℕ) → edges_of self.new q ≡ edges_of self.old q }
    {
        self.forget();
        nodes::make_place(self.alloc, &mut self.nodes, dir)?;
        self.ready = Some(dir);
        Ok(NewEdges { dir, edges })
    }

    /// Gives a directory the edges that were prepared in place of those that it had.
    pub fn set_edges(&mut self, edges: NewEdges)
        requires { self.old.ready ≡ Some edges.dir }
        ensures ready { self.new.ready ≡ None }
        ensures edges { (q : ℕ) → edges_of self.new q
            ≡ replaced (edges_of self.old) edges.dir edges.edges.items q }
    {
        self.ready = None;
        nodes::put(&mut self.nodes, edges.dir, edges.edges);
    }

    /// Removes a directory, with its edges. Those that lead to it stay.
    pub fn drop_node(&mut self, dir: Number)
        ensures ready { self.new.ready ≡ None }
        ensures edges { (q : ℕ) → edges_of self.new q ≡ replaced (edges_of self.old) dir [] q }
    {
        self.forget();
        nodes::take_out(&mut self.nodes, dir);
    }

    /// Forgets what was prepared.
    fn forget(&mut self)
        ensures ready { self.new.ready ≡ None }
        ensures edges { (q : ℕ) → edges_of self.new q ≡ edges_of self.old q }
    {
        if let Some(dir) = self.ready {
            nodes::take_out_bare(&mut self.nodes, dir);
        }
        self.ready = None;
    }
}
