//! A tree with the marks of its semantic directories, the answers of its mounts, what depends on
//! what, and its sessions.
ghost use Rattle.std.specs.Prelude.{◌≡◌, IfOk, IsTrue, OnOk, length};
ghost use Rattle.hac_model.specs.Tree.{root_alone};
ghost use Rattle.hac_model.specs.Tree.Asking.{are_all_told};
ghost use Rattle.hac_model.specs.Tree.Mounts.{terms_to_ask};
ghost use Rattle.hac_model.specs.Tree.Links.{query_at};
ghost use Rattle.kept_state.specs.Parts.{AreAlike, AreEdges, IsLinked, KeepsTree, WillHave};
ghost use Rattle.kept_state.specs.Parts.{edges_marked, edges_then, state_of};
ghost use Rattle.kept_state.specs.Ready.{AnswersReady, GainsReady};

use crate::gains::gained;
use crate::lenders::lenders;
use crate::terms::terms_to_ask;
use dep_graph::{Graph, NewEdges};
use file_tree::Tree;
use hac_model::{Mark, Memory, Number, Query, Seq, Session, Version};
use kept_facts::lenders::marked;
use kept_facts::{Answers, answers_to, edges_of};
use link_kinds::Links;
use std::alloc::Global;

/// A tree, its marks, its answers, its graph and its sessions. That they fit one another is said by
/// `IsLinked` of the specs.
#[derive(Drop)]
pub struct Parts {
    /// The tree, without marks and answers.
    pub tree: Tree,
    /// The items that users added to semantic directories, or removed there.
    pub marks: Links,
    /// What spaces answered, as their mounts keep it.
    pub answers: Answers,
    /// What each semantic directory depends on: its own directory, then those that its query names,
    /// then those that users added to it.
    pub graph: Graph,
    /// The sessions that stand in a directory other than the root.
    pub sessions: Seq<Session>,
}

impl Parts {
    /// The root alone, in a store of a version.
    pub fn new(alloc: Global, version: Version) -> Result<Parts, Memory>
        ensures root { IfOk result (λ kept. state_of kept ≡ root_alone version) }
        ensures linked { IfOk result (λ kept. IsLinked kept) }
    {
        let tree = Tree::new(alloc, version)?;
        let marks = Links::new(alloc);
        Ok(Parts {
            tree,
            marks,
            answers: Answers::new(alloc),
            graph: Graph::new(alloc),
            sessions: Seq::new(Vec::new(alloc)),
        })
    }

    /// Prepares the edges of a directory that is to have this parent and this query.
    pub fn prepare_edges(
        &mut self,
        alloc: Global,
        dir: Number,
        parent: Number,
        query: &Query<Number>,
    ) -> Result<NewEdges, Memory>
        requires { IsLinked self.old }
        ensures same { KeepsTree self.old self.new }
        ensures edges { IfOk result (AreEdges self.new.graph dir
            (edges_then self.old dir parent (Some query.now))) }
    {
        let edges = edges_of(alloc, parent, query, lenders(self, dir))?;
        self.graph.prepare_edges(dir, edges)
    }

    /// Prepares the edges of an entry that moves to another directory, if it has a query.
    pub fn prepare_moved_edges(
        &mut self,
        alloc: Global,
        entry: Number,
        dir: Number,
    ) -> Result<Option<NewEdges>, Memory>
        requires { IsLinked self.old }
        ensures same { KeepsTree self.old self.new }
        ensures edges { IfOk result (WillHave self.new.graph entry
            (edges_then self.old entry dir (query_at self.old.tree.state entry))) }
    {
        let Some(query) = self.tree.query(entry) else {
            return Ok(None);
        };
        let edges = edges_of(alloc, dir, query, lenders(self, entry))?;
        Ok(Some(self.graph.prepare_edges(entry, edges)?))
    }

    /// Prepares the edges of a directory that gets or loses a mark, if the mark is on a directory.
    pub fn prepare_marked_edges(
        &mut self,
        alloc: Global,
        mark: &Mark,
    ) -> Result<Option<NewEdges>, Memory>
        requires { IsLinked self.old }
        ensures same { KeepsTree self.old self.new }
        ensures edges { IfOk result (WillHave self.new.graph mark.now.dir
            (edges_marked self.old mark.now)) }
    {
        let Some(query) = self.tree.query(mark.dir) else {
            return Ok(None);
        };
        if !self.tree.is_directory(mark.item) {
            return Ok(None);
        }
        let lenders = marked(alloc, lenders(self, mark.dir), mark)?;
        let parent = self.tree.parent(mark.dir);
        let edges = edges_of(alloc, parent, query, lenders.as_slice())?;
        Ok(Some(self.graph.prepare_edges(mark.dir, edges)?))
    }

    /// Prepares what a mount is to keep: what its space told of each term in use, in order.
    pub fn prepare_answers(
        &mut self,
        alloc: Global,
        mount: Number,
        told: &[Seq<Number>],
    ) -> Result<(), Memory>
        requires { length told.now ≡ length (terms_to_ask self.old.tree.state.entries) }
        ensures alike { AreAlike self.old self.new }
        ensures tree { self.new.tree ≡ self.old.tree }
        ensures ready { OnOk result (AnswersReady self.new mount told.now) }
    {
        let terms = terms_to_ask(alloc, &self.tree)?;
        let answers = answers_to(alloc, terms.as_slice(), told)?;
        self.answers.prepare(mount, Seq::new(answers))
    }

    /// Prepares what mounts are to keep that were told for a query.
    pub fn prepare_gains(
        &mut self,
        alloc: Global,
        query: &Query<Number>,
        told: &[Seq<Number>],
    ) -> Result<(), Memory>
        requires linked { IsLinked self.old }
        requires told { IsTrue (are_all_told (state_of self.old) query.now told.now
            (state_of self.old).entries) }
        ensures alike { AreAlike self.old self.new }
        ensures tree { self.new.tree ≡ self.old.tree }
        ensures ready { OnOk result (GainsReady self.new query.now told.now) }
    {
        let lists = gained(alloc, self, query, told)?;
        self.answers.prepare_told(lists);
        Ok(())
    }
}
