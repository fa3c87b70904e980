//! A tree that is made of the entries of a state, as one that was read from a store. A directory
//! may come behind what is in it.
ghost use Rattle.std.specs.Prelude.{◌≡◌, ◌||◌, ◌&&◌, ◌<◌, ℕ, [], is_some, nat_eq, IfOk, IsTrue};
ghost use Rattle.std.specs.Prelude.{OnOk};
ghost use Rattle.std.specs.BTreeSet.{contains};
ghost use Rattle.std.specs.Ordering.{nat_cmp};
ghost use Rattle.hac_model.specs.Tree.{entry_at};
ghost use Rattle.hac_model.specs.Tree.Bare.{bare, bare_body};
ghost use Rattle.hac_model.specs.Tree.Limits as limits;
ghost use Rattle.hac_model.specs.Tree.Valid.{IsLayout, IsSound};
ghost use Rattle.hac_model.specs.Tree.{is_dirty};
ghost use Rattle.file_tree.specs.Loading.{IsLoaded, IsPlaced, IsPrepared, StandsAlone};
ghost use Rattle.tree_nodes.specs.Nodes.{AreSame, body_of, has_node, shown_in, spare_of};

use crate::ready::Ready;
use crate::tree::Tree;
use hac_model::{Body, Counts, Entry, Memory, Number, State, Text, Version};
use indexmap::IndexMap;
use std::alloc::Global;
use std::collections::BTreeSet;
use tiered_list::TieredList;
use tree_nodes::{Content, Nodes, Shown, Target, insert_named, read_word};

/// The tree as far as it is made.
#[derive(Drop)]
pub(crate) struct Loading {
    // The number that the next entry takes.
    pub(crate) next: Number,
    // A node for each entry, and one for the root.
    pub(crate) nodes: Nodes,
    // The numbers of the dirty files.
    pub(crate) to_index: BTreeSet<u64>,
}

impl Tree {
    /// The tree of a state, without what is kept beside it: marks, answers and sessions. How much
    /// the state holds is given.
    pub fn load(alloc: Global, state: State, counts: Counts) -> Result<Tree, Memory>
        requires layout { IsLayout state }
        requires counts { counts ≡ limits.counts state }
        ensures { IfOk result (λ tree. tree ≡
            record { state = bare state; ready = Ready.Nothing }) }
    {
        let State {
            version,
            next,
            entries,
            ..
        } = state;
        let mut loading = prepared(alloc, next, entries.as_slice())?;
        match loading.place_all(alloc, entries.into_vec()) {
            Ok(()) => Ok(Tree {
                alloc,
                version,
                next,
                nodes: loading.nodes,
                documents: TieredList::new(alloc),
                ready: Ready::Nothing,
                counts,
                to_index: loading.to_index,
            }),
            Err(memory) => {
                drop(loading);
                Err(memory)
            }
        }
    }
}

/// Nodes that are no entries yet, under the numbers of these entries and of the root.
fn prepared(alloc: Global, next: Number, entries: &[Entry]) -> Result<Loading, Memory>
    ensures { IfOk result (IsPrepared next entries.now) }
{
    let mut nodes = IndexMap::new(alloc);
    tree_nodes::prepare(alloc, &mut nodes, Number::ROOT)?;
    prepare_all(alloc, &mut nodes, entries)?;
    Ok(Loading {
        next,
        nodes,
        to_index: BTreeSet::new(alloc),
    })
}

/// Puts nodes that are no entries under the numbers of entries.
fn prepare_all(alloc: Global, nodes: &mut Nodes, entries: &[Entry]) -> Result<(), Memory>
    requires { (q : ℕ) → StandsAlone nodes.old q }
    ensures numbers { OnOk result ((q : ℕ) → has_node nodes.new q ≡
        (has_node nodes.old q || is_some (entry_at entries.now q))) }
    ensures alone { (q : ℕ) → StandsAlone nodes.new q }
{
    for entry in entries {
        tree_nodes::prepare(alloc, nodes, entry.number)?;
    }
    Ok(())
}

impl Loading {
    /// Makes the prepared nodes the entries that they are for. They fit in a store of version 2, as
    /// those of any version do.
    fn place_all(&mut self, alloc: Global, entries: Vec<Entry>) -> Result<(), Memory>
        requires layout { IsLayout (record {
          version = Version.Two;
          next = self.old.next;
          entries = entries.items;
          sessions = [];
        }) }
        requires prepared { IsPrepared self.old.next entries.items self.old }
        ensures { OnOk result (IsLoaded self.old.next entries.items self.new) }
    {
        for entry in entries {
            self.place(alloc, entry)?;
        }
        Ok(())
    }

    /// Makes a prepared node an entry, in the list of its directory.
    fn place(&mut self, alloc: Global, entry: Entry) -> Result<(), Memory>
        requires sound { IsSound entry.body }
        requires node { IsTrue (has_node self.old.nodes entry.number) }
        requires directory { IsTrue (has_node self.old.nodes entry.parent) }
        ensures { OnOk result (IsPlaced entry self.old self.new) }
    {
        let Entry {
            number,
            parent,
            name,
            body,
        } = entry;
        let content = content_of(alloc, body)?;
        self.reserve(number, parent, &content)?;
        insert_named(&mut self.nodes, parent, name.as_bytes(), number);
        tree_nodes::put(&mut self.nodes, number, parent, name, content);
        Ok(())
    }

    /// Makes a place in the list of a directory for an entry, and takes its number where it is a
    /// dirty file.
    fn reserve(&mut self, number: Number, dir: Number, content: &Content) -> Result<(), Memory>
        requires { IsTrue (has_node self.old.nodes dir) }
        ensures next { self.new.next ≡ self.old.next }
        ensures place { OnOk result (0 < spare_of self.new.nodes dir) }
        ensures same { AreSame self.old.nodes self.new.nodes }
        ensures dirty { OnOk result ((q : ℕ) → contains nat_cmp self.new.to_index q ≡
            (contains nat_cmp self.old.to_index q ||
            (is_dirty (body_of content.now) && nat_eq number q))) }
    {
        tree_nodes::reserve_child(&mut self.nodes, dir)?;
        if content.is_dirty() {
            self.to_index.insert(number.get())?;
        }
        Ok(())
    }
}

/// What is kept of the body of an entry: neither marks nor answers.
fn content_of(alloc: Global, body: Body) -> Result<Content, Memory>
    requires { IsSound body }
    ensures { IfOk result (λ content. body_of content ≡ bare_body body) }
{
    match body {
        Body::File { text, dirty, shown } => {
            let shown = shown_of(&text, shown);
            Ok(Content::File { text, dirty, shown })
        }
        Body::Dir => Ok(Content::Dir),
        Body::Symlink { target } => {
            let word = read_word(alloc, &target)?;
            Ok(Content::Symlink(Target::new(target, word)))
        }
        Body::Semantic { query, .. } => Ok(Content::Semantic { query }),
        Body::Mount { space, .. } => Ok(Content::Mount { space }),
        Body::Document => Ok(Content::Document),
    }
}

/// The text of a file as it was last indexed, kept once where it is the file's text.
fn shown_of(text: &Text, shown: Option<Text>) -> Shown
    ensures { shown_in text.now result ≡ shown }
{
    match shown {
        None => Shown::Never,
        Some(older) if older == *text => Shown::AsItIs,
        Some(older) => Shown::Older(older),
    }
}
