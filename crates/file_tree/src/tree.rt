//! The tree itself, and what it says of its entries.
ghost use Rattle.std.specs.Prelude.{◌≡◌, ◌==◌, is_some, Some, IfOk, IfSome, IsTrue, IsSome, []};
ghost use Rattle.std.specs.Prelude.{length, map};
ghost use Rattle.std.specs.Option.{option_copied, option_map, option_and_then};
ghost use Rattle.hac_model.specs.Tree.Events.{is_empty_at, next_dirty};
ghost use Rattle.hac_model.specs.Tree.Limits.{counts};
ghost use Rattle.hac_model.specs.Tree.Links.{is_item, parent_of, query_at, shown_of, space_at};
ghost use Rattle.hac_model.specs.Tree.Listing.{children};
ghost use Rattle.hac_model.specs.Tree.Looks.{target_word};
ghost use Rattle.hac_model.specs.Tree.{body_at, child, entry_at, is_directory_at};
ghost use Rattle.hac_model.specs.Tree.{is_document_at, is_file_at, is_made_directory, is_mount_at};
ghost use Rattle.hac_model.specs.Tree.{is_symlink_at, raised, root_alone, target_in, text_in};
ghost use Rattle.hac_model.specs.Tree.Valid.{IsLayout};
ghost use Rattle.file_tree.specs.Answers.{entries_behind, is_dirty_at};
ghost use Rattle.hac_model.specs.Tree.{entry_kind, entry_kind_at};
ghost use Rattle.file_tree.specs.Answers.{numbers_of};
ghost use Rattle.tree_nodes.specs.Nodes.{body_of};

use crate::ready::Ready;
use entry_counts::of_root;
use hac_model::{Counts, EntryKind, Memory, Name, Number, PathWord, Query, Text, Version};
use indexmap::IndexMap;
use std::alloc::Global;
use std::collections::BTreeSet;
use std::marker::Model;
use std::ops::Bound;
use tiered_list::{Items, TieredList};
use tree_nodes::{Content, Nodes, children_at, named};

/// The tree, seen as its state and as what it is ready for.
#[derive(Drop)]
pub struct Tree {
    pub(crate) alloc: Global,
    // The version of the store.
    pub(crate) version: Version,
    // The number that the next entry takes.
    pub(crate) next: Number,
    // The root, the entries, and what was prepared.
    pub(crate) nodes: Nodes,
    // The list of the documents of a mount that was prepared.
    pub(crate) documents: TieredList,
    pub(crate) ready: Ready,
    // How much the state holds.
    pub(crate) counts: Counts,
    // The numbers of the dirty files, and of the one that the prepared change will make dirty.
    pub(crate) to_index: BTreeSet<u64>,
}

impl Model for Tree {
    ghost use Rattle.file_tree.specs.Seen.{Seen, seen_code};

    ghost Value = { Seen };

    ghost coded = { seen_code };

    ghost use Rattle.file_tree.specs.Shape.{seen_of, IsTree};

    ghost view = { seen_of };

    ghost invariant = { IsTree };
}

impl Tree {
    /// The root alone, in a store of a version.
    pub fn new(alloc: Global, version: Version) -> Result<Tree, Memory>
        ensures { IfOk result (λ tree. tree ≡
            record { state = root_alone version; ready = Ready.Nothing }) }
    {
        let mut nodes = IndexMap::new(alloc);
        tree_nodes::prepare(alloc, &mut nodes, Number::ROOT)?;
        Ok(Tree {
            alloc,
            version,
            next: Number::new(1),
            nodes,
            documents: TieredList::new(alloc),
            ready: Ready::Nothing,
            counts: of_root(),
            to_index: BTreeSet::new(alloc),
        })
    }

    /// The version of the store.
    pub fn version(&self) -> Version
        ensures { result ≡ self.now.state.version }
    {
        self.version
    }

    /// The state in a store of version 2. What is ready stays so.
    pub fn raise(&mut self)
        ensures { self.new ≡ record { state = raised self.old.state; ready = self.old.ready } }
    {
        self.version = Version::Two;
    }

    /// The number that the next entry takes.
    pub fn next_number(&self) -> Number
        ensures number { result ≡ self.now.state.next }
        ensures layout { IsLayout self.now.state }
        ensures sessions { self.now.state.sessions ≡ [] }
    {
        self.next
    }

    /// The entries fit one another. This does nothing: it is called where a proof has to know so.
    pub fn know_layout(&self)
        ensures layout { IsLayout self.now.state }
        ensures sessions { self.now.state.sessions ≡ [] }
    {
        let _next = self.next;
    }

    /// How much the state holds.
    pub fn counts(&self) -> Counts
        ensures counts { result ≡ counts self.now.state }
        ensures layout { IsLayout self.now.state }
    {
        self.counts
    }

    /// What a directory has under a name.
    pub fn child(&self, dir: Number, name: &Name) -> Option<Number>
        ensures { result ≡ child self.now.state.entries dir name.now }
    {
        named(&self.nodes, &children_at(&self.nodes, dir), name.as_bytes())
    }

    /// The directory of an entry. The root is in itself.
    pub fn parent(&self, entry: Number) -> Number
        ensures { result ≡ parent_of self.now.state entry }
    {
        match tree_nodes::entry_at(&self.nodes, entry) {
            Some(node) => node.parent,
            None => Number::ROOT,
        }
    }

    /// The kind of an entry. The root is a plain directory.
    pub fn kind(&self, entry: Number) -> EntryKind
        ensures { result ≡ entry_kind_at self.now.state.entries entry }
    {
        match self.content(entry) {
            Some(content) => entry_kind(content),
            None => EntryKind::Dir,
        }
    }

    /// The text of a file.
    pub fn text(&self, file: Number) -> &[u8]
        requires { IsTrue (is_file_at self.now.state.entries file) }
        ensures { option_and_then text_in (body_at self.now.state.entries file) ≡ Some result.now }
    {
        match self.content(file) {
            Some(Content::File { text, .. }) => text.as_slice(),
            _ => unreachable!(),
        }
    }

    /// The text of a file as it was last indexed, if it ever was.
    pub fn shown(&self, file: Number) -> Option<&[u8]>
        ensures { option_copied result ≡ shown_of self.now.state file }
    {
        self.content(file)?.shown()
    }

    /// Whether a file was made or written since it was last indexed.
    pub fn dirty(&self, file: Number) -> bool
        ensures { result ≡ is_dirty_at self.now.state.entries file }
    {
        match self.content(file) {
            Some(content) => content.is_dirty(),
            None => false,
        }
    }

    /// The dirty file of the least number, if a file is dirty.
    pub fn next_dirty(&self) -> Option<Number>
        ensures next { result ≡ next_dirty self.now.state.entries }
        ensures dirty { IfSome result (λ file. IsTrue (is_dirty_at self.now.state.entries file)) }
        ensures layout { IsLayout self.now.state }
    {
        self.know_layout();
        self.next_dirty_behind(Number::ROOT)
    }

    /// The dirty file of the least number above this one, if there is any.
    pub fn next_dirty_behind(&self, last: Number) -> Option<Number>
        ensures next { result ≡ next_dirty (entries_behind last self.now.state.entries) }
        ensures dirty { IfSome result (λ file. IsTrue (is_dirty_at self.now.state.entries file)) }
    {
        self.know_layout();
        let behind = (Bound::Excluded(last.get()), Bound::Unbounded);
        for number in self.to_index.range(behind) {
            let file = Number::new(*number);
            if self.dirty(file) {
                return Some(file);
            }
        }
        None
    }

    /// The query of a directory, where it has one.
    pub fn query(&self, dir: Number) -> Option<&Query<Number>>
        ensures { option_copied result ≡ query_at self.now.state dir }
    {
        self.content(dir)?.query()
    }

    /// The space that a mount shows.
    pub fn space(&self, mount: Number) -> Option<&Name>
        ensures { option_copied result ≡ space_at self.now.state mount }
    {
        self.content(mount)?.space()
    }

    /// Where a symbolic link leads, as it was given.
    pub fn target(&self, link: Number) -> Option<&Text>
        ensures { option_copied result ≡
            option_and_then target_in (body_at self.now.state.entries link) }
    {
        Some(self.content(link)?.target()?.bytes())
    }

    /// The word by which a symbolic link leads.
    pub fn target_word(&self, link: Number) -> Option<&PathWord>
        ensures { option_copied result ≡ option_and_then target_word
            (option_and_then target_in (body_at self.now.state.entries link)) }
    {
        Some(self.content(link)?.target()?.word())
    }

    /// Whether a directory has the number.
    pub fn is_directory(&self, number: Number) -> bool
        ensures { result ≡ is_directory_at self.now.state.entries number }
    {
        number == Number::ROOT || self.is_made_directory(number)
    }

    /// Whether an entry of the number is a directory. The root is no entry.
    pub fn is_made_directory(&self, number: Number) -> bool
        ensures { result ≡ is_made_directory self.now.state.entries number }
    {
        match self.content(number) {
            Some(content) => content.is_directory(),
            None => false,
        }
    }

    /// Whether a file has the number.
    pub fn is_file(&self, number: Number) -> bool
        ensures { result ≡ is_file_at self.now.state.entries number }
    {
        match self.content(number) {
            Some(content) => matches!(content, Content::File { .. }),
            None => false,
        }
    }

    /// Whether a symbolic link has the number.
    pub fn is_symlink(&self, number: Number) -> bool
        ensures { result ≡ is_symlink_at self.now.state.entries number }
    {
        match self.content(number) {
            Some(content) => matches!(content, Content::Symlink(_)),
            None => false,
        }
    }

    /// Whether a mount has the number.
    pub fn is_mount(&self, number: Number) -> bool
        ensures { result ≡ is_mount_at self.now.state.entries number }
    {
        match self.content(number) {
            Some(content) => matches!(content, Content::Mount { .. }),
            None => false,
        }
    }

    /// Whether a document has the number.
    pub fn is_document(&self, number: Number) -> bool
        ensures { result ≡ is_document_at self.now.state.entries number }
    {
        match self.content(number) {
            Some(content) => matches!(content, Content::Document),
            None => false,
        }
    }

    /// Whether what can be linked has the number: a file or a document.
    pub fn is_item(&self, number: Number) -> bool
        ensures { result ≡ is_item self.now.state number }
    {
        match self.content(number) {
            Some(content) => content.is_linkable(),
            None => false,
        }
    }

    pub(crate) fn content(&self, entry: Number) -> Option<&Content>
        ensures { option_map body_of (option_copied result) ≡ body_at self.now.state.entries entry }
    {
        match tree_nodes::entry_at(&self.nodes, entry) {
            Some(node) => Some(&node.content),
            None => None,
        }
    }

    /// Whether there is an entry of the number.
    pub fn has_entry(&self, number: Number) -> bool
        ensures { result ≡ is_some (entry_at self.now.state.entries number) }
    {
        self.content(number).is_some()
    }

    /// The name of an entry.
    pub fn name_of(&self, entry: Number) -> &Name
        requires { IsSome (entry_at self.now.state.entries entry) }
        ensures { option_map (λ entry. entry.name) (entry_at self.now.state.entries entry) ≡
            Some result.now }
    {
        match tree_nodes::entry_at(&self.nodes, entry) {
            Some(node) => &node.name,
            None => unreachable!(),
        }
    }

    /// The entries of a directory, in byte order of names.
    pub fn children(&self, dir: Number) -> Items<'_>
        ensures numbers { result ≡ map (λ entry. entry.number) (children self.now.state dir) }
        ensures bare { is_empty_at self.now.state.entries dir ≡ (length result == 0) }
    {
        children_at(&self.nodes, dir)
    }

    /// The numbers of the entries, in order. It takes time that goes with how many there are, and
    /// not with the number that is next.
    pub fn numbers(&self, alloc: Global) -> Result<Vec<Number>, Memory>
        ensures numbers { IfOk result (λ numbers.
            numbers.items ≡ numbers_of self.now.state.entries) }
        ensures layout { IsLayout self.now.state }
    {
        self.know_layout();
        let mut numbers = tree_nodes::placed_numbers(alloc, &self.nodes)?;
        numbers.sort_unstable();
        Ok(numbers)
    }
}

fn entry_kind(content: &Content) -> EntryKind
    ensures { result ≡ entry_kind (body_of content.now) }
{
    match content {
        Content::File { .. } => EntryKind::File,
        Content::Dir => EntryKind::Dir,
        Content::Symlink(_) => EntryKind::Symlink,
        Content::Semantic { .. } => EntryKind::Semantic,
        Content::Mount { .. } => EntryKind::Mount,
        Content::Document => EntryKind::Document,
    }
}
