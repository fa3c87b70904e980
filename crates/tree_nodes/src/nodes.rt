//! The nodes of a tree by number, each changed by itself. Nothing here knows how they fit together.
ghost use Rattle.std.specs.Prelude.{◌≡◌, ℕ, ◌<◌, ◌≤◌, [], Some, None, nat_eq, if◌then◌else◌};
ghost use Rattle.std.specs.Prelude.{length, insert, remove, false, IfOk, IsSome, IsTrue, OnOk};
ghost use Rattle.std.specs.Option.{option_copied, option_map};
ghost use Rattle.indexmap.specs.IndexMap.{IsUnique, get};
ghost use Rattle.tree_nodes.specs.Nodes.{AreRead, AreSame, ChangesEntry, HasList, TakesOut};
ghost use Rattle.tree_nodes.specs.Nodes.{body_of, edited_at, entry_of, has_node, kids_of};
ghost use Rattle.tree_nodes.specs.Nodes.{name_of, placed_at, placed_in, set_at, spare_of};
ghost use Rattle.hac_model.specs.Tree.Events.{asking, edited, indexed, plain_body, reseated};
ghost use Rattle.hac_model.specs.Tree.Events.{rewritten};
ghost use Rattle.hac_model.specs.Tree.{is_directory, is_dirty, is_linkable, query_in, shown_text};
ghost use Rattle.hac_model.specs.Tree.{space_in, target_in};

use crate::targets::Target;
use hac_model::{Memory, Name, Number, Query, Text};
use indexmap::IndexMap;
use std::alloc::Global;
use std::mem;
use tiered_list::{Items, TieredList};

/// The nodes by number.
pub type Nodes = IndexMap<u64, Node>;

/// A node.
#[derive(Debug, Drop)]
pub struct Node {
    /// It is an entry. The root is none, nor is what was prepared and isn't put into the tree yet.
    pub placed: bool,
    /// The directory that it is in.
    pub parent: Number,
    /// Its name there.
    pub name: Name,
    /// What it is.
    pub content: Content,
    /// What is in it, in byte order of names.
    pub children: TieredList,
}

/// What an entry is, with each text kept once. Marks, and what spaces answered, aren't kept here.
#[derive(Debug, Drop)]
pub enum Content {
    /// A file.
    File {
        /// Its text.
        text: Text,
        /// It was made or written since it was last indexed.
        dirty: bool,
        /// Its text as it was last indexed.
        shown: Shown,
    },
    /// A plain directory.
    Dir,
    /// A symbolic link, and where it leads.
    Symlink(Target),
    /// A directory with a query.
    Semantic {
        /// The query.
        query: Query<Number>,
    },
    /// A directory that shows another collection.
    Mount {
        /// The name of the space that it shows.
        space: Name,
    },
    /// An entry of a mount.
    Document,
}

/// The text of a file as it was last indexed.
#[derive(Debug, Drop)]
pub enum Shown {
    /// The file was never indexed.
    Never,
    /// It is still the file's text.
    AsItIs,
    /// It was this text.
    Older(Text),
}

impl Content {
    /// The text of a file as it was last indexed, if it ever was.
    pub fn shown(&self) -> Option<&[u8]>
        ensures { option_copied result ≡ shown_text (body_of self.now) }
    {
        let Content::File { text, shown, .. } = self else {
            return None;
        };
        match shown {
            Shown::Never => None,
            Shown::AsItIs => Some(text.as_slice()),
            Shown::Older(text) => Some(text.as_slice()),
        }
    }

    /// Whether this is a file that was made or written since it was last indexed.
    pub fn is_dirty(&self) -> bool
        ensures { result ≡ is_dirty (body_of self.now) }
    {
        match self {
            Content::File { dirty, .. } => *dirty,
            _ => false,
        }
    }

    /// Whether this is a directory of any kind.
    pub fn is_directory(&self) -> bool
        ensures { result ≡ is_directory (body_of self.now) }
    {
        matches!(
            self,
            Content::Dir | Content::Semantic { .. } | Content::Mount { .. }
        )
    }

    /// Whether this can be linked: a file or a document.
    pub fn is_linkable(&self) -> bool
        ensures { result ≡ is_linkable (body_of self.now) }
    {
        matches!(self, Content::File { .. } | Content::Document)
    }

    /// The query of a directory, where it has one.
    pub fn query(&self) -> Option<&Query<Number>>
        ensures { option_copied result ≡ query_in (body_of self.now) }
    {
        match self {
            Content::Semantic { query, .. } => Some(query),
            _ => None,
        }
    }

    /// The space that a mount shows.
    pub fn space(&self) -> Option<&Name>
        ensures { option_copied result ≡ space_in (body_of self.now) }
    {
        match self {
            Content::Mount { space } => Some(space),
            _ => None,
        }
    }

    /// Where a symbolic link leads.
    pub fn target(&self) -> Option<&Target>
        ensures { option_copied result ≡ target_in (body_of self.now) }
    {
        match self {
            Content::Symlink(target) => Some(target),
            _ => None,
        }
    }

    /// Replaces the text of a file. What was shown stays shown.
    pub fn set_text(&mut self, new: Text)
        ensures { body_of self.new ≡ rewritten new (body_of self.old) }
    {
        if let Content::File { text, dirty, shown } = self {
            let old = mem::replace(text, new);
            *dirty = true;
            if matches!(shown, Shown::AsItIs) {
                *shown = Shown::Older(old);
            }
        }
    }

    /// Gives a directory a query.
    pub fn set_query(&mut self, new: Query<Number>)
        ensures { body_of self.new ≡ asking new (body_of self.old) }
    {
        match self {
            Content::Semantic { query } => *query = new,
            Content::Dir => *self = Content::Semantic { query: new },
            _ => {}
        }
    }

    /// Makes a semantic directory a plain one.
    pub fn clear_query(&mut self)
        ensures { body_of self.new ≡ plain_body (body_of self.old) }
    {
        if matches!(self, Content::Semantic { .. }) {
            *self = Content::Dir;
        }
    }

    /// Shows the text of a file.
    pub fn show_text(&mut self)
        ensures { body_of self.new ≡ indexed (body_of self.old) }
    {
        if let Content::File { dirty, shown, .. } = self {
            *dirty = false;
            *shown = Shown::AsItIs;
        }
    }
}

/// The node of a number.
pub(crate) fn node_at(nodes: &Nodes, number: Number) -> Option<&Node>
    ensures { option_copied result ≡ get nat_eq nodes.now number }
{
    nodes.get(&number.get())
}

/// The node of a number, where it is an entry.
pub fn entry_at(nodes: &Nodes, number: Number) -> Option<&Node>
    ensures { option_copied result ≡ placed_at nodes.now number }
{
    let node = node_at(nodes, number)?;
    if node.placed { Some(node) } else { None }
}

/// The numbers of the nodes that are entries, in the order of the map.
pub fn placed_numbers(alloc: Global, nodes: &Nodes) -> Result<Vec<Number>, Memory>
    ensures numbers { IfOk result (λ numbers. numbers.items ≡ placed_in nodes.now.entries) }
    ensures unique { IsUnique nat_eq nodes.now }
{
    let mut numbers = Vec::with_capacity(alloc, nodes.len())?;
    for (number, node) in nodes.iter() {
        if node.placed {
            numbers.push(Number::new(*number))?;
        }
    }
    Ok(numbers)
}

/// The name of a node.
pub(crate) fn name_at(nodes: &Nodes, number: Number) -> &[u8]
    ensures { result.now ≡ name_of nodes.now number }
{
    match node_at(nodes, number) {
        Some(node) => node.name.as_bytes(),
        None => &[],
    }
}

/// The entries of a directory.
pub fn children_at(nodes: &Nodes, dir: Number) -> Items<'_>
    ensures { result ≡ kids_of nodes.now dir }
{
    match node_at(nodes, dir) {
        Some(node) => node.children.items(),
        None => Items::from_slice(&[]),
    }
}

/// Puts a node that is no entry under a number that has none.
pub fn prepare(alloc: Global, nodes: &mut Nodes, number: Number) -> Result<(), Memory>
    requires free { entry_of nodes.old number ≡ None }
    requires bare { kids_of nodes.old number ≡ [] }
    ensures there { OnOk result (IsTrue (has_node nodes.new number)) }
    ensures others { (q : ℕ) → nat_eq number q ≡ false →
        has_node nodes.new q ≡ has_node nodes.old q }
    ensures entries { (q : ℕ) → entry_of nodes.new q ≡ entry_of nodes.old q }
    ensures names { (q : ℕ) → nat_eq number q ≡ false → name_of nodes.new q ≡ name_of nodes.old q }
    ensures kids { (q : ℕ) → kids_of nodes.new q ≡ kids_of nodes.old q }
{
    let node = Node {
        placed: false,
        parent: Number::ROOT,
        name: Name::new(Vec::new(alloc)),
        content: Content::Dir,
        children: TieredList::new(alloc),
    };
    nodes.insert(number.get(), node)?;
    Ok(())
}

/// Makes the node of a number an entry.
pub fn put(nodes: &mut Nodes, number: Number, parent: Number, name: Name, content: Content)
    requires { IsTrue (has_node nodes.old number) }
    ensures { AreRead (has_node nodes.old)
        (set_at number (Some (record {
          number = number;
          parent = parent;
          name = name;
          body = body_of content;
        })) (entry_of nodes.old))
        (set_at number name (name_of nodes.old)) (kids_of nodes.old) nodes.new }
{
    if let Some(node) = nodes.get_mut(&number.get()) {
        node.placed = true;
        node.parent = parent;
        node.name = name;
        node.content = content;
    }
}

/// Gives an entry another place.
pub fn reseat(nodes: &mut Nodes, number: Number, dir: Number, new_name: Name)
    requires { IsSome (entry_of nodes.old number) }
    ensures { AreRead (has_node nodes.old)
        (edited_at number (reseated dir new_name) (entry_of nodes.old))
        (set_at number new_name (name_of nodes.old)) (kids_of nodes.old) nodes.new }
{
    if let Some(node) = nodes.get_mut(&number.get()) {
        node.parent = dir;
        node.name = new_name;
    }
}

/// Removes a node.
pub fn take_out(nodes: &mut Nodes, number: Number)
    ensures { TakesOut (nat_eq number) nodes.old nodes.new }
{
    nodes.swap_remove(&number.get());
}

/// Gives a directory the list of its entries, in place of its old one, which is given back.
pub fn put_children(nodes: &mut Nodes, dir: Number, children: &mut TieredList)
    requires { IsTrue (has_node nodes.old dir) }
    ensures list { HasList dir children.old.items nodes.old nodes.new }
    ensures given { children.new.items ≡ kids_of nodes.old dir }
{
    if let Some(node) = nodes.get_mut(&dir.get()) {
        mem::swap(&mut node.children, children);
    }
}

/// Makes a place for one more in the list of a directory's entries, unless there is one.
pub fn reserve_child(nodes: &mut Nodes, dir: Number) -> Result<(), Memory>
    requires { IsTrue (has_node nodes.old dir) }
    ensures place { OnOk result (0 < spare_of nodes.new dir) }
    ensures same { AreSame nodes.old nodes.new }
{
    if let Some(node) = nodes.get_mut(&dir.get()) {
        node.children.reserve()?;
    }
    Ok(())
}

/// Inserts a number into the list of a directory's entries, which has a place for one more.
pub(crate) fn insert_child(nodes: &mut Nodes, dir: Number, place: usize, number: Number)
    requires spare { 0 < spare_of nodes.old dir }
    requires place { place ≤ length (kids_of nodes.old dir) }
    ensures { HasList dir (insert (kids_of nodes.old dir) place number) nodes.old nodes.new }
{
    if let Some(node) = nodes.get_mut(&dir.get()) {
        node.children.insert(place, number);
    }
}

/// Removes a place from the list of a directory's entries.
pub fn drop_child(nodes: &mut Nodes, dir: Number, place: usize)
    requires { place < length (kids_of nodes.old dir) }
    ensures list { HasList dir (remove (kids_of nodes.old dir) place) nodes.old nodes.new }
    ensures spare { (q : ℕ) → 0 < spare_of nodes.old q → 0 < spare_of nodes.new q }
{
    if let Some(node) = nodes.get_mut(&dir.get()) {
        node.children.remove(place);
    }
}

/// Replaces the text of a file.
pub fn set_text(nodes: &mut Nodes, file: Number, text: Text)
    ensures { ChangesEntry file (edited (rewritten text)) nodes.old nodes.new }
{
    if let Some(node) = nodes.get_mut(&file.get()) {
        node.content.set_text(text);
    }
}

/// Shows the text of a file.
pub fn show_text(nodes: &mut Nodes, file: Number)
    ensures { ChangesEntry file (edited indexed) nodes.old nodes.new }
{
    if let Some(node) = nodes.get_mut(&file.get()) {
        node.content.show_text();
    }
}

/// Gives a directory a query.
pub fn set_query(nodes: &mut Nodes, dir: Number, query: Query<Number>)
    ensures { ChangesEntry dir (edited (asking query)) nodes.old nodes.new }
{
    if let Some(node) = nodes.get_mut(&dir.get()) {
        node.content.set_query(query);
    }
}

/// Makes a semantic directory a plain one.
pub fn clear_query(nodes: &mut Nodes, dir: Number)
    ensures { ChangesEntry dir (edited plain_body) nodes.old nodes.new }
{
    if let Some(node) = nodes.get_mut(&dir.get()) {
        node.content.clear_query();
    }
}
