//! Places of entries in the lists of their directories.
ghost use Rattle.std.specs.Prelude.{◌≡◌, ◌<◌, nat_eq, ℕ, insert, if◌then◌else◌, Some, IsSome};
ghost use Rattle.tree_nodes.specs.Nodes.{entry_of, has_node, kids_of, name_of, parent_in, spare_of};
ghost use Rattle.tree_nodes.specs.Search.{NamesRise, rank_in};

use crate::nodes::{Nodes, children_at, entry_at, insert_child, name_at};
use crate::searching::rank;
use hac_model::Number;

/// Inserts a number, which is to have the name, into the list of a directory's entries. The list
/// has a place for one more.
pub fn insert_named(nodes: &mut Nodes, dir: Number, name: &[u8], number: Number)
    requires { 0 < spare_of nodes.old dir }
    ensures numbers { (q : ℕ) → has_node nodes.new q ≡ has_node nodes.old q }
    ensures entries { (q : ℕ) → entry_of nodes.new q ≡ entry_of nodes.old q }
    ensures names { (q : ℕ) → name_of nodes.new q ≡ name_of nodes.old q }
    ensures kids { NamesRise (name_of nodes.old) (kids_of nodes.old dir) → (q : ℕ) →
        kids_of nodes.new q ≡ if nat_eq dir q then insert (kids_of nodes.old dir)
        (rank_in (name_of nodes.old) name.now (kids_of nodes.old dir)) number else kids_of nodes.old
        q }
{
    let place = rank(nodes, &children_at(nodes, dir), name);
    insert_child(nodes, dir, place, number);
}

/// The directory of an entry.
pub fn parent_at(nodes: &Nodes, entry: Number) -> Number
    requires { IsSome (entry_of nodes.now entry) }
    ensures { parent_in (entry_of nodes.now entry) ≡ Some result }
{
    match entry_at(nodes, entry) {
        Some(node) => node.parent,
        None => unreachable!(),
    }
}

/// The place of an entry in the list of its directory.
pub fn place_at(nodes: &Nodes, dir: Number, entry: Number) -> usize
    ensures { NamesRise (name_of nodes.now) (kids_of nodes.now dir) →
        result ≡ rank_in (name_of nodes.now) (name_of nodes.now entry) (kids_of nodes.now dir) }
{
    rank(nodes, &children_at(nodes, dir), name_at(nodes, entry))
}
