//! Names among numbers that are in order of their names.
ghost use Rattle.std.specs.Prelude.{◌≡◌, ◌≤◌, length};
ghost use Rattle.tree_nodes.specs.Nodes.{name_of};
ghost use Rattle.tree_nodes.specs.Search.{NamesRise, first_named, rank_in};

use crate::nodes::{Nodes, name_at};
use hac_model::Number;
use sorted_lists::is_before;
use tiered_list::Items;

/// How many of the numbers have names before this one.
pub(crate) fn rank(nodes: &Nodes, numbers: &Items, name: &[u8]) -> usize
    ensures within { result ≤ length numbers.now }
    ensures rank { NamesRise (name_of nodes.now) numbers.now →
        result ≡ rank_in (name_of nodes.now) name.now numbers.now }
{
    let mut low = 0;
    let mut high = numbers.len();
    'halves: while low < high {
        let middle = low + (high - low) / 2;
        if is_before(name_at(nodes, numbers.at(middle)), name) {
            low = middle + 1;
        } else {
            high = middle;
        }
    }
    low
}

/// The one of the numbers that has the name.
pub fn named(nodes: &Nodes, numbers: &Items, name: &[u8]) -> Option<Number>
    ensures { NamesRise (name_of nodes.now) numbers.now →
        result ≡ first_named (name_of nodes.now) numbers.now name.now }
{
    let place = rank(nodes, numbers, name);
    if place == numbers.len() {
        return None;
    }
    let number = numbers.at(place);
    if name_at(nodes, number) == name {
        Some(number)
    } else {
        None
    }
}
