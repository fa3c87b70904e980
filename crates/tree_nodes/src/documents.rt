//! The nodes of documents, many at once. Nothing here knows how they fit together.
ghost use Rattle.std.specs.Prelude.{◌≡◌, ℕ, ◌+◌, ◌<◌, ◌≤◌, ◌^◌, ◌∷◌, ◌++◌, [], None, nat_eq};
ghost use Rattle.std.specs.Prelude.{length, ◌&&◌, is_none, IfOk, IsTrue, OnOk};
ghost use Rattle.hac_model.specs.Tree.Depends.{Among};
ghost use Rattle.tree_nodes.specs.Documents.{PutsDocuments, is_dropped, numbers_from, numbers_up};
ghost use Rattle.tree_nodes.specs.Documents.{unknown_in};
ghost use Rattle.tree_nodes.specs.Nodes.{TakesOut, entry_of, has_node, kids_of, name_of};
ghost use Rattle.tree_nodes.specs.Search.{NamesRise, first_named};

use crate::nodes::{self, Content, Nodes, name_at};
use crate::searching::named;
use hac_model::{Memory, Name, Number, Seq};
use std::alloc::Global;
use tiered_list::{Items, TieredList};

/// Puts nodes that are no entries under numbers that have none.
pub fn prepare_nodes(alloc: Global, nodes: &mut Nodes, first: u64, end: u64) -> Result<(), Memory>
    requires free { (q : ℕ) → first ≤ q → entry_of nodes.old q ≡ None }
    requires bare { (q : ℕ) → first ≤ q → kids_of nodes.old q ≡ [] }
    ensures there { OnOk result ((q : ℕ) → first ≤ q → q < end → IsTrue (has_node nodes.new q)) }
    ensures others { (q : ℕ) → q < first → has_node nodes.new q ≡ has_node nodes.old q }
    ensures few { (q : ℕ) → end ≤ q → has_node nodes.new q ≡ has_node nodes.old q }
    ensures entries { (q : ℕ) → entry_of nodes.new q ≡ entry_of nodes.old q }
    ensures names { (q : ℕ) → q < first → name_of nodes.new q ≡ name_of nodes.old q }
    ensures kids { (q : ℕ) → kids_of nodes.new q ≡ kids_of nodes.old q }
{
    for number in first..end {
        nodes::prepare(alloc, nodes, Number::new(number))?;
    }
    Ok(())
}

/// Puts nodes that are no entries under the number of a mount and under those of so many documents,
/// which follow, and lists these.
pub fn prepare_documents(
    alloc: Global,
    nodes: &mut Nodes,
    list: &mut TieredList,
    mount: Number,
    count: u64,
) -> Result<(), Memory>
    requires free { (q : ℕ) → mount ≤ q → entry_of nodes.old q ≡ None }
    requires bare { (q : ℕ) → mount ≤ q → kids_of nodes.old q ≡ [] }
    requires small { mount + 1 + count < 2 ^ 64 }
    ensures list { OnOk result (list.new.items ≡ numbers_up (mount + 1) count) }
    ensures there { OnOk result
        ((q : ℕ) → mount ≤ q → q < mount + 1 + count → IsTrue (has_node nodes.new q)) }
    ensures others { (q : ℕ) → q < mount → has_node nodes.new q ≡ has_node nodes.old q }
    ensures few { (q : ℕ) → mount + 1 + count ≤ q → has_node nodes.new q ≡ has_node nodes.old q }
    ensures entries { (q : ℕ) → entry_of nodes.new q ≡ entry_of nodes.old q }
    ensures names { (q : ℕ) → q < mount → name_of nodes.new q ≡ name_of nodes.old q }
    ensures kids { (q : ℕ) → kids_of nodes.new q ≡ kids_of nodes.old q }
{
    let first = mount.get() + 1;
    prepare_nodes(alloc, nodes, mount.get(), first + count)?;
    *list = TieredList::from_vec(alloc, numbers_up(alloc, first, count)?);
    Ok(())
}

/// So many numbers from one on.
fn numbers_up(alloc: Global, first: u64, count: u64) -> Result<Vec<Number>, Memory>
    requires { first + count < 2 ^ 64 }
    ensures { IfOk result (λ numbers. numbers.items ≡ numbers_up first count) }
{
    let mut numbers = Vec::new(alloc);
    for place in 0..count {
        numbers.push(Number::new(first + place))?;
    }
    Ok(numbers)
}

/// Lists the numbers of names: those of the known ones that have them, and for others the numbers
/// from `first` on. The number behind these is answered.
pub fn list_numbers(
    nodes: &Nodes,
    known: &Items,
    first: u64,
    names: &[Name],
    numbers: &mut Vec<Number>,
) -> Result<u64, Memory>
    requires rise { NamesRise (name_of nodes.now) known.now }
    requires few { first + length names.now < 2 ^ 64 }
    ensures numbers { OnOk result (numbers.new.items ≡ numbers.old.items ++
        numbers_from (first_named (name_of nodes.now) known.now) first names.now) }
    ensures next { IfOk result (λ next. next ≡
        first + length (unknown_in nodes.now known.now names.now)) }
{
    let mut next = first;
    for name in names {
        let number = match named(nodes, known, name.as_bytes()) {
            Some(number) => number,
            None => {
                next += 1;
                Number::new(next - 1)
            }
        };
        numbers.push(number)?;
    }
    Ok(next)
}

/// Makes documents of a mount of the prepared nodes from `first` on, one for each of the names that
/// no known document has. The number behind them is answered.
pub fn put_unknown(
    nodes: &mut Nodes,
    known: &Items,
    mount: Number,
    first: Number,
    names: Seq<Name>,
) -> Number
    requires rise { NamesRise (name_of nodes.old) known.now }
    requires low { (q : ℕ) → Among known.now q → q < first }
    requires there { (q : ℕ) → first ≤ q →
        q < first + length (unknown_in nodes.old known.now names) → IsTrue (has_node nodes.old q) }
    requires few { first + length (unknown_in nodes.old known.now names) < 2 ^ 64 }
    ensures next { result ≡ first + length (unknown_in nodes.old known.now names) }
    ensures put { PutsDocuments first mount (unknown_in nodes.old known.now names)
        nodes.old nodes.new }
{
    let mut next = first;
    for name in names.into_vec() {
        next = put_if_unknown(nodes, known, mount, next, name);
    }
    next
}

/// Makes the prepared node a document of a mount, unless a known document has the name.
fn put_if_unknown(
    nodes: &mut Nodes,
    known: &Items,
    mount: Number,
    next: Number,
    name: Name,
) -> Number
    requires rise { NamesRise (name_of nodes.old) known.now }
    requires there { first_named (name_of nodes.old) known.now name ≡ None →
        IsTrue (has_node nodes.old next) }
    requires few { first_named (name_of nodes.old) known.now name ≡ None → next + 1 < 2 ^ 64 }
    ensures next { result ≡ next + length (unknown_in nodes.old known.now (name ∷ [])) }
    ensures put { PutsDocuments next mount (unknown_in nodes.old known.now (name ∷ []))
        nodes.old nodes.new }
{
    match named(nodes, known, name.as_bytes()) {
        Some(_) => next,
        None => {
            nodes::put(nodes, next, mount, name, Content::Document);
            Number::new(next.get() + 1)
        }
    }
}

/// Takes out those of the numbers whose names nothing has that is kept.
pub fn take_dropped(nodes: &mut Nodes, numbers: &Items, kept: &Items)
    requires rise { NamesRise (name_of nodes.old) numbers.now }
    requires kept_rise { NamesRise (name_of nodes.old) kept.now }
    ensures { TakesOut (is_dropped (name_of nodes.old) numbers.now kept.now) nodes.old nodes.new }
{
    for place in 0..numbers.len() {
        take_if_dropped(nodes, numbers.at(place), kept);
    }
}

/// Takes out a number, unless something has its name that is kept.
fn take_if_dropped(nodes: &mut Nodes, number: Number, kept: &Items)
    requires { NamesRise (name_of nodes.old) kept.now }
    ensures { TakesOut (λ q. nat_eq number q && is_none (first_named (name_of nodes.old) kept.now
        (name_of nodes.old number))) nodes.old nodes.new }
{
    if named(nodes, kept, name_at(nodes, number)).is_none() {
        nodes::take_out(nodes, number);
    }
}
