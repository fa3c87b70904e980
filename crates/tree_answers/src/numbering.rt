//! Numbers of documents, found by the names that spaces answer with.
ghost use Rattle.std.specs.Prelude.{◌≡◌, ◌<◌, ◌^◌, List, ℕ, IfOk, IsTrue, OnOk, [], length};
ghost use Rattle.hac_model.specs.Run.Asks.{documents_named};
ghost use Rattle.hac_model.specs.Spaces.Answering.{AreRisingNames};
ghost use Rattle.hac_model.specs.Tree.{is_mount_at};
ghost use Rattle.hac_model.specs.Tree.Mounting.{mounted, synced};
ghost use Rattle.hac_model.specs.Tree.Valid.{RiseFrom};
ghost use Rattle.tree_answers.specs.Numbering.{document_with, listed_with, numbered_by};
ghost use Rattle.tree_answers.specs.Numbering.{numbers_of, put_found, put_number};

use file_tree::Tree;
use hac_model::{Memory, Name, Number, Seq};
use std::alloc::Global;

/// The documents of a mount that have one of these names, in order of number. Other names count for
/// nothing.
pub(crate) fn documents_named(
    alloc: Global,
    tree: &Tree,
    mount: Number,
    names: &[Name],
) -> Result<Seq<Number>, Memory>
    ensures { IfOk result (λ numbers. numbers ≡ documents_named tree.now.state mount names.now) }
{
    tree.know_layout();
    let mut numbers = Vec::new(alloc);
    'names: for name in names {
        put_found(&mut numbers, document_with(tree, mount, name))?;
    }
    Ok(Seq::new(numbers))
}

/// The same of a mount that comes: it takes the next number, and its documents have the names of
/// `list` and the numbers behind it.
pub(crate) fn mounted_named(
    alloc: Global,
    tree: &Tree,
    list: &[Name],
    names: &[Name],
) -> Result<Seq<Number>, Memory>
    requires { AreRisingNames list.now }
    ensures { (dir : ℕ) (name space : List ℕ) → IfOk result (λ numbers. numbers
        ≡ documents_named (mounted tree.now.state dir name space [] list.now)
        tree.now.state.next names.now) }
{
    let mount = tree.next_number();
    let numbers = numbers_of(alloc, tree, mount, mount.get() + 1, list)?;
    numbered(alloc, list, numbers.as_slice(), names)
}

/// The same of a mount once it has the documents of `list`.
pub(crate) fn synced_named(
    alloc: Global,
    tree: &Tree,
    mount: Number,
    list: &[Name],
    names: &[Name],
) -> Result<Seq<Number>, Memory>
    requires mount { IsTrue (is_mount_at tree.now.state.entries mount) }
    requires list { AreRisingNames list.now }
    ensures { IfOk result (λ numbers. numbers
        ≡ documents_named (synced tree.now.state mount [] list.now) mount names.now) }
{
    let numbers = numbers_of(alloc, tree, mount, tree.next_number().get(), list)?;
    numbered(alloc, list, numbers.as_slice(), names)
}

/// The document of a mount that has this name.
fn document_with(tree: &Tree, mount: Number, name: &Name) -> Option<Number>
    ensures { result ≡ document_with tree.now.state.entries mount name.now }
{
    tree.know_layout();
    let number = tree.child(mount, name)?;
    if tree.is_document(number) {
        Some(number)
    } else {
        None
    }
}

/// The numbers of documents of these names: what a mount has under a name keeps its own, and the
/// others take numbers from the first on.
fn numbers_of(
    alloc: Global,
    tree: &Tree,
    mount: Number,
    first: u64,
    list: &[Name],
) -> Result<Vec<Number>, Memory>
    requires { first < 2 ^ 63 }
    ensures { IfOk result (λ numbers. numbers.items
        ≡ numbers_of tree.now.state.entries mount first list.now) }
{
    let mut next = first;
    let mut numbers = Vec::new(alloc);
    'names: for name in list {
        match tree.child(mount, name) {
            Some(number) => numbers.push(number)?,
            None => {
                numbers.push(Number::new(next))?;
                next += 1;
            }
        }
    }
    Ok(numbers)
}

/// The numbers that a list has for these names, in order, each once.
fn numbered(
    alloc: Global,
    list: &[Name],
    numbers: &[Number],
    names: &[Name],
) -> Result<Seq<Number>, Memory>
    requires list { AreRisingNames list.now }
    requires even { length numbers.now ≡ length list.now }
    ensures { IfOk result (λ found. found
        ≡ numbered_by (listed_with list.now numbers.now) [] names.now) }
{
    let mut found = Vec::new(alloc);
    'names: for name in names {
        put_found(&mut found, listed_with(list, numbers, name))?;
    }
    Ok(Seq::new(found))
}

/// The number that a list has for a name.
fn listed_with(list: &[Name], numbers: &[Number], name: &Name) -> Option<Number>
    requires list { AreRisingNames list.now }
    requires even { length numbers.now ≡ length list.now }
    ensures { result ≡ listed_with list.now numbers.now name.now }
{
    match list.binary_search(name) {
        Ok(at) => Some(numbers[at]),
        Err(_) => None,
    }
}

/// Puts a number, if one was found, into its place among numbers that rise, unless it is there.
fn put_found(numbers: &mut Vec<Number>, found: Option<Number>) -> Result<(), Memory>
    requires { RiseFrom 0 numbers.old.items }
    ensures { OnOk result (numbers.new.items ≡ put_found found numbers.old.items) }
{
    match found {
        Some(number) => put_number(numbers, number),
        None => Ok(()),
    }
}

/// Puts a number into its place among numbers that rise, unless it is there.
fn put_number(numbers: &mut Vec<Number>, number: Number) -> Result<(), Memory>
    requires { RiseFrom 0 numbers.old.items }
    ensures { OnOk result (numbers.new.items ≡ put_number number numbers.old.items) }
{
    if let Err(place) = numbers.as_slice().binary_search(&number) {
        numbers.insert(place, number)?;
    }
    Ok(())
}
