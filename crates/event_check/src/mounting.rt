//! Whether a space can be mounted and a mount be synced, with what the space told.
ghost use Rattle.std.specs.Prelude.{◌≡◌, ◌&&◌, IfOk, IsTrue, length};
ghost use Rattle.std.specs.List.{list_all};
ghost use Rattle.hac_model.specs.Script.SpaceNames.{is_space_name};
ghost use Rattle.hac_model.specs.Tree.{is_mount_at};
ghost use Rattle.hac_model.specs.Tree.Events.{is_free, may_mount, may_sync};
ghost use Rattle.hac_model.specs.Tree.Mounting.{are_documents, are_documents_few, do_names_rise};
ghost use Rattle.hac_model.specs.Tree.Mounting.{fresh};
ghost use Rattle.event_check.specs.Mounting.{are_told_by, is_kept_document, is_one_of};
ghost use Rattle.event_check.specs.Mounting.{is_told_by, will_have};

use crate::fitting::is_free;
use crate::telling::are_documents;
use file_tree::Tree;
use hac_model::{Memory, Name, Number, Seq};
use hac_names::is_space_name;
use kept_state::KeptState;
use sorted_lists::{has_name, numbers_rise};
use std::alloc::Global;

/// Whether a space with these documents can be mounted, and what was told of each term in use are
/// some of them.
pub fn may_mount(
    alloc: Global,
    kept: &KeptState,
    dir: Number,
    name: &Name,
    space: &Name,
    documents: &Seq<Name>,
    told: &Seq<Seq<Number>>,
) -> Result<bool, Memory>
    ensures { IfOk result (λ may. may
        ≡ may_mount kept.now.state dir name.now space.now documents.now told.now) }
{
    let tree = kept.tree();
    let names = documents.as_slice();
    if !may_come(tree, dir, name, space, names) {
        return Ok(false);
    }
    let mount = tree.next_number();
    let coming = Coming {
        mount,
        first: Number::new(mount.get() + 1),
        count: names.len() as u64,
    };
    let terms = kept.terms_to_ask(alloc)?;
    Ok(are_told(
        tree,
        names,
        &coming,
        terms.as_slice().len(),
        told.as_slice(),
    ))
}

/// Whether a mount can take over these documents, and what was told of each term in use are some of
/// them.
pub fn may_sync(
    alloc: Global,
    kept: &KeptState,
    mount: Number,
    documents: &Seq<Name>,
    told: &Seq<Seq<Number>>,
) -> Result<bool, Memory>
    ensures { IfOk result (λ may. may ≡ may_sync kept.now.state mount documents.now told.now) }
{
    let tree = kept.tree();
    let names = documents.as_slice();
    if !may_change(tree, mount, names) {
        return Ok(false);
    }
    let coming = Coming {
        mount,
        first: tree.next_number(),
        count: fresh_count(tree, mount, names) as u64,
    };
    let terms = kept.terms_to_ask(alloc)?;
    Ok(are_told(
        tree,
        names,
        &coming,
        terms.as_slice().len(),
        told.as_slice(),
    ))
}

/// Whether a mount of a space can come with these documents, what was told aside.
fn may_come(tree: &Tree, dir: Number, name: &Name, space: &Name, names: &[Name]) -> bool
    ensures { result ≡ is_free tree.now.state dir name.now && is_space_name space.now
        && are_documents names.now && are_documents_few tree.now.state.version names.now }
{
    is_free(tree, dir, name)
        && is_space_name(space.as_bytes())
        && are_documents(names)
        && are_few(tree, names)
}

/// Whether there is a mount that can have these documents.
fn may_change(tree: &Tree, mount: Number, names: &[Name]) -> bool
    ensures { result ≡ (is_mount_at tree.now.state.entries mount && are_documents names.now
        && are_documents_few tree.now.state.version names.now) }
{
    tree.is_mount(mount) && are_documents(names) && are_few(tree, names)
}

/// Whether a mount may have so many documents.
fn are_few(tree: &Tree, names: &[Name]) -> bool
    ensures { result ≡ are_documents_few tree.now.state.version names.now }
{
    names.len() as u64 <= tree.version().docs_limit()
}

/// New documents of a mount.
#[derive(Debug, Drop)]
struct Coming {
    /// The mount.
    mount: Number,
    /// The number of the first of them.
    first: Number,
    /// How many they are.
    count: u64,
}

/// Whether so many lists were told, each of documents that a mount will have.
fn are_told(
    tree: &Tree,
    names: &[Name],
    coming: &Coming,
    count: usize,
    told: &[Seq<Number>],
) -> bool
    requires { IsTrue (do_names_rise names.now) }
    ensures { result ≡ are_told_by (will_have tree.now.state names.now coming.now) count told.now }
{
    told.len() == count && each_told(tree, names, coming, told)
}

fn each_told(tree: &Tree, names: &[Name], coming: &Coming, told: &[Seq<Number>]) -> bool
    requires { IsTrue (do_names_rise names.now) }
    ensures { result
        ≡ list_all (is_told_by (will_have tree.now.state names.now coming.now)) told.now }
{
    for numbers in told {
        if !is_told(tree, names, coming, numbers.as_slice()) {
            return false;
        }
    }
    true
}

/// Whether a list names documents that a mount will have, each once.
fn is_told(tree: &Tree, names: &[Name], coming: &Coming, numbers: &[Number]) -> bool
    requires { IsTrue (do_names_rise names.now) }
    ensures { result ≡ is_told_by (will_have tree.now.state names.now coming.now) numbers.now }
{
    numbers_rise(numbers) && will_have_all(tree, names, coming, numbers)
}

fn will_have_all(tree: &Tree, names: &[Name], coming: &Coming, numbers: &[Number]) -> bool
    requires { IsTrue (do_names_rise names.now) }
    ensures { result ≡ list_all (will_have tree.now.state names.now coming.now) numbers.now }
{
    for number in numbers {
        if !will_have(tree, names, coming, *number) {
            return false;
        }
    }
    true
}

/// Whether a mount will have a document: one that it keeps, or a new one.
fn will_have(tree: &Tree, names: &[Name], coming: &Coming, number: Number) -> bool
    requires { IsTrue (do_names_rise names.now) }
    ensures { result ≡ will_have tree.now.state names.now coming.now number }
{
    keeps_document(tree, names, coming.mount, number) || is_one_of(coming, number)
}

/// Whether a document of a mount has one of the names.
fn keeps_document(tree: &Tree, names: &[Name], mount: Number, number: Number) -> bool
    requires { IsTrue (do_names_rise names.now) }
    ensures { result ≡ is_kept_document tree.now.state mount names.now number }
{
    tree.is_document(number)
        && tree.parent(number) == mount
        && has_name(names, tree.name_of(number))
}

/// Whether a number is that of a new document.
fn is_one_of(coming: &Coming, number: Number) -> bool
    ensures { result ≡ is_one_of coming.now.first coming.now.count number }
{
    let first = coming.first.get();
    let number = number.get();
    first <= number && number - first < coming.count
}

/// How many of the names no entry of a mount has.
fn fresh_count(tree: &Tree, mount: Number, names: &[Name]) -> usize
    ensures { result ≡ length (fresh tree.now.state mount names.now) }
{
    let mut count = 0;
    for name in names {
        if tree.child(mount, name).is_none() {
            count += 1;
        }
    }
    count
}
