//! What is stored of a state that is kept. The state stays as it is: all is copied.
ghost use Rattle.std.specs.Prelude.{◌≡◌, ◌++◌, IfOk, IsSome, IsTrue, OnOk, Some};
ghost use Rattle.std.specs.List.{flat_map};
ghost use Rattle.std.specs.Option.{option_copied, option_map};
ghost use Rattle.hac_model.specs.Payload.States.{snapshot_of, stored_entry};
ghost use Rattle.hac_model.specs.Tree.Links.{is_semantic};
ghost use Rattle.hac_model.specs.Tree.{body_at, entry_at, is_file_at, is_mount_at, is_symlink_at};
ghost use Rattle.set_pool.specs.Rising.{first_from};
ghost use Rattle.snapshots.specs.Taking.{document_at, documents_of, marked_at, stored_at};

use crate::loading::copies;
use file_tree::Tree;
use hac_model::{
    Body, Document, Entry, EntryKind, Kind, Memory, Node, Number, Query, Seq, Snapshot,
    StoredEntry, Text,
};
use kept_state::KeptState;
use std::alloc::Global;
use tiered_list::Items;

/// What is stored of a state. Where its sessions stand is left out. It copies the texts.
pub fn snapshot(alloc: Global, kept: &KeptState) -> Result<Snapshot, Memory>
    ensures { IfOk result (λ snapshot. snapshot ≡ snapshot_of kept.now.state) }
{
    let entries = stored_entries(alloc, kept)?;
    let tree = kept.tree();
    Ok(Snapshot {
        version: tree.version(),
        next: tree.next_number(),
        entries: Seq::new(entries),
    })
}

/// The entries but the documents, in order of number.
fn stored_entries(alloc: Global, kept: &KeptState) -> Result<Vec<StoredEntry>, Memory>
    ensures { IfOk result (λ entries. entries.items ≡ (snapshot_of kept.now.state).entries) }
{
    kept.know_valid();
    let mut entries = Vec::new(alloc);
    for number in kept.numbers(alloc)? {
        push_stored(alloc, &mut entries, kept, number)?;
    }
    Ok(entries)
}

/// Adds what is stored of a number: nothing where it is no entry's, or a document's.
fn push_stored(
    alloc: Global,
    entries: &mut Vec<StoredEntry>,
    kept: &KeptState,
    number: Number,
) -> Result<(), Memory>
    ensures { OnOk result (entries.new.items
        ≡ entries.old.items ++ stored_at kept.now.state number) }
{
    let tree = kept.tree();
    if tree.has_entry(number) && !tree.is_document(number) {
        entries.push(stored(alloc, kept, number)?)?;
    }
    Ok(())
}

/// An entry as it is stored.
fn stored(alloc: Global, kept: &KeptState, number: Number) -> Result<StoredEntry, Memory>
    requires { IsSome (entry_at kept.now.state.entries number) }
    ensures { IfOk result (λ stored. option_map (stored_entry kept.now.state)
        (entry_at kept.now.state.entries number) ≡ Some stored) }
{
    let entry = entry(alloc, kept, number)?;
    match documents(alloc, kept, number) {
        Ok(documents) => Ok(StoredEntry {
            entry,
            documents: Seq::new(documents),
        }),
        Err(memory) => {
            drop(entry);
            Err(memory)
        }
    }
}

/// The documents of a mount, in order of their names. What is no mount has none.
fn documents(alloc: Global, kept: &KeptState, mount: Number) -> Result<Vec<Document>, Memory>
    ensures { IfOk result (λ documents. documents.items ≡ documents_of kept.now.state mount) }
{
    let tree = kept.tree();
    tree.know_layout();
    documents_among(alloc, tree, &tree.children(mount))
}

/// The documents that have one of these numbers.
fn documents_among(alloc: Global, tree: &Tree, numbers: &Items) -> Result<Vec<Document>, Memory>
    ensures { IfOk result (λ documents. documents.items
        ≡ flat_map (document_at tree.now.state) numbers.now) }
{
    let mut documents = Vec::new(alloc);
    'numbers: for place in 0..numbers.len() {
        push_document(&mut documents, tree, numbers.at(place))?;
    }
    Ok(documents)
}

/// Adds the document that has a number, if one has it.
fn push_document(documents: &mut Vec<Document>, tree: &Tree, number: Number) -> Result<(), Memory>
    ensures { OnOk result (documents.new.items
        ≡ documents.old.items ++ document_at tree.now.state number) }
{
    if tree.is_document(number) {
        let name = tree.name_of(number).clone()?;
        documents.push(Document { number, name })?;
    }
    Ok(())
}

/// The entry of a number.
fn entry(alloc: Global, kept: &KeptState, number: Number) -> Result<Entry, Memory>
    requires { IsSome (entry_at kept.now.state.entries number) }
    ensures { IfOk result (λ entry. entry_at kept.now.state.entries number ≡ Some entry) }
{
    let tree = kept.tree();
    let parent = tree.parent(number);
    let body = body(alloc, kept, number)?;
    match tree.name_of(number).clone() {
        Ok(name) => Ok(Entry {
            number,
            parent,
            name,
            body,
        }),
        Err(fault) => {
            drop(body);
            Err(fault.into())
        }
    }
}

/// What an entry is.
fn body(alloc: Global, kept: &KeptState, number: Number) -> Result<Body, Memory>
    requires { IsSome (entry_at kept.now.state.entries number) }
    ensures { IfOk result (λ body. body_at kept.now.state.entries number ≡ Some body) }
{
    match kept.tree().kind(number) {
        EntryKind::File => file(alloc, kept, number),
        EntryKind::Dir => Ok(Body::Dir),
        EntryKind::Symlink => symlink(alloc, kept, number),
        EntryKind::Semantic => semantic(alloc, kept, number),
        EntryKind::Mount => mount(alloc, kept, number),
        EntryKind::Document => Ok(Body::Document),
    }
}

fn file(alloc: Global, kept: &KeptState, file: Number) -> Result<Body, Memory>
    requires { IsTrue (is_file_at kept.now.state.entries file) }
    ensures { IfOk result (λ body. body_at kept.now.state.entries file ≡ Some body) }
{
    let tree = kept.tree();
    let dirty = tree.dirty(file);
    let text = text(alloc, tree.text(file))?;
    match shown(alloc, tree.shown(file)) {
        Ok(shown) => Ok(Body::File { text, dirty, shown }),
        Err(memory) => {
            drop(text);
            Err(memory)
        }
    }
}

/// The text as it was last indexed, if it ever was.
fn shown(alloc: Global, bytes: Option<&[u8]>) -> Result<Option<Text>, Memory>
    ensures { IfOk result (λ shown. shown ≡ option_copied bytes.entry) }
{
    match bytes {
        Some(bytes) => Ok(Some(text(alloc, bytes)?)),
        None => Ok(None),
    }
}

fn text(alloc: Global, bytes: &[u8]) -> Result<Text, Memory>
    ensures { IfOk result (λ text. text ≡ bytes.now) }
{
    Ok(Seq::new(Vec::from_slice(alloc, bytes)?))
}

fn symlink(alloc: Global, kept: &KeptState, link: Number) -> Result<Body, Memory>
    requires { IsTrue (is_symlink_at kept.now.state.entries link) }
    ensures { IfOk result (λ body. body_at kept.now.state.entries link ≡ Some body) }
{
    let Some(target) = kept.tree().target(link) else {
        unreachable!();
    };
    let target = text(alloc, target.as_slice())?;
    Ok(Body::Symlink { target })
}

fn semantic(alloc: Global, kept: &KeptState, dir: Number) -> Result<Body, Memory>
    requires { IsTrue (is_semantic kept.now.state dir) }
    ensures { IfOk result (λ body. body_at kept.now.state.entries dir ≡ Some body) }
{
    let Some(query) = kept.tree().query(dir) else {
        unreachable!();
    };
    let permanent = Seq::new(marked(alloc, kept, dir, Kind::Permanent)?);
    let prohibited = Seq::new(marked(alloc, kept, dir, Kind::Prohibited)?);
    let query = query_copy(alloc, query)?;
    Ok(Body::Semantic {
        query,
        permanent,
        prohibited,
    })
}

/// The same query once more. It goes down as deep as the query does.
fn query_copy(alloc: Global, query: &Query<Number>) -> Result<Query<Number>, Memory>
    ensures { IfOk result (λ copy. copy ≡ query.now) }
{
    match &query.node {
        Node::Term(term) => Ok(Query::term(term.clone()?)),
        Node::Dir(dir) => Ok(Query::dir(*dir)),
        Node::Not(query) => {
            let inner = query_copy(alloc, query)?;
            Ok(Query::negation(alloc, inner)?)
        }
        Node::And(left, right) => {
            let first = query_copy(alloc, left)?;
            let second = query_copy(alloc, right)?;
            Ok(Query::both(alloc, first, second)?)
        }
        Node::Or(left, right) => {
            let first = query_copy(alloc, left)?;
            let second = query_copy(alloc, right)?;
            Ok(Query::either(alloc, first, second)?)
        }
    }
}

/// The items and directories that have a mark of this kind in a directory, in order of number.
fn marked(alloc: Global, kept: &KeptState, dir: Number, kind: Kind) -> Result<Vec<Number>, Memory>
    ensures { IfOk result (λ numbers. numbers.items ≡ marked_at kept.now.state dir kind) }
{
    kept.know_valid();
    let mut numbers = Vec::new(alloc);
    let mut from: u64 = 0;
    'marks: while let Some(number) = next_marked(kept, dir, kind, Number::new(from)) {
        numbers.push(number)?;
        from = number.get() + 1;
    }
    Ok(numbers)
}

/// The first of them that isn't below a number.
fn next_marked(kept: &KeptState, dir: Number, kind: Kind, from: Number) -> Option<Number>
    ensures { result ≡ first_from from (marked_at kept.now.state dir kind) }
{
    match kind {
        Kind::Permanent => kept.marks().permanent_from(dir, from),
        Kind::Prohibited => kept.marks().prohibited_from(dir, from),
        Kind::Transient | Kind::Unlinked => None,
    }
}

fn mount(alloc: Global, kept: &KeptState, mount: Number) -> Result<Body, Memory>
    requires { IsTrue (is_mount_at kept.now.state.entries mount) }
    ensures { IfOk result (λ body. body_at kept.now.state.entries mount ≡ Some body) }
{
    let Some(space) = kept.tree().space(mount) else {
        unreachable!();
    };
    let answers = Seq::new(copies(alloc, kept.answers_of(mount))?);
    match space.clone() {
        Ok(space) => Ok(Body::Mount { space, answers }),
        Err(fault) => {
            drop(answers);
            Err(fault.into())
        }
    }
}
