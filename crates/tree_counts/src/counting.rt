//! How much a state would hold after an event, before anything changes.
ghost use Rattle.std.specs.Prelude.{◌≡◌, ◌<◌, ◌^◌, ℕ, List, length, IsTrue, IsSome};
ghost use Rattle.hac_model.specs.Tree.Events.{added, apply, changed_at, edited, removed};
ghost use Rattle.hac_model.specs.Tree.Events.{reseated, rewritten};
ghost use Rattle.hac_model.specs.Tree.Limits.{counts, long_paths};
ghost use Rattle.hac_model.specs.Tree.{entry_at, is_directory_at, is_file_at};
ghost use Rattle.hac_model.specs.Tree.Valid.{IsLayout};
ghost use Rattle.hac_model.specs.declared.states.Body.{Body};
ghost use Rattle.hac_model.proofs.KindLemmas.{KeepsRole};
ghost use Rattle.entry_counts.specs.Counting.{AreSmall, IsShare, share_of};
ghost use Rattle.tree_counts.specs.Depths.{GoesTo};
ghost use Rattle.tree_counts.specs.Seated.{is_seated};

use crate::depths::{has_room, stays_short};
use crate::mounting::{counts_mounted, counts_synced, counts_unmounted};
use entry_counts::{
    as_new, kept_bytes, minus, of_directory, of_document, of_file, of_mount, of_semantic,
    of_symlink, plus, replaced, with_long_paths,
};
use file_tree::Tree;
use hac_model::{Counts, EntryKind, Event, Number, Text};

/// How much the state would hold after an event. What it refers to is in the tree; it may exceed
/// limits.
pub fn counts_after(tree: &Tree, event: &Event) -> Counts
    requires { IsTrue (is_seated tree.now.state event.now) }
    ensures { result ≡ counts (apply tree.now.state event.now) }
{
    tree.know_layout();
    match event {
        Event::Mkdir { dir, .. } => with_entry(tree, *dir, of_directory()),
        Event::NewFile { dir, text, .. } => with_entry(tree, *dir, of_file(len(text), true)),
        Event::Rewrite { file, text } => with_text(tree, *file, len(text)),
        Event::Smkdir { dir, .. } => with_entry(tree, *dir, of_semantic()),
        Event::Setq { dir, .. } => with_share(tree, *dir, of_semantic()),
        Event::Unq { dir } => with_share(tree, *dir, of_directory()),
        Event::Mv { entry, dir, .. } => with_moved(tree, *entry, *dir),
        Event::Rm { entry } => without(tree, *entry),
        Event::Rmdir { dir } => without(tree, *dir),
        Event::Step => with_step(tree),
        Event::Ln { dir, .. } => with_entry(tree, *dir, of_symlink()),
        Event::Smount { dir, docs, .. } => {
            let count = docs.as_slice().len() as u64;
            counts_mounted(tree, *dir, count)
        }
        Event::Ssync { mount, docs, .. } => counts_synced(tree, *mount, docs),
        Event::Sumount { mount } => counts_unmounted(tree, *mount),
        Event::Mark(_) => tree.counts(),
        Event::Cd { .. } => tree.counts(),
    }
}

/// The counts with a new entry in a directory, given what it counts for. A name has to fit below a
/// mount.
fn with_entry(tree: &Tree, dir: Number, share: Counts) -> Counts
    requires dir { IsTrue (is_directory_at tree.now.state.entries dir) }
    requires small { AreSmall share }
    ensures { (name : List ℕ) (body : Body) → share ≡ share_of body →
        result ≡ counts (added tree.now.state dir name body) }
{
    let is_long = !has_room(tree, dir, share.mounts);
    plus(small_counts(tree), as_new(share, is_long))
}

/// The counts once a file has a text of `bytes` bytes.
fn with_text(tree: &Tree, file: Number, bytes: u64) -> Counts
    requires file { IsTrue (is_file_at tree.now.state.entries file) }
    requires small { bytes < 2 ^ 63 }
    ensures { (text : List ℕ) → length text ≡ bytes →
        result ≡ counts (changed_at tree.now.state file (edited (rewritten text))) }
{
    with_share(
        tree,
        file,
        of_file(kept_bytes(bytes, tree.shown(file)), true),
    )
}

/// The counts once the dirty file of the least number is indexed.
fn with_step(tree: &Tree) -> Counts
    ensures { result ≡ counts (apply tree.now.state Event.Step) }
{
    match tree.next_dirty() {
        Some(file) => tree.counts_indexed(file),
        None => tree.counts(),
    }
}

/// The counts once the body of an entry is edited, given what it counts for then.
fn with_share(tree: &Tree, entry: Number, new: Counts) -> Counts
    requires there { IsSome (entry_at tree.now.state.entries entry) }
    requires small { AreSmall new }
    ensures { (edit : Body → Body) → KeepsRole edit →
        IsShare new edit tree.now.state entry →
        result ≡ counts (changed_at tree.now.state entry (edited edit)) }
{
    replaced(small_counts(tree), share(tree, entry), new)
}

/// The counts with an entry in a directory to which it may go.
fn with_moved(tree: &Tree, entry: Number, dir: Number) -> Counts
    requires { GoesTo tree.now.state entry dir }
    ensures { (name : List ℕ) → result ≡ counts
        (changed_at tree.now.state entry (reseated dir name)) }
{
    let is_long = !stays_short(tree, entry, dir);
    with_long_paths(small_counts(tree), is_long)
}

/// The counts without an entry.
fn without(tree: &Tree, entry: Number) -> Counts
    requires there { IsSome (entry_at tree.now.state.entries entry) }
    requires short { long_paths (removed tree.now.state entry).entries ≡ 0 }
    ensures { result ≡ counts (removed tree.now.state entry) }
{
    minus(small_counts(tree), share(tree, entry))
}

/// The counts, which can be added to.
pub(crate) fn small_counts(tree: &Tree) -> Counts
    ensures counts { result ≡ counts tree.now.state }
    ensures small { AreSmall result }
    ensures layout { IsLayout tree.now.state }
{
    tree.counts()
}

/// What an entry counts for.
fn share(tree: &Tree, entry: Number) -> Counts
    ensures { IsShare result (λ body. body) tree.now.state entry }
{
    match tree.kind(entry) {
        EntryKind::File => share_of_file(tree, entry),
        EntryKind::Dir => of_directory(),
        EntryKind::Symlink => of_symlink(),
        EntryKind::Semantic => of_semantic(),
        EntryKind::Mount => of_mount(),
        EntryKind::Document => of_document(),
    }
}

/// What a file counts for.
fn share_of_file(tree: &Tree, file: Number) -> Counts
    requires { IsTrue (is_file_at tree.now.state.entries file) }
    ensures { IsShare result (λ body. body) tree.now.state file }
{
    let bytes = tree.text(file).len() as u64;
    of_file(kept_bytes(bytes, tree.shown(file)), tree.dirty(file))
}

fn len(text: &Text) -> u64
    ensures len { result ≡ length text.now }
    ensures small { result < 2 ^ 63 }
{
    text.as_slice().len() as u64
}
