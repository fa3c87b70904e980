//! The entries that an event brings. They take the numbers from the next one on.
ghost use Rattle.std.specs.Prelude.{◌≡◌, ◌==◌, ◌<◌, ◌^◌, if◌then◌else◌, ℕ, false, length};
ghost use Rattle.std.specs.Prelude.{option_and_then};
ghost use Rattle.std.specs.Option.{option_copied, option_map_or};
ghost use Rattle.hac_model.specs.Tree.Facts.{bare_after};
ghost use Rattle.hac_model.specs.Tree.Mounting.{fresh};
ghost use Rattle.hac_model.specs.Tree.{is_directory, is_document, is_linkable, query_in};
ghost use Rattle.scope_rules.specs.Fates.{new_body, new_parent};

use file_tree::Tree;
use hac_model::{Event, Name, Number, Query};

/// The number that the next entry takes after an event.
pub(crate) fn next_after(tree: &Tree, event: &Event) -> Number
    ensures { result ≡ (bare_after event.now tree.now.state).next }
{
    let next = first_number(tree);
    match event {
        Event::Mkdir { .. } | Event::NewFile { .. } | Event::Ln { .. } | Event::Smkdir { .. } => {
            Number::new(next + 1)
        }
        Event::Smount { docs, .. } => Number::new(next + 1 + docs.as_slice().len() as u64),
        Event::Ssync { mount, docs, .. } => {
            Number::new(next + tree.count_fresh(*mount, docs.as_slice()))
        }
        _ => Number::new(next),
    }
}

/// The first number that is free.
fn first_number(tree: &Tree) -> u64
    ensures next { result ≡ tree.now.state.next }
    ensures small { result < 2 ^ 62 }
{
    tree.next_number().get()
}

/// Whether a new entry is an item.
pub(crate) fn is_new_item(tree: &Tree, event: &Event, number: Number) -> bool
    ensures { result ≡ option_map_or is_linkable
        (new_body event.now tree.now.state.next number) false }
{
    match event {
        Event::NewFile { .. } | Event::Ssync { .. } => true,
        Event::Smount { .. } => number != tree.next_number(),
        _ => false,
    }
}

/// Whether a new entry is a document.
pub(crate) fn is_new_document(tree: &Tree, event: &Event, number: Number) -> bool
    ensures { result ≡ option_map_or is_document
        (new_body event.now tree.now.state.next number) false }
{
    match event {
        Event::Smount { .. } => number != tree.next_number(),
        Event::Ssync { .. } => true,
        _ => false,
    }
}

/// Whether a new entry is a directory.
pub(crate) fn is_new_directory(tree: &Tree, event: &Event, number: Number) -> bool
    ensures { result ≡ option_map_or is_directory
        (new_body event.now tree.now.state.next number) false }
{
    match event {
        Event::Mkdir { .. } | Event::Smkdir { .. } => true,
        Event::Smount { .. } => number == tree.next_number(),
        _ => false,
    }
}

/// The query of a new entry.
pub(crate) fn new_query(event: &Event) -> Option<&Query<Number>>
    ensures { (first number : ℕ) → option_copied result ≡
        option_and_then query_in (new_body event.now first number) }
{
    match event {
        Event::Smkdir { query, .. } => Some(query),
        _ => None,
    }
}

/// The directory of a new entry.
pub(crate) fn new_parent(tree: &Tree, event: &Event, number: Number) -> Number
    ensures { result ≡ new_parent event.now tree.now.state.next number }
{
    match event {
        Event::Mkdir { dir, .. }
        | Event::NewFile { dir, .. }
        | Event::Ln { dir, .. }
        | Event::Smkdir { dir, .. } => *dir,
        Event::Smount { dir, .. } => mount_or_document(tree.next_number(), *dir, number),
        Event::Ssync { mount, .. } => *mount,
        _ => Number::ROOT,
    }
}

/// The directory of a new mount, or of its documents.
fn mount_or_document(mount: Number, dir: Number, number: Number) -> Number
    ensures { result ≡ if number == mount then dir else mount }
{
    if number == mount { dir } else { mount }
}
