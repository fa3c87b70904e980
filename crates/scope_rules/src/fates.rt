//! What becomes of the entries that there are before an event.
ghost use Rattle.std.specs.Prelude.{◌≡◌, ◌==◌, false, if◌then◌else◌, IsTrue};
ghost use Rattle.std.specs.Option.{option_copied, option_map_or};
ghost use Rattle.hac_model.specs.Tree.Events.{next_dirty};
ghost use Rattle.hac_model.specs.Tree.Links.{parent_of, query_at};
ghost use Rattle.hac_model.specs.Tree.Mounting.{do_names_rise, is_gone, is_of_mount, is_such_at};
ghost use Rattle.hac_model.specs.Tree.{is_file_at};
ghost use Rattle.scope_rules.specs.Fates.{SuitsTree, goes, is_indexed, left_parent, left_query};
ghost use Rattle.scope_rules.specs.Fates.{left_shown};

use file_tree::Tree;
use hac_model::{Event, Name, Number, Query};
use sorted_lists::has_name;

/// Whether the entry of a number goes.
pub(crate) fn goes(tree: &Tree, event: &Event, number: Number) -> bool
    ensures { SuitsTree event.now tree.now.state →
        result ≡ goes event.now tree.now.state number }
{
    match event {
        Event::Rm { entry } => number == *entry,
        Event::Rmdir { dir } => number == *dir,
        Event::Ssync { mount, docs, .. } => is_gone(tree, *mount, docs.as_slice(), number),
        Event::Sumount { mount } => is_of_mount(tree, *mount, number),
        _ => false,
    }
}

/// Whether a document of a mount has the number, with a name that isn't among those that rise.
fn is_gone(tree: &Tree, mount: Number, names: &[Name], number: Number) -> bool
    ensures { IsTrue (do_names_rise names.now) →
        result ≡ is_such_at (is_gone mount names.now) tree.now.state.entries number }
{
    tree.is_document(number)
        && tree.parent(number) == mount
        && !has_name(names, tree.name_of(number))
}

/// Whether the number is that of a mount, or of what is in it.
fn is_of_mount(tree: &Tree, mount: Number, number: Number) -> bool
    ensures { result ≡ is_such_at (is_of_mount mount) tree.now.state.entries number }
{
    tree.has_entry(number) && (number == mount || tree.parent(number) == mount)
}

/// The text by which a file will be judged, unless it goes.
pub(crate) fn left_shown<'a>(tree: &'a Tree, event: &Event, number: Number) -> Option<&'a [u8]>
    ensures { option_copied result ≡ left_shown event.now tree.now.state number }
{
    if is_indexed(tree, event, number) {
        Some(tree.text(number))
    } else {
        tree.shown(number)
    }
}

/// Whether the event indexes the file of a number.
fn is_indexed(tree: &Tree, event: &Event, number: Number) -> bool
    ensures indexed { result ≡ is_indexed event.now tree.now.state number }
    ensures file { IsTrue result → IsTrue (is_file_at tree.now.state.entries number) }
{
    match event {
        Event::Step => is_next_dirty(tree, number),
        _ => false,
    }
}

/// Whether the dirty file of the least number has this one.
fn is_next_dirty(tree: &Tree, number: Number) -> bool
    ensures next { result ≡ option_map_or (λ file. file == number)
        (next_dirty tree.now.state.entries) false }
    ensures file { IsTrue result → IsTrue (is_file_at tree.now.state.entries number) }
{
    match tree.next_dirty() {
        Some(file) => file == number,
        None => false,
    }
}

/// The directory that an entry will be in, unless it goes.
pub(crate) fn left_parent(tree: &Tree, event: &Event, number: Number) -> Number
    ensures { result ≡ left_parent event.now tree.now.state number }
{
    match event {
        Event::Mv { entry, dir, .. } => parent_moved(tree, *entry, *dir, number),
        _ => tree.parent(number),
    }
}

/// The directory of an entry once one is in another directory.
fn parent_moved(tree: &Tree, entry: Number, dir: Number, number: Number) -> Number
    ensures { result ≡ if number == entry then dir else parent_of tree.now.state number }
{
    if number == entry {
        dir
    } else {
        tree.parent(number)
    }
}

/// The query that a directory will have, unless it goes.
pub(crate) fn left_query<'a>(
    tree: &'a Tree,
    event: &'a Event,
    number: Number,
) -> Option<&'a Query<Number>>
    ensures { option_copied result ≡ left_query event.now tree.now.state number }
{
    match event {
        Event::Setq { dir, query, .. } => query_changed(tree, *dir, Some(query), number),
        Event::Unq { dir } => query_changed(tree, *dir, None, number),
        _ => tree.query(number),
    }
}

/// The query of a directory once one has another query, or none.
fn query_changed<'a>(
    tree: &'a Tree,
    dir: Number,
    query: Option<&'a Query<Number>>,
    number: Number,
) -> Option<&'a Query<Number>>
    ensures { option_copied result ≡
        if number == dir then option_copied query.entry else query_at tree.now.state number }
{
    if number == dir {
        query
    } else {
        tree.query(number)
    }
}
