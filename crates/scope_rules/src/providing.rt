//! Whether a directory provides an item.
ghost use Rattle.std.specs.Prelude.{◌≡◌, ◌&&◌, ◌||◌};
ghost use Rattle.hac_model.specs.Tree.Links.{column, has, is_below, is_item, is_semantic, provide};
ghost use Rattle.hac_model.specs.declared.states.State.{State};
ghost use Rattle.link_kinds.specs.Seen.{lent_in, permanent_in, transient_in};
ghost use Rattle.scope_rules.specs.Made.{IsMadeOf, found_in};

use file_tree::Tree;
use hac_model::Number;
use link_kinds::Links;

/// Whether a directory of a state provides an item: it is stored below it, at any depth, is a link
/// of it, found or added, or is lent to it. The state is given by its tree and its marks.
pub fn provides(tree: &Tree, marks: &Links, found: &Links, dir: Number, item: Number) -> bool
    ensures { (s : State) → IsMadeOf s tree.now.state marks.now
        → result ≡ provide s (column (found_in found.now) item) dir item }
{
    is_stored_below(tree, dir, item) || is_link(tree, marks, found, dir, item)
}

/// Whether an item is stored below a directory, at any depth.
fn is_stored_below(tree: &Tree, dir: Number, item: Number) -> bool
    ensures { result ≡ is_below tree.now.state dir item }
{
    tree.is_item(item) && tree.is_directory(dir) && tree.is_below(item, dir)
}

/// Whether an item is a link of a semantic directory, or lent to it.
fn is_link(tree: &Tree, marks: &Links, found: &Links, dir: Number, item: Number) -> bool
    ensures { result ≡ (is_semantic tree.now.state dir
        && (column (found_in found.now) item dir
        || (has (permanent_in marks.now dir) item && is_item tree.now.state item))) }
{
    tree.query(dir).is_some()
        && (is_found(found, dir, item) || (is_added(marks, dir, item) && tree.is_item(item)))
}

/// Whether a directory found an item, or it is lent to it.
fn is_found(found: &Links, dir: Number, item: Number) -> bool
    ensures { result ≡ column (found_in found.now) item dir }
{
    has_found(found, dir, item) || has_lent(found, dir, item)
}

/// Whether a directory found an item.
pub fn has_found(found: &Links, dir: Number, item: Number) -> bool
    ensures { result ≡ has (transient_in found.now dir) item }
{
    found.kind(dir, item).is_transient()
}

/// Whether an item is lent to a directory.
pub fn has_lent(found: &Links, dir: Number, item: Number) -> bool
    ensures { result ≡ has (lent_in found.now dir) item }
{
    found.lent(dir, item)
}

/// Whether the user added an item to a directory.
fn is_added(marks: &Links, dir: Number, item: Number) -> bool
    ensures { result ≡ has (permanent_in marks.now dir) item }
{
    marks.kind(dir, item).is_permanent()
}
