//! How many names paths have, and whether all stay short when an entry comes or moves.
ghost use Rattle.std.specs.Prelude.{◌≡◌, ◌≤◌, ◌<◌, ◌+◌, ◌^◌, ℕ, List, length, IsTrue};
ghost use Rattle.hac_model.specs.Tree.Events.{added, changed_at, reseated};
ghost use Rattle.hac_model.specs.Tree.Limits.{are_paths_short, names_below};
ghost use Rattle.hac_model.specs.Tree.{ancestors, is_directory_at, path_of};
ghost use Rattle.hac_model.specs.declared.states.Body.{Body};
ghost use Rattle.tree_counts.specs.Depths.{GoesTo, is_shallow};

use file_tree::Tree;
use hac_model::{Number, PATH_LIMIT};

/// Whether all paths are still short once an entry is in a directory. Its contents are looked at
/// only where it goes deeper.
pub(crate) fn stays_short(tree: &Tree, entry: Number, dir: Number) -> bool
    requires { GoesTo tree.now.state entry dir }
    ensures { (name : List ℕ) → result ≡ are_paths_short
        (changed_at tree.now.state entry (reseated dir name)).entries }
{
    tree.know_layout();
    let old = depth(tree, entry);
    let new = depth(tree, dir) + 1;
    new <= old || (new <= PATH_LIMIT && is_shallow(tree, entry, PATH_LIMIT - new))
}

/// Whether all paths are still short with a new entry in a directory, where `below` names have to
/// fit below that entry.
pub(crate) fn has_room(tree: &Tree, dir: Number, below: u64) -> bool
    requires dir { IsTrue (is_directory_at tree.now.state.entries dir) }
    requires small { below < 2 ^ 63 }
    ensures { (name : List ℕ) (body : Body) → below ≡ names_below body →
        result ≡ are_paths_short (added tree.now.state dir name body).entries }
{
    tree.know_layout();
    depth(tree, dir) + 1 + below <= PATH_LIMIT
}

/// Whether at most `names` names lead from an entry to anything below it. A mount counts one more,
/// for documents that may come.
fn is_shallow(tree: &Tree, entry: Number, names: u64) -> bool
    ensures { result ≡ is_shallow names tree.now.state entry }
{
    let children = tree.children(entry);
    if names == 0 {
        return children.is_empty() && !tree.is_mount(entry);
    }
    for place in 0..children.len() {
        if !is_shallow(tree, children.at(place), names - 1) {
            return false;
        }
    }
    true
}

/// How many names the path of an entry has.
fn depth(tree: &Tree, entry: Number) -> u64
    ensures depth { result ≡ length (path_of tree.now.state entry) }
    ensures few { result ≤ PATH_LIMIT + 1 }
{
    count_ancestors(tree, PATH_LIMIT + 1, entry)
}

/// How many ancestors an entry has, itself among them, counting at most `steps` of them.
fn count_ancestors(tree: &Tree, steps: u64, entry: Number) -> u64
    ensures ancestors { result ≡ length (ancestors steps tree.now.state.entries entry) }
    ensures few { result ≤ steps }
{
    if steps == 0 || !tree.has_entry(entry) {
        return 0;
    }
    count_ancestors(tree, steps - 1, tree.parent(entry)) + 1
}
