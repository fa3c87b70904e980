//! Entries: their numbers, where they are and of which kind.
ghost use Rattle.std.specs.Prelude.{◌≡◌, IsTrue};
ghost use Rattle.hac_model.specs.Tree.{is_directory_at, is_document_at, is_live, is_mount_at};
ghost use Rattle.hac_model.specs.Tree.Events.{is_inside, next_dirty};
ghost use Rattle.hac_model.specs.Tree.Links.{is_below, is_item, parent_of};

use file_tree::Tree;
use hac_model::{Number, Version};
use kept_state::KeptState;

/// The version of the state's store.
pub fn version(kept: &KeptState) -> Version
    ensures { result ≡ kept.now.state.version }
{
    kept.tree().version()
}

/// The number that the next entry takes.
pub fn next_number(kept: &KeptState) -> Number
    ensures { result ≡ kept.now.state.next }
{
    kept.tree().next_number()
}

/// The dirty file of the least number, which the next step indexes.
pub fn next_dirty(kept: &KeptState) -> Option<Number>
    ensures { result ≡ next_dirty kept.now.state.entries }
{
    kept.tree().next_dirty()
}

/// The directory of an entry. That of what is no entry is the root.
pub fn parent_of(kept: &KeptState, entry: Number) -> Number
    ensures { result ≡ parent_of kept.now.state entry }
{
    kept.tree().parent(entry)
}

/// Whether a number is that of an item: a file or a document.
pub fn is_item(kept: &KeptState, number: Number) -> bool
    ensures { result ≡ is_item kept.now.state number }
{
    kept.tree().is_item(number)
}

/// Whether a number is that of a document.
pub fn is_document(kept: &KeptState, number: Number) -> bool
    ensures { result ≡ is_document_at kept.now.state.entries number }
{
    kept.tree().is_document(number)
}

/// Whether a number is that of a mount.
pub fn is_mount(kept: &KeptState, number: Number) -> bool
    ensures { result ≡ is_mount_at kept.now.state.entries number }
{
    kept.tree().is_mount(number)
}

/// Whether a number is that of a directory, or of the root.
pub fn is_directory(kept: &KeptState, number: Number) -> bool
    ensures { result ≡ is_directory_at kept.now.state.entries number }
{
    kept.tree().is_directory(number)
}

/// Whether what has a number is an entry, or is below it.
pub fn is_inside(kept: &KeptState, number: Number, entry: Number) -> bool
    requires number { IsTrue (is_live kept.now.state.entries number) }
    requires entry { IsTrue (is_live kept.now.state.entries entry) }
    ensures { result ≡ is_inside kept.now.state number entry }
{
    kept.tree().is_inside(number, entry)
}

/// Whether an item is stored below a directory, at any depth.
pub fn is_below(kept: &KeptState, item: Number, dir: Number) -> bool
    ensures { result ≡ is_below kept.now.state dir item }
{
    is_below_in(kept.tree(), item, dir)
}

/// The same by the tree alone. All items are below the root.
fn is_below_in(tree: &Tree, item: Number, dir: Number) -> bool
    ensures { result ≡ is_below tree.now.state dir item }
{
    tree.know_layout();
    if dir == Number::ROOT {
        return tree.is_item(item);
    }
    tree.is_item(item) && tree.is_directory(dir) && tree.is_below(item, dir)
}
