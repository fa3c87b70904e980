//! How much a state would hold once a mount comes, is synced or goes.
ghost use Rattle.std.specs.Prelude.{◌≡◌, ◌≤◌, ℕ, List, length, IsTrue};
ghost use Rattle.hac_model.specs.Tree.Limits.{counts};
ghost use Rattle.hac_model.specs.Tree.Mounting.{are_documents, fresh, is_gone};
ghost use Rattle.hac_model.specs.Tree.Mounting.{is_of_mount, mounted, with_documents, without_such};
ghost use Rattle.hac_model.specs.Tree.{is_directory_at, is_mount_at};
ghost use Rattle.hac_model.specs.declared.states.Answer.{Answer};

use crate::counting::small_counts;
use crate::depths::has_room;
use entry_counts::{minus, of_mount, of_mount_with, plus, synced};
use file_tree::Tree;
use hac_model::{Counts, DOCS_LIMIT, Name, Number, Seq};

/// How much the state would hold with a mount in a directory that has `count` documents. It may
/// exceed limits. A name has to fit below the mount, whether it has documents or not.
pub(crate) fn counts_mounted(tree: &Tree, dir: Number, count: u64) -> Counts
    requires dir { IsTrue (is_directory_at tree.now.state.entries dir) }
    requires few { count ≤ DOCS_LIMIT }
    ensures { (name space : List ℕ) (answers : List Answer) (documents : List (List ℕ)) →
        length documents ≡ count →
        result ≡ counts (mounted tree.now.state dir name space answers documents) }
{
    let is_long = !has_room(tree, dir, 1);
    plus(small_counts(tree), of_mount_with(count, is_long))
}

/// How much the state would hold once a mount has documents of these names, and no others. It may
/// exceed limits.
pub(crate) fn counts_synced(tree: &Tree, mount: Number, documents: &Seq<Name>) -> Counts
    requires mount { IsTrue (is_mount_at tree.now.state.entries mount) }
    requires documents { IsTrue (are_documents documents.now) }
    ensures { result ≡ counts (with_documents (without_such (is_gone mount documents.now)
        tree.now.state) mount (fresh tree.now.state mount documents.now)) }
{
    let names = documents.as_slice();
    let fresh = tree.count_fresh(mount, names);
    let old = tree.children(mount).len() as u64;
    synced(small_counts(tree), old, names.len() as u64, fresh)
}

/// How much the state would hold without a mount and its documents.
pub(crate) fn counts_unmounted(tree: &Tree, mount: Number) -> Counts
    requires { IsTrue (is_mount_at tree.now.state.entries mount) }
    ensures { result ≡ counts (without_such (is_of_mount mount) tree.now.state) }
{
    let items = tree.children(mount).len() as u64;
    minus(
        small_counts(tree),
        Counts {
            items,
            ..of_mount()
        },
    )
}
