//! Marks on entries that go with a mount, or from it. No tree changes.
ghost use Rattle.std.specs.Prelude.{IsTrue};
ghost use Rattle.hac_model.specs.Tree.Mounting.{do_names_rise, is_gone, is_of_mount, is_such_at};
ghost use Rattle.hac_model.specs.Tree.{is_mount_at};
ghost use Rattle.link_kinds.specs.Seen.{SameLinks};
ghost use Rattle.kept_state.specs.Forgetting.{ForgetsSuch};

use file_tree::Tree;
use hac_model::{Name, Number};
use link_kinds::Links;
use sorted_lists::has_name;

/// Forgets all marks on a mount and on what is in it.
pub fn forget_mount(marks: &mut Links, tree: &Tree, mount: Number)
    requires { IsTrue (is_mount_at tree.now.state.entries mount) }
    ensures lists { ForgetsSuch (is_such_at (is_of_mount mount) tree.now.state.entries)
        marks.old marks.new }
    ensures sets { SameLinks marks.old marks.new }
{
    marks.drop_item(mount);
    tree.know_layout();
    let documents = tree.children(mount);
    'documents: for place in 0..documents.len() {
        marks.drop_item(documents.at(place));
    }
}

/// Forgets all marks on the documents of a mount that have none of these names.
pub fn forget_gone(marks: &mut Links, tree: &Tree, mount: Number, names: &[Name])
    requires mount { IsTrue (is_mount_at tree.now.state.entries mount) }
    requires rise { IsTrue (do_names_rise names.now) }
    ensures lists { ForgetsSuch (is_such_at (is_gone mount names.now) tree.now.state.entries)
        marks.old marks.new }
    ensures sets { SameLinks marks.old marks.new }
{
    tree.know_layout();
    let documents = tree.children(mount);
    'documents: for place in 0..documents.len() {
        let document = documents.at(place);
        if !has_name(names, tree.name_of(document)) {
            marks.drop_item(document);
        }
    }
}
