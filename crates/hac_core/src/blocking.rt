//! What blocks a command whose paths were followed. Limits are left out.
ghost use Rattle.std.specs.Prelude.{◌≡◌, IsTrue, false};
ghost use Rattle.hac_model.specs.Run.Answers.{Passes};
ghost use Rattle.hac_model.specs.Run.Refusals.{blocking_cause, directory_cause, filled_cause};
ghost use Rattle.hac_model.specs.Run.Refusals.{not_link_cause, not_mount_cause, plain_cause};
ghost use Rattle.hac_model.specs.Run.Refusals.{root_cause, taken_cause, under_cause, written_cause};
ghost use Rattle.hac_model.specs.Run.Standing.{AllStand, IsSlot, is_own};
ghost use Rattle.hac_core.specs.Blocking.{link_cause, tree_cause};

use crate::marking::{require_link, require_marked, require_not_permanent, require_unreferenced};
use crate::sessions::{require_idle, require_place};
use file_tree::Tree;
use hac_model::{Deny, Number, Place, Refusal, Resolved};
use kept_links::LinkedState;
use kept_state::KeptState;
use std::alloc::Global;

/// Denies a command that something blocks, for the first such cause: what the tree says comes
/// before what links, marks, other queries and sessions say.
pub fn require_unblocked(
    alloc: Global,
    linked: &LinkedState,
    command: &Resolved,
) -> Result<(), Deny>
    requires { AllStand linked.now.state command.now }
    ensures { Passes result (blocking_cause linked.now.state command.now) }
{
    match fits_tree(linked, command) {
        Ok(()) => fits_links(alloc, linked, command),
        Err(deny) => Err(deny),
    }
}

/// Denies a command that the tree blocks, by the state.
fn fits_tree(linked: &LinkedState, command: &Resolved) -> Result<(), Deny>
    requires { AllStand linked.now.state command.now }
    ensures { Passes result (tree_cause linked.now.state command.now) }
{
    fits_tree_alone(linked.kept().tree(), command)
}

/// Denies a command that the tree blocks.
fn fits_tree_alone(tree: &Tree, command: &Resolved) -> Result<(), Deny>
    requires { AllStand tree.now.state command.now }
    ensures { Passes result (tree_cause tree.now.state command.now) }
{
    match command {
        Resolved::Mkdir { place }
        | Resolved::Ln { place, .. }
        | Resolved::Smkdir { place, .. }
        | Resolved::Smount { place, .. } => require_vacant(tree, place),
        Resolved::Write { place, .. } => require_writable(tree, place),
        Resolved::Cat { entry } => require_file(tree, *entry),
        Resolved::Mv { entry, place } => {
            require_not_root(*entry)?;
            require_vacant(tree, place)?;
            require_outside(tree, *entry, place)
        }
        Resolved::Rm { entry } => {
            require_not_root(*entry)?;
            require_file(tree, *entry)
        }
        Resolved::Readlink { entry } => require_symlink(tree, *entry),
        Resolved::Rmdir { dir } => {
            require_not_root(*dir)?;
            require_empty(tree, *dir)
        }
        Resolved::Setq { dir, .. } => require_not_root(*dir),
        Resolved::Ssync { mount: dir } | Resolved::Sumount { mount: dir } => require_mount(
            tree, *dir,
        ),
        Resolved::Unq { dir }
        | Resolved::Query { dir }
        | Resolved::Sls { dir }
        | Resolved::Sln { dir, .. }
        | Resolved::Sforget { dir, .. } => require_semantic(tree, *dir),
        Resolved::Srm { item, dir } => {
            require_file(tree, *item)?;
            require_semantic(tree, *dir)
        }
        Resolved::Ls { .. }
        | Resolved::Cd { .. }
        | Resolved::Pwd { .. }
        | Resolved::Find { .. }
        | Resolved::Index
        | Resolved::Tick { .. }
        | Resolved::Counts
        | Resolved::Checkpoint => Ok(()),
    }
}

/// Denies a command that a link, a mark, another query or a session blocks, where the tree doesn't.
fn fits_links(alloc: Global, linked: &LinkedState, command: &Resolved) -> Result<(), Deny>
    requires stands { AllStand linked.now.state command.now }
    requires free { tree_cause linked.now.state command.now ≡ None }
    ensures { Passes result (link_cause linked.now.state command.now) }
{
    let kept = linked.kept();
    match command {
        Resolved::Rmdir { dir } | Resolved::Sumount { mount: dir } => {
            require_unreferenced(alloc, kept, *dir)?;
            require_idle(kept, *dir)
        }
        Resolved::Cd { session, dir } => require_place(kept, session, *dir),
        Resolved::Sln { item, dir } => require_not_permanent(kept, *item, *dir),
        Resolved::Srm { item, dir } => require_link(linked, *item, *dir),
        Resolved::Sforget { item, dir } => require_marked(kept, *item, *dir),
        _ => Ok(()),
    }
}

/// The root can't be removed or moved, and gets no query.
fn require_not_root(number: Number) -> Result<(), Deny>
    ensures { Passes result (root_cause number) }
{
    if number == Number::ROOT {
        return Err(Deny::Refused(Refusal::Root));
    }
    Ok(())
}

/// Nothing is where something is to be created.
fn require_vacant(tree: &Tree, place: &Place) -> Result<(), Deny>
    ensures { Passes result (taken_cause tree.now.state place.now) }
{
    match place {
        Place::There(number) => Err(Deny::Refused(Refusal::Exists(tree.path_of(*number)?))),
        Place::Free { .. } => Ok(()),
    }
}

/// A text is written to a file, or where nothing is.
fn require_writable(tree: &Tree, place: &Place) -> Result<(), Deny>
    ensures { Passes result (written_cause tree.now.state place.now) }
{
    match place {
        Place::There(number) => require_file(tree, *number),
        Place::Free { .. } => Ok(()),
    }
}

/// No directory is where a file is wanted.
fn require_file(tree: &Tree, number: Number) -> Result<(), Deny>
    ensures { Passes result (directory_cause tree.now.state number) }
{
    if tree.is_directory(number) {
        return Err(Deny::Refused(Refusal::NotFile(tree.path_of(number)?)));
    }
    Ok(())
}

/// A symbolic link is where one is wanted.
fn require_symlink(tree: &Tree, number: Number) -> Result<(), Deny>
    ensures { Passes result (not_link_cause tree.now.state number) }
{
    if tree.is_symlink(number) {
        return Ok(());
    }
    Err(Deny::Refused(Refusal::NotLink(tree.path_of(number)?)))
}

/// A directory to be removed is empty.
fn require_empty(tree: &Tree, dir: Number) -> Result<(), Deny>
    ensures { Passes result (filled_cause tree.now.state dir) }
{
    if tree.children(dir).is_empty() {
        return Ok(());
    }
    Err(Deny::Refused(Refusal::NotEmpty(tree.path_of(dir)?)))
}

/// An entry doesn't move into itself.
fn require_outside(tree: &Tree, entry: Number, place: &Place) -> Result<(), Deny>
    requires entry { IsTrue (is_own tree.now.state false entry) }
    requires place { IsSlot tree.now.state false place.now }
    ensures { Passes result (under_cause tree.now.state entry place.now) }
{
    let Place::Free { dir, .. } = place else {
        return Ok(());
    };
    if tree.is_inside(*dir, entry) {
        return Err(Deny::Refused(Refusal::Under(tree.path_of(entry)?)));
    }
    Ok(())
}

/// A directory is a mount.
fn require_mount(tree: &Tree, dir: Number) -> Result<(), Deny>
    ensures { Passes result (not_mount_cause tree.now.state dir) }
{
    if tree.is_mount(dir) {
        return Ok(());
    }
    Err(Deny::Refused(Refusal::NotMount(tree.path_of(dir)?)))
}

/// A directory has a query.
fn require_semantic(tree: &Tree, dir: Number) -> Result<(), Deny>
    ensures { Passes result (plain_cause tree.now.state dir) }
{
    if tree.query(dir).is_some() {
        return Ok(());
    }
    Err(Deny::Refused(Refusal::NotSemantic(tree.path_of(dir)?)))
}
