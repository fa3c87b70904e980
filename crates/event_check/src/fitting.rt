//! Whether an event can happen to the state, wherever it comes from. Commands make only such
//! events; a log may hold any.
ghost use Rattle.std.specs.Prelude.{◌≡◌, ◌&&◌, false, length, IfOk, IsTrue};
ghost use Rattle.hac_model.specs.Script.PathWords.{is_target};
ghost use Rattle.hac_model.specs.Tree.{is_leaf_at};
ghost use Rattle.hac_model.specs.Tree.Asking.{are_all_told};
ghost use Rattle.hac_model.specs.Tree.Events.{can_have_mark, is_clear, is_free};
ghost use Rattle.hac_model.specs.Tree.Events.{is_inside, is_made_holder, is_placed, may_ask};
ghost use Rattle.hac_model.specs.Tree.Limits.{is_text};
ghost use Rattle.event_check.specs.Fitting.{FitsAs, asks_spaces, passes_none, prohibits_found};

use crate::asking::may_ask;
use crate::counting::counts_after;
use crate::mounting::{may_mount, may_sync};
use crate::told::are_all_told;
use file_tree::Tree;
use hac_model::{
    Counts, Event, Kind, Mark, Memory, Name, Number, Query, Seq, TARGET_LIMIT, TEXT_LIMIT, Text,
    Version, first_passed,
};
use hac_names::{has_long_part, is_bad, is_name, is_space_name};
use kept_lookups::version;
use kept_state::KeptState;
use std::alloc::Global;
use tree_answers::{is_unreferenced, may_mark};

/// Whether an event can happen to the state, and how much the state would hold then. Where it
/// prohibits an item, it is given whether the directory finds the item; else this is false.
pub fn fits(
    alloc: Global,
    kept: &KeptState,
    event: &Event,
    found: bool,
) -> Result<Option<Counts>, Memory>
    requires { found ≡ prohibits_found kept.now.state event.now }
    ensures { IfOk result (FitsAs kept.now.state event.now) }
{
    if !is_placed(alloc, kept, event)? {
        return Ok(None);
    }
    let counts = counts_after(kept, event);
    if !passes_none(version(kept), counts) {
        return Ok(None);
    }
    if is_clear(alloc, kept, event, found)? {
        Ok(Some(counts))
    } else {
        Ok(None)
    }
}

/// Whether what an event refers to is in the tree.
fn is_placed(alloc: Global, kept: &KeptState, event: &Event) -> Result<bool, Memory>
    ensures { IfOk result (λ is. is ≡ is_placed kept.now.state event.now) }
{
    match event {
        Event::Smkdir {
            dir,
            name,
            query,
            told,
        } => Ok(has_room(kept, *dir, name) && may_be_asked(alloc, kept, query, told)?),
        Event::Setq { dir, query, told } => {
            Ok(is_holder(kept, *dir) && may_be_asked(alloc, kept, query, told)?)
        }
        Event::Smount {
            dir,
            name,
            space,
            docs,
            told,
        } => may_mount(alloc, kept, *dir, name, space, docs, told),
        Event::Ssync { mount, docs, told } => may_sync(alloc, kept, *mount, docs, told),
        _ => Ok(is_placed_in(kept.tree(), event)),
    }
}

/// The same by the tree alone, where the event neither asks a space nor has what one told.
fn is_placed_in(tree: &Tree, event: &Event) -> bool
    requires { asks_spaces event.now ≡ false }
    ensures { result ≡ is_placed tree.now.state event.now }
{
    match event {
        Event::Mkdir { dir, name } => is_free(tree, *dir, name),
        Event::NewFile { dir, name, text } => is_free(tree, *dir, name) && is_text(text),
        Event::Rewrite { file, text } => tree.is_file(*file) && is_text(text),
        Event::Ln { dir, name, target } => is_free(tree, *dir, name) && is_target(target),
        Event::Unq { dir } => tree.query(*dir).is_some(),
        Event::Mark(mark) => {
            can_have_mark(tree, mark.item, mark.kind) && tree.query(mark.dir).is_some()
        }
        Event::Mv { entry, dir, name } => may_go(tree, *entry, *dir, name),
        Event::Rm { entry } => is_leaf(tree, *entry),
        Event::Rmdir { dir } => is_made_holder(tree, *dir) && tree.children(*dir).is_empty(),
        Event::Step => tree.counts().dirty > 0,
        Event::Cd { session, dir } => {
            is_space_name(session.as_bytes()) && tree.is_directory(*dir)
        }
        Event::Sumount { mount } => tree.is_mount(*mount),
        Event::Smkdir { .. } | Event::Setq { .. } | Event::Smount { .. } | Event::Ssync { .. } => {
            unreachable!()
        }
    }
}

/// Whether no mark, no link, no query of another directory and no session blocks an event, and
/// mounts then keep no more answers than they may.
fn is_clear(alloc: Global, kept: &KeptState, event: &Event, found: bool) -> Result<bool, Memory>
    requires placed { IsTrue (is_placed kept.now.state event.now) }
    requires found { found ≡ prohibits_found kept.now.state event.now }
    ensures { IfOk result (λ is. is ≡ is_clear kept.now.state event.now) }
{
    match event {
        Event::Setq { dir, query, .. } => {
            let way = kept.cycle_of_query(alloc, *dir, query)?;
            Ok(way.is_none() && kept.keeps_few_after(alloc, event)?)
        }
        Event::Mv { entry, dir, .. } => {
            let way = kept.cycle_of_move(alloc, *entry, *dir)?;
            Ok(way.is_none())
        }
        Event::Rmdir { dir } | Event::Sumount { mount: dir } => {
            Ok(is_unreferenced(kept, *dir)? && !kept.is_busy(*dir))
        }
        Event::Cd { session, dir } => Ok(kept.has_place_for(session, *dir)),
        Event::Mark(mark) => may_be_marked(alloc, kept, mark, found),
        Event::Smkdir { .. } | Event::Smount { .. } | Event::Ssync { .. } => {
            kept.keeps_few_after(alloc, event)
        }
        _ => Ok(true),
    }
}

/// Whether a mark changes something, and no directory comes to depend on itself by it.
fn may_be_marked(alloc: Global, kept: &KeptState, mark: &Mark, found: bool) -> Result<bool, Memory>
    requires { found ≡ prohibits_found kept.now.state (Event.Mark mark.now) }
    ensures { IfOk result (λ is. is ≡ is_clear kept.now.state (Event.Mark mark.now)) }
{
    let way = kept.cycle_of_mark(alloc, mark)?;
    Ok(may_mark(kept, *mark, found) && way.is_none())
}

/// Whether an item or a directory can have a mark of a kind.
fn can_have_mark(tree: &Tree, number: Number, kind: Kind) -> bool
    ensures { result ≡ can_have_mark tree.now.state number kind }
{
    tree.is_item(number) || (tree.is_directory(number) && !kind.is_prohibited())
}

/// Whether counts exceed no limit of a version.
fn passes_none(version: Version, counts: Counts) -> bool
    ensures { result ≡ passes_none version counts }
{
    first_passed(&counts.layout_limits(version)).is_none()
        && first_passed(&counts.answer_limits(version)).is_none()
}

/// Whether an entry of a name can be put into a directory, which isn't a mount.
pub fn is_free(tree: &Tree, dir: Number, name: &Name) -> bool
    ensures { result ≡ is_free tree.now.state dir name.now }
{
    tree.is_directory(dir)
        && is_name(name.as_bytes())
        && tree.child(dir, name).is_none()
        && !tree.is_mount(dir)
}

/// Whether a directory that was made isn't a mount.
fn is_made_holder(tree: &Tree, dir: Number) -> bool
    ensures { result ≡ is_made_holder tree.now.state dir }
{
    tree.is_made_directory(dir) && !tree.is_mount(dir)
}

/// Whether the bytes may be a file's text.
fn is_text(text: &Text) -> bool
    ensures { result ≡ is_text text.now }
{
    len(text) <= TEXT_LIMIT
}

fn len(text: &Text) -> u64
    ensures { result ≡ length text.now }
{
    text.as_slice().len() as u64
}

/// Whether the bytes may be the target of a symbolic link.
fn is_target(target: &Text) -> bool
    ensures { result ≡ is_target target.now }
{
    let bytes = target.as_slice();
    len(target) <= TARGET_LIMIT && !is_bad(bytes) && !has_long_part(bytes)
}

/// Whether a file or a symbolic link has the number.
fn is_leaf(tree: &Tree, number: Number) -> bool
    ensures { result ≡ is_leaf_at tree.now.state.entries number }
{
    tree.is_file(number) || tree.is_symlink(number)
}

/// Whether a query may be asked, and this was told to the mounts that have to be asked for it.
fn may_be_asked(
    alloc: Global,
    kept: &KeptState,
    query: &Query<Number>,
    told: &Seq<Seq<Number>>,
) -> Result<bool, Memory>
    ensures { IfOk result (λ may. may ≡ may_ask kept.now.state query.now
        && are_all_told kept.now.state query.now told.now kept.now.state.entries) }
{
    if names_directories(kept, query) {
        are_all_told(alloc, kept, query, told.as_slice())
    } else {
        Ok(false)
    }
}

/// `is_free` of the tree of a state.
fn has_room(kept: &KeptState, dir: Number, name: &Name) -> bool
    ensures { result ≡ is_free kept.now.state dir name.now }
{
    is_free(kept.tree(), dir, name)
}

/// `is_made_holder` of the tree of a state.
fn is_holder(kept: &KeptState, dir: Number) -> bool
    ensures { result ≡ is_made_holder kept.now.state dir }
{
    is_made_holder(kept.tree(), dir)
}

/// `may_ask` of the tree of a state.
fn names_directories(kept: &KeptState, query: &Query<Number>) -> bool
    ensures { result ≡ may_ask kept.now.state query.now }
{
    may_ask(kept.tree(), query)
}

/// Whether an entry may go to a directory under a name, limits and queries left out.
fn may_go(tree: &Tree, entry: Number, dir: Number, name: &Name) -> bool
    ensures { result ≡ is_placed tree.now.state (Event.Mv entry dir name.now) }
{
    tree.has_entry(entry)
        && !tree.is_document(entry)
        && is_free(tree, dir, name)
        && !tree.is_inside(dir, entry)
}
