//! The text of a file, the target of a symbolic link, and the entries and the path of a directory.
ghost use Rattle.std.specs.Prelude.{◌≡◌, ◌∷◌, [], IfOk, IsSome, Some, map};
ghost use Rattle.std.specs.Option.{option_copied, option_map, option_map_or};
ghost use Rattle.hac_model.specs.Tree.Listing.{children, entry_line, letter};
ghost use Rattle.hac_model.specs.Run.Play.{path_line, text_line, text_lines};
ghost use Rattle.hac_model.specs.Run.Showing.{target_line, target_lines};
ghost use Rattle.hac_model.specs.Tree.{entry_at};
ghost use Rattle.hac_model.specs.declared.states.Body.{Body};
ghost use Rattle.hac_model.specs.Tree.{entry_kind};

use file_tree::Tree;
use hac_model::{Answers, EntryKind, Memory, Name, Number, Text};
use hac_names::{print_path, print_text};
use kept_lookups::{is_document, target_of, text_of};
use kept_state::KeptState;
use std::alloc::Global;

/// The text of a file on one line, or that of a document, as its space answers.
pub fn text_lines(
    alloc: Global,
    kept: &KeptState,
    item: Number,
    answers: &Answers,
) -> Result<Vec<Name>, Memory>
    ensures { IfOk result (λ lines. lines.items
        ≡ text_lines answers.now kept.now.state item) }
{
    if is_document(kept, item) {
        shown_lines(alloc, fetched(answers))
    } else {
        shown_lines(alloc, text_of(kept, item))
    }
}

/// The text that a space answered.
fn fetched(answers: &Answers) -> Option<&[u8]>
    ensures { option_copied result ≡ answers.now.fetched }
{
    match &answers.fetched {
        Some(text) => Some(text.as_slice()),
        None => None,
    }
}

/// A text on one line, where there is one.
fn shown_lines(alloc: Global, text: Option<&[u8]>) -> Result<Vec<Name>, Memory>
    ensures { IfOk result (λ lines. lines.items
        ≡ option_map_or (λ text. text_line text ∷ []) (option_copied text.entry) []) }
{
    let mut lines = Vec::new(alloc);
    if let Some(text) = text {
        lines.push(text_line(alloc, text)?)?;
    }
    Ok(lines)
}

/// A text as it is shown.
fn text_line(alloc: Global, text: &[u8]) -> Result<Name, Memory>
    ensures { IfOk result (λ line. line ≡ text_line text.now) }
{
    let mut line = Vec::from_slice(alloc, b"= ")?;
    line.extend_from_slice(print_text(alloc, text)?.as_slice())?;
    Ok(Name::new(line))
}

/// The target of a symbolic link, on one line.
pub fn target_lines(alloc: Global, kept: &KeptState, link: Number) -> Result<Vec<Name>, Memory>
    ensures { IfOk result (λ lines. lines.items ≡ target_lines kept.now.state link) }
{
    let mut lines = Vec::new(alloc);
    if let Some(target) = target_of(kept, link) {
        lines.push(target_line(alloc, target)?)?;
    }
    Ok(lines)
}

/// A target as it is shown: as it was given.
fn target_line(alloc: Global, target: &Text) -> Result<Name, Memory>
    ensures { IfOk result (λ line. line ≡ target_line target.now) }
{
    let mut line = Vec::from_slice(alloc, b"= ")?;
    line.extend_from_slice(target.as_slice())?;
    Ok(Name::new(line))
}

/// The path of a directory.
pub fn path_lines(alloc: Global, kept: &KeptState, dir: Number) -> Result<Vec<Name>, Memory>
    ensures { IfOk result (λ lines. lines.items ≡ path_line kept.now.state dir ∷ []) }
{
    let mut line = Vec::from_slice(alloc, b"= ")?;
    line.extend_from_slice(print_path(alloc, &kept.path_of(dir)?)?.as_bytes())?;
    let mut lines = Vec::new(alloc);
    lines.push(Name::new(line))?;
    Ok(lines)
}

/// The entries of a directory, in byte order of names.
pub fn child_lines(alloc: Global, kept: &KeptState, dir: Number) -> Result<Vec<Name>, Memory>
    ensures { IfOk result (λ lines. lines.items ≡ map entry_line (children kept.now.state dir)) }
{
    let tree = kept.tree();
    let mut lines = Vec::new(alloc);
    let entries = tree.children(dir);
    'entries: for place in 0..entries.len() {
        lines.push(child_line(alloc, tree, entries.at(place))?)?;
    }
    Ok(lines)
}

/// An entry as it is listed: the letter of its kind, and its name.
fn child_line(alloc: Global, tree: &Tree, entry: Number) -> Result<Name, Memory>
    requires { IsSome (entry_at tree.now.state.entries entry) }
    ensures { IfOk result
        (λ line. option_map entry_line (entry_at tree.now.state.entries entry) ≡ Some line) }
{
    let mut line = Vec::new(alloc);
    line.push(letter(tree.kind(entry)))?;
    line.push(b' ')?;
    line.extend_from_slice(tree.name_of(entry).as_bytes())?;
    Ok(Name::new(line))
}

/// The letter of a kind.
fn letter(kind: EntryKind) -> u8
    ensures { (body : Body) → kind ≡ entry_kind body → result ∷ [] ≡ letter body }
{
    match kind {
        EntryKind::Dir => b'd',
        EntryKind::Symlink => b'l',
        EntryKind::Semantic => b's',
        EntryKind::Mount => b'm',
        EntryKind::File => b'f',
        EntryKind::Document => b'o',
    }
}
