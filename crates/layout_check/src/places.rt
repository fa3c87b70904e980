//! Whether entries are where their kinds may be.
ghost use Rattle.std.specs.Prelude.{◌≡◌};
ghost use Rattle.std.specs.List.{list_all};
ghost use Rattle.hac_model.specs.Tree as tree;
ghost use Rattle.hac_model.specs.Tree.Valid as valid;
ghost use Rattle.layout_check.specs.Rising.{DoRise};

use crate::kinds::{is_directory, is_document, is_mount};
use crate::searching::entry_at;
use hac_model::{Entry, Number};

/// Whether each entry is in place.
pub(crate) fn are_in_place(entries: &[Entry]) -> bool
    requires { DoRise entries.now }
    ensures { result ≡ list_all (valid.is_in_place entries.now) entries.now }
{
    entries.iter().all(|entry| is_in_place(entries, entry))
}

/// Whether a document is in a mount, or any other entry in a directory that is none.
fn is_in_place(entries: &[Entry], entry: &Entry) -> bool
    requires { DoRise entries.now }
    ensures { result ≡ valid.is_in_place entries.now entry.now }
{
    let is_in_mount = is_mount_at(entries, entry.parent);
    if is_document(&entry.body) {
        is_in_mount
    } else {
        !is_in_mount && is_directory_at(entries, entry.parent)
    }
}

/// Whether a mount has the number.
fn is_mount_at(entries: &[Entry], number: Number) -> bool
    requires { DoRise entries.now }
    ensures { result ≡ tree.is_mount_at entries.now number }
{
    match entry_at(entries, number) {
        Some(entry) => is_mount(&entry.body),
        None => false,
    }
}

/// Whether the number is that of a directory: the root, or one that was made.
pub fn is_directory_at(entries: &[Entry], number: Number) -> bool
    requires { DoRise entries.now }
    ensures { result ≡ tree.is_directory_at entries.now number }
{
    number == Number::ROOT || is_made_directory(entries, number)
}

/// Whether an entry of the number is a directory.
fn is_made_directory(entries: &[Entry], number: Number) -> bool
    requires { DoRise entries.now }
    ensures { result ≡ tree.is_made_directory entries.now number }
{
    match entry_at(entries, number) {
        Some(entry) => is_directory(&entry.body),
        None => false,
    }
}
