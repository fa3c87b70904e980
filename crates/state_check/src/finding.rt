//! What can be marked, and what a mount has, found among entries whose numbers rise.
ghost use Rattle.std.specs.Prelude.{◌≡◌};
ghost use Rattle.hac_model.specs.Tree.Links as links;
ghost use Rattle.hac_model.specs.Tree.Mounting as mounting;
ghost use Rattle.layout_check.specs.Rising.{DoRise};

use hac_model::{Number, State};
use layout_check::{entry_at, is_directory_at, is_document, is_linkable};

/// Whether users may add what has the number to a semantic directory.
pub(crate) fn can_be_added(state: &State, number: Number) -> bool
    requires { DoRise state.now.entries }
    ensures { result ≡ links.can_be_added state.now number }
{
    is_item(state, number) || is_directory_at(state.entries.as_slice(), number)
}

/// Whether a file or a document has the number.
pub(crate) fn is_item(state: &State, number: Number) -> bool
    requires { DoRise state.now.entries }
    ensures { result ≡ links.is_item state.now number }
{
    match entry_at(state.entries.as_slice(), number) {
        Some(entry) => is_linkable(&entry.body),
        None => false,
    }
}

/// Whether the number is that of a document of a mount.
pub(crate) fn is_document_of(state: &State, mount: Number, number: Number) -> bool
    requires { DoRise state.now.entries }
    ensures { result ≡ mounting.is_document_of state.now mount number }
{
    match entry_at(state.entries.as_slice(), number) {
        Some(entry) => is_document(&entry.body) && entry.parent == mount,
        None => false,
    }
}
