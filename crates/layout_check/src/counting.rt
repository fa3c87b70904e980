//! How much a state holds, and whether it exceeds a limit.
ghost use Rattle.std.specs.Prelude.{◌≡◌, is_none};
ghost use Rattle.hac_model.specs.Tree.Limits as limits;
ghost use Rattle.hac_model.specs.Tree.Limits.{first_passed};
ghost use Rattle.hac_model.specs.Tree.Valid.{IsLayout};
ghost use Rattle.layout_check.specs.Bounded.{bounded};
ghost use Rattle.layout_check.specs.Rising.{DoRise};

use crate::bodies::len;
use crate::depths::are_paths_short;
use crate::kinds::{
    is_directory, is_dirty, is_file, is_linkable, is_mount, is_semantic, is_symlink,
};
use hac_model::{Body, Counts, Entry, Limit, State, first_passed};

/// Whether a state exceeds no limit.
pub(crate) fn passes_none(state: &State) -> bool
    requires { DoRise state.now.entries }
    ensures { result ≡ is_none (limits.passed_limit state.now) }
{
    let counts = counts(state);
    let version = state.version;
    are_kept(&counts.layout_limits(version)) && are_kept(&counts.answer_limits(version))
}

/// Whether none of the limits is exceeded.
fn are_kept(limits: &[Limit]) -> bool
    ensures { result ≡ is_none (first_passed limits.now) }
{
    first_passed(limits).is_none()
}

/// How much a state holds whose entries fit one another.
pub fn counts_of(state: &State) -> Counts
    requires { IsLayout state.now }
    ensures { result ≡ limits.counts state.now }
{
    counts(state)
}

/// How much a state holds. Where its files have more bytes than a `u64` can count, it is as many
/// as that can.
fn counts(state: &State) -> Counts
    requires { DoRise state.now.entries }
    ensures { result ≡ record (limits.counts state.now) {
      bytes = bounded (limits.text_size state.now.entries);
    } }
{
    let entries = state.entries.as_slice();
    Counts {
        bytes: text_size(entries),
        directories: directory_count(entries),
        semantics: semantic_count(entries),
        mounts: mount_count(entries),
        symlinks: symlink_count(entries),
        files: file_count(entries),
        items: item_count(entries),
        dirty: dirty_count(entries),
        long_paths: long_paths(entries),
        next: state.next.get(),
    }
}

/// The bytes of all files.
fn text_size(entries: &[Entry]) -> u64
    ensures { result ≡ bounded (limits.text_size entries.now) }
{
    let mut size = 0_u64;
    for entry in entries {
        size = size.saturating_add(file_bytes(&entry.body));
    }
    size
}

/// The bytes of a file: the longer of its text and its shown text.
fn file_bytes(body: &Body) -> u64
    ensures { result ≡ limits.file_bytes body.now }
{
    match body {
        Body::File {
            text,
            shown: Some(shown),
            ..
        } => len(text).max(len(shown)),
        Body::File {
            text,
            shown: None,
            ..
        } => len(text),
        _ => 0,
    }
}

/// How many directories there are, with the root.
fn directory_count(entries: &[Entry]) -> u64
    ensures { result ≡ limits.directory_count entries.now }
{
    let count = entries
        .iter()
        .filter(|entry| is_directory(&entry.body))
        .count();
    count as u64 + 1
}

fn semantic_count(entries: &[Entry]) -> u64
    ensures { result ≡ limits.semantic_count entries.now }
{
    entries
        .iter()
        .filter(|entry| is_semantic(&entry.body))
        .count() as u64
}

fn mount_count(entries: &[Entry]) -> u64
    ensures { result ≡ limits.mount_count entries.now }
{
    entries.iter().filter(|entry| is_mount(&entry.body)).count() as u64
}

fn symlink_count(entries: &[Entry]) -> u64
    ensures { result ≡ limits.symlink_count entries.now }
{
    entries
        .iter()
        .filter(|entry| is_symlink(&entry.body))
        .count() as u64
}

fn file_count(entries: &[Entry]) -> u64
    ensures { result ≡ limits.file_count entries.now }
{
    entries.iter().filter(|entry| is_file(&entry.body)).count() as u64
}

fn item_count(entries: &[Entry]) -> u64
    ensures { result ≡ limits.item_count entries.now }
{
    entries
        .iter()
        .filter(|entry| is_linkable(&entry.body))
        .count() as u64
}

fn dirty_count(entries: &[Entry]) -> u64
    ensures { result ≡ limits.dirty_count entries.now }
{
    entries.iter().filter(|entry| is_dirty(&entry.body)).count() as u64
}

/// How many paths are too long: 1 where there is any.
fn long_paths(entries: &[Entry]) -> u64
    requires { DoRise entries.now }
    ensures { result ≡ limits.long_paths entries.now }
{
    u64::from(!are_paths_short(entries))
}
