//! Whether what entries are fits together.
ghost use Rattle.std.specs.Prelude.{◌≡◌, length, true};
ghost use Rattle.std.specs.List.{list_all};
ghost use Rattle.std.specs.Option.{option_copied, option_map_or};
ghost use Rattle.hac_model.specs.Script.PathWords as words;
ghost use Rattle.hac_model.specs.Tree.Limits as limits;
ghost use Rattle.hac_model.specs.Tree.ValidTest as valid;

use hac_model::{Body, Entry, TARGET_LIMIT, TEXT_LIMIT, Text};
use hac_names::{has_long_part, is_bad, is_space_name};

/// Whether the body of each entry is sound.
pub(crate) fn are_sound(entries: &[Entry]) -> bool
    ensures { result ≡ list_all (λ entry. valid.is_sound entry.body) entries.now }
{
    entries.iter().all(|entry| is_sound(&entry.body))
}

/// Whether the parts of a body fit together.
fn is_sound(body: &Body) -> bool
    ensures { result ≡ valid.is_sound body.now }
{
    match body {
        Body::File { text, dirty, shown } => is_sound_file(text, *dirty, shown.as_ref()),
        Body::Symlink { target } => is_target(target),
        Body::Mount { space, .. } => is_space_name(space.as_bytes()),
        Body::Dir | Body::Semantic { .. } | Body::Document => true,
    }
}

/// Whether texts are no longer than they may be, and a clean file shows its text.
fn is_sound_file(text: &Text, dirty: bool, shown: Option<&Text>) -> bool
    ensures { result ≡ valid.is_sound_file text.now dirty (option_copied shown.entry) }
{
    match shown {
        Some(shown) => is_text(text) && is_text(shown) && (dirty || shown == text),
        None => is_text(text) && dirty,
    }
}

/// Whether the bytes may be a file's text.
fn is_text(text: &Text) -> bool
    ensures { result ≡ limits.is_text text.now }
{
    len(text) <= TEXT_LIMIT
}

/// Whether the bytes may be the target of a symbolic link.
fn is_target(target: &Text) -> bool
    ensures { result ≡ words.is_target target.now }
{
    let bytes = target.as_slice();
    len(target) <= TARGET_LIMIT && !is_bad(bytes) && !has_long_part(bytes)
}

/// How many bytes there are.
pub(crate) fn len(text: &Text) -> u64
    ensures { result ≡ length text.now }
{
    text.as_slice().len() as u64
}
