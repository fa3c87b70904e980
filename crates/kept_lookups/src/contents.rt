//! What entries hold: texts, targets and queries.
ghost use Rattle.std.specs.Prelude.{◌≡◌, option_and_then};
ghost use Rattle.std.specs.Option.{option_copied};
ghost use Rattle.hac_model.specs.Tree.{body_at, target_in, text_in};
ghost use Rattle.hac_model.specs.Tree.Links.{is_semantic, query_at, shown_of};

use hac_model::{Number, Query, Text};
use kept_state::KeptState;

/// The text of a file.
pub fn text_of(kept: &KeptState, file: Number) -> Option<&[u8]>
    ensures { option_copied result ≡ option_and_then text_in (body_at kept.now.state.entries file) }
{
    let tree = kept.tree();
    if tree.is_file(file) {
        Some(tree.text(file))
    } else {
        None
    }
}

/// The text of an item as it was last indexed, if it ever was.
pub fn shown_of(kept: &KeptState, item: Number) -> Option<&[u8]>
    ensures { option_copied result ≡ shown_of kept.now.state item }
{
    kept.tree().shown(item)
}

/// Where a symbolic link leads, as it was given.
pub fn target_of(kept: &KeptState, link: Number) -> Option<&Text>
    ensures { option_copied result ≡ option_and_then target_in
        (body_at kept.now.state.entries link) }
{
    kept.tree().target(link)
}

/// The query of a directory, where it is semantic.
pub fn query_at(kept: &KeptState, dir: Number) -> Option<&Query<Number>>
    ensures { option_copied result ≡ query_at kept.now.state dir }
{
    kept.tree().query(dir)
}

/// Whether a directory has a query.
pub fn is_semantic(kept: &KeptState, dir: Number) -> bool
    ensures { result ≡ is_semantic kept.now.state dir }
{
    query_at(kept, dir).is_some()
}
