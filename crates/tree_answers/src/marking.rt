//! Marks and links of single items and directories.
ghost use Rattle.std.specs.Prelude.{◌≡◌, ◌||◌};
ghost use Rattle.hac_model.specs.Tree.Events.{may_mark};
ghost use Rattle.hac_model.specs.Tree.Links.{has, is_permanent, is_prohibited, transient_at};

use crate::finding::is_found;
use hac_model::{Kind, Mark, Number};
use kept_links::LinkedState;
use kept_state::KeptState;

/// Whether a mark changes something: an item or a directory becomes permanent where it isn't yet,
/// an item prohibited where it is a link, and what has a mark unmarked. Where an item is to be
/// prohibited, it is given whether the directory finds it.
pub fn may_mark(kept: &KeptState, mark: Mark, found: bool) -> bool
    requires { mark.kind ≡ Kind.Prohibited →
        found ≡ has (transient_at kept.now.state mark.dir) mark.item }
    ensures { result ≡ may_mark kept.now.state mark.dir mark.item mark.kind }
{
    match mark.kind {
        Kind::Permanent => !is_permanent(kept, mark.dir, mark.item),
        Kind::Prohibited => is_permanent(kept, mark.dir, mark.item) || found,
        Kind::Unlinked => is_marked(kept, mark.dir, mark.item),
        Kind::Transient => false,
    }
}

/// Whether an item is a link of a directory, added or found.
pub fn is_linked(linked: &LinkedState, dir: Number, item: Number) -> bool
    ensures { result ≡ is_permanent linked.now.state dir item
        || has (transient_at linked.now.state dir) item }
{
    is_permanent(linked.kept(), dir, item) || is_found(linked, dir, item)
}

/// Whether an item or a directory has a mark in a directory.
#[tactic(auto, using(crate::proofs::MarkingLemmas::no_mark))]
pub fn is_marked(kept: &KeptState, dir: Number, item: Number) -> bool
    ensures { result
        ≡ is_permanent kept.now.state dir item || is_prohibited kept.now.state dir item }
{
    !kept.mark(dir, item).is_unlinked()
}

/// Whether an item or a directory is a permanent link of a directory.
#[tactic(auto, using(crate::proofs::MarkingLemmas::permanent_mark))]
pub fn is_permanent(kept: &KeptState, dir: Number, item: Number) -> bool
    ensures { result ≡ is_permanent kept.now.state dir item }
{
    kept.mark(dir, item).is_permanent()
}
