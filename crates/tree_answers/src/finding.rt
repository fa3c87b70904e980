//! What directories find and provide, by the links that are kept.
ghost use Rattle.std.specs.Prelude.{◌≡◌, if◌then◌else◌, is_some};
ghost use Rattle.hac_model.specs.Tree.Links.{column, has, kind, links, provide, shown_of};
ghost use Rattle.hac_model.specs.Tree.Links.{transient_at};
ghost use Rattle.tree_answers.specs.Finding.{is_judged_item};

use hac_model::{Kind, Member, Number};
use kept_links::LinkedState;
use kept_lookups::{is_document, is_item, shown_of};
use kept_state::KeptState;
use scope_rules::{has_found, provides};

/// What directories provide.
#[derive(Clone, Copy)]
pub struct Sight<'a> {
    /// The state.
    pub linked: &'a LinkedState,
}

impl<'a> Member for Sight<'a> {
    ghost provides = { λ sight dir item. provide sight.linked.now.state
        (column (links sight.linked.now.state) item) dir item };

    fn within(&self, dir: Number, item: Number) -> bool {
        is_provided(self.linked, dir, item)
    }
}

/// Whether a directory found an item.
#[tactic(auto, using(crate::proofs::FindingLemmas::found_kept))]
pub fn is_found(linked: &LinkedState, dir: Number, item: Number) -> bool
    ensures { result ≡ has (transient_at linked.now.state dir) item }
{
    has_found(linked.links(), dir, item)
}

/// Whether a directory provides an item.
fn is_provided(linked: &LinkedState, dir: Number, item: Number) -> bool
    ensures { result ≡ provide linked.now.state (column (links linked.now.state) item) dir item }
{
    let kept = linked.kept();
    provides(kept.tree(), kept.marks(), linked.links(), dir, item)
}

/// How an item or a directory is linked in a directory.
#[tactic(auto, unfolding(hac_model::specs::Tree::Links::kind))]
pub fn kind_of(linked: &LinkedState, dir: Number, item: Number) -> Kind
    ensures { result ≡ kind linked.now.state dir item }
{
    match linked.kept().mark(dir, item) {
        Kind::Unlinked => found_kind(linked, dir, item),
        mark => mark,
    }
}

/// The kind of a link that was found, or that of what isn't linked.
fn found_kind(linked: &LinkedState, dir: Number, item: Number) -> Kind
    ensures { result ≡ (if has (transient_at linked.now.state dir) item
        then Kind.Transient else Kind.Unlinked) }
{
    if is_found(linked, dir, item) {
        Kind::Transient
    } else {
        Kind::Unlinked
    }
}

/// Whether a number is that of an item that queries judge: a document, or a file that was indexed.
pub fn is_judged_item(kept: &KeptState, number: Number) -> bool
    ensures { result ≡ is_judged_item kept.now.state number }
{
    is_item(kept, number) && (is_document(kept, number) || is_shown(kept, number))
}

/// Whether an item was indexed.
fn is_shown(kept: &KeptState, item: Number) -> bool
    ensures { result ≡ is_some (shown_of kept.now.state item) }
{
    matches!(shown_of(kept, item), Some(_))
}
