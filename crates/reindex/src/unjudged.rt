//! The state in which no query judges any item, as one from which links are found.
ghost use Rattle.std.specs.Prelude.{◌≡◌, ◌&&◌, ◌||◌, ℕ};
ghost use Rattle.hac_model.specs.Tree.Links.{is_below, is_item, is_permanent, is_semantic};
ghost use Rattle.reeval.specs.Judging.{no_verdict, verdict_of};

use crate::indexing::is_added;
use hac_model::Number;
use kept_lookups::{is_below, query_at};
use kept_state::KeptState;
use reeval::{Before, Verdict};
use std::marker::Model;

/// A state in which no directory was added to another, seen as that in which no item was ever
/// indexed. No directory says anything of any item then.
#[derive(Drop)]
pub(crate) struct Unjudged<'a> {
    pub(crate) kept: &'a KeptState,
}

impl<'a> Model for Unjudged<'a> {
    ghost use Rattle.hac_model.specs.declared.states.State.{State};
    ghost use Rattle.hac_model.specs.contracts.states.State as state;

    ghost Value = { State };

    ghost coded = { state.the_row.coded };

    ghost use Rattle.reindex.specs.Anew.{state_of_unjudged, IsUnlent};

    ghost view = { state_of_unjudged };

    ghost invariant = { IsUnlent };
}

impl<'a> Unjudged<'a> {
    /// No directory says anything. This does nothing: it is called where a proof has to know so.
    fn know_none(&self)
        ensures { (item dir : ℕ) → no_verdict ≡ verdict_of self.now item dir }
    {
        let _kept = self.kept;
    }
}

impl<'a> Before for Unjudged<'a> {
    ghost state = { λ unjudged. unjudged };

    fn verdict(&self, _dir: Number, _item: Number) -> Verdict {
        self.know_none();
        Verdict {
            found: false,
            lent: false,
        }
    }

    fn provides(&self, dir: Number, item: Number) -> bool {
        has_own(self.kept, dir, item)
    }
}

/// Whether an item is stored below a directory, or was added to it.
fn has_own(kept: &KeptState, dir: Number, item: Number) -> bool
    ensures { result ≡ (is_below kept.now.state dir item || (is_semantic kept.now.state dir
        && (is_permanent kept.now.state dir item && is_item kept.now.state item))) }
{
    is_below(kept, item, dir) || (query_at(kept, dir).is_some() && is_added(kept, dir, item))
}
