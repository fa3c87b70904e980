//! The links as they are kept, while those after an event are found.
ghost use Rattle.std.specs.Prelude.{◌≡◌, ◌&&◌};

use hac_model::Number;
use kept_state::KeptState;
use link_kinds::Links;
use reeval::{Before, Verdict};
use scope_rules::{has_found, has_lent, provides};
use std::marker::Model;

/// A state and its links, seen as the state.
#[derive(Drop)]
pub struct Past<'a> {
    /// The state.
    pub kept: &'a KeptState,
    /// Its links.
    pub found: &'a Links,
}

impl<'a> Model for Past<'a> {
    ghost use Rattle.hac_model.specs.declared.states.State.{State};
    ghost use Rattle.hac_model.specs.contracts.states.State as state;

    ghost Value = { State };

    ghost coded = { state.the_row.coded };

    ghost use Rattle.reindex.specs.Past.{state_of_past, IsPast};

    ghost view = { state_of_past };

    ghost invariant = { IsPast };
}

impl<'a> Before for Past<'a> {
    ghost state = { λ past. past };

    fn verdict(&self, dir: Number, item: Number) -> Verdict {
        Verdict {
            found: has_found(self.found, dir, item),
            lent: has_lent(self.found, dir, item),
        }
    }

    fn provides(&self, dir: Number, item: Number) -> bool {
        provides(self.kept.tree(), self.kept.marks(), self.found, dir, item)
    }
}
