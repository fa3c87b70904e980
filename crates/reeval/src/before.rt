//! What is known of the links before a change.
ghost use Rattle.std.specs.Prelude.{◌≡◌, ℕ, Bool};
ghost use Rattle.hac_model.specs.Tree.{empty};
ghost use Rattle.hac_model.specs.Tree.Links.{column, links, provide};
ghost use Rattle.reeval.specs.Judging.{verdict_of};

use crate::verdicts::Verdict;
use hac_model::Number;

/// Knows the links of a state.
pub trait Before {
    ghost use Rattle.hac_model.specs.declared.states.State.{State};

    /// The state.
    ghost state: { Self → State };

    /// What its links say of an item in a directory.
    fn verdict(&self, dir: Number, item: Number) -> Verdict
        ensures { result ≡ verdict_of (state self.now) item dir };

    /// Whether a directory provides an item.
    fn provides(&self, dir: Number, item: Number) -> bool
        ensures { result ≡ provide (state self.now) (column (links (state self.now)) item)
            dir item };
}

/// Knows the links of the root alone: there are none.
#[derive(Clone, Copy, Debug)]
pub struct Blank;

impl Before for Blank {
    ghost state = { λ _. empty };

    fn verdict(&self, _dir: Number, _item: Number) -> Verdict {
        Verdict {
            found: false,
            lent: false,
        }
    }

    fn provides(&self, _dir: Number, _item: Number) -> bool {
        false
    }
}
