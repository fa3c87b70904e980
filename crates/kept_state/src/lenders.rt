//! The directories that users added to a semantic directory.
ghost use Rattle.std.specs.Prelude.{◌≡◌};
ghost use Rattle.hac_model.specs.Tree.Links.{lenders};
ghost use Rattle.kept_state.specs.Parts.{IsLinked, state_of};

use crate::parts::Parts;
use hac_model::Number;
use kept_facts::lenders::{behind_first, behind_named};

/// The directories that users added to a directory, in order of number.
pub fn lenders(kept: &Parts, dir: Number) -> &[Number]
    requires { IsLinked kept.now }
    ensures { result.now ≡ lenders (state_of kept.now) dir }
{
    match kept.tree.query(dir) {
        Some(query) => behind_named(behind_first(kept.graph.edges(dir)), query),
        None => &[],
    }
}
