//! Whether a state is valid, by its parts.
ghost use Rattle.std.specs.Prelude.{◌≡◌, [], IfOk};
ghost use Rattle.hac_model.specs.Tree.ValidTest.{is_valid};
ghost use Rattle.layout_check.specs.Rising.{DoRise};
ghost use Rattle.state_check.specs.Fitting.{do_bodies_fit};

use crate::answers::do_keep_well;
use crate::asking::do_ask_well;
use crate::counting::are_answers_few;
use crate::cycles::is_acyclic;
use hac_model::{Memory, State};
use layout_check::is_layout;
use std::alloc::Global;

/// Whether a state is valid that has no sessions. It takes time that is linear in what the state
/// holds, but for logarithms, since a state with more mounts than there may be isn't looked into.
#[tactic(auto, using(crate::proofs::ListLemmas::layout_rises))]
pub fn is_valid(alloc: Global, state: &State) -> Result<bool, Memory>
    requires sessions { state.now.sessions ≡ [] }
    ensures { IfOk result (λ told. told ≡ is_valid state.now) }
{
    if !is_layout(alloc, state)? {
        return Ok(false);
    }
    if !do_bodies_fit(state) {
        return Ok(false);
    }
    is_acyclic(alloc, state)
}

/// Whether the queries, marks and kept answers of a state are sound.
fn do_bodies_fit(state: &State) -> bool
    requires { DoRise state.now.entries }
    ensures { result ≡ do_bodies_fit state.now }
{
    do_ask_well(state) && do_keep_well(state) && are_answers_few(state.entries.as_slice())
}
