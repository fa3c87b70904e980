//! Whether a state's entries fit one another.
ghost use Rattle.std.specs.Prelude.{◌≡◌, IfOk};
ghost use Rattle.hac_model.specs.Tree.ValidTest.{is_layout};

use crate::bodies::are_sound;
use crate::counting::passes_none;
use crate::naming::{are_named, do_names_differ};
use crate::places::are_in_place;
use crate::rising::do_numbers_rise;
use hac_model::{Memory, State};
use std::alloc::Global;

/// Whether the entries of a state fit one another and the next number: whether their numbers rise,
/// each has a name that no other has in its directory, is in a directory where it may be, and fits
/// together itself, and no limit is exceeded. Its time is linear in what the state holds, but for
/// logarithms, whatever that is.
#[tactic(auto, unfolding(hac_model::specs::Tree::ValidTest::is_layout))]
pub fn is_layout(alloc: Global, state: &State) -> Result<bool, Memory>
    ensures { IfOk result (λ told. told ≡ is_layout state.now) }
{
    let entries = state.entries.as_slice();
    if !do_numbers_rise(entries, state.next) {
        return Ok(false);
    }
    if !are_named(entries) || !are_in_place(entries) || !are_sound(entries) {
        return Ok(false);
    }
    Ok(passes_none(state) && do_names_differ(alloc, entries)?)
}
