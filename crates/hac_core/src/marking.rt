//! What blocks a mark, and the removal of a directory to which another refers.
ghost use Rattle.std.specs.Prelude.{IsTrue};
ghost use Rattle.hac_model.specs.Run.Answers.{Passes};
ghost use Rattle.hac_model.specs.Run.Refusals.{already_cause, referenced_cause, unlinked_cause};
ghost use Rattle.hac_model.specs.Run.Refusals.{unmarked_cause};
ghost use Rattle.hac_model.specs.Tree.{is_directory_at};

use hac_model::{Deny, Number, Refusal};
use kept_links::LinkedState;
use kept_state::KeptState;
use std::alloc::Global;
use tree_answers::{is_linked, is_marked, is_permanent, least_referrer};

/// The item or directory isn't a permanent link yet.
pub fn require_not_permanent(kept: &KeptState, item: Number, dir: Number) -> Result<(), Deny>
    ensures { Passes result (already_cause kept.now.state item dir) }
{
    if is_permanent(kept, dir, item) {
        return Err(Deny::Refused(Refusal::Already(kept.path_of(item)?)));
    }
    Ok(())
}

/// The item is a link, added or found.
pub fn require_link(linked: &LinkedState, item: Number, dir: Number) -> Result<(), Deny>
    ensures { Passes result (unlinked_cause linked.now.state item dir) }
{
    if is_linked(linked, dir, item) {
        return Ok(());
    }
    Err(Deny::Refused(Refusal::NotLinked(linked.kept().path_of(item)?)))
}

/// The item or directory has a mark.
pub fn require_marked(kept: &KeptState, item: Number, dir: Number) -> Result<(), Deny>
    ensures { Passes result (unmarked_cause kept.now.state item dir) }
{
    if is_marked(kept, dir, item) {
        return Ok(());
    }
    Err(Deny::Refused(Refusal::NoMark(kept.path_of(item)?)))
}

/// No directory refers to one that is to be removed. Where some do, the refusal has the least path
/// of such a directory.
pub fn require_unreferenced(alloc: Global, kept: &KeptState, dir: Number) -> Result<(), Deny>
    requires { IsTrue (is_directory_at kept.now.state.entries dir) }
    ensures { Passes result (referenced_cause kept.now.state dir) }
{
    match least_referrer(alloc, kept, dir)? {
        Some(path) => Err(Deny::Refused(Refusal::Referenced(path))),
        None => Ok(()),
    }
}
