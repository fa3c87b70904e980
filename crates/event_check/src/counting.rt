//! How much the state holds after an event, and the limits on it.
ghost use Rattle.std.specs.Prelude.{◌≡◌, ◌++◌, IsTrue};
ghost use Rattle.std.specs.Option.{option_map};
ghost use Rattle.hac_model.specs.Run.Answers.{Passes};
ghost use Rattle.hac_model.specs.Tree.Events.{apply};
ghost use Rattle.hac_model.specs.Tree.Limits.{answer_limits, counts, first_passed, layout_limits};
ghost use Rattle.tree_counts.specs.Seated.{is_seated};

use hac_model::{Counts, Deny, Event, Limit, Refusal, Version, first_passed};
use kept_state::KeptState;

/// How much the state would hold after an event. What it refers to is in the tree; spaces may not
/// have answered yet, as the tree holds nothing of what they are asked for terms.
pub fn counts_after(kept: &KeptState, event: &Event) -> Counts
    requires { IsTrue (is_seated kept.now.state event.now) }
    ensures { result ≡ counts (apply kept.now.state event.now) }
{
    tree_counts::counts_after(kept.tree(), event)
}

/// Denies what exceeds a limit, by the first such limit.
pub fn within(limits: &[Limit]) -> Result<(), Deny>
    ensures { Passes result (option_map Refusal.Limit (first_passed limits.now)) }
{
    match first_passed(limits) {
        Some(word) => Err(Deny::Refused(Refusal::Limit(word))),
        None => Ok(()),
    }
}

/// Denies counts that exceed a limit of a version, by the first such limit of all.
pub fn within_all(version: Version, counts: Counts) -> Result<(), Deny>
    ensures { Passes result (option_map Refusal.Limit
        (first_passed (layout_limits version counts ++ answer_limits version counts))) }
{
    match within(&counts.layout_limits(version)) {
        Ok(()) => within(&counts.answer_limits(version)),
        Err(deny) => Err(deny),
    }
}
