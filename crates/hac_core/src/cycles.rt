//! Events after which a directory would depend on itself.
ghost use Rattle.std.specs.Prelude.{◌≡◌};
ghost use Rattle.hac_model.specs.Run.Answers.{Passes};
ghost use Rattle.hac_model.specs.Run.Refusals.{cycle_against, cycle_by};

use hac_model::{Deny, Event, Number, Refusal};
use kept_state::KeptState;
use std::alloc::Global;

/// Denies an event after which a directory would depend on itself.
pub fn require_acyclic(alloc: Global, kept: &KeptState, event: &Event) -> Result<(), Deny>
    ensures { Passes result (cycle_against kept.now.state event.now) }
{
    let on = match event {
        Event::Setq { dir, query, .. } => kept.cycle_of_query(alloc, *dir, query)?,
        Event::Mv { entry, dir, .. } => kept.cycle_of_move(alloc, *entry, *dir)?,
        Event::Mark(mark) => kept.cycle_of_mark(alloc, mark)?,
        _ => None,
    };
    refuse_cycle(kept, on)
}

/// Refuses a cycle by the directory through which it goes, if one was found.
fn refuse_cycle(kept: &KeptState, on: Option<Number>) -> Result<(), Deny>
    ensures { Passes result (cycle_by kept.now.state on) }
{
    match on {
        Some(dir) => Err(Deny::Refused(Refusal::Cycle(kept.path_of(dir)?))),
        None => Ok(()),
    }
}
