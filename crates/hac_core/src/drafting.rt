//! What is known of a command that nothing blocks.
ghost use Rattle.std.specs.Prelude.{◌≡◌, IfOk, IfErr, IsTrue, None};
ghost use Rattle.hac_model.specs.Run.Answers.{Passes, Refuses};
ghost use Rattle.hac_model.specs.Run.Asks.{asks};
ghost use Rattle.hac_model.specs.Run.Refusals.{blocking_cause, early_cause};
ghost use Rattle.hac_model.specs.Run.Standing.{AllStand};
ghost use Rattle.hac_core.specs.Drafts.{IsChange, IsCounted, IsDraftFor, IsKnownOf};
ghost use Rattle.hac_core.specs.Drafts.{change_cause};
ghost use Rattle.tree_counts.specs.Seated.{is_seated};

use crate::cycles::require_acyclic;
use crate::drafts::{Change, Draft, Known};
use crate::events::{Made, made_by};
use crate::questions::asks_of;
use event_check::{counts_after, within};
use hac_model::{Asks, Deny, Event, Resolved};
use kept_lookups::version;
use kept_state::KeptState;
use std::alloc::Global;

/// What is known of a command that nothing blocks and what it asks spaces, unless it would exceed a
/// limit on the tree itself or let a directory depend on itself, whatever spaces answer.
pub fn drafted(alloc: Global, kept: &KeptState, command: Resolved) -> Result<Draft, Deny>
    requires stands { AllStand kept.now.state command }
    requires free { blocking_cause kept.now.state command ≡ None }
    ensures draft { IfOk result (IsDraftFor kept.now.state command) }
    ensures refused { IfErr result (λ deny. Refuses deny (early_cause kept.now.state command)) }
{
    match asks_of(alloc, kept, &command) {
        Ok(asked) => drafted_with(alloc, kept, command, asked),
        Err(memory) => {
            drop(command);
            Err(memory.into())
        }
    }
}

/// The same, given what the command asks spaces.
fn drafted_with(
    alloc: Global,
    kept: &KeptState,
    command: Resolved,
    asked: Asks,
) -> Result<Draft, Deny>
    requires stands { AllStand kept.now.state command }
    requires free { blocking_cause kept.now.state command ≡ None }
    requires asks { asked ≡ asks kept.now.state command }
    ensures draft { IfOk result (IsDraftFor kept.now.state command) }
    ensures refused { IfErr result (λ deny. Refuses deny (early_cause kept.now.state command)) }
{
    match known_of(alloc, kept, command) {
        Ok(known) => Ok(Draft::new(known, asked)),
        Err(deny) => {
            drop(asked);
            Err(deny)
        }
    }
}

/// What is known of the command.
fn known_of(alloc: Global, kept: &KeptState, command: Resolved) -> Result<Known, Deny>
    requires stands { AllStand kept.now.state command }
    requires free { blocking_cause kept.now.state command ≡ None }
    ensures known { IfOk result (IsKnownOf kept.now.state command) }
    ensures refused { IfErr result (λ deny. Refuses deny (early_cause kept.now.state command)) }
{
    kept.know_valid();
    match made_by(alloc, kept, command) {
        Made::Event(event) => changing(alloc, kept, event),
        Made::Steps(count) => Ok(Known::Indexes(count)),
        Made::Area => Ok(Known::Saves),
        Made::Nothing(command) => Ok(Known::Reads(command)),
    }
}

/// The event with its counts, unless a limit on the tree or a cycle stands against it.
fn changing(alloc: Global, kept: &KeptState, event: Event) -> Result<Known, Deny>
    requires { IsTrue (is_seated kept.now.state event) }
    ensures known { IfOk result (λ known. IsChange kept.now.state event known) }
    ensures passes { Passes result (change_cause kept.now.state event) }
{
    let counts = counts_after(kept, &event);
    let change = Change { event, counts };
    match require_permitted(alloc, kept, &change) {
        Ok(()) => Ok(Known::Changes(change)),
        Err(deny) => {
            drop(change);
            Err(deny)
        }
    }
}

/// Denies a change that would exceed a limit on the tree itself or let a directory depend on
/// itself.
fn require_permitted(alloc: Global, kept: &KeptState, change: &Change) -> Result<(), Deny>
    requires { IsCounted kept.now.state change.now }
    ensures { Passes result (change_cause kept.now.state change.now.event) }
{
    within(&change.counts.layout_limits(version(kept)))?;
    require_acyclic(alloc, kept, &change.event)
}
