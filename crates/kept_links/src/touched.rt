//! What is new of the items that an event touches, where it changes no link of any other.
ghost use Rattle.std.specs.Prelude.{◌≡◌, ◌≤◌, ◌+◌, ℕ, false, true, IfOk};
ghost use Rattle.hac_model.specs.Tree.Links.{is_item};
ghost use Rattle.hac_model.specs.Tree.Touched.{touches};
ghost use Rattle.kept_links.specs.Coming.{BeginsNowhere, IsBehind, IsComing, cost_of};
ghost use Rattle.kept_links.specs.Coming.{state_before, state_behind};
ghost use Rattle.reindex.specs.Moves.{OnlyMoves};

use crate::coming::Coming;
use crate::outlook::Outlook;
use crate::tasks::task_of_touched;
use crate::transition::Transition;
use hac_model::{Event, Memory};
use hac_outside::Steps;
use reeval::{Change, plan};
use reindex::{Past, delta_of_gone, delta_of_moved};
use std::alloc::Global;
use std::sync::ledger::Ledger;

/// The new verdicts behind an event that begins at no directory. An item that moves is judged where
/// its place may tell, and one that goes is judged nowhere.
pub(crate) fn delta_of_touched<L: Ledger>(
    alloc: Global,
    coming: &Coming<'_>,
    probes: &mut Steps<L>,
) -> Result<Vec<Change>, Memory>
    requires coming { IsComing coming.now }
    requires never { BeginsNowhere coming.now }
    ensures behind { IfOk result (λ delta. IsBehind coming.now delta.items) }
    ensures probes { probes.new ≤ probes.old + cost_of coming.now }
{
    coming.kept.know_valid();
    match coming.event {
        Event::Mv { .. } => delta_of_move(alloc, coming, probes),
        Event::Rm { .. } => delta_of_removal(alloc, coming),
        Event::Sumount { .. } => delta_of_removal(alloc, coming),
        _ => delta_of_task(alloc, coming, probes),
    }
}

/// The same of items that only move.
fn delta_of_move<L: Ledger>(
    alloc: Global,
    coming: &Coming<'_>,
    probes: &mut Steps<L>,
) -> Result<Vec<Change>, Memory>
    requires coming { IsComing coming.now }
    requires never { BeginsNowhere coming.now }
    requires moves { (item : ℕ) →
        OnlyMoves (state_before coming.now) (state_behind coming.now) item }
    ensures behind { IfOk result (λ delta. IsBehind coming.now delta.items) }
    ensures probes { probes.new ≤ probes.old + cost_of coming.now }
{
    let Coming {
        kept,
        found,
        way,
        event,
    } = *coming;
    kept.know_valid();
    let outlook = Outlook::new(kept, event);
    let items = Transition {
        before: kept,
        after: &outlook,
        event,
    }
    .touched_items(alloc)?;
    let past = Past { kept, found };
    let items = items.as_slice();
    delta_of_moved(alloc, &outlook, &past, way, items, probes)
}

/// The same of items that go.
fn delta_of_removal(alloc: Global, coming: &Coming<'_>) -> Result<Vec<Change>, Memory>
    requires coming { IsComing coming.now }
    requires never { BeginsNowhere coming.now }
    requires gone { (item : ℕ) → touches (state_before coming.now) coming.now.event.now item ≡ true
        → is_item (state_behind coming.now) item ≡ false }
    ensures { IfOk result (λ delta. IsBehind coming.now delta.items) }
{
    let Coming {
        kept,
        found,
        way,
        event,
    } = *coming;
    kept.know_valid();
    let outlook = Outlook::new(kept, event);
    let items = Transition {
        before: kept,
        after: &outlook,
        event,
    }
    .touched_items(alloc)?;
    delta_of_gone(alloc, &Past { kept, found }, way, items.as_slice())
}

/// The same of any other event: each item is judged in each directory, or in that of its mark.
fn delta_of_task<L: Ledger>(
    alloc: Global,
    coming: &Coming<'_>,
    probes: &mut Steps<L>,
) -> Result<Vec<Change>, Memory>
    requires coming { IsComing coming.now }
    requires never { BeginsNowhere coming.now }
    ensures behind { IfOk result (λ delta. IsBehind coming.now delta.items) }
    ensures probes { probes.new ≤ probes.old + cost_of coming.now }
{
    let Coming {
        kept,
        found,
        way,
        event,
    } = *coming;
    kept.know_valid();
    let outlook = Outlook::new(kept, event);
    let transition = Transition {
        before: kept,
        after: &outlook,
        event,
    };
    let task = task_of_touched(alloc, &transition, way)?;
    let past = Past { kept, found };
    plan(alloc, &outlook, &past, &task, probes)
}
