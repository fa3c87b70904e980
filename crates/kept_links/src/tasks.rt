//! What is judged again after an event, and on which ways.
ghost use Rattle.std.specs.Prelude.{◌≡◌, ◌==◌, ℕ, IfOk, false};
ghost use Rattle.hac_model.specs.Tree.Events.{apply};
ghost use Rattle.hac_model.specs.Tree.Touched.{begins};
ghost use Rattle.hac_model.specs.declared.states.State.{State};
ghost use Rattle.kept_links.specs.Tasks.{AreAlong, IsTaskOf, IsWayFrom, begins_touched, is_tie};
ghost use Rattle.kept_links.specs.Transition.{IsTransition, before, event_of};
ghost use Rattle.kept_state.specs.After.{next_state};
ghost use Rattle.reindex.specs.Ways.{IsWayOf, begun_at, needed};

use crate::outlook::Outlook;
use crate::transition::Transition;
use hac_model::{Event, Memory, Number};
use kept_state::KeptState;
use reeval::{Stop, Task};
use reindex::{Way, stops_from, way_over, with_first};
use std::alloc::Global;

/// The task of an event that begins at no directory: the items that it touches, on the way that is
/// kept.
pub(crate) fn task_of_touched(
    alloc: Global,
    transition: &Transition<'_>,
    way: &Way,
) -> Result<Task, Memory>
    requires transition { IsTransition transition.now }
    requires way { IsWayOf (apply (before transition.now) (event_of transition.now)) way.now }
    requires never { (dir : ℕ) →
        begins (before transition.now) (event_of transition.now) dir ≡ false }
    ensures { IfOk result (IsTaskOf (before transition.now) (event_of transition.now)) }
{
    transition.before.know_valid();
    Ok(Task {
        touched: transition.touched_items(alloc)?,
        everywhere: stops_of_touched(alloc, way, transition.event)?,
        others: Vec::new(alloc),
        along: Vec::new(alloc),
    })
}

/// The stops of the items that an event touches.
fn stops_of_touched(alloc: Global, way: &Way, event: &Event) -> Result<Vec<Stop>, Memory>
    requires { (s : State) × IsWayOf s way.now }
    ensures { IfOk result (λ stops.
        stops.items ≡ needed (begun_at (begins_touched event.now) way.now.stops.items)) }
{
    match event {
        Event::Mark(mark) => stops_only(alloc, way.stops.as_slice(), mark.dir),
        _ => Ok(Vec::from_slice(alloc, way.stops.as_slice())?),
    }
}

/// The stops at which an item may be judged, where judging begins at one directory.
fn stops_only(alloc: Global, stops: &[Stop], dir: Number) -> Result<Vec<Stop>, Memory>
    ensures { IfOk result (λ only.
        only.items ≡ needed (begun_at (λ other. other == dir) stops.now)) }
{
    let mut only = Vec::new(alloc);
    for stop in stops {
        let begins = stop.dir == dir;
        if begins || stop.leans {
            only.push(Stop { begins, ..*stop })?;
        }
    }
    Ok(only)
}

/// The task of an event that begins at a directory: the items that it touches, on the way to all
/// semantic directories behind it, and all others on the way from the first directory.
pub(crate) fn task_from(
    alloc: Global,
    transition: &Transition<'_>,
    way: &Way,
    first: Number,
) -> Result<Task, Memory>
    requires transition { IsTransition transition.now }
    requires next { next_state transition.now.before.now
        ≡ apply (before transition.now) (event_of transition.now) }
    requires way { IsWayOf (apply (before transition.now) (event_of transition.now)) way.now }
    requires begins { (dir : ℕ) →
        begins (before transition.now) (event_of transition.now) dir ≡ (dir == first) }
    ensures { IfOk result (IsTaskOf (before transition.now) (event_of transition.now)) }
{
    let kept = transition.before;
    kept.know_valid();
    let touched = transition.touched_items(alloc)?;
    let others = transition.other_items(alloc)?;
    let along = along(alloc, kept, first, is_tie(transition.event))?;
    Ok(Task {
        touched,
        everywhere: Vec::from_slice(alloc, way.stops.as_slice())?,
        others,
        along,
    })
}

/// The way to all semantic directories behind an event, which begins at a directory.
pub(crate) fn way_next(
    alloc: Global,
    kept: &KeptState,
    outlook: &Outlook<'_>,
    first: Number,
) -> Result<Way, Memory>
    requires { outlook.now ≡ next_state kept.now }
    ensures { IfOk result (λ way. IsWayFrom kept.now.state (next_state kept.now) first way) }
{
    let known = kept.graph().directories()?;
    let dirs = with_first(alloc, first, known.as_slice())?;
    let order = kept.cone_next(alloc, dirs.as_slice())?;
    way_over(alloc, outlook, order.as_slice())
}

/// The way of any other item: from a directory on, where only what is lent to it may be new if it
/// `ties`.
fn along(alloc: Global, kept: &KeptState, first: Number, ties: bool) -> Result<Vec<Stop>, Memory>
    ensures { IfOk result (λ stops. AreAlong (next_state kept.now) first ties stops.items) }
{
    let cone = kept.cone_next(alloc, &[first])?;
    let dirs = with_first(alloc, first, cone.as_slice())?;
    stops_from(alloc, first, ties, dirs.as_slice())
}

/// Whether an event that begins at a directory changes there only what is lent to it: a mark does.
fn is_tie(event: &Event) -> bool
    ensures { result ≡ is_tie event.now }
{
    matches!(event, Event::Mark(_))
}
