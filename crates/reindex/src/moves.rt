//! What is new in the links of items that move or go.
ghost use Rattle.std.specs.Prelude.{◌≡◌, ◌≤◌, ◌+◌, ◌*◌, ℕ, IfOk, false, length, true};
ghost use Rattle.std.specs.List.{list_all};
ghost use Rattle.dep_graph.specs.Searches.{EachOnce};
ghost use Rattle.hac_model.specs.Tree.Costs.{weight};
ghost use Rattle.hac_model.specs.Tree.Depends.{Among};
ghost use Rattle.hac_model.specs.Tree.Links.{is_item};
ghost use Rattle.hac_model.specs.Tree.Valid.{IsValid};
ghost use Rattle.hac_model.specs.declared.states.State.{State};
ghost use Rattle.reeval.specs.Judging.{no_verdict, verdict_of};
ghost use Rattle.reeval.specs.Routes.{dirs_of};
ghost use Rattle.reeval.specs.Settled.{AreFresh};
ghost use Rattle.reeval.specs.Told.{is_on, told};
ghost use Rattle.reindex.specs.Moves.{OnlyMoves, crosses, place_tells};
ghost use Rattle.reindex.specs.Steps.{AreSettled};
ghost use Rattle.reindex.specs.Ways.{IsWayOf, begun_at, needed};

use crate::past::Past;
use crate::ways::Way;
use hac_model::{Memory, Number};
use hac_outside::Steps;
use kept_lookups::is_below;
use kept_state::KeptState;
use reeval::{Before, Change, Layout, Stop, Verdict, settle};
use std::alloc::Global;
use std::sync::ledger::Ledger;

/// What is new of items that move and stay what they are. Each is judged again where its place may
/// tell.
pub fn delta_of_moved<Y: Layout, L: Ledger>(
    alloc: Global,
    layout: &Y,
    past: &Past<'_>,
    way: &Way,
    items: &[Number],
    probes: &mut Steps<L>,
) -> Result<Vec<Change>, Memory>
    requires moves { (item : ℕ) → Among items.now item
        → OnlyMoves past.now (Y.state layout.now) item }
    requires once { EachOnce items.now }
    requires after { IsValid (Y.state layout.now) }
    requires way { IsWayOf (Y.state layout.now) way.now }
    ensures settled { IfOk result (λ delta.
        AreSettled past.now (Y.state layout.now) items.now delta.items) }
    ensures probes { probes.new ≤ probes.old
        + length items.now * weight (Y.state layout.now) }
{
    let mut delta = Vec::new(alloc);
    for item in items {
        let news = news_of_moved(alloc, layout, past, way, *item, probes)?;
        delta.extend_from_slice(news.as_slice())?;
    }
    Ok(delta)
}

/// What is new of one of them. Judging begins at each directory that depends on one that the item
/// leaves or comes to. It goes on at what depends on a directory that now provides the item and
/// didn't, or no longer does.
fn news_of_moved<Y: Layout, L: Ledger>(
    alloc: Global,
    layout: &Y,
    past: &Past<'_>,
    way: &Way,
    item: Number,
    probes: &mut Steps<L>,
) -> Result<Vec<Change>, Memory>
    requires moves { OnlyMoves past.now (Y.state layout.now) item }
    requires after { IsValid (Y.state layout.now) }
    requires way { IsWayOf (Y.state layout.now) way.now }
    ensures own { IfOk result (λ news. list_all (is_on item) news.items ≡ true) }
    ensures news { IfOk result (λ news. (dir : ℕ) → told news.items (verdict_of past.now item) dir
        ≡ verdict_of (Y.state layout.now) item dir) }
    ensures fresh { IfOk result (λ news. AreFresh past.now news.items) }
    ensures probes { probes.new ≤ probes.old + weight (Y.state layout.now) }
{
    past.kept.know_valid();
    let stops = stops_of_moved(alloc, layout, past.kept, way.stops.as_slice(), item)?;
    settle(alloc, layout, past, stops.as_slice(), item, probes)
}

/// The stops at which the item may be judged. Judging begins wherever its place may tell.
fn stops_of_moved<Y: Layout>(
    alloc: Global,
    layout: &Y,
    kept: &KeptState,
    stops: &[Stop],
    item: Number,
) -> Result<Vec<Stop>, Memory>
    ensures { IfOk result (λ moved. moved.items
        ≡ needed (begun_at (place_tells kept.now.state (Y.state layout.now) item) stops.now)) }
{
    let mut moved = Vec::new(alloc);
    for stop in stops {
        let begins = place_tells(layout, kept, stop.dir, item);
        if begins || stop.leans {
            moved.push(Stop { begins, ..*stop })?;
        }
    }
    Ok(moved)
}

/// Whether a directory depends on one that the item leaves or comes to.
fn place_tells<Y: Layout>(layout: &Y, kept: &KeptState, dir: Number, item: Number) -> bool
    ensures { result ≡ place_tells kept.now.state (Y.state layout.now) item dir }
{
    layout
        .depends(dir)
        .iter()
        .any(|above| crosses(layout, kept, *above, item))
}

/// Whether an item leaves a directory or comes to it, at any depth.
fn crosses<Y: Layout>(layout: &Y, kept: &KeptState, dir: Number, item: Number) -> bool
    ensures { result ≡ crosses kept.now.state (Y.state layout.now) item dir }
{
    is_below(kept, item, dir) != layout.is_below(item, dir)
}

/// What is new of items that go: no directory says anything of them. They are judged nowhere.
pub fn delta_of_gone(
    alloc: Global,
    past: &Past<'_>,
    way: &Way,
    items: &[Number],
) -> Result<Vec<Change>, Memory>
    requires once { EachOnce items.now }
    requires way { IsWayOf past.now way.now }
    ensures { (t : State) → IsValid t → ((item : ℕ) → Among items.now item → is_item t item ≡ false)
        → IfOk result (λ delta. AreSettled past.now t items.now delta.items) }
{
    let mut delta = Vec::new(alloc);
    for item in items {
        let news = news_of_gone(alloc, past, way, *item)?;
        delta.extend_from_slice(news.as_slice())?;
    }
    Ok(delta)
}

/// What is new of one of them.
fn news_of_gone(
    alloc: Global,
    past: &Past<'_>,
    way: &Way,
    item: Number,
) -> Result<Vec<Change>, Memory>
    requires { IsWayOf past.now way.now }
    ensures own { IfOk result (λ news. list_all (is_on item) news.items ≡ true) }
    ensures none { IfOk result (λ news. (dir : ℕ)
        → told news.items (verdict_of past.now item) dir ≡ no_verdict) }
    ensures fresh { IfOk result (λ news. AreFresh past.now news.items) }
{
    past.kept.know_valid();
    let none = Verdict {
        found: false,
        lent: false,
    };
    let mut news = Vec::new(alloc);
    for stop in way.stops.as_slice() {
        let dir = stop.dir;
        if past.verdict(dir, item).is_linked() {
            news.push(Change {
                dir,
                item,
                verdict: none,
            })?;
        }
    }
    Ok(news)
}
