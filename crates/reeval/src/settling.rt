//! The new verdicts on one item.
ghost use Rattle.std.specs.Prelude.{◌≡◌, ◌≤◌, ◌+◌, ◌*◌, ◌||◌, ◌&&◌, ◌==◌, ℕ, IfOk, OnOk};
ghost use Rattle.std.specs.Prelude.{if◌then◌else◌, length, not, true, false};
ghost use Rattle.std.specs.List.{list_all, list_any};
ghost use Rattle.std.proofs.Math.Bool.{beq};
ghost use Rattle.dep_graph.specs.Searches.{EachOnce};
ghost use Rattle.hac_model.specs.Tree.Costs.{terms_at};
ghost use Rattle.hac_model.specs.Tree.Depends.{Among, depends};
ghost use Rattle.hac_model.specs.Tree.Links.{column, has, links, provide};
ghost use Rattle.reeval.specs.Judging.{is_linked, judgement, verdict_of};
ghost use Rattle.reeval.specs.Probes.{is_moved, terms_along, terms_asked, terms_settled};
ghost use Rattle.reeval.specs.Routes.{Covers};
ghost use Rattle.reeval.specs.Settled.{AreFresh, SettlesAll};
ghost use Rattle.reeval.specs.Told.{is_on, told};

use crate::before::Before;
use crate::judging::Sight;
use crate::layout::Layout;
use crate::verdicts::Change;
use hac_model::{Member, Memory, Number};
use hac_outside::Steps;
use std::alloc::Global;
use std::sync::ledger::Ledger;

/// A directory at which an item may have to be judged again.
#[derive(Clone, Copy, Debug)]
pub struct Stop {
    /// The directory.
    pub dir: Number,
    /// It has to be in any case, and not only if one on which it depends provides the item now and
    /// didn't before, or the other way round.
    pub begins: bool,
    /// Where judging begins, only what is lent to the directory may be new: its query is asked
    /// again only if a directory on which it depends moved, as where judging doesn't begin.
    pub ties: bool,
    /// It may depend on another directory of the way.
    pub leans: bool,
}

/// The verdicts on an item that are new in the next state. The stops come in an order in which each
/// is behind those on which it depends; wherever judging may change, it stops. Each query is asked
/// once at most; where the item doesn't move, only those by which judging begins.
pub fn settle<Y: Layout, B: Before, L: Ledger>(
    alloc: Global,
    layout: &Y,
    before: &B,
    stops: &[Stop],
    item: Number,
    probes: &mut Steps<L>,
) -> Result<Vec<Change>, Memory>
    ensures own { IfOk result (λ news. list_all (is_on item) news.items ≡ true) }
    ensures news { Covers (B.state before.now) (Y.state layout.now) stops.now item
        → IfOk result (λ news. (dir : ℕ) →
        told news.items (verdict_of (B.state before.now) item) dir
        ≡ verdict_of (Y.state layout.now) item dir) }
    ensures fresh { Covers (B.state before.now) (Y.state layout.now) stops.now item
        → IfOk result (λ news. AreFresh (B.state before.now) news.items) }
    ensures most { probes.new ≤ probes.old + terms_along (Y.state layout.now) stops.now }
    ensures few { Covers (B.state before.now) (Y.state layout.now) stops.now item
        → is_moved (B.state before.now) (Y.state layout.now) stops.now item ≡ false
        → probes.new ≤ probes.old + terms_asked (Y.state layout.now) stops.now }
{
    let leans = any_leans(stops);
    let mut news = Vec::new(alloc);
    let mut moved = Vec::new(alloc);
    for stop in stops {
        if stop.begins || leans_on(layout, stop, moved.as_slice()) {
            let asks = asks(layout, stop, moved.as_slice());
            judge_anew(layout, before, stop.dir, item, asks, &mut news, probes)?;
            note_move(
                layout,
                before,
                news.as_slice(),
                stop.dir,
                item,
                leans,
                &mut moved,
            )?;
        }
    }
    Ok(news)
}

/// Settles several items, each by itself and each once: adds what is new of them to the changes. No
/// links of an item depend on those of another.
pub fn settle_all<Y: Layout, B: Before, L: Ledger>(
    alloc: Global,
    layout: &Y,
    before: &B,
    stops: &[Stop],
    items: &[Number],
    delta: &mut Vec<Change>,
    probes: &mut Steps<L>,
) -> Result<(), Memory>
    requires { EachOnce items.now }
    ensures settled { OnOk result (SettlesAll (B.state before.now) (Y.state layout.now) stops.now items.now
        delta.old.items delta.new.items) }
    ensures most { probes.new ≤ probes.old
        + length items.now * terms_along (Y.state layout.now) stops.now }
    ensures few { ((item : ℕ)
        → Among items.now item → Covers (B.state before.now) (Y.state layout.now) stops.now item)
        → probes.new ≤ probes.old
        + terms_settled (B.state before.now) (Y.state layout.now) stops.now items.now }
{
    for item in items {
        let news = settle(alloc, layout, before, stops, *item, probes)?;
        delta.extend_from_slice(news.as_slice())?;
    }
    Ok(())
}

/// Whether some stop may depend on another. If none does, nobody asks what moved.
fn any_leans(stops: &[Stop]) -> bool
    ensures { result ≡ list_any (λ stop. stop.leans) stops.now }
{
    stops.iter().any(|stop| stop.leans)
}

/// Whether the directory of a stop depends on one of those that moved. Where it depends on no other
/// of the way, nothing is looked up.
fn leans_on<Y: Layout>(layout: &Y, stop: &Stop, moved: &[Number]) -> bool
    ensures { result ≡ (stop.now.leans
        && list_any (has moved.now) (depends (Y.state layout.now) stop.now.dir)) }
{
    stop.leans && depends_on(layout, stop.dir, moved)
}

/// Whether the query of a stop is asked: only what is lent to its directory may be new, unless that
/// depends on one of those that moved.
fn asks<Y: Layout>(layout: &Y, stop: &Stop, moved: &[Number]) -> bool
    ensures { result ≡ (not stop.now.ties || (stop.now.leans
        && list_any (has moved.now) (depends (Y.state layout.now) stop.now.dir))) }
{
    !stop.ties || leans_on(layout, stop, moved)
}

/// Whether a directory depends on one of these. Where there are none, nothing is looked up.
fn depends_on<Y: Layout>(layout: &Y, dir: Number, dirs: &[Number]) -> bool
    ensures { result ≡ list_any (has dirs.now) (depends (Y.state layout.now) dir) }
{
    !dirs.is_empty() && layout.depends(dir).iter().any(|above| dirs.contains(above))
}

/// Judges an item in a directory, and adds what it says to the news if that is new. Where its query
/// is not asked, what it finds is known.
fn judge_anew<Y: Layout, B: Before, L: Ledger>(
    layout: &Y,
    before: &B,
    dir: Number,
    item: Number,
    asks: bool,
    news: &mut Vec<Change>,
    probes: &mut Steps<L>,
) -> Result<(), Memory>
    ensures own { OnOk result (list_all (is_on item) news.old.items ≡ true
        → list_all (is_on item) news.new.items ≡ true) }
    ensures news { OnOk result ((asks ≡ false → (told news.old.items (verdict_of (B.state before.now) item) dir).found
        ≡ (judgement (Y.state layout.now)
        (is_linked (told news.old.items (verdict_of (B.state before.now) item))) item dir).found)
        → (d : ℕ) → told news.new.items (verdict_of (B.state before.now) item) d
        ≡ (if d == dir then judgement (Y.state layout.now)
        (is_linked (told news.old.items (verdict_of (B.state before.now) item))) item dir
        else told news.old.items (verdict_of (B.state before.now) item) d)) }
    ensures fresh { OnOk result (told news.old.items (verdict_of (B.state before.now) item) dir
        ≡ verdict_of (B.state before.now) item dir
        → AreFresh (B.state before.now) news.old.items → AreFresh (B.state before.now) news.new.items) }
    ensures probes { probes.new ≤ probes.old
        + (if asks then terms_at (Y.state layout.now) dir else 0) }
{
    let sight = Sight {
        layout,
        before,
        news: news.as_slice(),
    };
    let verdict = sight.judge(dir, item, asks, probes);
    if !verdict.is_same(sight.verdict(dir, item)) {
        news.push(Change { dir, item, verdict })?;
    }
    Ok(())
}

/// Adds a directory to those that moved, if it provides the item now and didn't before, or the
/// other way round. Where no stop leans on another nothing is added, and nothing looked up.
fn note_move<Y: Layout, B: Before>(
    layout: &Y,
    before: &B,
    news: &[Change],
    dir: Number,
    item: Number,
    leans: bool,
    moved: &mut Vec<Number>,
) -> Result<(), Memory>
    ensures { OnOk result ((d : ℕ) → has moved.new.items d ≡ (has moved.old.items d || (leans
        && (dir == d && not (beq
        (provide (B.state before.now) (column (links (B.state before.now)) item) dir item)
        (provide (Y.state layout.now)
        (is_linked (told news.now (verdict_of (B.state before.now) item))) dir item)))))) }
{
    let sight = Sight {
        layout,
        before,
        news,
    };
    if leans && before.provides(dir, item) != sight.within(dir, item) {
        moved.push(dir)?;
    }
    Ok(())
}
