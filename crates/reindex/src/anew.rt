//! All links of a state, found from nothing.
ghost use Rattle.std.specs.Prelude.{◌≡◌, ◌≤◌, ◌+◌, IfOk, OnOk, Some, if◌then◌else◌};
ghost use Rattle.hac_model.specs.Tree.Costs.{opening, weight};
ghost use Rattle.hac_model.specs.Tree.Links.{has, is_item, shown_of, transient_at};
ghost use Rattle.reeval.specs.Probes.{terms_along};
ghost use Rattle.reeval.specs.Routes.{Covers};
ghost use Rattle.reeval.specs.Settled.{AreLinksOf, AreSetsAsked};
ghost use Rattle.reindex.specs.Anew.{AreAllNews, AreLinksBelow, LendsNothing, unjudged_state};
ghost use Rattle.reindex.specs.Ways.{IsWayOf};

use crate::fitted::Fitted;
use crate::indexing::Indexing;
use crate::texts::stops_fitting;
use crate::unjudged::Unjudged;
use crate::ways::{FEW_STOPS, Way};
use hac_model::{Memory, Number};
use hac_outside::Steps;
use kept_lookups::{is_document, is_item, shown_of};
use kept_state::KeptState;
use link_kinds::Links;
use reeval::{Blank, Change, Layout, Stop, Verdict, apply, latest, reserve, settle};
use std::alloc::Global;
use std::sync::ledger::Ledger;

/// The links of a state, found from nothing. Each file is judged where its words may tell.
pub fn links_of<L: Ledger>(
    alloc: Global,
    kept: &KeptState,
    way: &Way,
    probes: &mut Steps<L>,
) -> Result<Links, Memory>
    requires { IsWayOf kept.now.state way.now }
    ensures links { IfOk result (AreLinksOf kept.now.state) }
    ensures sets { IfOk result (AreSetsAsked kept.now.state) }
    ensures probes { probes.new ≤ probes.old + opening kept.now.state }
{
    kept.know_valid();
    let mut found = Links::new(alloc);
    for number in kept.numbers(alloc)? {
        add_links(alloc, kept, way, &mut found, number, probes)?;
    }
    found.know_lists();
    Ok(found)
}

/// Adds what the links of a state say of a number: nothing if it isn't that of an item.
fn add_links<L: Ledger>(
    alloc: Global,
    kept: &KeptState,
    way: &Way,
    found: &mut Links,
    number: Number,
    probes: &mut Steps<L>,
) -> Result<(), Memory>
    requires { IsWayOf kept.now.state way.now }
    ensures links { AreLinksBelow kept.now.state found.old number →
        OnOk result (AreLinksBelow kept.now.state found.new (number + 1)) }
    ensures sets { AreSetsAsked kept.now.state found.old →
        OnOk result (AreSetsAsked kept.now.state found.new) }
    ensures probes { probes.new ≤ probes.old
        + (if is_item kept.now.state number then weight kept.now.state else 0) }
{
    kept.know_valid();
    if !is_item(kept, number) {
        return Ok(());
    }
    let news = news_of(alloc, kept, way, number, probes)?;
    reserve(found, news.as_slice())?;
    apply(found, news.as_slice());
    Ok(())
}

/// Whether a directory finds an item. No link of another item is looked for.
pub fn finds<L: Ledger>(
    alloc: Global,
    kept: &KeptState,
    way: &Way,
    dir: Number,
    item: Number,
    probes: &mut Steps<L>,
) -> Result<bool, Memory>
    requires { IsWayOf kept.now.state way.now }
    ensures finds { IfOk result (λ finds. finds ≡ has (transient_at kept.now.state dir) item) }
    ensures probes { probes.new ≤ probes.old + weight kept.now.state }
{
    let news = news_of(alloc, kept, way, item, probes)?;
    let none = Verdict {
        found: false,
        lent: false,
    };
    Ok(latest(news.as_slice(), dir, none).found)
}

/// What the links of a state say of an item.
fn news_of<L: Ledger>(
    alloc: Global,
    kept: &KeptState,
    way: &Way,
    item: Number,
    probes: &mut Steps<L>,
) -> Result<Vec<Change>, Memory>
    requires { IsWayOf kept.now.state way.now }
    ensures news { IfOk result (λ news. AreAllNews kept.now.state item news.items) }
    ensures probes { probes.new ≤ probes.old + weight kept.now.state }
{
    if way.lends {
        news_everywhere(alloc, kept, way, item, probes)
    } else {
        news_by_words(alloc, kept, way, item, probes)
    }
}

/// The same, of an item that is judged in each directory.
fn news_everywhere<L: Ledger>(
    alloc: Global,
    kept: &KeptState,
    way: &Way,
    item: Number,
    probes: &mut Steps<L>,
) -> Result<Vec<Change>, Memory>
    requires { IsWayOf kept.now.state way.now }
    ensures news { IfOk result (λ news. AreAllNews kept.now.state item news.items) }
    ensures probes { probes.new ≤ probes.old + weight kept.now.state }
{
    kept.know_valid();
    if !is_item(kept, item) {
        return Ok(Vec::new(alloc));
    }
    let present = Indexing {
        kept,
        last: Number::ROOT,
    };
    let stops = way.stops.as_slice();
    settle(alloc, &present, &Blank, stops, item, probes)
}

/// The same, where no directory was added to another: a file is judged where its words may tell,
/// and nowhere if it was never indexed. Where there are few directories each item is judged in
/// each.
fn news_by_words<L: Ledger>(
    alloc: Global,
    kept: &KeptState,
    way: &Way,
    item: Number,
    probes: &mut Steps<L>,
) -> Result<Vec<Change>, Memory>
    requires way { IsWayOf kept.now.state way.now }
    requires unlent { LendsNothing kept.now.state }
    ensures news { IfOk result (λ news. AreAllNews kept.now.state item news.items) }
    ensures probes { probes.new ≤ probes.old + weight kept.now.state }
{
    kept.know_valid();
    if way.stops.len() <= FEW_STOPS || is_document(kept, item) {
        let present = Indexing {
            kept,
            last: Number::ROOT,
        };
        let stops = way.stops.as_slice();
        return news_along(alloc, kept, &present, stops, item, probes);
    }
    match shown_of(kept, item) {
        Some(text) => news_of_text(alloc, kept, way, item, text, probes),
        None => Ok(Vec::new(alloc)),
    }
}

/// The same, of a file that shows a text. What the index says of its words is told once.
fn news_of_text<L: Ledger>(
    alloc: Global,
    kept: &KeptState,
    way: &Way,
    item: Number,
    text: &[u8],
    probes: &mut Steps<L>,
) -> Result<Vec<Change>, Memory>
    requires way { IsWayOf kept.now.state way.now }
    requires unlent { LendsNothing kept.now.state }
    requires shows { shown_of kept.now.state item ≡ Some text.now }
    ensures news { IfOk result (λ news. AreAllNews kept.now.state item news.items) }
    ensures probes { probes.new ≤ probes.old + weight kept.now.state }
{
    kept.know_valid();
    let fit = way.index.fitting(text)?;
    let stops = stops_fitting(alloc, way, &fit)?;
    let present = Indexing {
        kept,
        last: Number::ROOT,
    };
    let fitted = Fitted {
        indexing: &present,
        fit: &fit,
        item,
    };
    news_along(alloc, kept, &fitted, stops.as_slice(), item, probes)
}

/// The same, of an item that is judged again wherever a stop says so.
fn news_along<Y: Layout, L: Ledger>(
    alloc: Global,
    kept: &KeptState,
    layout: &Y,
    stops: &[Stop],
    item: Number,
    probes: &mut Steps<L>,
) -> Result<Vec<Change>, Memory>
    requires layout { Y.state layout.now ≡ kept.now.state }
    requires unlent { LendsNothing kept.now.state }
    requires way { Covers (unjudged_state kept.now.state) kept.now.state stops.now item }
    ensures news { IfOk result (λ news. AreAllNews kept.now.state item news.items) }
    ensures probes { probes.new ≤ probes.old + terms_along kept.now.state stops.now }
{
    let unjudged = Unjudged { kept };
    settle(alloc, layout, &unjudged, stops, item, probes)
}
