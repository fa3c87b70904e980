//! The files that steps index, which are taken in a batch.
ghost use Rattle.std.specs.Prelude.{◌≡◌, ◌≤◌, ◌+◌, ◌*◌, ◌++◌, ◌∷◌, [], IfOk, IfSome, List, OnOk};
ghost use Rattle.std.specs.Prelude.{None, Some, length, replicate, ℕ};
ghost use Rattle.dep_graph.specs.Searches.{EachOnce};
ghost use Rattle.hac_model.specs.Laws.{AllHappen};
ghost use Rattle.hac_model.specs.Tree.Costs.{costs, weight};
ghost use Rattle.hac_model.specs.Tree.Depends.{Among};
ghost use Rattle.hac_model.specs.Tree.Events.{apply_all, next_dirty};
ghost use Rattle.hac_model.specs.Tree.Links.{shown_of};
ghost use Rattle.hac_model.specs.Tree.Valid.{IsValid};
ghost use Rattle.hac_model.specs.declared.events.Event.TheVariants.{Step};
ghost use Rattle.reeval.specs.Probes.{terms_along};
ghost use Rattle.reeval.specs.Routes.{Covers};
ghost use Rattle.reeval.specs.Settled.{AreLinksOf};
ghost use Rattle.reindex.specs.Ahead.{AddsNewsOf, AreAhead, state_before, state_behind};
ghost use Rattle.reindex.specs.Past.{Lead};
ghost use Rattle.reindex.specs.Steps.{AreIndexed, AreSettled, indexed_through};
ghost use Rattle.reindex.specs.Ways.{IsWayOf};

use crate::ahead::StepsAhead;
use crate::fitted::Fitted;
use crate::indexing::Indexing;
use crate::past::Past;
use crate::texts::{stops_changed, stops_fitting};
use crate::ways::{FEW_STOPS, Way, stops_of_way};
use hac_model::{Memory, Number};
use hac_outside::Steps;
use kept_lookups::shown_of;
use kept_state::KeptState;
use link_kinds::Links;
use reeval::{Change, Layout, Stop, settle_all};
use std::alloc::Global;
use std::sync::ledger::Ledger;

/// The changes of links that lead to the state behind so many steps. Only the files that the steps
/// index are judged again, each where its words may tell.
pub fn delta_of_steps<L: Ledger>(
    alloc: Global,
    kept: &KeptState,
    found: &Links,
    way: &Way,
    count: u64,
    probes: &mut Steps<L>,
) -> Result<Vec<Change>, Memory>
    requires links { AreLinksOf kept.now.state found.now }
    requires happen { AllHappen kept.now.state (replicate count Step) }
    requires way { IsWayOf kept.now.state way.now }
    ensures leads { IfOk result (λ delta.
        Lead kept.now.state (apply_all kept.now.state (replicate count Step)) delta.items) }
    ensures probes { probes.new ≤ probes.old + costs kept.now.state (replicate count Step) }
{
    kept.know_valid();
    let batch = first_dirty(alloc, kept, count)?;
    let ahead = StepsAhead {
        indexing: Indexing {
            kept,
            last: batch.last,
        },
        found,
        way,
    };
    let files = batch.files.as_slice();
    delta_of_files(alloc, &ahead, files, probes)
}

/// What is new of files, once all are indexed whose numbers aren't above the last.
fn delta_of_files<L: Ledger>(
    alloc: Global,
    ahead: &StepsAhead<'_>,
    files: &[Number],
    probes: &mut Steps<L>,
) -> Result<Vec<Change>, Memory>
    requires ahead { AreAhead ahead.now }
    requires once { EachOnce files.now }
    ensures settled { IfOk result (λ delta. AreSettled (state_before ahead.now)
        (state_behind ahead.now) files.now delta.items) }
    ensures probes { probes.new ≤ probes.old
        + length files.now * weight (state_before ahead.now) }
{
    let mut delta = Vec::new(alloc);
    for file in files {
        settle_file(alloc, ahead, *file, &mut delta, probes)?;
    }
    Ok(delta)
}

/// Adds what is new of one file then.
fn settle_file<L: Ledger>(
    alloc: Global,
    ahead: &StepsAhead<'_>,
    file: Number,
    delta: &mut Vec<Change>,
    probes: &mut Steps<L>,
) -> Result<(), Memory>
    requires { AreAhead ahead.now }
    ensures settled { OnOk result (AddsNewsOf ahead.now file delta.old.items delta.new.items) }
    ensures probes { probes.new ≤ probes.old + weight (state_before ahead.now) }
{
    match first_text(&ahead.indexing, ahead.way, file) {
        Some(text) => settle_first(alloc, ahead, file, text, delta, probes),
        None => settle_again(alloc, ahead, file, delta, probes),
    }
}

/// The same of a file that shows its first text then. What the index says of its words is told
/// once.
fn settle_first<L: Ledger>(
    alloc: Global,
    ahead: &StepsAhead<'_>,
    file: Number,
    text: &[u8],
    delta: &mut Vec<Change>,
    probes: &mut Steps<L>,
) -> Result<(), Memory>
    requires ahead { AreAhead ahead.now }
    requires first { shown_of (state_before ahead.now) file ≡ None }
    requires shows { shown_of (state_behind ahead.now) file ≡ Some text.now }
    ensures settled { OnOk result (AddsNewsOf ahead.now file delta.old.items delta.new.items) }
    ensures probes { probes.new ≤ probes.old + weight (state_before ahead.now) }
{
    ahead.indexing.kept.know_valid();
    let fit = ahead.way.index.fitting(text)?;
    let stops = stops_fitting(alloc, ahead.way, &fit)?;
    let fitted = Fitted {
        indexing: &ahead.indexing,
        fit: &fit,
        item: file,
    };
    settle_at(alloc, ahead, &fitted, stops.as_slice(), file, delta, probes)
}

/// The same of a file that showed a text, or of one that is judged in each directory.
fn settle_again<L: Ledger>(
    alloc: Global,
    ahead: &StepsAhead<'_>,
    file: Number,
    delta: &mut Vec<Change>,
    probes: &mut Steps<L>,
) -> Result<(), Memory>
    requires { AreAhead ahead.now }
    ensures settled { OnOk result (AddsNewsOf ahead.now file delta.old.items delta.new.items) }
    ensures probes { probes.new ≤ probes.old + weight (state_before ahead.now) }
{
    ahead.indexing.kept.know_valid();
    let indexing = &ahead.indexing;
    let stops = stops_of(alloc, indexing, ahead.way, file)?;
    settle_at(
        alloc,
        ahead,
        indexing,
        stops.as_slice(),
        file,
        delta,
        probes,
    )
}

/// Adds what is new of one file, which is judged at these stops.
fn settle_at<Y: Layout, L: Ledger>(
    alloc: Global,
    ahead: &StepsAhead<'_>,
    layout: &Y,
    stops: &[Stop],
    file: Number,
    delta: &mut Vec<Change>,
    probes: &mut Steps<L>,
) -> Result<(), Memory>
    requires ahead { AreAhead ahead.now }
    requires layout { Y.state layout.now ≡ state_behind ahead.now }
    requires covers { Covers (state_before ahead.now) (state_behind ahead.now) stops.now file }
    ensures settled { OnOk result (AddsNewsOf ahead.now file delta.old.items delta.new.items) }
    ensures probes { probes.new ≤ probes.old + terms_along (state_behind ahead.now) stops.now }
{
    let past = Past {
        kept: ahead.indexing.kept,
        found: ahead.found,
    };
    settle_all(alloc, layout, &past, stops, &[file], delta, probes)
}

/// The text of a file that is indexed for the first time, if its words are to be listed.
fn first_text<'a>(indexing: &'a Indexing<'_>, way: &Way, file: Number) -> Option<&'a [u8]>
    ensures first { IfSome result (λ text. shown_of indexing.now.kept.now.state file ≡ None) }
    ensures shows { IfSome result (λ text. shown_of
        (indexed_through indexing.now.last indexing.now.kept.now.state) file ≡ Some text.now) }
{
    if way.stops.len() <= FEW_STOPS || shown_of(indexing.kept, file).is_some() {
        return None;
    }
    indexing.shown(file)
}

/// The way on which a file is judged once it is indexed. Where it showed a text, judging begins
/// where its words may tell.
fn stops_of(
    alloc: Global,
    indexing: &Indexing<'_>,
    way: &Way,
    file: Number,
) -> Result<Vec<Stop>, Memory>
    requires way { IsWayOf indexing.now.kept.now.state way.now }
    requires valid { IsValid (indexed_through indexing.now.last indexing.now.kept.now.state) }
    ensures covers { IfOk result (λ stops. Covers indexing.now.kept.now.state
        (indexed_through indexing.now.last indexing.now.kept.now.state) stops.items file) }
    ensures most { IfOk result (λ stops. terms_along
        (indexed_through indexing.now.last indexing.now.kept.now.state) stops.items
        ≤ weight indexing.now.kept.now.state) }
{
    indexing.kept.know_valid();
    if way.stops.len() <= FEW_STOPS {
        return stops_of_way(alloc, way);
    }
    match (shown_of(indexing.kept, file), indexing.shown(file)) {
        (Some(old), Some(new)) => stops_changed(alloc, way, old, new),
        _ => stops_of_way(alloc, way),
    }
}

/// The files that some steps index.
#[derive(Drop)]
struct Batch {
    /// The files, in order of number.
    files: Vec<Number>,
    /// The last of them, or the root where there are none.
    last: Number,
}

/// The files that so many steps index.
fn first_dirty(alloc: Global, kept: &KeptState, count: u64) -> Result<Batch, Memory>
    requires { AllHappen kept.now.state (replicate count Step) }
    ensures { IfOk result (λ batch.
        AreIndexed kept.now.state count batch.files.items batch.last) }
{
    kept.know_valid();
    let mut files = Vec::new(alloc);
    let mut last = Number::ROOT;
    for _step in 0..count {
        let Some(file) = next_dirty_behind(kept, last) else {
            unreachable!()
        };
        files.push(file)?;
        last = file;
    }
    Ok(Batch { files, last })
}

/// The dirty file of the least number once all files are indexed whose numbers are not above this.
fn next_dirty_behind(kept: &KeptState, last: Number) -> Option<Number>
    ensures { result ≡ next_dirty (indexed_through last kept.now.state).entries }
{
    kept.tree().next_dirty_behind(last)
}
