//! Where judging of a file begins, by the words of its texts.
ghost use Rattle.std.specs.Prelude.{◌≡◌, IfOk, List, None, Option, Some, map, ℕ};
ghost use Rattle.hac_model.specs.Query.Formula.{Formula};
ghost use Rattle.hac_model.specs.Query.Words.{words};
ghost use Rattle.hac_model.specs.Tree.Links.{query_at};
ghost use Rattle.hac_model.specs.declared.states.State.{State};
ghost use Rattle.query_index.specs.Seen.{ArePlaces, IsFitOf, IsIndexOf};
ghost use Rattle.reeval.specs.Routes.{dirs_of};
ghost use Rattle.reindex.specs.Steps.{may_begin, may_differ};
ghost use Rattle.reindex.specs.Ways.{IsWayOf, begun_at, needed};

use crate::ways::{Way, stops_begun};
use hac_model::Memory;
use hac_words::words_of;
use query_index::{Fit, QueryIndex};
use reeval::Stop;
use std::alloc::Global;

/// The stops at which a file may be judged that will show the second text, and showed the first.
/// Judging begins where its words may tell.
pub(crate) fn stops_changed(
    alloc: Global,
    way: &Way,
    old: &[u8],
    new: &[u8],
) -> Result<Vec<Stop>, Memory>
    requires { (s : State) × IsWayOf s way.now }
    ensures { (s : State) → IsIndexOf (map (query_at s) (dirs_of way.now.stops.items)) way.now.index
        → IfOk result (λ stops. stops.items
        ≡ needed (begun_at (may_begin s (Some old.now) new.now) way.now.stops.items)) }
{
    let places = places_changed(alloc, &way.index, old, new)?;
    stops_begun(alloc, way, places.as_slice())
}

/// The same of a file that showed none, by what the index of the way says of its words.
pub(crate) fn stops_fitting(alloc: Global, way: &Way, fit: &Fit<'_>) -> Result<Vec<Stop>, Memory>
    requires { (s : State) × (text : List ℕ) × IsWayOf s way.now
        × IsFitOf (map (query_at s) (dirs_of way.now.stops.items)) (words text) fit.now }
    ensures { (s : State) (text : List ℕ) →
        IsFitOf (map (query_at s) (dirs_of way.now.stops.items)) (words text) fit.now
        → IfOk result (λ stops. stops.items
        ≡ needed (begun_at (may_begin s None text) way.now.stops.items)) }
{
    stops_begun(alloc, way, fit.places())
}

/// The places of the queries that may say something else of a file, once that shows the second text
/// in place of the first.
fn places_changed(
    alloc: Global,
    index: &QueryIndex,
    old: &[u8],
    new: &[u8],
) -> Result<Vec<usize>, Memory>
    ensures { (queries : List (Option (Formula ℕ))) → IsIndexOf queries index.now → IfOk result
        (λ places. ArePlaces queries (may_differ (Some old.now) new.now) places.items) }
{
    let old = words_of(alloc, old)?;
    let new = words_of(alloc, new)?;
    index.asking(old.as_slice(), new.as_slice())
}
