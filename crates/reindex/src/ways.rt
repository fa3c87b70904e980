//! The ways on which items are judged again after an event.
ghost use Rattle.std.specs.Prelude.{◌≡◌, ◌==◌, ◌++◌, ◌∷◌, ◌+◌, ◌<◌, [], ℕ, Bool, IfOk, OnOk};
ghost use Rattle.std.specs.Prelude.{false, flat_map, length, map, not};
ghost use Rattle.std.specs.List.{list_any};
ghost use Rattle.hac_model.specs.Tree.Links.{is_semantic, lenders, query_at};
ghost use Rattle.hac_model.specs.Tree.Links.{has};
ghost use Rattle.hac_model.specs.Tree.Valid.{RiseFrom};
ghost use Rattle.hac_model.specs.declared.states.State.{State};
ghost use Rattle.query_index.specs.Numbers.{AreThose};
ghost use Rattle.query_index.specs.Seen.{IsIndexOf};
ghost use Rattle.reindex.specs.Ways.{IsWayOf, IsWayOver, any_leans, begins_there, begun_at};
ghost use Rattle.reindex.specs.Ways.{begun_there, leans, needed, stops_everywhere, stops_from};
ghost use Rattle.reindex.specs.Ways.{with_first};

use crate::indexing::Indexing;
use hac_model::{Memory, Number};
use kept_state::KeptState;
use query_index::QueryIndex;
use reeval::{Layout, Stop};
use std::alloc::Global;

/// All semantic directories, on the way of an item that may be judged in each.
#[derive(Drop)]
pub struct Way {
    /// A stop at each, behind those on which it depends. Judging begins at each.
    pub stops: Vec<Stop>,
    /// Their queries, in the same order.
    pub index: QueryIndex,
    /// Whether directories were added to some of them.
    pub lends: bool,
    /// Whether one of them may depend on another.
    pub leans: bool,
}

impl Way {
    /// The way to no directory.
    pub fn new(alloc: Global) -> Way
        ensures { (s : State) → IsWayOver s [] result }
    {
        Way {
            stops: Vec::new(alloc),
            index: QueryIndex::new(alloc),
            lends: false,
            leans: false,
        }
    }
}

/// Up to this many directories an item is judged in each: that takes less time than it takes to
/// list the words of its text.
pub(crate) const FEW_STOPS: usize = 16;

/// The way to all semantic directories of a state.
pub fn way_of(alloc: Global, kept: &KeptState) -> Result<Way, Memory>
    ensures { IfOk result (IsWayOf kept.now.state) }
{
    kept.know_valid();
    let dirs = kept.graph().directories()?;
    let order = kept.graph().cone(dirs.as_slice(), None)?;
    let present = Indexing {
        kept,
        last: Number::ROOT,
    };
    way_over(alloc, &present, order.as_slice())
}

/// The way to directories of a state, in this order.
pub fn way_over<Y: Layout>(alloc: Global, layout: &Y, order: &[Number]) -> Result<Way, Memory>
    ensures { IfOk result (IsWayOver (Y.state layout.now) order.now) }
{
    let stops = stops_everywhere(alloc, layout, order)?;
    let leans = any_leans(stops.as_slice());
    Ok(Way {
        stops,
        index: index_of(alloc, layout, order)?,
        lends: lends_any(layout, order),
        leans,
    })
}

/// Whether one of the stops leans on others.
fn any_leans(stops: &[Stop]) -> bool
    ensures { result ≡ any_leans stops.now }
{
    stops.iter().any(|stop| stop.leans)
}

/// The queries of directories, each at the place of its directory.
fn index_of<Y: Layout>(alloc: Global, layout: &Y, dirs: &[Number]) -> Result<QueryIndex, Memory>
    ensures { IfOk result (IsIndexOf (map (query_at (Y.state layout.now)) dirs.now)) }
{
    let mut index = QueryIndex::new(alloc);
    for dir in dirs {
        index = index.with(layout.query(*dir))?;
    }
    Ok(index)
}

/// Whether directories were added to some of these.
fn lends_any<Y: Layout>(layout: &Y, dirs: &[Number]) -> bool
    ensures { result ≡ list_any
        (λ dir. not (length (lenders (Y.state layout.now) dir) == 0)) dirs.now }
{
    dirs.iter().any(|dir| !layout.lenders(*dir).is_empty())
}

/// A stop at each of these directories, at each of which judging begins.
fn stops_everywhere<Y: Layout>(
    alloc: Global,
    layout: &Y,
    dirs: &[Number],
) -> Result<Vec<Stop>, Memory>
    ensures { IfOk result (λ stops. stops.items
        ≡ stops_everywhere (Y.state layout.now) dirs.now) }
{
    let mut stops = Vec::new(alloc);
    for dir in dirs {
        stops.push(Stop {
            dir: *dir,
            begins: true,
            ties: false,
            leans: leans(layout, *dir),
        })?;
    }
    Ok(stops)
}

/// Whether a directory depends on a semantic one.
fn leans<Y: Layout>(layout: &Y, dir: Number) -> bool
    ensures { result ≡ leans (Y.state layout.now) dir }
{
    layout
        .depends(dir)
        .iter()
        .any(|above| is_semantic(layout, *above))
}

/// Whether a directory is semantic.
fn is_semantic<Y: Layout>(layout: &Y, dir: Number) -> bool
    ensures { result ≡ is_semantic (Y.state layout.now) dir }
{
    layout.query(dir).is_some()
}

/// A stop at each of these directories. Judging begins at one of them, and may go on at each. If it
/// `ties`, only what is lent to that one may be new there.
pub fn stops_from(
    alloc: Global,
    first: Number,
    ties: bool,
    dirs: &[Number],
) -> Result<Vec<Stop>, Memory>
    ensures { IfOk result (λ stops. stops.items ≡ stops_from first ties dirs.now) }
{
    let mut stops = Vec::new(alloc);
    for dir in dirs {
        stops.push(Stop {
            dir: *dir,
            begins: *dir == first,
            ties: ties && *dir == first,
            leans: true,
        })?;
    }
    Ok(stops)
}

/// The stops of a way: judging begins at each directory.
pub(crate) fn stops_of_way(alloc: Global, way: &Way) -> Result<Vec<Stop>, Memory>
    ensures { IfOk result (λ stops. stops.items ≡ way.now.stops.items) }
{
    Ok(Vec::from_slice(alloc, way.stops.as_slice())?)
}

/// The stops at which an item may be judged: those of these places, where judging begins, and all
/// that lean on others.
pub(crate) fn stops_begun(alloc: Global, way: &Way, places: &[usize]) -> Result<Vec<Stop>, Memory>
    requires leans { way.now.leans ≡ any_leans way.now.stops.items }
    requires rise { RiseFrom 0 places.now }
    ensures { (begins : ℕ → Bool)
        → AreThose (begins_there begins way.now.stops.items) places.now
        → IfOk result (λ begun. begun.items ≡ needed (begun_at begins way.now.stops.items)) }
{
    if way.leans {
        stops_needed(alloc, way.stops.as_slice(), places)
    } else {
        stops_there(alloc, way.stops.as_slice(), places)
    }
}

/// The same where none leans on another.
fn stops_there(alloc: Global, stops: &[Stop], places: &[usize]) -> Result<Vec<Stop>, Memory>
    ensures { IfOk result (λ begun. begun.items ≡ flat_map (begun_there stops.now) places.now) }
{
    let mut begun = Vec::new(alloc);
    for place in places {
        add_begun(stops, *place, &mut begun)?;
    }
    Ok(begun)
}

/// Adds the stop of a place, if there is one. Judging begins there.
fn add_begun(stops: &[Stop], place: usize, begun: &mut Vec<Stop>) -> Result<(), Memory>
    ensures { OnOk result (begun.new.items ≡ begun.old.items ++ begun_there stops.now place) }
{
    match stops.get(place) {
        Some(stop) => begun.push(Stop {
            begins: true,
            ..*stop
        })?,
        None => {}
    }
    Ok(())
}

/// The same where some do.
fn stops_needed(alloc: Global, stops: &[Stop], places: &[usize]) -> Result<Vec<Stop>, Memory>
    requires { RiseFrom 0 places.now }
    ensures { (begins : ℕ → Bool) → AreThose (begins_there begins stops.now) places.now
        → IfOk result (λ begun. begun.items ≡ needed (begun_at begins stops.now)) }
{
    let mut begun = Vec::new(alloc);
    let mut left = places;
    for place in 0..stops.len() {
        add_needed(stops[place], is_first(left, place), &mut begun)?;
        left = behind(left, place);
    }
    Ok(begun)
}

/// Whether a place is the first of some that are in order, none of them before it.
fn is_first(places: &[usize], place: usize) -> bool
    requires { RiseFrom place places.now }
    ensures { result ≡ has places.now place }
{
    match places.first() {
        Some(first) => *first == place,
        None => false,
    }
}

/// Those of such places that are behind it.
fn behind(places: &[usize], place: usize) -> &[usize]
    requires { RiseFrom place places.now }
    ensures rise { RiseFrom (place + 1) result.now }
    ensures same { (n : ℕ) → place < n → has result.now n ≡ has places.now n }
{
    if is_first(places, place) {
        &places[1..]
    } else {
        places
    }
}

/// Adds a stop if it is needed.
fn add_needed(stop: Stop, begins: bool, begun: &mut Vec<Stop>) -> Result<(), Memory>
    ensures { OnOk result (begun.new.items
        ≡ begun.old.items ++ needed (record stop { begins = begins } ∷ [])) }
{
    if begins || stop.leans {
        begun.push(Stop { begins, ..stop })?;
    }
    Ok(())
}

/// Directories, with one in front if it isn't among them.
pub fn with_first(alloc: Global, first: Number, dirs: &[Number]) -> Result<Vec<Number>, Memory>
    ensures { IfOk result (λ numbers. numbers.items ≡ with_first first dirs.now) }
{
    let mut numbers = Vec::new(alloc);
    if dirs.contains(&first) {
        numbers.extend_from_slice(dirs)?;
        return Ok(numbers);
    }
    numbers.push(first)?;
    numbers.extend_from_slice(dirs)?;
    Ok(numbers)
}
