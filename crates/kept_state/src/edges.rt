//! Whether a semantic directory would come to depend on itself.
ghost use Rattle.std.specs.Prelude.{◌≡◌, IfOk};
ghost use Rattle.hac_model.specs.Tree.Depends.{cycle_of_mark, cycle_of_move, cycle_over};
ghost use Rattle.hac_model.specs.Tree.Links.{parent_of};
ghost use Rattle.kept_state.specs.Parts.{IsLinked, state_of};

use crate::parts::Parts;
use hac_model::{Mark, Memory, Number, Query};
use kept_facts::edges_of;
use std::alloc::Global;

/// If a directory got this query: the first directory on which it would then depend that depends on
/// it, if any.
pub fn cycle_of_query(
    alloc: Global,
    kept: &Parts,
    dir: Number,
    query: &Query<Number>,
) -> Result<Option<Number>, Memory>
    requires { IsLinked kept.now }
    ensures { IfOk result (λ way. way ≡ cycle_over (state_of kept.now) dir
        (parent_of (state_of kept.now) dir) query.now) }
{
    cycle_over(alloc, kept, dir, kept.tree.parent(dir), query)
}

/// As `cycle_of_query`, for an entry that goes to a directory.
pub fn cycle_of_move(
    alloc: Global,
    kept: &Parts,
    entry: Number,
    dir: Number,
) -> Result<Option<Number>, Memory>
    requires { IsLinked kept.now }
    ensures { IfOk result (λ way. way ≡ cycle_of_move (state_of kept.now) entry dir) }
{
    match kept.tree.query(entry) {
        Some(query) => cycle_over(alloc, kept, entry, dir, query),
        None => Ok(None),
    }
}

/// The directory to be added to another, if it is that one or depends on it. Where an item is
/// added, nothing comes to depend on anything.
pub fn cycle_of_mark(alloc: Global, kept: &Parts, mark: &Mark) -> Result<Option<Number>, Memory>
    requires { IsLinked kept.now }
    ensures { IfOk result (λ way. way
        ≡ cycle_of_mark (state_of kept.now) mark.now.dir mark.now.item mark.now.kind) }
{
    if mark.kind.is_permanent() && kept.tree.is_directory(mark.item) {
        kept.graph.would_cycle(mark.dir, &[mark.item])
    } else {
        Ok(None)
    }
}

/// The first of those on which a directory would depend that depends on it, if there is any.
fn cycle_over(
    alloc: Global,
    kept: &Parts,
    dir: Number,
    parent: Number,
    query: &Query<Number>,
) -> Result<Option<Number>, Memory>
    requires linked { IsLinked kept.now }
    ensures { IfOk result (λ way. way ≡ cycle_over (state_of kept.now) dir parent query.now) }
{
    let edges = edges_of(alloc, parent, query, &[])?;
    kept.graph.would_cycle(dir, edges.as_slice())
}
