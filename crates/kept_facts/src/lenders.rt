//! The directories that users added to a semantic directory, as the last of its edges.
ghost use Rattle.std.specs.Prelude.{◌≡◌, ◌≤◌, ◌++◌, [], ℕ, List, IfOk, OnOk, drop, length, nat_le};
ghost use Rattle.std.specs.List.{prefix_len};
ghost use Rattle.hac_model.specs.Tree.Depends.{named_in};
ghost use Rattle.hac_model.specs.Tree.Facts.{with_mark};
ghost use Rattle.hac_model.specs.Tree.Events.{put_in, without};

use hac_model::{Mark, Memory, Node, Number, Query};
use std::alloc::Global;

/// All but the first of the edges.
pub fn behind_first(edges: &[Number]) -> &[Number]
    ensures { result.now ≡ drop 1 edges.now }
{
    match edges.split_first() {
        Some((_first, others)) => others,
        None => edges,
    }
}

/// The edges that come behind those to the directories that a query names. It goes down as deep as
/// the query does.
pub fn behind_named<'a>(edges: &'a [Number], query: &Query<Number>) -> &'a [Number]
    ensures { (rest : List ℕ) → edges.now ≡ named_in query.now ++ rest → result.now ≡ rest }
{
    match &query.node {
        Node::Term(_) => edges,
        Node::Dir(_) => behind_first(edges),
        Node::Not(query) => behind_named(edges, query),
        Node::And(left, right) | Node::Or(left, right) => {
            behind_named(behind_named(edges, left), right)
        }
    }
}

/// These directories, in order of number, once one of them got a mark or lost it.
pub fn marked(alloc: Global, dirs: &[Number], mark: &Mark) -> Result<Vec<Number>, Memory>
    ensures { IfOk result (λ after. after.items ≡ (with_mark mark.now.kind mark.now.item
        (record { permanent = dirs.now; prohibited = [] })).permanent) }
{
    let mut after = without(alloc, dirs, mark.item)?;
    if mark.kind.is_permanent() {
        put_in(&mut after, mark.item)?;
    }
    Ok(after)
}

/// The directories without one of them.
fn without(alloc: Global, dirs: &[Number], dir: Number) -> Result<Vec<Number>, Memory>
    ensures { IfOk result (λ after. after.items ≡ without dir dirs.now) }
{
    let mut after = Vec::new(alloc);
    'dirs: for other in dirs {
        if *other != dir {
            after.push(*other)?;
        }
    }
    Ok(after)
}

/// Puts a directory in its place.
fn put_in(dirs: &mut Vec<Number>, dir: Number) -> Result<(), Memory>
    ensures { OnOk result (dirs.new.items ≡ put_in dir dirs.old.items) }
{
    let place = place_of(dirs.as_slice(), dir);
    dirs.insert(place, dir)?;
    Ok(())
}

/// The place of a directory among others: behind those that don't come after it.
fn place_of(dirs: &[Number], dir: Number) -> usize
    ensures place { result ≡ prefix_len (λ other. nat_le other dir) dirs.now }
    ensures within { result ≤ length dirs.now }
{
    dirs.iter().take_while(|other| **other <= dir).count()
}
