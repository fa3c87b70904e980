//! What a semantic directory depends on, by its parent, its query and what was added to it.
ghost use Rattle.std.specs.Prelude.{◌≡◌, ◌++◌, ◌∷◌, IfOk, OnOk};
ghost use Rattle.hac_model.specs.Tree.Depends.{named_in};

use hac_model::{Memory, Node, Number, Query};
use std::alloc::Global;

/// The edges of a directory with a parent and a query, to which these directories were added: to
/// the parent, then to those that the query names, then to these.
pub fn edges_of(
    alloc: Global,
    parent: Number,
    query: &Query<Number>,
    lenders: &[Number],
) -> Result<Vec<Number>, Memory>
    ensures { IfOk result (λ edges. edges.items ≡ parent ∷ named_in query.now ++ lenders.now) }
{
    let mut edges = Vec::new(alloc);
    edges.push(parent)?;
    push_named(&mut edges, query)?;
    edges.extend_from_slice(lenders)?;
    Ok(edges)
}

/// Adds the directories that a query names, in its order. It goes down as deep as the query does.
fn push_named(dirs: &mut Vec<Number>, query: &Query<Number>) -> Result<(), Memory>
    ensures { OnOk result (dirs.new.items ≡ dirs.old.items ++ named_in query.now) }
{
    match &query.node {
        Node::Term(_) => {}
        Node::Dir(dir) => dirs.push(*dir)?,
        Node::Not(query) => push_named(dirs, query)?,
        Node::And(left, right) | Node::Or(left, right) => {
            push_named(dirs, left)?;
            push_named(dirs, right)?;
        }
    }
    Ok(())
}
