//! The line of a directory's query, with the present paths of the directories that it names.
ghost use Rattle.std.specs.Prelude.{◌≡◌, IfOk, OnOk};
ghost use Rattle.hac_model.specs.Run.Play.{query_line, query_lines};
ghost use Rattle.hac_model.specs.Tree.Paths.{path_text};
ghost use Rattle.hac_model.specs.Query.QueryText.{query_text, referred_by};
ghost use Rattle.hac_model.specs.Tree.{path_of};
ghost use Rattle.tree_answers.specs.Paths.{AddsPaths};

use hac_model::{Memory, Name, Node, Number, Query};
use kept_lookups::query_at;
use kept_state::KeptState;
use query_text::{Paths, print};
use std::alloc::Global;

/// The query of a directory, where it has one.
pub fn query_lines(alloc: Global, kept: &KeptState, dir: Number) -> Result<Vec<Name>, Memory>
    ensures { IfOk result (λ lines. lines.items ≡ query_lines kept.now.state dir) }
{
    let mut lines = Vec::new(alloc);
    if let Some(query) = query_at(kept, dir) {
        lines.push(query_line(alloc, kept, query)?)?;
    }
    Ok(lines)
}

/// A query as `query` shows it.
fn query_line(alloc: Global, kept: &KeptState, query: &Query<Number>) -> Result<Name, Memory>
    ensures { IfOk result (λ line. line ≡ query_line kept.now.state query.now) }
{
    let mut line = Vec::from_slice(alloc, b"= ")?;
    line.extend_from_slice(printed(alloc, kept, query)?.as_bytes())?;
    Ok(Name::new(line))
}

/// A query as it is written, with the present paths.
fn printed(alloc: Global, kept: &KeptState, query: &Query<Number>) -> Result<Name, Memory>
    ensures { IfOk result (λ text. text
        ≡ query_text (referred_by (λ dir. path_text (path_of kept.now.state dir)) query.now)) }
{
    let mut paths = Paths::new(alloc);
    add_paths(&mut paths, kept, query)?;
    print(alloc, query, &paths)
}

/// Adds the paths of the directories that a query names.
fn add_paths(paths: &mut Paths, kept: &KeptState, query: &Query<Number>) -> Result<(), Memory>
    ensures { OnOk result (AddsPaths kept.now.state query.now paths.old paths.new) }
{
    match &query.node {
        Node::Term(_) => {}
        Node::Dir(dir) => paths.add(*dir, kept.path_of(*dir)?)?,
        Node::Not(query) => add_paths(paths, kept, query)?,
        Node::And(left, right) | Node::Or(left, right) => {
            add_paths(paths, kept, left)?;
            add_paths(paths, kept, right)?;
        }
    }
    Ok(())
}
