//! Which queries may be asked.
ghost use Rattle.std.specs.Prelude.{◌≡◌};
ghost use Rattle.hac_model.specs.Tree.Depends.{named_in};
ghost use Rattle.hac_model.specs.Tree.Events.{are_directories, may_ask};

use file_tree::Tree;
use hac_model::{Node, Number, Query};
use query_text::is_query;

/// Whether a query may be asked: it holds no more than it may, and names directories.
pub fn may_ask(tree: &Tree, query: &Query<Number>) -> bool
    ensures { result ≡ may_ask tree.now.state query.now }
{
    is_query(query) && are_directories(tree, query)
}

/// Whether a query names directories only.
fn are_directories(tree: &Tree, query: &Query<Number>) -> bool
    ensures { result ≡ are_directories tree.now.state (named_in query.now) }
{
    match &query.node {
        Node::Term(_) => true,
        Node::Dir(dir) => tree.is_directory(*dir),
        Node::Not(query) => are_directories(tree, query),
        Node::And(left, right) | Node::Or(left, right) => {
            are_directories(tree, left) && are_directories(tree, right)
        }
    }
}
