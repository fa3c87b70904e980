//! Which directories refer to a directory: by their queries, or since it was added to them.
ghost use Rattle.std.specs.Prelude.{◌≡◌, ◌↔◌, ℕ, nat_eq, drop, IfOk};
ghost use Rattle.std.specs.List.{list_any};
ghost use Rattle.hac_model.specs.Tree.Depends.{Among};
ghost use Rattle.dep_graph.specs.Graphs.{referred_by};
ghost use Rattle.dep_graph.specs.Searches.{EachOnce};

use crate::graph::Graph;
use hac_model::{Memory, Number};

impl Graph {
    /// The directories that refer to a directory.
    pub fn referrers(&self, dir: Number) -> Result<Vec<Number>, Memory>
        ensures all { IfOk result (λ numbers. (q : ℕ)
            → Among numbers.items q ↔ Among (referred_by self.now q) dir) }
        ensures once { IfOk result (λ numbers. EachOnce numbers.items) }
    {
        let mut numbers = Vec::new(self.alloc);
        for (number, edges) in self.nodes.iter() {
            if refers(edges.as_slice(), dir) {
                numbers.push(Number::new(*number))?;
            }
        }
        Ok(numbers)
    }
}

/// Whether a directory with these edges refers to another. The first edge leads to its own
/// directory, which it doesn't refer to.
fn refers(edges: &[Number], dir: Number) -> bool
    ensures { result ≡ list_any (λ edge. nat_eq edge dir) (drop 1 edges.now) }
{
    edges.iter().skip(1).any(|edge| *edge == dir)
}
