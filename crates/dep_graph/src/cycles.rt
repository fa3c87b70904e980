//! Whether new edges would let a directory depend on itself.
ghost use Rattle.std.specs.Prelude.{◌≡◌, true, false, nat_eq, IfOk};
ghost use Rattle.hac_model.specs.Tree.Depends.{Reaches};
ghost use Rattle.indexmap.specs.IndexSet.{contains};
ghost use Rattle.dep_graph.specs.Graphs.{edges_of};
ghost use Rattle.dep_graph.specs.Searches.{IsFirstToReach};
ghost use Rattle.dep_graph.specs.Passed.{KeepsAway};

use crate::graph::Graph;
use hac_model::{Memory, Number};
use indexmap::IndexSet;

impl Graph {
    /// The first of the edges over which a directory would depend on itself, if it had them.
    pub fn would_cycle(&self, dir: Number, edges: &[Number]) -> Result<Option<Number>, Memory>
        ensures { IfOk result (λ found. IsFirstToReach (edges_of self.now) dir edges.now found) }
    {
        let mut seen = IndexSet::new(self.alloc);
        for edge in edges {
            if self.reaches(*edge, dir, &mut seen)? {
                return Ok(Some(*edge));
            }
        }
        Ok(None)
    }

    /// Whether a directory reaches another, which none of those seen before does. Those on the way
    /// are seen then.
    fn reaches(&self, from: Number, dir: Number, seen: &mut IndexSet<u64>) -> Result<bool, Memory>
        requires { KeepsAway (edges_of self.now) dir (contains nat_eq seen.old) }
        ensures reached { IfOk result
            (λ found. found ≡ true → Reaches (edges_of self.now) from dir) }
        ensures never { IfOk result
            (λ found. found ≡ false → Reaches (edges_of self.now) from dir → ⊥) }
        ensures seen { IfOk result (λ found. found ≡ false
            → KeepsAway (edges_of self.now) dir (contains nat_eq seen.new)) }
    {
        let mut stack = Vec::new(self.alloc);
        stack.push(from)?;
        'stack: while let Some(number) = stack.pop() {
            if number == dir {
                return Ok(true);
            }
            if seen.insert(number.get())? {
                stack.extend_from_slice(self.edges(number))?;
            }
        }
        Ok(false)
    }
}
