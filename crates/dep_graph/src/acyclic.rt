//! Whether no directory depends on itself, over any edges.
ghost use Rattle.std.specs.Prelude.{◌≡◌, ◌&&◌, nat_eq, true, IfOk, Decides};
ghost use Rattle.std.specs.List.{list_all};
ghost use Rattle.hac_model.specs.Tree.Depends.{NeverReturns};
ghost use Rattle.indexmap.specs.IndexSet.{contains};
ghost use Rattle.dep_graph.specs.Graphs.{edges_of};
ghost use Rattle.dep_graph.specs.Orders.{all_placed, is_settled, lead_back};

use crate::graph::Graph;
use hac_model::{Memory, Number};
use indexmap::IndexSet;

impl Graph {
    /// Whether no directory depends on itself, over one edge or more. It goes twice over all edges:
    /// once for an order, which is right if there is no cycle, and once to see whether it is.
    pub fn is_acyclic(&self) -> Result<bool, Memory>
        ensures { IfOk result (λ told. Decides told (NeverReturns (edges_of self.now))) }
    {
        let dirs = self.directories()?;
        let numbers = self.order(None, dirs.as_slice())?;
        let mut placed = IndexSet::new(self.alloc);
        let lead_back = self.lead_back(numbers.as_slice(), &mut placed)?;
        Ok(lead_back && self.are_settled(dirs.as_slice(), &placed))
    }

    /// Whether each of these leads only to what was placed before it, or has no edges. Each is
    /// placed then.
    fn lead_back(&self, numbers: &[Number], placed: &mut IndexSet<u64>) -> Result<bool, Memory>
        ensures told { IfOk result (λ told. told
            ≡ lead_back (edges_of self.now) (contains nat_eq placed.old) numbers.now) }
        ensures placed { IfOk result (λ told. told ≡ true → contains nat_eq placed.new
            ≡ all_placed (contains nat_eq placed.old) numbers.now) }
    {
        for number in numbers {
            if !self.are_settled(self.edges(*number), placed) {
                return Ok(false);
            }
            placed.insert(number.get())?;
        }
        Ok(true)
    }

    /// Whether each of these was placed, or has no edges.
    fn are_settled(&self, numbers: &[Number], placed: &IndexSet<u64>) -> bool
        ensures { result
            ≡ list_all (is_settled (edges_of self.now) (contains nat_eq placed.now)) numbers.now }
    {
        numbers.iter().all(|number| placed.contains(&number.get())
            || self.edges(*number).is_empty())
    }
}
