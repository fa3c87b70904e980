//! Which directories depend on some, in an order in which each can be looked at once.
ghost use Rattle.std.specs.Prelude.{◌≡◌, ◌==◌, ◌≢◌, ◌||◌, ◌↔◌, ℕ, [], length, nat_eq, not, true};
ghost use Rattle.std.specs.Prelude.{IfOk};
ghost use Rattle.std.specs.List.{list_any};
ghost use Rattle.std.specs.Option.{option_copied};
ghost use Rattle.hac_model.specs.Tree.Depends.{Among, NeverReturns};
ghost use Rattle.indexmap.specs.IndexSet.{contains};
ghost use Rattle.dep_graph.specs.Graphs.{edges_of, edges_with};
ghost use Rattle.dep_graph.specs.Searches.{EachOnce, IsCone, IsOrdered};

use crate::graph::{Graph, NewEdges};
use hac_model::{Memory, Number};
use indexmap::IndexSet;
use std::alloc::Global;

impl Graph {
    /// The directories that reach some of these, and those of these that are there, over the edges
    /// as they will be once the next ones are set, if there are any. So where these change, all
    /// that may change with them can be looked at once: each comes behind those of the cone on
    /// which it depends. It goes twice over all edges, however many directories are in the cone.
    pub fn cone(&self, dirs: &[Number], next: Option<&NewEdges>) -> Result<Vec<Number>, Memory>
        requires { NeverReturns (edges_with self.now (option_copied next)) }
        ensures { IfOk result (λ numbers.
            IsCone (edges_with self.now (option_copied next.entry)) dirs.now numbers.items) }
    {
        let ordered = self.all_in_order(next)?;
        self.reaching(dirs, next, ordered.as_slice())
    }

    /// All directories that have edges.
    pub fn directories(&self) -> Result<Vec<Number>, Memory>
        ensures all { IfOk result (λ numbers. (q : ℕ)
            → Among numbers.items q ↔ edges_of self.now q ≢ []) }
        ensures once { IfOk result (λ numbers. EachOnce numbers.items) }
    {
        let mut numbers = Vec::new(self.alloc);
        for (number, edges) in self.nodes.iter() {
            if leads(edges.as_slice()) {
                numbers.push(Number::new(*number))?;
            }
        }
        Ok(numbers)
    }

    /// All directories, each behind all on which it depends.
    fn all_in_order(&self, next: Option<&NewEdges>) -> Result<Vec<Number>, Memory>
        requires { NeverReturns (edges_with self.now (option_copied next)) }
        ensures all { IfOk result (λ numbers. (q : ℕ) → Among numbers.items q
            ↔ edges_with self.now (option_copied next.entry) q ≢ []) }
        ensures ordered { IfOk result (λ numbers.
            IsOrdered (edges_with self.now (option_copied next.entry)) numbers.items) }
    {
        let numbers = self.numbers(next)?;
        self.sources_with(next, numbers.as_slice())
    }

    /// The numbers of all nodes, that of the next edges in front. The directory that is ready for
    /// edges may have none.
    fn numbers(&self, next: Option<&NewEdges>) -> Result<Vec<Number>, Memory>
        ensures { IfOk result (λ numbers. (q : ℕ)
            → edges_with self.now (option_copied next.entry) q ≢ [] → Among numbers.items q) }
    {
        let mut numbers = Vec::new(self.alloc);
        if let Some(next) = next {
            numbers.push(next.dir)?;
        }
        for (number, _) in self.nodes.iter() {
            numbers.push(Number::new(*number))?;
        }
        Ok(numbers)
    }

    /// The directories that reach some of these, given all directories in order.
    fn reaching(
        &self,
        dirs: &[Number],
        next: Option<&NewEdges>,
        ordered: &[Number],
    ) -> Result<Vec<Number>, Memory>
        requires all { (q : ℕ) → Among ordered.now q
            ↔ edges_with self.now (option_copied next) q ≢ [] }
        requires ordered { IsOrdered (edges_with self.now (option_copied next)) ordered.now }
        ensures { IfOk result (λ numbers.
            IsCone (edges_with self.now (option_copied next.entry)) dirs.now numbers.items) }
    {
        let mut found = set_of(self.alloc, dirs)?;
        let mut cone = Vec::new(self.alloc);
        for number in ordered {
            if leads_into(&found, *number, self.edges_with(next, *number)) {
                found.insert(number.get())?;
                cone.push(*number)?;
            }
        }
        Ok(cone)
    }
}

/// Whether there are edges.
fn leads(edges: &[Number]) -> bool
    ensures { result ≡ not (length edges.now == 0) }
{
    !edges.is_empty()
}

/// A set of numbers.
fn set_of(alloc: Global, numbers: &[Number]) -> Result<IndexSet<u64>, Memory>
    ensures { IfOk result (λ set. (q : ℕ) → contains nat_eq set q ≡ true ↔ Among numbers.now q) }
{
    let mut set = IndexSet::new(alloc);
    for number in numbers {
        set.insert(number.get())?;
    }
    Ok(set)
}

/// Whether a number is in a set, or some of its edges leads there.
fn leads_into(set: &IndexSet<u64>, number: Number, edges: &[Number]) -> bool
    ensures { result ≡ (contains nat_eq set.now number
        || list_any (λ edge. contains nat_eq set.now edge) edges.now) }
{
    set.contains(&number.get()) || some_leads_into(set, edges)
}

/// Whether some of the edges leads into a set.
fn some_leads_into(set: &IndexSet<u64>, edges: &[Number]) -> bool
    ensures { result ≡ list_any (λ edge. contains nat_eq set.now edge) edges.now }
{
    edges.iter().any(|edge| set.contains(&edge.get()))
}
