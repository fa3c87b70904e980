//! What directories depend on, in an order in which each can be looked at once.
ghost use Rattle.std.specs.Prelude.{◌≡◌, nat_eq, IfOk, OnOk};
ghost use Rattle.std.specs.Option.{option_copied};
ghost use Rattle.hac_model.specs.Tree.Depends.{NeverReturns};
ghost use Rattle.indexmap.specs.IndexSet.{contains};
ghost use Rattle.dep_graph.specs.Graphs.{edges_with};
ghost use Rattle.dep_graph.specs.Searches.{AreSources};
ghost use Rattle.dep_graph.specs.Steps.{Visits, entering};

use crate::graph::{Graph, NewEdges};
use hac_model::{Memory, Number, Pile};
use indexmap::IndexSet;

/// What is still to be done for a number.
#[derive(Clone, Copy, Debug)]
enum Step {
    // Go where its edges lead.
    Enter(Number),
    // Put it behind all to which they lead.
    Leave(Number),
}

impl Graph {
    /// The directories that some of these reaches, those among them that are there, over the edges
    /// as they will be once the next ones are set, if there are any. Each comes behind all on which
    /// it depends.
    pub(crate) fn sources_with(
        &self,
        next: Option<&NewEdges>,
        dirs: &[Number],
    ) -> Result<Vec<Number>, Memory>
        requires { NeverReturns (edges_with self.now (option_copied next)) }
        ensures { IfOk result (λ numbers.
            AreSources (edges_with self.now (option_copied next.entry)) dirs.now numbers.items) }
    {
        self.order(next, dirs)
    }

    /// The same over any edges. The order is right where no directory depends on itself.
    pub(crate) fn order(
        &self,
        next: Option<&NewEdges>,
        dirs: &[Number],
    ) -> Result<Vec<Number>, Memory>
        ensures { IfOk result (λ numbers.
            NeverReturns (edges_with self.now (option_copied next.entry))
            → AreSources (edges_with self.now (option_copied next.entry)) dirs.now numbers.items) }
    {
        let mut done = Vec::new(self.alloc);
        let mut seen = IndexSet::new(self.alloc);
        let mut stack = Pile::new(self.alloc);
        enter(&mut stack, dirs)?;
        'stack: while let Some(step) = stack.pop() {
            match step {
                Step::Enter(number) => {
                    visit(&mut seen, &mut stack, number, self.edges_with(next, number))?
                }
                Step::Leave(number) => done.push(number)?,
            }
        }
        Ok(done)
    }
}

/// Enters all to which the edges of a number lead, and leaves it behind them, if it has edges and
/// wasn't seen before.
fn visit(
    seen: &mut IndexSet<u64>,
    stack: &mut Pile<Step>,
    number: Number,
    edges: &[Number],
) -> Result<(), Memory>
    ensures { OnOk result (Visits edges.now number (contains nat_eq seen.old)
        (contains nat_eq seen.new) stack.old stack.new) }
{
    if !edges.is_empty() && seen.insert(number.get())? {
        stack.push(Step::Leave(number))?;
        enter(stack, edges)?;
    }
    Ok(())
}

/// Puts numbers onto a stack that are to be entered.
fn enter(stack: &mut Pile<Step>, numbers: &[Number]) -> Result<(), Memory>
    ensures { OnOk result (stack.new ≡ entering numbers.now stack.old) }
{
    for number in numbers {
        stack.push(Step::Enter(*number))?;
    }
    Ok(())
}
