//! All new verdicts of a change.
ghost use Rattle.std.specs.Prelude.{◌≡◌, ◌≤◌, ◌+◌, ℕ, [], IfOk};
ghost use Rattle.dep_graph.specs.Searches.{EachOnce};
ghost use Rattle.hac_model.specs.Tree.Depends.{Among};
ghost use Rattle.reeval.specs.Judging.{verdict_of};
ghost use Rattle.reeval.specs.Probes.{terms_planned};
ghost use Rattle.reeval.specs.Settled.{AreFresh, IsPlanned};
ghost use Rattle.reeval.specs.Told.{news_on, told};

use crate::before::Before;
use crate::layout::Layout;
use crate::settling::{Stop, settle_all};
use crate::verdicts::Change;
use hac_model::{Memory, Number};
use hac_outside::Steps;
use std::alloc::Global;
use std::sync::ledger::Ledger;

/// Which items a change touches, and on which way each of them and of the others is judged.
#[derive(Debug, Drop)]
pub struct Task {
    /// The items that it touches, each once.
    pub touched: Vec<Number>,
    /// A stop at each semantic directory, for the items that it touches.
    pub everywhere: Vec<Stop>,
    /// The items that it doesn't touch, each once; none where it begins at no directory.
    pub others: Vec<Number>,
    /// The directories at which it begins, and those that depend on them.
    pub along: Vec<Stop>,
}

/// The new verdicts on all items.
pub fn plan<Y: Layout, B: Before, L: Ledger>(
    alloc: Global,
    layout: &Y,
    before: &B,
    task: &Task,
    probes: &mut Steps<L>,
) -> Result<Vec<Change>, Memory>
    requires touched { EachOnce task.now.touched.items }
    requires others { EachOnce task.now.others.items }
    requires apart { (item : ℕ) → Among task.now.touched.items item
        → Among task.now.others.items item → ⊥ }
    ensures news { IsPlanned (B.state before.now) (Y.state layout.now) task.now
        → IfOk result (λ delta. (item dir : ℕ)
        → told (news_on item delta.items) (verdict_of (B.state before.now) item) dir
        ≡ verdict_of (Y.state layout.now) item dir) }
    ensures fresh { IsPlanned (B.state before.now) (Y.state layout.now) task.now
        → IfOk result (λ delta. AreFresh (B.state before.now) delta.items) }
    ensures probes { IsPlanned (B.state before.now) (Y.state layout.now) task.now → probes.new ≤ probes.old
        + terms_planned (B.state before.now) (Y.state layout.now) task.now }
{
    let everywhere = task.everywhere.as_slice();
    let touched = task.touched.as_slice();
    let mut delta = Vec::new(alloc);
    settle_all(
        alloc, layout, before, everywhere, touched, &mut delta, probes,
    )?;
    let along = task.along.as_slice();
    let others = task.others.as_slice();
    settle_all(alloc, layout, before, along, others, &mut delta, probes)?;
    Ok(delta)
}
