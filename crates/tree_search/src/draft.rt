//! What a search has written down so far.
ghost use Rattle.std.specs.Prelude.{◌≡◌, OnOk, [], None};
ghost use Rattle.flow_types.specs.Feasible.{IsFeasible};
ghost use Rattle.flow_types.specs.Scenario.{parts_of};
ghost use Rattle.tree_search.specs.Drafts.{IsNoted, IsOffered};

use crate::found::{Bounds, Counts, Plans};
use crate::gap::Gap;
use branch_tree::{TreeNode, TreeNodes};
use flow_types::{Bound, OutOfMemory, Plan, Scenario, Sequence};
use plan_rules::cost;
use std::alloc::Global;

/// The plans and the first nodes of the tree, with their counts and bounds.
#[derive(Drop)]
pub struct RecordDraft {
    pub plans: Plans,
    pub nodes: TreeNodes,
    pub counts: Counts,
    pub bounds: Bounds,
    /// What the last plan costs.
    pub best: Option<i64>,
}

impl RecordDraft {
    /// The gap between the best plan and the bound.
    pub fn gap(&self, bound: Bound) -> Gap {
        Gap {
            cutoff: self.best,
            bound,
        }
    }
}

/// Nothing so far.
pub fn no_draft(alloc: Global) -> RecordDraft
    ensures plans { result.plans ≡ [] }
    ensures nodes { result.nodes ≡ [] }
    ensures counts { result.counts ≡ [] }
    ensures bounds { result.bounds ≡ [] }
    ensures best { result.best ≡ None }
{
    RecordDraft {
        plans: Sequence::empty(alloc),
        nodes: Sequence::empty(alloc),
        counts: Sequence::empty(alloc),
        bounds: Sequence::empty(alloc),
        best: None,
    }
}

/// Keeps a plan that is cheaper than the last one.
pub fn offer(draft: &mut RecordDraft, s: &Scenario, plan: Plan) -> Result<(), OutOfMemory>
    requires { IsFeasible (parts_of s.now) plan }
    ensures { OnOk result (IsOffered (parts_of s.now) plan draft.old draft.new) }
{
    let price = cost(s, &plan);
    if !Bound::AtLeast(i128::from(price)).is_reached(draft.best) {
        draft.plans.add(plan)?;
        draft.best = Some(price);
    }
    Ok(())
}

/// Writes a node down, with its bound.
pub fn note(draft: &mut RecordDraft, node: TreeNode, bound: Bound) -> Result<(), OutOfMemory>
    ensures { OnOk result (IsNoted node bound draft.old draft.new) }
{
    draft.nodes.add(node)?;
    draft.counts.add(draft.plans.items().len() as u64)?;
    draft.bounds.add(bound)?;
    Ok(())
}
