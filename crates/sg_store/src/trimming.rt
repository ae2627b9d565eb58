//! Nodes that are trimmed to their plans, and rows that are emptied. Nothing here takes memory.

ghost use Rattle.std.specs.Prelude.{◌≡◌, ℕ, ◌<◌, length, Some, slice_get};
ghost use Rattle.std.specs.List.{All};
ghost use Rattle.sg_store.specs.declared.node.NodeWords.{NodeWords};
ghost use Rattle.sg_store.specs.steps.Fresh.{IsZeroRow};
ghost use Rattle.sg_store.specs.steps.Planning.{IsPlannable, IsPlanFor};
ghost use Rattle.sg_store.specs.steps.Settling.{ChangesAt};
ghost use Rattle.sg_store.specs.steps.StorePlans.{ArePlanned, IsTrimmedBy, AreTrimmedTo, EmptiesRow};

use crate::field_row::FieldRow;
use crate::node::NodeWords;
use crate::node_plan::NodePlan;
use sg_layout::NodeShape;

/// Trims all nodes to their plans, of which that of the last node is the first.
pub(crate) fn trim_all(nodes: &mut Vec<NodeWords>, shapes: &[NodeShape], plans: &[NodePlan])
    requires many { length nodes.old.items ≡ length shapes.now }
    requires planned { ArePlanned shapes.now nodes.old.items plans.now }
    ensures { AreTrimmedTo shapes.now nodes.old.items nodes.new.items plans.now (length shapes.now) }
{
    let count = shapes.len();
    for index in 0..count {
        trim_at(nodes, index, &shapes[index], &plans[count - 1 - index]);
    }
}

/// Trims one of these nodes, by its index from 0, to its plan.
fn trim_at(nodes: &mut Vec<NodeWords>, index: usize, node: &NodeShape, plan: &NodePlan)
    requires there { index < length nodes.old.items }
    requires plannable { (kept : NodeWords) → slice_get nodes.old.items index ≡ Some kept → IsPlannable node.now kept }
    requires plan { (kept : NodeWords) → slice_get nodes.old.items index ≡ Some kept → IsPlanFor node.now.kind node.now kept plan.now }
    ensures { ChangesAt (IsTrimmedBy node.now plan.now) nodes.old.items nodes.new.items index }
{
    let kept = &mut nodes[index];
    kept.trim(node, plan);
}

/// Empties rows: all their words are 0 then.
pub(crate) fn empty_rows(rows: &mut Vec<FieldRow>)
    ensures many { length rows.new.items ≡ length rows.old.items }
    ensures zeros { (cells : ℕ) → All (λ row. length row ≡ cells) rows.old.items → All (IsZeroRow cells) rows.new.items }
{
    for index in 0..rows.len() {
        empty_row_at(rows, index);
    }
}

/// Empties one of these rows, by its index from 0.
fn empty_row_at(rows: &mut Vec<FieldRow>, index: usize)
    requires { index < length rows.old.items }
    ensures { EmptiesRow rows.old.items rows.new.items index }
{
    let row = &mut rows[index];
    row.clear();
}
