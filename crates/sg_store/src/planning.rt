//! The plans of a store's nodes, from the cells that are kept up to the root.

ghost use Rattle.std.specs.Prelude.{◌≡◌, ℕ, suc, ◌<◌, ◌≤◌, Bool, true, length, IfOk, OnOk};
ghost use Rattle.sg_store.specs.steps.Marks.{marked_from};
ghost use Rattle.sg_store.specs.steps.KeptWords.{in_row};
ghost use Rattle.sg_store.specs.steps.StorePlans.{marked_above, IsRowAt, IsSomeRow, ArePlansFrom, ArePlans};

use crate::front::marked_below;
use crate::kept_rows::row_above;
use crate::node_plan::{NodePlan, plan_node};
use crate::store::Store;
use sg_layout::{paths_tell, rules_decide};
use sg_words::{Items, Memory};
use std::alloc::Global;

impl Store {
    /// The plans of all nodes, that of the last node first, where these cells are kept.
    pub(crate) fn plans(&self, alloc: Global, cells: Items<bool>) -> Result<Vec<NodePlan>, Memory>
        requires { (cell : ℕ) → in_row cells cell ≡ true → cell < marked_from self.now.shape.nodes self.now.nodes 1 }
        ensures { IfOk result (λ plans. ArePlans self.now (in_row cells) plans.items) }
    {
        let nodes = self.layout.nodes();
        let mut plans = Vec::new(alloc);
        let mut row = cells;
        for done in 1..nodes {
            row = self.plan_above(alloc, &mut plans, nodes - done, row)?;
        }
        self.plan_first(alloc, &mut plans, row)?;
        Ok(plans)
    }

    /// Adds the plan of the node with this index, from 0, where a row keeps places below it, and gives the row of those above it.
    fn plan_above(
        &self,
        alloc: Global,
        plans: &mut Vec<NodePlan>,
        index: usize,
        row: Items<bool>,
    ) -> Result<Items<bool>, Memory>
        requires later { 1 ≤ index }
        requires there { index < length self.now.shape.nodes }
        requires row { IsSomeRow self.now (suc index) row }
        ensures { IfOk result (λ above. (cells : ℕ → Bool) → IsRowAt self.now.shape.nodes self.now.nodes cells (suc index) row →
            ArePlansFrom self.now.shape.nodes self.now.nodes cells (suc index) plans.old.items →
            IsRowAt self.now.shape.nodes self.now.nodes cells index above × ArePlansFrom self.now.shape.nodes self.now.nodes cells index plans.new.items) }
    {
        // for the laws that they ensure
        paths_tell();
        rules_decide();
        let _extents = self.layout.extents();
        let node = &self.layout.shape().nodes.as_slice()[index];
        let kept = &self.nodes.as_slice()[index];
        let plan = plan_node(alloc, node, kept, row)?;
        let size = self.layout.size(index) as usize;
        let above = row_above(alloc, node, kept, size, self.marked_above(index), &plan)?;
        plans.push(plan)?;
        Ok(above)
    }

    /// Adds the plan of the first node, where a row keeps places below it.
    fn plan_first(
        &self,
        alloc: Global,
        plans: &mut Vec<NodePlan>,
        row: Items<bool>,
    ) -> Result<(), Memory>
        requires { IsSomeRow self.now 1 row }
        ensures { OnOk result ((cells : ℕ → Bool) → IsRowAt self.now.shape.nodes self.now.nodes cells 1 row →
            ArePlansFrom self.now.shape.nodes self.now.nodes cells 1 plans.old.items → ArePlans self.now cells plans.new.items) }
    {
        // for the laws that they ensure
        paths_tell();
        rules_decide();
        let _extents = self.layout.extents();
        let node = &self.layout.shape().nodes.as_slice()[0];
        let kept = &self.nodes.as_slice()[0];
        plans.push(plan_node(alloc, node, kept, row)?)?;
        Ok(())
    }

    /// How many places above the node with this index, from 0, may be live.
    fn marked_above(&self, index: usize) -> usize
        requires { index < length self.now.shape.nodes }
        ensures { result ≡ marked_above self.now index }
    {
        let nodes = self.layout.shape().nodes.as_slice();
        let words = self.nodes.as_slice();
        let mut places = 1;
        for above in 0..index {
            let node = &nodes[above];
            let kept = &words[above];
            let slots = places * self.layout.size(above) as usize;
            places = marked_below(node, kept, slots);
        }
        places
    }
}
