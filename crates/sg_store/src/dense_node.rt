use crate::store::Store;
use sg_layout::Kind;

impl Store {
    ghost use Rattle.std.specs.Prelude.{◌≢◌, ◌⊎◌, suc, ◌≤◌, length, IfSome, IfNone};
    ghost use Rattle.sg_layout.specs.declared.shape.Kind.TheVariants.{Dense};
    ghost use Rattle.sg_layout.specs.Live.{kind_at};
    ghost use Rattle.sg_store.specs.DenseNodes.{IsDenseNode};

    /// The size of the node with this index, from 0, if it is dense. None if it isn't, and where there is no such node.
    pub fn dense_size(&self, index: u32) -> Option<u32>
        ensures size { IfSome result (IsDenseNode self.now index) }
        ensures none { IfNone result ((length self.now.shape.nodes ≤ index) ⊎ (kind_at self.now.shape.nodes (suc index) ≢ Dense)) }
    {
        if index as usize >= self.layout.nodes() {
            return None;
        }
        let widths = self.layout.widths(index as usize);
        match widths.kind {
            Kind::Dense => Some(widths.size),
            Kind::Bitmasked | Kind::Pointer | Kind::Hash | Kind::Dynamic => None,
        }
    }
}
