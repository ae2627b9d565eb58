ghost use Rattle.std.specs.Prelude.{◌≡◌, ◌-◌, ◌<◌, List, length, IfOk, OnOk, OnErr};
ghost use Rattle.sg_coord.specs.declared.coord.Coord.{Coord};
ghost use Rattle.sg_layout.specs.declared.shape.Kind.TheVariants.{Dynamic};
ghost use Rattle.sg_layout.specs.declared.shape.NodeShape.{NodeShape};
ghost use Rattle.sg_layout.specs.Axes.{count_of};
ghost use Rattle.sg_layout.specs.Live.{kind_at};
ghost use Rattle.sg_layout.specs.NeedLaws.{IsNumberedNode};
ghost use Rattle.sg_dynamic.specs.Chunks.{fit};
ghost use Rattle.sg_store.specs.WellFormed.{IsWellFormed};
ghost use Rattle.sg_store.specs.Reaching.{KeepsCells};
ghost use Rattle.sg_store.specs.Changes.{IsRefitted, ChangesNode};
ghost use Rattle.sg_store.specs.Opening.{lengths_of, CanSettleLengths, WantedAreBelow, NewLengthsAreWanted, OpensNode};

use crate::node::chunk_of;
use crate::store::Store;
use sg_dynamic::ChunkFull;
use sg_layout::{paths_tell, rules_decide};
use sg_words::{Items, Memory};
use std::alloc::Global;

impl Store {
    /// All lengths of a dynamic node, which is the last: one for each parent.
    pub fn length_words(&self, alloc: Global) -> Result<Items<u64>, Memory>
        requires dynamic { kind_at self.now.shape.nodes (length self.now.shape.nodes) ≡ Dynamic }
        ensures words { IfOk result (λ lengths. lengths ≡ lengths_of self.now (length self.now.shape.nodes)) }
        ensures some { IfOk result (λ lengths. 0 < length lengths) }
    {
        // for the laws that they ensure
        paths_tell();
        let _extents = self.layout.extents();
        let last = self.layout.nodes() - 1;
        let kept = &self.nodes.as_slice()[last];
        Ok(Items::from_vec(kept.lengths.whole(alloc)?))
    }

    /// Gives a dynamic node, which is the last, these lengths, and each parent the chunks that its length needs. Refused,
    /// with nothing changed, exactly when they need more chunks than the cap.
    pub fn settle_lengths(&mut self, lengths: &[u64]) -> Result<(), ChunkFull>
        requires dynamic { kind_at self.old.shape.nodes (length self.old.shape.nodes) ≡ Dynamic }
        requires can { CanSettleLengths self.old (length self.old.shape.nodes) lengths.now }
        ensures answer { (node : NodeShape) → IsNumberedNode self.old.shape (length self.old.shape.nodes) node →
            result ≡ fit (count_of node.chunk) lengths.now (count_of node.cap) }
        ensures settled { (node : NodeShape) → IsNumberedNode self.old.shape (length self.old.shape.nodes) node → OnOk result
            (ChangesNode (IsRefitted lengths.now (count_of node.chunk)) self.old self.new (length self.old.shape.nodes - 1)) }
        ensures keeps { OnOk result (KeepsCells self.old self.new) }
        ensures well_formed { IsWellFormed self.new }
        ensures opened { OnOk result ((wanted : List Coord) →
            WantedAreBelow self.old (length self.old.shape.nodes) lengths.now wanted →
            NewLengthsAreWanted self.old (length self.old.shape.nodes) lengths.now wanted →
            OpensNode self.old self.new (length self.old.shape.nodes) wanted) }
        ensures stays { OnErr result (self.new ≡ self.old) }
    {
        // for the laws that it ensures, and the invariant before and after
        paths_tell();
        rules_decide();
        self.layout();
        let last = self.layout.nodes() - 1;
        let chunk = chunk_of(&self.layout.shape().nodes.as_slice()[last]);
        let answer = self.relength_node(last, lengths, chunk);
        self.layout();
        answer
    }
}
