ghost use Rattle.std.specs.Prelude.{◌≡◌, ◌-◌, ◌<◌, ◌≤◌, List, length, IfOk};
ghost use Rattle.sg_coord.specs.declared.coord.Coord.{Coord};
ghost use Rattle.sg_layout.specs.declared.shape.Kind.TheVariants.{Bitmasked};
ghost use Rattle.sg_layout.specs.Live.{kind_at};
ghost use Rattle.sg_store.specs.WellFormed.{IsWellFormed};
ghost use Rattle.sg_store.specs.Reaching.{KeepsCells};
ghost use Rattle.sg_store.specs.Changes.{IsRemasked, ChangesNode};
ghost use Rattle.sg_store.specs.Opening.{masks_of, CanSettleBits, WantedHaveBits, NewBitsAreWanted, OpensNode};

use crate::store::Store;
use sg_layout::paths_tell;
use sg_words::{Items, Memory};
use std::alloc::Global;

impl Store {
    /// All mask words of a bitmasked node, numbered from 1: a bit for each slot, 64 to a word.
    pub fn mask_words(&self, alloc: Global, node: u32) -> Result<Items<u64>, Memory>
        requires first { 1 ≤ node }
        requires masked { kind_at self.now.shape.nodes node ≡ Bitmasked }
        ensures words { IfOk result (λ masks. masks ≡ masks_of self.now node) }
        ensures some { IfOk result (λ masks. 0 < length masks) }
    {
        // for the laws that they ensure
        paths_tell();
        let _extents = self.layout.extents();
        let kept = &self.nodes.as_slice()[node as usize - 1];
        Ok(Items::from_vec(kept.masks.whole(alloc)?))
    }

    /// Gives a bitmasked node, numbered from 1, these masks.
    pub fn settle_masks(&mut self, node: u32, masks: &[u64])
        requires first { 1 ≤ node }
        requires masked { kind_at self.old.shape.nodes node ≡ Bitmasked }
        requires can { CanSettleBits self.old node masks.now }
        ensures settled { ChangesNode (IsRemasked masks.now) self.old self.new (node - 1) }
        ensures keeps { KeepsCells self.old self.new }
        ensures well_formed { IsWellFormed self.new }
        ensures opened { (wanted : List Coord) → WantedHaveBits self.old node masks.now wanted →
            NewBitsAreWanted self.old node masks.now wanted → OpensNode self.old self.new node wanted }
    {
        // for the laws that it ensures, and the invariant before and after
        paths_tell();
        self.layout();
        self.remask_node(node as usize - 1, masks);
        self.layout();
    }
}
