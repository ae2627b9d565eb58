ghost use Rattle.std.specs.Prelude.{◌≡◌, ℕ, ◌+◌, ◌*◌, ◌^◌, ◌<◌, ◌≤◌, length};

use crate::frame::NodeWidths;
use crate::store::Store;
use sg_coord::{wide_quotient, wide_remainder};
use sg_layout::{Kind, rules_decide};

/// A place in the tree after `node` nodes: `part` is the number of the copy of its segment, and `slot` the row-major
/// number of the place among the slots of that copy's nodes up to there. After a pointer or hash node `part` is the
/// number of the child container, and `slot` is 0. After a dynamic node, which is the last, both together are the
/// number of its cell.
#[derive(Clone, Copy, Debug, PartialEq, Eq)]
pub struct Spot {
    pub node: u32,
    pub part: u32,
    pub slot: u32,
}

impl NodeWidths {
    ghost use Rattle.std.specs.Prelude.{◌↔◌, true};
    ghost use Rattle.sg_layout.specs.declared.shape.Kind.TheVariants.{Dense};
    ghost use Rattle.sg_store.specs.steps.Widths.{IsFound};

    fn is_dense(&self) -> bool
        ensures { (result ≡ true) ↔ (self.now.kind ≡ Dense) }
    {
        match self.kind {
            Kind::Dense => true,
            Kind::Bitmasked | Kind::Pointer | Kind::Hash | Kind::Dynamic => false,
        }
    }

    /// The spot after the node, in the same copy of its segment, over this offset.
    fn within(&self, spot: Spot, offset: u32) -> Spot
        requires node { spot.node < 6 }
        requires slot { spot.slot < self.now.before }
        requires below { offset < self.now.size }
        requires room { self.now.before * self.now.size ≤ 2 ^ 30 }
        ensures { result ≡ record { node = spot.node + 1; part = spot.part; slot = spot.slot * self.now.size + offset } }
    {
        Spot {
            node: spot.node + 1,
            part: spot.part,
            slot: spot.slot * self.size + offset,
        }
    }

    /// The spot after the node, over this offset, whose place is that to which the slot leads. Only below a dynamic node,
    /// which is the last, the place has to be divided.
    fn past(&self, spot: Spot, offset: u32, place: usize) -> Spot
        requires node { spot.node < 6 }
        requires slot { spot.slot < self.now.before }
        requires below { offset < self.now.size }
        requires room { self.now.before * self.now.size ≤ 2 ^ 30 }
        requires found { IsFound self.now spot offset place }
        ensures node { result.node ≡ spot.node + 1 }
        ensures place { result.part * self.now.after + result.slot ≡ place }
        ensures within { result.slot < self.now.after }
    {
        match self.kind {
            Kind::Dense | Kind::Bitmasked => self.within(spot, offset),
            Kind::Pointer | Kind::Hash => Spot {
                node: spot.node + 1,
                part: place as u32,
                slot: 0,
            },
            Kind::Dynamic => Spot {
                node: spot.node + 1,
                part: wide_quotient(place, self.after as usize) as u32,
                slot: wide_remainder(place, self.after as usize) as u32,
            },
        }
    }
}

impl Store {
    ghost use Rattle.std.specs.Prelude.{◌≡◌, ◌↔◌, ◌⊎◌, ℕ, suc, ◌<◌, ◌≤◌, ◌++◌, ◌∷◌, [], List, length, slice_index, IsSome, IfSome, IfNone, None};
    ghost use Rattle.sg_layout.specs.Axes.{sizes_of};
    ghost use Rattle.sg_flat.specs.declared.state.FlatLayout.{FlatLayout};
    ghost use Rattle.sg_store.specs.Walks.{cell_along};
    ghost use Rattle.sg_store.specs.StandsFor.{StandsFor};
    ghost use Rattle.sg_store.specs.Spots.{LeadsAlong, IsSpot, IsPassable};

    /// The spot before the first node.
    pub fn root(&self) -> Spot
        ensures { LeadsAlong self.now result [] }
    {
        Spot {
            node: 0,
            part: 0,
            slot: 0,
        }
    }

    /// The spot after one more node, over this offset. None if the offset isn't below the node's size, and where the
    /// node has activity and the slot isn't active.
    pub fn under(&self, spot: Spot, offset: u32) -> Option<Spot>
        requires leads { IsSpot self.now spot }
        requires not_last { spot.node < length self.now.shape.nodes }
        ensures below { IfSome result (λ below. (path : List ℕ) → LeadsAlong self.now spot path →
            LeadsAlong self.now below (path ++ offset ∷ [])) }
        ensures none { IfNone result ((path : List ℕ) → LeadsAlong self.now spot path →
            (slice_index (sizes_of self.now.shape.nodes) spot.node ≤ offset)
            ⊎ (cell_along self.now (path ++ offset ∷ []) ≡ None)) }
        ensures live { (flat : FlatLayout) → StandsFor self.now flat → (path : List ℕ) →
            LeadsAlong self.now spot path → IsSome result
            ↔ ((offset < slice_index (sizes_of self.now.shape.nodes) spot.node)
            × IsPassable self.now.shape flat.active (suc spot.node) (path ++ offset ∷ [])) }
    {
        // for the law that it ensures
        rules_decide();
        let index = spot.node as usize;
        let widths = self.layout.widths(index);
        if offset >= widths.size {
            return None;
        }
        if widths.is_dense() {
            return Some(widths.within(spot, offset));
        }
        let place = spot.part as usize * widths.before as usize + spot.slot as usize;
        let below = self.onward(index, place, offset, true)?;
        Some(widths.past(spot, offset, below))
    }

    /// The same, for one path along which the spot leads.
    pub fn down(&self, spot: Spot, offset: u32) -> Option<Spot>
        ghost path: { List ℕ }
        requires leads { LeadsAlong self.now spot path }
        requires not_last { spot.node < length self.now.shape.nodes }
        ensures below { IfSome result (λ below. LeadsAlong self.now below (path ++ offset ∷ [])) }
        ensures none { IfNone result ((slice_index (sizes_of self.now.shape.nodes) spot.node ≤ offset)
            ⊎ (cell_along self.now (path ++ offset ∷ []) ≡ None)) }
        ensures live { (flat : FlatLayout) → StandsFor self.now flat → IsSome result
            ↔ ((offset < slice_index (sizes_of self.now.shape.nodes) spot.node)
            × IsPassable self.now.shape flat.active (suc spot.node) (path ++ offset ∷ [])) }
    {
        self.under(spot, offset)
    }
}
