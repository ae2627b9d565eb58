use crate::spot::Spot;
use crate::store::Store;
use sg_coord::numbering;
use sg_layout::paths_tell;

impl Store {
    ghost use Rattle.std.specs.Prelude.{◌≡◌, ℕ, List, length, Some};
    ghost use Rattle.sg_layout.specs.Slots.{coordinate_of};
    ghost use Rattle.sg_store.specs.Walks.{cell_along, cell_in};
    ghost use Rattle.sg_store.specs.WellFormed.{IsReached};
    ghost use Rattle.sg_store.specs.Spots.{LeadsAlong, IsSpot};

    /// The cell of a spot after the last node, which is that of the coordinate along whose path it leads.
    pub fn cell_at(&self, spot: Spot) -> u32
        requires leads { IsSpot self.now spot }
        requires whole { spot.node ≡ length self.now.shape.nodes }
        ensures cell { (path : List ℕ) → LeadsAlong self.now spot path → cell_along self.now path ≡ Some result }
        ensures at { (path : List ℕ) → LeadsAlong self.now spot path →
            cell_in self.now (coordinate_of self.now.shape path) ≡ Some result }
        ensures reached { IsReached self.now result }
    {
        // for the laws that they ensure
        paths_tell();
        numbering(&self.layout.extents());
        let nodes = self.layout.nodes();
        let width = self.layout.widths(nodes - 1).after;
        let place = spot.part as usize * width as usize + spot.slot as usize;
        place as u32
    }
}
