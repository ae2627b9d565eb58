use crate::store::Store;
use sg_coord::numbering;
use sg_layout::paths_tell;

/// The words of a field by the numbers of cells, 0 past their end, and how many cells one copy of the last segment has: the cell of a spot
/// after the last node is so many times its part, and its slot.
#[derive(Clone, Copy)]
pub struct FieldCells<'a> {
    pub words: &'a [u32],
    pub width: u32,
}

impl Store {
    ghost use Rattle.std.specs.Prelude.{◌<◌, length};
    ghost use Rattle.sg_store.specs.FieldCells.{AreCellsOf};

    /// The cells of a field, from 0.
    pub fn field_cells(&self, place: u32) -> FieldCells<'_>
        requires field { place < length self.now.shape.fields }
        ensures { AreCellsOf self.now place result.width result.words.now }
    {
        // for the laws that they ensure
        paths_tell();
        numbering(&self.layout.extents());
        let nodes = self.layout.nodes();
        let widths = self.layout.widths(nodes - 1);
        let words = self.fields.as_slice()[place as usize].standing();
        FieldCells {
            words,
            width: widths.after,
        }
    }
}
