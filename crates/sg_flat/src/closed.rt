ghost use Rattle.std.specs.Prelude.{◌<◌, ◌≤◌, ◌↔◌, All, Contains, IsTrue};
ghost use Rattle.std.specs.List.Sorted.{IsStrictlyIncreasing};
ghost use Rattle.sg_coord.specs.Bounds.{volume};
ghost use Rattle.sg_coord.specs.Coord.{Inside};
ghost use Rattle.sg_layout.specs.Axes.{bounds_of_shape};
ghost use Rattle.sg_flat.specs.Closed.{AreClosed};
ghost use Rattle.sg_flat.specs.steps.Blocks.{all_of, each_of, HasPlace, HasBefore, HasBehind, HasNeighbours};

use crate::blocks::Blocks;
use crate::closure::last_sparse;
use sg_coord::{Coord, coord_at, numbering};
use sg_layout::Layout;

/// Whether the points with these row numbers, which rise, are their own closure. It takes no memory.
pub fn is_closed(layout: &Layout, rows: &[u32]) -> bool
    requires rising { IsStrictlyIncreasing rows.now }
    requires below { All (λ row. row < volume (bounds_of_shape layout.now)) rows.now }
    ensures { IsTrue result ↔ AreClosed layout.now rows.now }
{
    // for the laws that it ensures
    numbering(&layout.extents());
    let nodes = layout.shape().nodes.as_slice();
    let sparse = last_sparse(nodes);
    if sparse == 0 {
        return rows.len() == layout.extents().volume() as usize;
    }
    let blocks = Blocks::of_node(layout, sparse - 1, nodes[sparse - 1].kind);
    blocks.have_neighbours(rows)
}

impl Blocks {
    /// Whether the neighbours of each of the points with these rows are there.
    fn have_neighbours(&self, rows: &[u32]) -> bool
        requires rising { IsStrictlyIncreasing rows.now }
        requires below { All (λ row. row < volume (all_of self.now)) rows.now }
        ensures { IsTrue result ↔ All (HasNeighbours self.now rows.now) rows.now }
    {
        for (index, row) in rows.iter().enumerate() {
            let missing = (*row as usize).wrapping_sub(index);
            if !self.has_neighbours(rows, *row, missing) {
                return false;
            }
        }
        true
    }

    /// Whether the points before and behind a point in its block are there, as far as it makes them live; soonest where so many rows below
    /// its own are missing.
    fn has_neighbours(&self, rows: &[u32], row: u32, missing: usize) -> bool
        requires rising { IsStrictlyIncreasing rows.now }
        requires below { All (λ row. row < volume (all_of self.now)) rows.now }
        requires inside { row < volume (all_of self.now) }
        ensures { IsTrue result ↔ HasNeighbours self.now rows.now row }
    {
        let at = coord_at(&self.extents, row);
        let place = self.place(at);
        let reach = self.reach(at);
        if !self.has_before(rows, missing, at, place) {
            return false;
        }
        self.has_behind(rows, missing, at, place, reach)
    }

    /// Whether the point before a place in the block of a coordinate is there, if there is one.
    fn has_before(&self, rows: &[u32], missing: usize, at: Coord, place: u32) -> bool
        requires rising { IsStrictlyIncreasing rows.now }
        requires below { All (λ row. row < volume (all_of self.now)) rows.now }
        requires inside { Inside (all_of self.now) at }
        requires place { place < volume (each_of self.now) }
        ensures { IsTrue result ↔ HasBefore self.now rows.now at place }
    {
        if place == 0 {
            return true;
        }
        self.has_place(rows, missing, at, place - 1)
    }

    /// Whether the point behind a place in the block of a coordinate is there, if it is below so many.
    fn has_behind(&self, rows: &[u32], missing: usize, at: Coord, place: u32, reach: u32) -> bool
        requires rising { IsStrictlyIncreasing rows.now }
        requires below { All (λ row. row < volume (all_of self.now)) rows.now }
        requires inside { Inside (all_of self.now) at }
        requires place { place < volume (each_of self.now) }
        requires reach { reach ≤ volume (each_of self.now) }
        ensures { IsTrue result ↔ HasBehind self.now rows.now at place reach }
    {
        let next = place + 1;
        if next >= reach {
            return true;
        }
        self.has_place(rows, missing, at, next)
    }

    /// Whether the point with this place in the block of a coordinate is there.
    fn has_place(&self, rows: &[u32], missing: usize, at: Coord, place: u32) -> bool
        requires rising { IsStrictlyIncreasing rows.now }
        requires below { All (λ row. row < volume (all_of self.now)) rows.now }
        requires inside { Inside (all_of self.now) at }
        requires place { place < volume (each_of self.now) }
        ensures { IsTrue result ↔ HasPlace self.now rows.now at place }
    {
        // for the laws that it ensures
        numbering(&self.extents);
        is_there(rows, missing, self.row_at(at, place))
    }
}

/// Whether a row is one of these, which rise. It is looked for first where it stands if so many rows below it are missing.
fn is_there(rows: &[u32], missing: usize, row: u32) -> bool
    requires rising { IsStrictlyIncreasing rows.now }
    ensures { IsTrue result ↔ Contains rows.now row }
{
    let near = (row as usize).wrapping_sub(missing);
    if near < rows.len() && rows[near] == row {
        return true;
    }
    rows.binary_search(&row).is_ok()
}
