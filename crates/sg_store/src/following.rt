//! Cells that follow one another along the last axis.

ghost use Rattle.std.specs.Prelude.{◌≡◌, ℕ, pos, ◌≤ℤ◌, IsTrue, Some};
ghost use Rattle.std.specs.List.{list_all};
ghost use Rattle.sg_coord.specs.declared.coord.Coord.{Coord};
ghost use Rattle.sg_layout.specs.Rules.{is_extent};
ghost use Rattle.sg_store.specs.Following.{last_part, left_under, cells_left, CellsFollow};
ghost use Rattle.sg_store.specs.Walks.{cell_in};
ghost use Rattle.sg_store.specs.WellFormed.{IsReached};

use crate::store::Store;
use sg_coord::{Coord, count, inside, numbering, remainder};
use sg_layout::{Kind, NodeShape, extent_in, paths_tell};

impl Store {
    /// How many coordinates follow one along the last axis in the same container of the last node, if that is dense: each has the cell
    /// after that of the one before. 0 if the last node isn't dense, and for a coordinate outside.
    pub fn cells_after(&self, at: Coord) -> u32
        ensures many { result ≡ cells_left self.now.shape at }
        ensures follow { CellsFollow self.now at result }
        ensures reached { (next : Coord) (cell : ℕ) → cell_in self.now next ≡ Some cell → IsReached self.now cell }
    {
        // for the law that it ensures
        paths_tell();
        let nodes = self.layout.shape().nodes.as_slice();
        let last = self.layout.nodes() - 1;
        let node = &nodes[last];
        match node.kind {
            Kind::Dense => {
                // for the law that it ensures
                numbering(&self.layout.extents());
                if inside(&self.layout.extents(), at) {
                    left_in(node, at)
                } else {
                    0
                }
            }
            Kind::Bitmasked | Kind::Pointer | Kind::Hash | Kind::Dynamic => 0,
        }
    }
}

/// How many coordinates follow one along the last axis up to the next multiple of a node's extent.
fn left_in(node: &NodeShape, at: Coord) -> u32
    requires good { IsTrue (list_all (λ size. is_extent size.extent) node.now.sizes) }
    requires low { pos 0 ≤ℤ last_part at }
    ensures { result ≡ left_under node.now at }
{
    let extent = extent_in(node.sizes.as_slice(), at.n);
    let rest = remainder(count(last_part(at)), extent);
    extent - 1 - rest
}

/// The part on the last axis.
#[inline(always)]
fn last_part(at: Coord) -> i32
    ensures { result ≡ last_part at }
{
    if at.n >= 3 {
        return at.c;
    }
    if at.n >= 2 {
        return at.b;
    }
    at.a
}
