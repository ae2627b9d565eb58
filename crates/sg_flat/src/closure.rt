ghost use Rattle.std.specs.Prelude.{◌≡◌, ◌<◌, ◌≤◌, ◌||◌, ℕ, map, length, IfOk, OnOk, All};
ghost use Rattle.std.specs.Ordering.{nat_cmp};
ghost use Rattle.std.specs.BTreeSet.{contains, IsOrdered};
ghost use Rattle.sg_coord.specs.Bounds.{bounds_of, volume};
ghost use Rattle.sg_coord.specs.Coord.{Inside, point_at};
ghost use Rattle.sg_layout.specs.Axes.{bounds_of_shape};
ghost use Rattle.sg_layout.specs.Closure.{last_sparse, points, closure};
ghost use Rattle.sg_flat.specs.steps.Blocks.{all_of, each_of, reaches_row, is_between};

use crate::blocks::Blocks;
use crate::lengths::Grown;
use sg_coord::{Coord, Extents, coord_at, numbering};
use sg_layout::{Kind, Layout, NodeShape};
use sg_words::{Items, Memory};
use std::alloc::Global;
use std::collections::{BTreeMap, BTreeSet};

/// The closure of coordinates inside a layout, in row order, each once.
pub(crate) fn closure(
    alloc: Global,
    layout: &Layout,
    coords: &[Coord],
) -> Result<Items<Coord>, Memory>
    requires { All (Inside (bounds_of_shape layout.now)) coords.now }
    ensures { IfOk result (λ active. active ≡ closure layout.now coords.now) }
{
    // for the laws that it ensures
    numbering(&layout.extents());
    let nodes = layout.shape().nodes.as_slice();
    let sparse = last_sparse(nodes);
    if sparse == 0 {
        return all_points(alloc, &layout.extents());
    }
    let blocks = Blocks::of_node(layout, sparse - 1, nodes[sparse - 1].kind);
    let rows = live_rows(alloc, &blocks, coords)?;
    points_at(alloc, &blocks.extents, &rows)
}

/// The number of the last node that isn't dense, from 1; 0 if all are.
pub(crate) fn last_sparse(nodes: &[NodeShape]) -> usize
    ensures value { result ≡ last_sparse nodes.now }
    ensures most { result ≤ length nodes.now }
{
    let mut last = 0;
    for (index, node) in nodes.iter().enumerate() {
        if node.kind != Kind::Dense {
            last = index + 1;
        }
    }
    last
}

/// The rows of the points that coordinates make live.
fn live_rows(alloc: Global, blocks: &Blocks, coords: &[Coord]) -> Result<BTreeSet<u32>, Memory>
    requires { All (Inside (all_of blocks.now)) coords.now }
    ensures { IfOk result (λ rows. (row : ℕ) → contains nat_cmp rows row
        ≡ reaches_row blocks.now coords.now row) }
{
    let mut lengths = BTreeMap::new(alloc);
    let mut rows = BTreeSet::new(alloc);
    for at in coords {
        let grown = blocks.lengthen(&mut lengths, *at)?;
        blocks.add_rows(&mut rows, *at, grown)?;
    }
    Ok(rows)
}

impl Blocks {
    /// Adds the rows of the points by which a coordinate's block has grown.
    fn add_rows(&self, rows: &mut BTreeSet<u32>, at: Coord, grown: Grown) -> Result<(), Memory>
        requires inside { Inside (all_of self.now) at }
        requires rises { grown.from ≤ grown.to }
        requires within { grown.to ≤ volume (each_of self.now) }
        ensures { OnOk result ((row : ℕ) → contains nat_cmp rows.new row
            ≡ (contains nat_cmp rows.old row || is_between self.now at grown.from grown.to row)) }
    {
        // for the laws that it ensures
        numbering(&self.extents);
        for place in grown.from..grown.to {
            rows.insert(self.row_at(at, place))?;
        }
        Ok(())
    }
}

/// The points with these rows, in order.
fn points_at(alloc: Global, extents: &Extents, rows: &BTreeSet<u32>) -> Result<Items<Coord>, Memory>
    requires { All (λ row. row < volume (bounds_of extents.now)) rows.now.keys }
    ensures points { IfOk result (λ points. points ≡ map (point_at (bounds_of extents.now)) rows.now.keys) }
    ensures ordered { IsOrdered nat_cmp rows.now }
{
    let mut points = Items::new(alloc);
    for row in rows {
        points.push(coord_at(extents, *row))?;
    }
    Ok(points)
}

/// All points inside the extents, in row order.
fn all_points(alloc: Global, extents: &Extents) -> Result<Items<Coord>, Memory>
    ensures { IfOk result (λ active. active ≡ points (bounds_of extents.now)) }
{
    let mut active = Items::new(alloc);
    for row in 0..extents.volume() {
        active.push(coord_at(extents, row))?;
    }
    Ok(active)
}
