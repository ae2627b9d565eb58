ghost use Rattle.std.specs.Prelude.{◌≡◌, ◌≤◌, ◌<◌, ◌*◌, ◌/◌, drop, length, IsTrue};
ghost use Rattle.std.specs.List.{list_all};
ghost use Rattle.sg_coord.specs.Bounds.{bounds_of, volume};
ghost use Rattle.sg_coord.specs.Coord.{Inside};
ghost use Rattle.sg_layout.specs.Axes.{extent_in, bounds_of_shape};
ghost use Rattle.sg_layout.specs.Rules.{is_extent};
ghost use Rattle.sg_flat.specs.steps.Blocks.{bounds_over, nodes_above, is_whole, corner, within, all_of, each_of, number_in, row_in_blocks, reach_in, point_in};

use crate::blocks::Blocks;
use sg_coord::{Coord, Extents, coord_at, coord_of, count, quotient, remainder, row};
use sg_layout::{Kind, Layout, NodeShape, extent_in};

impl Blocks {
    /// The blocks of the node with this index, from 0, which is of this kind.
    pub(crate) fn of_node(layout: &Layout, index: usize, kind: Kind) -> Blocks
        requires { index < length layout.now.nodes }
        ensures extents { bounds_of result.extents ≡ bounds_of_shape layout.now }
        ensures block { bounds_of result.block
            ≡ bounds_over layout.now.axes (drop (nodes_above kind index) layout.now.nodes) }
        ensures whole { result.whole ≡ is_whole kind }
    {
        // for what the shape keeps
        let _accepted = layout.shape();
        let (above, whole) = match kind {
            Kind::Dynamic => (index, false),
            Kind::Dense | Kind::Bitmasked | Kind::Pointer | Kind::Hash => (index + 1, true),
        };
        Blocks {
            extents: layout.extents(),
            block: extents_below(layout, above),
            whole,
        }
    }

    /// The first point of the block that a coordinate is in.
    fn corner(&self, at: Coord) -> Coord
        requires { Inside (all_of self.now) at }
        ensures value { result ≡ corner (each_of self.now) at }
        ensures inside { Inside (all_of self.now) result }
    {
        coord_of(
            at.n,
            quotient(count(at.a), self.block.a) * self.block.a,
            quotient(count(at.b), self.block.b) * self.block.b,
            quotient(count(at.c), self.block.c) * self.block.c,
        )
    }

    /// Where a coordinate stands in its block, counted from the block's first point.
    fn within(&self, at: Coord) -> Coord
        requires { Inside (all_of self.now) at }
        ensures value { result ≡ within (each_of self.now) at }
        ensures inside { Inside (each_of self.now) result }
    {
        coord_of(
            at.n,
            remainder(count(at.a), self.block.a),
            remainder(count(at.b), self.block.b),
            remainder(count(at.c), self.block.c),
        )
    }

    /// The place of a coordinate in its block, in row order.
    pub(crate) fn place(&self, at: Coord) -> u32
        requires { Inside (all_of self.now) at }
        ensures value { result ≡ row_in_blocks self.now at }
        ensures below { result < volume (each_of self.now) }
    {
        row(&self.block, self.within(at))
    }

    /// The number of the block that a coordinate is in.
    pub(crate) fn number(&self, at: Coord) -> u32
        requires { Inside (all_of self.now) at }
        ensures { result ≡ number_in self.now at }
    {
        row(&self.extents, self.corner(at))
    }

    /// How many points of its block a coordinate makes live.
    pub(crate) fn reach(&self, at: Coord) -> u32
        requires { Inside (all_of self.now) at }
        ensures value { result ≡ reach_in self.now at }
        ensures most { result ≤ volume (each_of self.now) }
    {
        if self.whole {
            self.block.volume()
        } else {
            self.place(at) + 1
        }
    }

    /// The row of the point with this place in the block that a coordinate is in.
    pub(crate) fn row_at(&self, at: Coord, place: u32) -> u32
        requires inside { Inside (all_of self.now) at }
        requires place { place < volume (each_of self.now) }
        ensures below { result < volume (all_of self.now) }
        ensures block { number_in self.now (point_in self.now result) ≡ number_in self.now at }
        ensures place { row_in_blocks self.now (point_in self.now result) ≡ place }
    {
        let first = self.corner(at);
        let by = coord_at(&self.block, place);
        let point = coord_of(
            at.n,
            count(first.a) + count(by.a),
            count(first.b) + count(by.b),
            count(first.c) + count(by.c),
        );
        row(&self.extents, point)
    }
}

/// The extents over the nodes below the first `above` ones.
fn extents_below(layout: &Layout, above: usize) -> Extents
    requires { above ≤ length layout.now.nodes }
    ensures { bounds_of result ≡ bounds_over layout.now.axes (drop above layout.now.nodes) }
{
    let mut extents = layout.extents();
    for node in &layout.shape().nodes.as_slice()[..above] {
        extents = extents_without(extents, node);
    }
    extents
}

/// The extents once those of a node are divided out.
fn extents_without(extents: Extents, node: &NodeShape) -> Extents
    requires good { IsTrue (list_all (λ size. is_extent size.extent) node.now.sizes) }
    requires a_fits { extent_in node.now.sizes 1 ≤ extents.a }
    requires b_fits { extent_in node.now.sizes 2 ≤ extents.b }
    requires c_fits { extent_in node.now.sizes 3 ≤ extents.c }
    ensures n { result.n ≡ extents.n }
    ensures a { result.a ≡ extents.a / extent_in node.now.sizes 1 }
    ensures b { result.b ≡ extents.b / extent_in node.now.sizes 2 }
    ensures c { result.c ≡ extents.c / extent_in node.now.sizes 3 }
{
    let sizes = node.sizes.as_slice();
    Extents {
        n: extents.n,
        a: extents.a / extent_in(sizes, 1),
        b: extents.b / extent_in(sizes, 2),
        c: extents.c / extent_in(sizes, 3),
    }
}
