ghost use Rattle.std.specs.Prelude.{◌≡◌, ◌≤◌, ◌<◌, ◌^◌, ◌∷◌, length, map, IfOk, IsTrue, MatchOption, false, None};
ghost use Rattle.std.specs.List.{list_all};
ghost use Rattle.sg_coord.specs.Bounds.{bounds_of};
ghost use Rattle.sg_layout.specs.Axes.{extent_in, extent_over, bounds_of_shape};
ghost use Rattle.sg_layout.specs.Slots.{node_bounds};
ghost use Rattle.sg_layout.specs.steps.Measuring.{AreMeasurable, bounds_below, measure_of, measures_in};
ghost use Rattle.sg_layout.specs.Rules.{is_extent, has_good_extents, first_node_fault, is_small, is_declared};

use crate::measures::Measures;
use crate::rules::MOST_EXTENT;
use crate::shape::{NodeShape, Shape, Size};
use sg_coord::{Digits, Extents};
use sg_words::{Items, Memory};
use std::alloc::Global;

/// The greatest number of points of a layout.
const MOST_POINTS: u64 = 1 << 30;

/// The extents of a shape whose nodes have no fault. None if an axis or their product is too large.
pub(crate) fn extents_of(shape: &Shape) -> Option<Extents>
    requires declared { IsTrue (is_declared shape.now) }
    requires no_fault { first_node_fault shape.now.axes 1 shape.now.nodes ≡ None }
    ensures { MatchOption result (is_small (bounds_of_shape shape.now) ≡ false)
        (λ extents. IsTrue (is_small (bounds_of_shape shape.now))
        × (bounds_of extents ≡ bounds_of_shape shape.now)) }
{
    let nodes = shape.nodes.as_slice();
    let a = extent_over(nodes, 1)?;
    let b = extent_over(nodes, 2)?;
    let c = extent_over(nodes, 3)?;
    if u64::from(a) * u64::from(b) * u64::from(c) > MOST_POINTS {
        return None;
    }
    Some(Extents {
        n: shape.axes,
        a,
        b,
        c,
    })
}

/// The extent of an axis over all nodes. None if it is too large.
fn extent_over(nodes: &[NodeShape], axis: u32) -> Option<u32>
    requires { IsTrue (list_all has_good_extents nodes.now) }
    ensures { MatchOption result (2 ^ 15 < extent_over nodes.now axis)
        (λ extent. (extent ≡ extent_over nodes.now axis) × (extent ≤ 2 ^ 15)) }
{
    let mut extent = 1;
    for node in nodes {
        extent *= extent_in(node.sizes.as_slice(), axis);
        if extent > MOST_EXTENT {
            return None;
        }
    }
    Some(extent)
}

/// The extent that a node's sizes give an axis, from 1: 1 if they do not name it.
pub fn extent_in(sizes: &[Size], axis: u32) -> u32
    requires { IsTrue (list_all (λ size. is_extent size.extent) sizes.now) }
    ensures value { result ≡ extent_in sizes.now axis }
    ensures some { 1 ≤ result }
    ensures most { result ≤ 2 ^ 15 }
{
    for size in sizes {
        if size.axis == axis {
            return size.extent as u32;
        }
    }
    1
}

/// The measures of a shape's nodes, from the root on.
pub(crate) fn measures_of(alloc: Global, shape: &Shape) -> Result<Items<Measures>, Memory>
    requires few { length shape.now.nodes ≤ 6 }
    requires fit { AreMeasurable shape.now.axes 1 shape.now.nodes }
    ensures { IfOk result (λ measures. map measure_of measures ≡ measures_in shape.now.nodes) }
{
    let nodes = shape.nodes.as_slice();
    let mut measures = Items::new(alloc);
    for (index, node) in nodes.iter().enumerate() {
        measures.push(node_measures(shape.axes, index as u32 + 1, node, &nodes[index + 1..]))?;
    }
    Ok(measures)
}

/// The measures of the node with this number, where the others are the nodes below it.
fn node_measures(axes: u32, number: u32, node: &NodeShape, later: &[NodeShape]) -> Measures
    requires { AreMeasurable axes number (node.now ∷ later.now) }
    ensures own { bounds_of result.own ≡ node_bounds node.now }
    ensures below { bounds_of result.below ≡ bounds_below later.now }
{
    let sizes = node.sizes.as_slice();
    let own = Extents {
        n: 3,
        a: extent_in(sizes, 1),
        b: extent_in(sizes, 2),
        c: extent_in(sizes, 3),
    };
    let below = extents_below(axes, number, node, later);
    Measures {
        own,
        below,
        a: Digits::of(below.a, own.a),
        b: Digits::of(below.b, own.b),
        c: Digits::of(below.c, own.c),
    }
}

/// The extents over the nodes below a node.
fn extents_below(axes: u32, number: u32, node: &NodeShape, later: &[NodeShape]) -> Extents
    requires { AreMeasurable axes number (node.now ∷ later.now) }
    ensures { bounds_of result ≡ bounds_below later.now }
{
    let a = extent_over(later, 1).unwrap_or(1);
    let b = extent_over(later, 2).unwrap_or(1);
    let c = extent_over(later, 3).unwrap_or(1);
    Extents { n: 3, a, b, c }
}
