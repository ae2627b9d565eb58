//! Layouts from tables of nodes, stores of them, and coordinates.

ghost use Rattle.std.specs.Prelude.{◌↔◌, IsTrue, All};
ghost use Rattle.sg_coord.specs.Bounds.{bounds_of};
ghost use Rattle.sg_coord.specs.Coord.{Inside};

use sg_coord::{Coord, Extents, inside};
use sg_layout::{Kind, Layout, NodeShape, Shape, Size, check_layout};
use sg_store::Store;
use sg_words::{Items, Ty};
use std::alloc::{AllocError, Global};
use std::test::Fail;

/// A node: its kind, its extents on the three axes, 0 for one that it doesn't name, and its cap.
pub(crate) type Node = (Kind, [i32; 3], i32);

/// A coordinate's parts, of which those past the axes are 0.
pub(crate) type Point = [i32; 3];

static AXES: [u32; 3] = [1, 2, 3];

fn sizes_of(alloc: Global, extents: &[i32; 3]) -> Result<Items<Size>, AllocError> {
    let mut sizes = Items::new(alloc);
    for (axis, extent) in AXES.iter().zip(extents) {
        if *extent > 0 {
            sizes.push(Size {
                axis: *axis,
                extent: *extent,
            })?;
        }
    }
    Ok(sizes)
}

/// Chunks of four elements for a dynamic node.
fn chunk_of(kind: Kind) -> i32 {
    match kind {
        Kind::Dynamic => 4,
        _ => 0,
    }
}

fn nodes_of(alloc: Global, nodes: &[Node]) -> Result<Items<NodeShape>, AllocError> {
    let mut shapes = Items::new(alloc);
    for (kind, extents, cap) in nodes {
        shapes.push(NodeShape {
            kind: *kind,
            sizes: sizes_of(alloc, extents)?,
            cap: *cap,
            chunk: chunk_of(*kind),
        })?;
    }
    Ok(shapes)
}

/// The shape of these nodes with three fields, of which the second has no signs.
pub(crate) fn shape_of(alloc: Global, axes: u32, nodes: &[Node]) -> Result<Shape, AllocError> {
    Ok(Shape {
        axes,
        nodes: nodes_of(alloc, nodes)?,
        fields: Items::from_slice(alloc, &[Ty::I32, Ty::U32, Ty::I32])?,
    })
}

pub(crate) fn layout_of(alloc: Global, axes: u32, nodes: &[Node]) -> Result<Layout, Fail> {
    let shape = shape_of(alloc, axes, nodes)?;
    if !shape.is_declared() {
        return Err(Fail::from("not declared"));
    }
    Ok(check_layout(alloc, &shape)?)
}

/// The opening store of these nodes.
pub(crate) fn store_of(alloc: Global, axes: u32, nodes: &[Node]) -> Result<Store, Fail> {
    let layout = layout_of(alloc, axes, nodes)?;
    if layout.words() > 1 << 22 {
        return Err(Fail::from("many words"));
    }
    Ok(Store::make(alloc, &layout)?)
}

/// A coordinate over so many axes.
pub(crate) fn at(axes: u32, point: Point) -> Coord {
    let [a, b, c] = point;
    Coord { n: axes, a, b, c }
}

/// A coordinate on one axis.
pub(crate) fn on_line(a: i32) -> Coord {
    at(1, [a, 0, 0])
}

pub(crate) fn coords_of(
    alloc: Global,
    axes: u32,
    points: &[Point],
) -> Result<Vec<Coord>, AllocError> {
    let mut coords = Vec::new(alloc);
    for point in points {
        coords.push(at(axes, *point))?;
    }
    Ok(coords)
}

pub(crate) fn are_inside(extents: &Extents, coords: &[Coord]) -> bool
    ensures { IsTrue result ↔ All (Inside (bounds_of extents.now)) coords.now }
{
    coords.iter().all(|at| inside(extents, *at))
}

/// Activates these coordinates of a store.
pub(crate) fn reach(alloc: Global, store: &mut Store, wanted: &[Coord]) -> Result<(), Fail> {
    if !are_inside(&store.layout().extents(), wanted) {
        return Err(Fail::from("outside"));
    }
    Ok(store.reach(alloc, wanted)?)
}

/// Gives a field a value at a coordinate, if that is active.
pub(crate) fn put(store: &mut Store, place: u32, at: Coord, word: u32) {
    if (place as usize) < store.layout().shape().fields.len() {
        if let Some(cell) = store.cell_of(at) {
            store.set(place, cell, word);
        }
    }
}

/// The value of a field at a coordinate, 0 if that isn't active.
pub(crate) fn value_at(store: &Store, place: u32, at: Coord) -> u32 {
    if (place as usize) < store.layout().shape().fields.len() {
        if let Some(cell) = store.cell_of(at) {
            return store.value(place, cell);
        }
    }
    0
}
