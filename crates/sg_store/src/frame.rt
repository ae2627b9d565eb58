//! The layout of a store, with what a step down needs at each node, counted once.
ghost use Rattle.std.specs.Prelude.{◌≡◌, ◌*◌, ◌^◌, ◌<◌, ◌≤◌, length, IfOk, slice_index};
ghost use Rattle.sg_coord.specs.Bounds.{IsBounds, bounds_of};
ghost use Rattle.sg_coord.specs.Coord.{Inside};
ghost use Rattle.sg_coord.specs.Limits.{most_points};
ghost use Rattle.sg_layout.specs.Accepted.{IsAccepted};
ghost use Rattle.sg_layout.specs.Axes.{bounds_of_shape, sizes_of};
ghost use Rattle.sg_layout.specs.Limits.{most_nodes};
ghost use Rattle.sg_layout.specs.Path.{offsets};
ghost use Rattle.sg_store.specs.Spots.{width_past};
ghost use Rattle.sg_store.specs.steps.Widths.{IsWidths, AreWidths};

use sg_coord::{Coord, Extents};
use sg_layout::{Kind, Layout, Shape, paths_tell};
use sg_words::{Items, Memory};
use std::alloc::Global;
use std::marker::Model;

/// What a step down needs at a node: its kind, how many slots it has under a place, and how many slots one copy of its
/// segment has before the node and after it.
#[derive(Clone, Copy, Debug, PartialEq, Eq)]
pub(crate) struct NodeWidths {
    pub(crate) kind: Kind,
    pub(crate) size: u32,
    pub(crate) before: u32,
    pub(crate) after: u32,
}

impl NodeWidths {
    ghost use Rattle.sg_layout.specs.declared.shape.NodeShape.{NodeShape};
    ghost use Rattle.sg_layout.specs.Axes.{size_of};
    ghost use Rattle.sg_store.specs.Slots.{word_number};

    /// The number of the word that the node has for a slot.
    pub(crate) fn word_number(&self, slot: usize) -> usize
        requires { 1 ≤ self.now.size }
        ensures { (node : NodeShape) → self.now.size ≡ size_of node.sizes →
            result ≡ word_number self.now.kind node slot }
    {
        match self.kind {
            Kind::Dense | Kind::Bitmasked | Kind::Pointer | Kind::Hash => slot,
            Kind::Dynamic => slot / self.size as usize,
        }
    }
}

/// A layout with the widths of its nodes. Contracts see it as the layout's shape.
#[derive(Debug, Drop)]
pub(crate) struct Frame {
    layout: Layout,
    widths: Items<NodeWidths>,
}

impl Model for Frame {
    ghost use Rattle.sg_layout.specs.declared.shape.Shape.{Shape};
    ghost use Rattle.sg_store.specs.steps.Widths.{AreWidths};

    ghost Value = { Shape };

    ghost view = { λ frame. frame.layout };

    ghost invariant = { λ frame. AreWidths frame.layout.nodes frame.widths };
}

/// The widths of a layout's nodes, in one pass over them.
fn widths_of(alloc: Global, layout: &Layout) -> Result<Items<NodeWidths>, Memory>
    ensures { IfOk result (AreWidths layout.now.nodes) }
{
    // for the laws that they ensure
    paths_tell();
    let _extents = layout.extents();
    let nodes = layout.shape().nodes.as_slice();
    let mut widths = Items::new(alloc);
    let mut before = 1;
    for index in 0..nodes.len() {
        let kind = nodes[index].kind;
        let size = layout.size(index);
        let after = width_past(kind, before * size);
        widths.push(NodeWidths {
            kind,
            size,
            before,
            after,
        })?;
        before = after;
    }
    Ok(widths)
}

/// The slots of one copy of a segment after a node, if it has so many at the node.
fn width_past(kind: Kind, slots: u32) -> u32
    ensures { result ≡ width_past kind slots }
{
    match kind {
        Kind::Pointer | Kind::Hash => 1,
        Kind::Dense | Kind::Bitmasked | Kind::Dynamic => slots,
    }
}

impl Frame {
    /// The frame of a layout.
    pub(crate) fn make(alloc: Global, layout: &Layout) -> Result<Frame, Memory>
        ensures { IfOk result (λ frame. frame ≡ layout.now) }
    {
        Ok(Frame {
            layout: layout.copy(alloc)?,
            widths: widths_of(alloc, layout)?,
        })
    }

    /// A copy of the frame.
    pub(crate) fn copy(&self, alloc: Global) -> Result<Frame, Memory>
        ensures { IfOk result (λ copy. copy ≡ self.now) }
    {
        Ok(Frame {
            layout: self.layout.copy(alloc)?,
            widths: Items::from_slice(alloc, self.widths.as_slice())?,
        })
    }

    /// Its layout.
    pub(crate) fn layout(&self) -> &Layout
        ensures { result.now ≡ self.now }
    {
        &self.layout
    }

    /// The shape of its layout.
    pub(crate) fn shape(&self) -> &Shape
        ensures value { result.now ≡ self.now }
        ensures accepted { IsAccepted self.now }
    {
        self.layout.shape()
    }

    /// How many points each axis has.
    pub(crate) fn extents(&self) -> Extents
        ensures value { bounds_of result ≡ bounds_of_shape self.now }
        ensures bounds { IsBounds (bounds_of_shape self.now) }
    {
        self.layout.extents()
    }

    /// How many nodes there are.
    pub(crate) fn nodes(&self) -> usize
        ensures value { result ≡ length self.now.nodes }
        ensures some { 1 ≤ result }
        ensures few { result ≤ most_nodes }
    {
        self.layout.nodes()
    }

    /// The widths of the node with this index, from 0.
    pub(crate) fn widths(&self, index: usize) -> NodeWidths
        requires { index < length self.now.nodes }
        ensures { IsWidths self.now.nodes index result }
    {
        self.widths.as_slice()[index]
    }

    /// How many slots the node with this index, from 0, has under one slot of the node before it.
    pub(crate) fn size(&self, node: usize) -> u32
        requires { node < length self.now.nodes }
        ensures value { result ≡ slice_index (sizes_of self.now.nodes) node }
        ensures some { 1 ≤ result }
        ensures most { result ≤ most_points }
    {
        self.widths(node).size
    }

    /// The offset of a coordinate at the node with this index, from 0.
    pub(crate) fn offset(&self, node: usize, at: Coord) -> u32
        requires there { node < length self.now.nodes }
        requires inside { Inside (bounds_of_shape self.now) at }
        ensures value { result ≡ slice_index (offsets self.now.nodes at) node }
        ensures below { result < slice_index (sizes_of self.now.nodes) node }
    {
        self.layout.offset(node, at)
    }
}
