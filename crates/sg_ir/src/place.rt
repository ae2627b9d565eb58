//! The place of an access.
ghost use Rattle.std.specs.Prelude.{◌≡◌, ◌<◌, ◌≤◌, ◌+◌, ◌^◌, ◌∷◌, ℕ, length, map, drop, All, IfOk, List, Some, slice_get, IsTrue, true, false};
ghost use Rattle.std.specs.List.{list_all};
ghost use Rattle.sg_coord.specs.Bounds.{bounds_of};
ghost use Rattle.sg_layout.specs.declared.shape.Shape.{Shape};
ghost use Rattle.sg_layout.specs.Axes.{extent_in, extent_over};
ghost use Rattle.sg_layout.specs.Rules.{has_good_extents};
ghost use Rattle.sg_ir.specs.Runs.{named_by};
ghost use Rattle.sg_ir.specs.Places.{place_at, extents_in};
ghost use Rattle.sg_ir.specs.WellTyped.{reads};
ghost use Rattle.sg_ir.specs.Emits.{AtPlace, Computes, Reaches, NamesGrow, LeadsToPlace, StandInFront};
ghost use Rattle.sg_ir.specs.EmitTypes.{AddsSteps, AddsWord, AddsChecks, AddsDescent, CanRead, HasPassed};
ghost use Rattle.sg_ir.specs.steps.Walks.{AreWalkable, checks, digit, offset_from, node_offset, led};

use crate::code::Inst;
use crate::emit::{checked, extract, offset, root, stepped};
use crate::names::Names;
use sg_coord::{Extents, numbering};
use sg_layout::{Layout, NodeShape, extent_in, paths_tell};
use sg_words::{Items, Memory};

/// The place of the access to the layout with this number whose coordinate the index registers name: its root, after a check of
/// each axis, and down all nodes.
pub fn place(
    layout: &Layout,
    number: u32,
    names: &mut Names,
    block: &mut Items<Inst>,
    index: &[u32],
) -> Result<u32, Memory>
    requires axes { length index.now ≡ layout.now.axes }
    requires named { All (λ r. r < length names.old.regs) index.now }
    ensures grows { IfOk result (λ to. NamesGrow names.old names.new × (to < names.new.places)) }
    ensures leads { IfOk result (λ to. (shapes : List Shape) → slice_get shapes number ≡ Some layout.now → LeadsToPlace shapes index.now
        (λ seen now. place_at shapes number (named_by index.now now)) number to names.old names.new block.old block.new) }
    ensures typed { IfOk result (λ to. (shapes : List Shape) → slice_get shapes number ≡ Some layout.now → AddsSteps shapes (CanRead index.now)
        (HasPassed to number (length layout.now.nodes)) names.old names.new block.old block.new) }
    ensures front { StandInFront names.old names.new block.old block.new }
{
    let extents = layout.extents();
    // for the laws that they ensure
    numbering(&extents);
    paths_tell();
    let start = root(names, block, number)?;
    let inside = check_from(0, extents, index, start, names, block)?;
    let nodes = layout.shape().nodes.as_slice();
    descend(1, nodes, index, inside, names, block)
}

/// The place after the checks of the axes from this one on, counted from 0.
fn check_from(
    axis: u32,
    extents: Extents,
    index: &[u32],
    place: u32,
    names: &mut Names,
    block: &mut Items<Inst>,
) -> Result<u32, Memory>
    requires few { axis + length index.now ≤ 3 }
    requires place { place < names.old.places }
    requires named { All (λ r. r < length names.old.regs) index.now }
    ensures reaches { IfOk result (λ to. (shapes : List Shape) → Reaches shapes
        (λ seen now. checks (drop axis (extents_in (bounds_of extents))) (map now.regs index.now) (now.places place)) (AtPlace place) to names.old names.new block.old block.new) }
    ensures typed { IfOk result (λ to. (shapes : List Shape) → AddsChecks shapes (bounds_of extents) axis index.now place to names.old names.new block.old block.new) }
    ensures front { StandInFront names.old names.new block.old block.new }
{
    let [first, rest @ ..] = index else {
        return Ok(place);
    };
    let next = checked(names, block, place, axis, extent_of(extents, axis), *first)?;
    check_from(axis + 1, extents, rest, next, names, block)
}

/// The extent of an axis, from 0.
fn extent_of(extents: Extents, axis: u32) -> u32
    requires { axis < 3 }
    ensures { Some result ≡ slice_get (extents_in (bounds_of extents)) axis }
{
    match axis {
        0 => extents.a,
        1 => extents.b,
        _ => extents.c,
    }
}

/// The place down these nodes, of which the first has this number.
fn descend(
    number: u32,
    nodes: &[NodeShape],
    index: &[u32],
    place: u32,
    names: &mut Names,
    block: &mut Items<Inst>,
) -> Result<u32, Memory>
    requires few_nodes { number + length nodes.now ≤ 7 }
    requires walkable { AreWalkable nodes.now }
    requires some_axes { 1 ≤ length index.now }
    requires few_axes { length index.now ≤ 3 }
    requires place { place < names.old.places }
    requires named { All (λ r. r < length names.old.regs) index.now }
    ensures reaches { IfOk result (λ to. (shapes : List Shape) → Reaches shapes
        (λ seen now. led shapes number nodes.now (map now.regs index.now) (now.places place)) (AtPlace place) to names.old names.new block.old block.new) }
    ensures typed { IfOk result (λ to. (shapes : List Shape) → AddsDescent shapes number nodes.now index.now place to names.old names.new block.old block.new) }
    ensures front { StandInFront names.old names.new block.old block.new }
{
    let [node, later @ ..] = nodes else {
        return Ok(place);
    };
    let offset = offset_at(node, later, index, names, block)?;
    let next = stepped(names, block, node.kind, place, number, offset)?;
    descend(number + 1, later, index, next, names, block)
}

/// A register with the offset of the index words at a node.
fn offset_at(
    node: &NodeShape,
    later: &[NodeShape],
    index: &[u32],
    names: &mut Names,
    block: &mut Items<Inst>,
) -> Result<u32, Memory>
    requires walkable { AreWalkable (node.now ∷ later.now) }
    requires some_axes { 1 ≤ length index.now }
    requires few_axes { length index.now ≤ 3 }
    requires named { All (λ r. r < length names.old.regs) index.now }
    ensures computes { IfOk result (λ to. (shapes : List Shape) → Computes shapes
        (λ seen now. node_offset node.now later.now (map now.regs index.now)) to names.old names.new block.old block.new) }
    ensures typed { IfOk result (λ to. (shapes : List Shape) → AddsWord shapes index.now to names.old names.new block.old block.new) }
    ensures front { StandInFront names.old names.new block.old block.new }
{
    let [first, rest @ ..] = index else {
        unreachable!();
    };
    let high = digit(node, later, 1, *first, names, block)?;
    offset_from(node, later, 2, rest, high, names, block)
}

/// A register with the offset that goes on from `high` by the axes from this one on, counted from 1.
fn offset_from(
    node: &NodeShape,
    later: &[NodeShape],
    axis: u32,
    index: &[u32],
    high: u32,
    names: &mut Names,
    block: &mut Items<Inst>,
) -> Result<u32, Memory>
    requires walkable { AreWalkable (node.now ∷ later.now) }
    requires first { 1 ≤ axis }
    requires few { axis + length index.now ≤ 4 }
    requires high { high < length names.old.regs }
    requires named { All (λ r. r < length names.old.regs) index.now }
    ensures computes { IfOk result (λ to. (shapes : List Shape) → Computes shapes
        (λ seen now. offset_from node.now later.now axis (map now.regs index.now) (now.regs high)) to names.old names.new block.old block.new) }
    ensures typed { IfOk result (λ to. (shapes : List Shape) → AddsSteps shapes
        (λ at scope. (reads at scope false high ≡ true) × CanRead index.now at scope) (λ at scope. reads at scope false to ≡ true) names.old names.new block.old block.new) }
    ensures front { StandInFront names.old names.new block.old block.new }
{
    let [first, rest @ ..] = index else {
        return Ok(high);
    };
    let low = digit(node, later, axis, *first, names, block)?;
    let next = offset(names, block, high, node_extent(node, later, axis), low)?;
    offset_from(node, later, axis + 1, rest, next, names, block)
}

/// A register with the part of an index word on an axis at a node.
fn digit(
    node: &NodeShape,
    later: &[NodeShape],
    axis: u32,
    from: u32,
    names: &mut Names,
    block: &mut Items<Inst>,
) -> Result<u32, Memory>
    requires walkable { AreWalkable (node.now ∷ later.now) }
    requires first { 1 ≤ axis }
    requires last { axis ≤ 3 }
    ensures computes { IfOk result (λ to. (shapes : List Shape) → Computes shapes
        (λ seen now. digit node.now later.now axis (now.regs from)) to names.old names.new block.old block.new) }
    ensures typed { IfOk result (λ to. (shapes : List Shape) → AddsSteps shapes
        (λ at scope. reads at scope false from ≡ true) (λ at scope. reads at scope false to ≡ true) names.old names.new block.old block.new) }
    ensures front { StandInFront names.old names.new block.old block.new }
{
    let size = node_extent(node, later, axis);
    extract(names, block, extent_over(later, axis), size, from)
}

/// The extent that a node gives an axis, from 1.
fn node_extent(node: &NodeShape, later: &[NodeShape], axis: u32) -> u32
    requires { AreWalkable (node.now ∷ later.now) }
    ensures { result ≡ extent_in node.now.sizes axis }
{
    extent_in(node.sizes.as_slice(), axis)
}

/// The extent that nodes give an axis, from 1.
pub fn extent_over(nodes: &[NodeShape], axis: u32) -> u32
    requires good { IsTrue (list_all has_good_extents nodes.now) }
    requires small { extent_over nodes.now axis ≤ 2 ^ 15 }
    ensures { result ≡ extent_over nodes.now axis }
{
    let mut extent = 1;
    for node in nodes {
        extent *= extent_in(node.sizes.as_slice(), axis);
    }
    extent
}
