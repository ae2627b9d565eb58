//! Steps of a row of places over a dense node.

ghost use Rattle.std.specs.Prelude.{◌≡◌, ◌<◌, ◌+◌, ◌*◌, ◌%◌, ◌^◌, ◌==◌, ℕ, get_or, nat_lt, IfSome, if◌then◌else◌};
ghost use Rattle.sg_exec.specs.steps.Machines.{StepsDown};
ghost use Rattle.sg_exec.specs.steps.Holding.{held_at, AreHeldAt, IsDenseStep, IsOneOf, StepsWithin};

use crate::lanes::held_row::HeldRow;
use crate::lanes::view::View;
use sg_layout::paths_tell;
use sg_store::Store;
use sg_store::laws::cells_are_active;
use std::simd::prelude::*;

/// The size of the node after all spots that a word for a layout and a node names, if it has this number, from 1, and is dense.
#[inline(always)]
pub(crate) fn dense_after(view: &View, one: u32, node: u32) -> Option<u32>
    ensures { IfSome result (IsDenseStep view.now one node) }
{
    if one == 0 {
        return None;
    }
    match view.get((one - 1) / 8) {
        Some(store) => size_after(store, (one - 1) % 8, node),
        None => None,
    }
}

/// The size of the node after those spots of a store that stand after so many nodes, if it has this number and is dense.
#[inline(always)]
fn size_after(store: &Store, above: u32, node: u32) -> Option<u32>
    ensures { IfSome result (StepsWithin store.now above node) }
{
    // for the laws that they ensure
    paths_tell();
    cells_are_active();
    let layout = store.layout();
    let _shape = layout.shape();
    if above as usize >= layout.nodes() {
        return None;
    }
    if above + 1 != node {
        return None;
    }
    store.dense_size(above)
}

/// The places below, over words, in all columns.
#[inline(always)]
pub(crate) fn row_over(
    view: &View,
    row: &HeldRow,
    one: u32,
    node: u32,
    size: u32,
    offsets: u32x32,
) -> HeldRow
    requires held { AreHeldAt view.now row.now }
    requires one { (k : ℕ) → k < 32 → IsOneOf (get_or row.now.kinds k 0) one }
    requires dense { IsDenseStep view.now one node size }
    ensures { (k : ℕ) → k < 32 → StepsDown view.now node (get_or offsets k 0) (held_at row.now k) (held_at result k) }
{
    let (_view, _node) = (view, node);
    HeldRow {
        kinds: kinds_over(row.kinds, one + 1, size, offsets),
        parts: row.parts,
        slots: slots_over(row.slots, size, offsets),
    }
}

/// Another word where words aren't 0 and offsets are below a size, and 0 elsewhere.
#[inline(always)]
fn kinds_over(kinds: u32x32, next: u32, size: u32, offsets: u32x32) -> u32x32
    ensures { (k : ℕ) → k < 32 → get_or result k 0 ≡ (if nat_lt (get_or offsets k 0) size then (if get_or kinds k 0 == 0 then 0 else next) else 0) }
{
    let below = kinds
        .simd_eq(u32x32::splat(0))
        .select(u32x32::splat(0), u32x32::splat(next));
    offsets
        .simd_lt(u32x32::splat(size))
        .select(below, u32x32::splat(0))
}

/// Slots times a size, and offsets.
#[inline(always)]
pub(crate) fn slots_over(slots: u32x32, size: u32, offsets: u32x32) -> u32x32
    ensures { (k : ℕ) → k < 32 → get_or result k 0 ≡ ((get_or slots k 0 * size) % 2 ^ 32 + get_or offsets k 0) % 2 ^ 32 }
{
    slots * u32x32::splat(size) + offsets
}
