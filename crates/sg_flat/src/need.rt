ghost use Rattle.std.specs.Prelude.{◌≡◌, ◌<◌, ◌≤◌, ◌+◌, length, IfOk, All, slice_index_or, nat_lt, sum_by};
ghost use Rattle.std.specs.Int.{div_ceil};
ghost use Rattle.std.specs.BTreeMap.{values, IsOrdered};
ghost use Rattle.std.specs.Ordering.{nat_cmp};
ghost use Rattle.sg_coord.specs.Coord.{Inside};
ghost use Rattle.sg_layout.specs.Axes.{count_of, bounds_of_shape};
ghost use Rattle.sg_layout.specs.Need.{need_of, first_full};
ghost use Rattle.sg_flat.specs.Kernel.{full_fault};

use crate::blocks::Blocks;
use crate::effects::RunFault;
use crate::lengths::lengths_of;
use sg_coord::{Coord, count, numbering};
use sg_layout::{Kind, Layout, NodeShape};
use sg_words::Memory;
use std::alloc::Global;
use std::collections::BTreeMap;

/// The fault of the first node of a layout, from the root, whose need for coordinates inside passes its cap.
pub(crate) fn first_full(
    alloc: Global,
    number: u32,
    layout: &Layout,
    coords: &[Coord],
) -> Result<Option<RunFault>, Memory>
    requires { All (Inside (bounds_of_shape layout.now)) coords.now }
    ensures { IfOk result (λ fault. fault ≡ full_fault number (first_full layout.now coords.now)) }
{
    let nodes = layout.shape().nodes.as_slice();
    for (index, node) in nodes.iter().enumerate() {
        if is_full(alloc, layout, index, node, coords)? {
            return Ok(Some(RunFault::PoolFull {
                layout: number,
                node: index as u32 + 1,
                cap: count(node.cap),
            }));
        }
    }
    Ok(None)
}

/// Whether the need of the node with this index, from 0, passes its cap.
fn is_full(
    alloc: Global,
    layout: &Layout,
    index: usize,
    node: &NodeShape,
    coords: &[Coord],
) -> Result<bool, Memory>
    requires below { index < length layout.now.nodes }
    requires node { node.now ≡ slice_index_or layout.now.nodes index node.now }
    requires inside { All (Inside (bounds_of_shape layout.now)) coords.now }
    ensures { IfOk result (λ full. full
        ≡ nat_lt (count_of node.now.cap) (need_of layout.now coords.now (index + 1) node.now)) }
{
    // for what the shape keeps, and for the laws
    let _accepted = layout.shape();
    numbering(&layout.extents());
    match node.kind {
        Kind::Dense | Kind::Bitmasked => Ok(false),
        Kind::Pointer | Kind::Hash => {
            let blocks = Blocks::of_node(layout, index, node.kind);
            let lengths = lengths_of(alloc, &blocks, coords)?;
            Ok(lengths.len() > count(node.cap) as usize)
        }
        Kind::Dynamic => {
            let blocks = Blocks::of_node(layout, index, node.kind);
            let lengths = lengths_of(alloc, &blocks, coords)?;
            Ok(pass_cap(&lengths, count(node.chunk), count(node.cap)))
        }
    }
}

/// Whether the chunks of blocks with these lengths are more than a cap.
fn pass_cap(lengths: &BTreeMap<u32, u32>, chunk: u32, cap: u32) -> bool
    requires { 1 ≤ chunk }
    ensures ordered { IsOrdered nat_cmp lengths.now }
    ensures passes { result ≡ nat_lt cap (sum_by (λ length. div_ceil length chunk) (values lengths.now)) }
{
    let mut chunks = 0;
    for length in lengths.values() {
        chunks += u64::from(length.div_ceil(chunk));
        if chunks > u64::from(cap) {
            return true;
        }
    }
    false
}
