//! The caps of nodes.
ghost use Rattle.std.specs.Prelude.{◌≡◌, ◌+◌, ◌^◌, ◌<◌, ◌≤◌, length};
ghost use Rattle.sg_layout.specs.declared.shape.NodeShape.{NodeShape};
ghost use Rattle.sg_layout.specs.Axes.{count_of};
ghost use Rattle.sg_layout.specs.NeedLaws.{IsNumberedNode};

use sg_layout::NodeShape;
use sg_store::Store;

/// The stock of a pool has so many numbers more than its cap leaves.
pub(crate) const SPARES: usize = 17;

/// The cap of a node, 0 if it has none.
pub(crate) fn cap_of(node: &NodeShape) -> u32
    ensures value { result ≡ count_of node.now.cap }
    ensures few { result < 2 ^ 31 }
{
    if node.cap < 0 {
        0
    } else {
        sg_coord::count(node.cap)
    }
}

/// The cap of a node of a store, numbered from 1.
pub(crate) fn cap_at(store: &Store, node: u32) -> u32
    requires first { 1 ≤ node }
    requires there { node ≤ length store.now.shape.nodes }
    ensures { (shape : NodeShape) → IsNumberedNode store.now.shape node shape → result ≡ count_of shape.cap }
{
    cap_of(&store.layout().shape().nodes.as_slice()[node as usize - 1])
}

/// How many places for child containers a node with a cap has.
pub(crate) fn places_of(node: &NodeShape) -> u64
    ensures value { result ≡ count_of node.now.cap + 17 }
    ensures few { result ≤ 2 ^ 32 }
{
    cap_of(node) as u64 + SPARES as u64
}
