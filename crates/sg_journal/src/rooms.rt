//! What the nodes of a layout have room for.

ghost use Rattle.std.specs.Prelude.{◌≡◌, ◌*◌, ◌^◌, ◌<◌, ◌≤◌, IfOk, Some, cond};
ghost use Rattle.sg_layout.specs.Axes.{count_of, size_of};
ghost use Rattle.sg_layout.specs.StorageWords.{ends_segment};
ghost use Rattle.sg_store.specs.Spots.{width_past};
ghost use Rattle.sg_dynamic.specs.Chunks.{chunks_of};
ghost use Rattle.sg_journal.specs.Rooms.{AreRooms};
ghost use Rattle.sg_journal.specs.steps.Walking.{room_by};

use sg_coord::count;
use sg_layout::{Kind, Layout, NodeShape, paths_tell};
use sg_words::{Items, Memory};
use std::alloc::Global;

/// The spare places of a pool whose numbers are raced for.
const SPARE_PLACES: u32 = 17;

/// What a node with a cap has room for: the places of its pool, its cap, the slots of one copy, and the nearest node above that has
/// containers, numbered from 1.
#[derive(Clone, Copy, Debug, PartialEq, Eq)]
pub struct Room {
    pub places: u32,
    pub cap: u32,
    pub slots: u32,
    pub above: Option<u32>,
}

/// The rooms of a layout's nodes, from the root on; none of a node without a cap.
pub fn rooms_in(alloc: Global, layout: &Layout) -> Result<Items<Option<Room>>, Memory>
    ensures { IfOk result (AreRooms layout.now) }
{
    // for the laws that they ensure
    paths_tell();
    let _extents = layout.extents();
    let nodes = layout.shape().nodes.as_slice();
    let mut rooms = Items::new(alloc);
    let mut above = None;
    let mut before = 1;
    for index in 0..nodes.len() {
        let kind = nodes[index].kind;
        let size = layout.size(index);
        rooms.push(room_at(&nodes[index], above, before, size))?;
        above = above_past(kind, above, index as u32 + 1);
        before = width_past(kind, before * size);
    }
    Ok(rooms)
}

/// The room of a node, with the nearest node above that has containers, and the slots of one copy of its segment before it.
fn room_at(node: &NodeShape, above: Option<u32>, before: u32, size: u32) -> Option<Room>
    requires size { size ≡ size_of node.now.sizes }
    requires room { before * size ≤ 2 ^ 30 }
    ensures { result ≡ room_by node.now above before }
{
    let cap = count_or_none(node.cap);
    match node.kind {
        Kind::Dense | Kind::Bitmasked => None,
        Kind::Pointer | Kind::Hash => Some(Room {
            places: cap + SPARE_PLACES,
            cap,
            slots: before * size,
            above,
        }),
        Kind::Dynamic => Some(Room {
            places: cap,
            cap,
            slots: chain_slots(before, count_or_none(node.chunk), size),
            above,
        }),
    }
}

/// The slots for chunks of so many parents, each of which has so many slots.
fn chain_slots(parents: u32, chunk: u32, size: u32) -> u32
    requires { parents * size ≤ 2 ^ 30 }
    ensures { result ≡ parents * chunks_of chunk size }
{
    parents * full_chain(chunk, size)
}

/// The chunks that a full list of so many slots has.
fn full_chain(chunk: u32, size: u32) -> u32
    ensures value { result ≡ chunks_of chunk size }
    ensures most { result ≤ size }
{
    if chunk == 0 {
        return 0;
    }
    ((u64::from(size) + (u64::from(chunk) - 1)) / u64::from(chunk)) as u32
}

/// A number as a count: 0 if it is negative.
fn count_or_none(part: i32) -> u32
    ensures value { result ≡ count_of part }
    ensures most { result < 2 ^ 31 }
{
    if part < 0 { 0 } else { count(part) }
}

/// The nearest node with containers above the one behind a node with this number.
fn above_past(kind: Kind, above: Option<u32>, number: u32) -> Option<u32>
    ensures { result ≡ cond (ends_segment kind) (Some number) above }
{
    match kind {
        Kind::Pointer | Kind::Hash => Some(number),
        Kind::Dense | Kind::Bitmasked | Kind::Dynamic => above,
    }
}

/// The slots of one copy of a segment behind a node, if it has so many at the node.
fn width_past(kind: Kind, slots: u32) -> u32
    ensures { result ≡ width_past kind slots }
{
    match kind {
        Kind::Pointer | Kind::Hash => 1,
        Kind::Dense | Kind::Bitmasked | Kind::Dynamic => slots,
    }
}
