//! The links of a node.

ghost use Rattle.std.specs.Prelude.{◌≡◌, ◌+◌, ◌-◌, ◌*◌, ◌/◌, ◌%◌, ◌^◌, ◌<◌, ◌≤◌, cond, is_some, true, false, length, slice_index, IfOk, IsTrue};
ghost use Rattle.sg_layout.specs.Axes.{size_of};
ghost use Rattle.sg_layout.specs.Live.{kind_at};
ghost use Rattle.sg_layout.specs.StorageWords.{ends_segment};
ghost use Rattle.sg_store.specs.WellFormed.{kind_has_cap};
ghost use Rattle.sg_store.specs.Spots.{width_after};
ghost use Rattle.sg_store.specs.Links.{AreLinks, node_above, slots_per_place, full_chain};

use crate::held::{full_chain, held_slots};
use crate::laws::links_are_sound;
use crate::links::LinkAt;
use crate::store::Store;
use sg_layout::{Kind, NodeShape, laws as layouts};
use sg_links::Row;
use sg_words::Memory;
use std::alloc::Global;

impl Store {
    /// The links of a node with a cap, numbered from 1: those of its live numbers, each once, rising. In time by the node's words that
    /// stand, the places of a hash node's table, and the numbers up to the high water mark.
    pub fn links_of(&self, alloc: Global, node: u32) -> Result<Vec<LinkAt>, Memory>
        requires first { 1 ≤ node }
        requires capped { IsTrue (kind_has_cap (kind_at self.now.shape.nodes node)) }
        ensures { IfOk result (λ links. AreLinks self.now (node - 1) links.items) }
    {
        // for the laws that they ensure, and the invariant
        links_are_sound();
        layouts::rules_decide();
        self.layout();
        let index = node as usize - 1;
        let shape = &self.layout.shape().nodes.as_slice()[index];
        let kept = &self.nodes.as_slice()[index];
        let widths = self.layout.widths(index);
        let full = full_chain(shape, widths.size);
        let slots = held_slots(alloc, shape, kept, full)?;
        let above = self.has_parent(index);
        let copy = widths.before as usize * per_place(shape, widths.size, full);
        let mut links = Vec::new(alloc);
        for number in 0..kept.pool.mark() {
            if kept.pool.is_live(number) {
                links.push(link_at(above, copy, &slots, number))?;
            }
        }
        Ok(links)
    }

    /// Whether a node above the one with this index, from 0, has child containers.
    fn has_parent(&self, index: usize) -> bool
        requires { index < length self.now.shape.nodes }
        ensures { result ≡ is_some (node_above self.now.shape.nodes index) }
    {
        let nodes = self.layout.shape().nodes.as_slice();
        let mut found = false;
        for above in 0..index {
            found = is_parent_or(nodes[above].kind, found);
        }
        found
    }
}

/// Whether a node of this kind has child containers; else what is given.
fn is_parent_or(kind: Kind, found: bool) -> bool
    ensures { result ≡ cond (ends_segment kind) true found }
{
    match kind {
        Kind::Pointer | Kind::Hash => true,
        Kind::Dense | Kind::Bitmasked | Kind::Dynamic => found,
    }
}

/// How many slots for numbers a node has under one place above it.
fn per_place(node: &NodeShape, size: u32, full: usize) -> usize
    requires sized { size ≡ size_of node.now.sizes }
    requires full { full ≡ full_chain node.now }
    ensures { result ≡ slots_per_place node.now.kind node.now }
{
    match node.kind {
        Kind::Dense | Kind::Bitmasked => 0,
        Kind::Pointer | Kind::Hash => size as usize,
        Kind::Dynamic => full,
    }
}

/// Where the slot stands that is written beside a number: it is one over all copies, each of which has so many.
fn link_at(above: bool, copy: usize, slots: &Row<usize>, number: u32) -> LinkAt
    requires there { number < length slots.now }
    requires some { 1 ≤ copy }
    requires small { copy ≤ 2 ^ 30 }
    requires few { slice_index slots.now number / copy + 1 < 2 ^ 32 }
    requires root { above ≡ false → slice_index slots.now number < copy }
    ensures { result ≡ record {
      number = number;
      parent = cond above (slice_index slots.now number / copy + 1) 0;
      slot = cond above (slice_index slots.now number % copy) (slice_index slots.now number);
    } }
{
    link_for(above, copy, slots.get(number as usize), number)
}

/// Where the slot with this number, over all copies, stands, each of which has so many.
fn link_for(above: bool, copy: usize, slot: usize, number: u32) -> LinkAt
    requires some { 1 ≤ copy }
    requires small { copy ≤ 2 ^ 30 }
    requires few { slot / copy + 1 < 2 ^ 32 }
    requires root { above ≡ false → slot < copy }
    ensures { result ≡ record { number = number; parent = cond above (slot / copy + 1) 0; slot = cond above (slot % copy) slot } }
{
    if above {
        LinkAt {
            number,
            parent: (slot / copy) as u32 + 1,
            slot: (slot % copy) as u32,
        }
    } else {
        LinkAt {
            number,
            parent: 0,
            slot: slot as u32,
        }
    }
}
