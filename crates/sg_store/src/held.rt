//! From numbers back to the slots that hold them.

ghost use Rattle.std.specs.Prelude.{◌≡◌, ◌≢◌, ◌+◌, ◌-◌, ◌*◌, ◌^◌, ◌<◌, ◌≤◌, ℕ, length, replicate, IfOk, slice_index};
ghost use Rattle.sg_layout.specs.declared.shape.Kind.TheVariants.{Dynamic};
ghost use Rattle.sg_layout.specs.Axes.{count_of, size_of};
ghost use Rattle.sg_links.specs.Lists.{list_of, AreDisjoint};
ghost use Rattle.sg_dynamic.specs.Chunks.{chunks_of};
ghost use Rattle.sg_store.specs.Links.{full_chain};
ghost use Rattle.sg_store.specs.steps.Noting.{AreBelow, IsLinkedOnce, IsNoted, HeldSoFar, ChainNoted, ChainsNoted, IsSomeNode, HasSlots};

use crate::node::{NodeWords, chunk_of};
use sg_hash::PagedRow;
use sg_layout::{Kind, NodeShape};
use sg_links::{Links, Row};
use sg_words::Memory;
use std::alloc::Global;

/// For each number of a node's pool that a slot holds, the slot: of a node that has slots over all copies. In time by the words that stand
/// and the numbers up to the last that a slot holds.
pub(crate) fn held_slots(
    alloc: Global,
    node: &NodeShape,
    kept: &NodeWords,
    full: usize,
) -> Result<Row<usize>, Memory>
    requires node { IsSomeNode node.now kept.now }
    requires full { full ≡ full_chain node.now }
    requires room { node.now.kind ≡ Dynamic → length kept.now.chains.lists * full ≤ 2 ^ 47 }
    ensures { IfOk result (HasSlots node.now kept.now) }
{
    let mut slots = zero_slots(alloc, kept.pool.places())?;
    match node.kind {
        Kind::Dense | Kind::Bitmasked => {}
        Kind::Pointer => note_links(&mut slots, &kept.links),
        Kind::Hash => note_keys(&mut slots, &kept.keys, &kept.links),
        Kind::Dynamic => note_chains(&mut slots, &kept.chains, full),
    }
    Ok(slots)
}

/// Slots 0 for so many numbers.
fn zero_slots(alloc: Global, numbers: u32) -> Result<Row<usize>, Memory>
    ensures { IfOk result (λ slots. slots ≡ replicate numbers 0) }
{
    match Row::make(alloc, numbers as usize, 0) {
        Ok(slots) => Ok(slots),
        Err(_) => Err(Memory),
    }
}

/// Writes beside each number that a link has the place of the link.
fn note_links(slots: &mut Row<usize>, links: &PagedRow)
    requires within { AreBelow links.now (length slots.old) }
    requires once { IsLinkedOnce links.now }
    ensures { HeldSoFar (λ place. place) links.now slots.old slots.new (length links.now) }
{
    let mut place = 0;
    while let Some(next) = links.next(place) {
        note(slots, links.get(next), next);
        place = next + 1;
    }
}

/// Writes beside each number that a link has the key that stands beside the link.
fn note_keys(slots: &mut Row<usize>, keys: &PagedRow, links: &PagedRow)
    requires many { length keys.now ≡ length links.now }
    requires within { AreBelow links.now (length slots.old) }
    requires once { IsLinkedOnce links.now }
    ensures { HeldSoFar (λ place. slice_index keys.now place - 1) links.now slots.old slots.new (length links.now) }
{
    let mut place = 0;
    while let Some(next) = links.next(place) {
        note(
            slots,
            links.get(next),
            keys.get(next).saturating_sub(1) as usize,
        );
        place = next + 1;
    }
}

/// Writes the slot beside the number of its link, if there is one.
fn note(slots: &mut Row<usize>, link: u64, slot: usize)
    requires { link ≢ 0 → link - 1 < length slots.old }
    ensures { IsNoted link slot slots.old slots.new }
{
    if link != 0 {
        slots.set((link - 1) as usize, slot);
    }
}

/// Writes beside each number that stands in a chain its slot: the chains have so many slots each, one after the other. In time by the
/// chains up to the last that was used.
fn note_chains(slots: &mut Row<usize>, chains: &Links, full: usize)
    requires within { chains.now.numbers ≤ length slots.old }
    requires short { (head : ℕ) → length (list_of chains.now head) ≤ full }
    requires room { length chains.now.lists * full ≤ 2 ^ 47 }
    ensures { ChainsNoted chains.now full (length chains.now.lists) slots.old slots.new }
{
    for head in 0..chains.used() {
        let first = head as usize * full;
        note_chain(slots, chains, head, first);
    }
}

/// Writes beside each number of a chain its slot, the first one's being given.
fn note_chain(slots: &mut Row<usize>, chains: &Links, head: u32, slot: usize)
    requires there { head < length chains.now.lists }
    requires within { chains.now.numbers ≤ length slots.old }
    requires room { slot + length (list_of chains.now head) ≤ 2 ^ 47 }
    ensures noted { ChainNoted (list_of chains.now head) slot (length (list_of chains.now head)) slots.old slots.new }
    ensures disjoint { AreDisjoint chains.now }
{
    let mut next = chains.first(head);
    for place in 0..chains.len(head) {
        let Some(number) = next else {
            unreachable!();
        };
        slots.set(number as usize, slot + place as usize);
        next = chains.next(number);
    }
}

/// The chunks that a full parent of a dynamic node has, whose slots are so many; 0 for a node without chunks.
pub(crate) fn full_chain(node: &NodeShape, size: u32) -> usize
    requires { size ≡ size_of node.now.sizes }
    ensures { result ≡ full_chain node.now }
{
    let chunk = chunk_of(node);
    if chunk == 0 {
        return 0;
    }
    ((size as u64 + (chunk as u64 - 1)) / chunk as u64) as usize
}
