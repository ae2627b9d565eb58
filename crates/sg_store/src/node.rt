ghost use Rattle.std.specs.Prelude.{◌≡◌, ◌+◌, ◌*◌, ◌^◌, ◌<◌, nat_lt, Some, length, slice_index};
ghost use Rattle.sg_hash.specs.Tables.{beside};
ghost use Rattle.sg_store.specs.Slots.{mask_bit, linked, chunk_cell};
ghost use Rattle.sg_links.specs.Lists.{list_of};
ghost use Rattle.sg_layout.specs.Axes.{count_of, size_of};
ghost use Rattle.sg_store.specs.steps.Walking.{step_of_walk, unless_unset, CanFind, IsTableFor, IsChainFor};

use crate::word_row::WordRow;
use sg_coord::{count, wide_quotient, wide_remainder};
use sg_hash::{PagedRow, place_in};
use sg_layout::{Kind, NodeShape};
use sg_links::Links;
use sg_pool::Pool;

/// The words of one node, over all copies of its segment: for a pointer node a link for each slot, which is 0 or one
/// more than the number of the slot's container, and the pool of these numbers; for a hash node a table of keys, which are
/// numbers of slots, with such links beside them, and the pool; for a bitmasked node a bit for each slot, 64 to a word; for a
/// dynamic node the length of each parent and a chain of chunks for each, and the pool of the chunks.
#[derive(Debug, Drop)]
pub struct NodeWords {
    pub keys: PagedRow,
    pub links: PagedRow,
    pub masks: WordRow,
    pub lengths: WordRow,
    pub chains: Links,
    pub pool: Pool,
}

impl NodeWords {
    /// The place to which the slot with this offset under a place leads on: along links, and only if it is active or
    /// `bits` is false. A link or a key is active where it stands, so that it is looked for once.
    pub(crate) fn onward(
        &self,
        node: &NodeShape,
        size: usize,
        place: usize,
        offset: usize,
        bits: bool,
    ) -> Option<usize>
        requires sized { size ≡ size_of node.now.sizes }
        requires below { offset < size }
        requires room { place * size + offset < 2 ^ 47 }
        requires find { CanFind node.now.kind node.now self.now (place * size + offset) }
        ensures { result ≡ step_of_walk bits node.now.kind node.now self.now (place * size + offset) }
    {
        let slot = place * size + offset;
        match node.kind {
            Kind::Dense => Some(slot),
            Kind::Bitmasked => past_bit(&self.masks, slot, bits),
            Kind::Pointer => link_at(&self.links, slot),
            Kind::Hash => beside(&self.keys, &self.links, slot),
            Kind::Dynamic => self.element(chunk_of(node), place, offset, bits),
        }
    }

    /// The cell of an index under a parent of a dynamic node, and only if it is below the length or `bits` is false.
    fn element(&self, chunk: u32, parent: usize, index: usize, bits: bool) -> Option<usize>
        requires { IsChainFor self.now.chains chunk parent index }
        ensures { result ≡ unless_unset bits (nat_lt index (slice_index self.now.lengths parent))
            (chunk_cell chunk (list_of self.now.chains parent) index) }
    {
        if bits && index as u64 >= self.lengths.get(parent) {
            return None;
        }
        chunk_cell(&self.chains, chunk, parent, index)
    }
}

/// A slot that leads to itself, and only where its bit is set or `bits` is false.
fn past_bit(masks: &WordRow, slot: usize, bits: bool) -> Option<usize>
    ensures { result ≡ unless_unset bits (mask_bit masks.now slot) (Some slot) }
{
    if bits && !bit(masks, slot) {
        return None;
    }
    Some(slot)
}

/// The number that the link at an index has. None if there is no link.
fn link_at(links: &PagedRow, index: usize) -> Option<usize>
    ensures { result ≡ linked (slice_index links.now index) }
{
    let link = links.get(index);
    if link == 0 {
        None
    } else {
        Some((link - 1) as usize)
    }
}

/// The cell of an index under a parent. None past the end of the parent's chain.
pub(crate) fn chunk_cell(chains: &Links, chunk: u32, parent: usize, index: usize) -> Option<usize>
    requires { IsChainFor chains.now chunk parent index }
    ensures { result ≡ chunk_cell chunk (list_of chains.now parent) index }
{
    // for the bound that it ensures
    let _heads = chains.heads();
    let number = chains.nth(parent as u32, wide_quotient(index, chunk as usize) as u32)?;
    Some(number as usize * chunk as usize + wide_remainder(index, chunk as usize))
}

/// The chunk of a node; 0 if it is negative, as no accepted layout's is.
pub(crate) fn chunk_of(node: &NodeShape) -> u32
    ensures { result ≡ count_of node.now.chunk }
{
    if node.chunk < 0 { 0 } else { count(node.chunk) }
}

/// The number that stands beside a slot's number as a key. None if it is no key.
pub(crate) fn beside(keys: &PagedRow, links: &PagedRow, slot: usize) -> Option<usize>
    requires { IsTableFor keys.now links.now slot }
    ensures { result ≡ beside keys.now links.now slot }
{
    match place_in(keys, slot as u32) {
        Some(place) => Some((links.get(place) - 1) as usize),
        None => None,
    }
}

/// The bit with this number; not set past the last word.
pub(crate) fn bit(masks: &WordRow, number: usize) -> bool
    ensures { result ≡ mask_bit masks.now number }
{
    (masks.get(number / 64) >> (number % 64)) & 1 == 1
}
