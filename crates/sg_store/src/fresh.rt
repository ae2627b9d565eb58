ghost use Rattle.std.specs.Prelude.{◌≡◌, ◌↔◌, ℕ, ◌*◌, ◌^◌, ◌<◌, ◌≤◌, true, length, All, IfOk, vec_len, slice_index};
ghost use Rattle.sg_layout.specs.declared.shape.Kind.TheVariants.{Hash, Dynamic};
ghost use Rattle.sg_layout.specs.Accepted.{IsAccepted};
ghost use Rattle.sg_layout.specs.Axes.{count_of, size_of};
ghost use Rattle.sg_links.specs.Lists.{empty_lists};
ghost use Rattle.sg_layout.specs.StorageWords.{power_for};
ghost use Rattle.sg_store.specs.WellFormed.{places_below, cell_count};
ghost use Rattle.sg_store.specs.steps.Fresh.{IsFreshNode, AreFresh, AreZeroWords, IsCapped, IsRoomy, IsZeroRow};

use crate::field_row::FieldRow;
use crate::node::{NodeWords, chunk_of};
use crate::word_row::WordRow;
use sg_coord::count;
use sg_hash::PagedRow;
use sg_layout::{Kind, Layout, NodeShape};
use sg_links::Links;
use sg_pool::Pool;
use sg_words::Memory;
use std::alloc::Global;

/// How many numbers a pool has besides those of its node's cap: a spare for each of 16 workers, and one more.
const SPARES: u32 = 17;

/// The words of a layout's nodes, before anything is written, and how many cells stand below them.
#[derive(Debug, Drop)]
pub(crate) struct FreshNodes {
    pub(crate) words: Vec<NodeWords>,
    pub(crate) cells: usize,
}

/// Such words for all nodes of a layout.
pub(crate) fn fresh_nodes(alloc: Global, layout: &Layout) -> Result<FreshNodes, Memory>
    requires { IsRoomy layout.now.nodes 1 }
    ensures words { IfOk result (λ fresh. AreFresh layout.now.nodes fresh.words.items 1) }
    ensures cells { IfOk result (λ fresh. fresh.cells ≡ cell_count layout.now) }
{
    let mut words = Vec::new(alloc);
    let mut places = 1;
    for (index, node) in layout.shape().nodes.as_slice().iter().enumerate() {
        let slots = places * layout.size(index) as usize;
        words.push(fresh_node(alloc, node, places, slots)?)?;
        places = places_below(node, slots);
    }
    Ok(FreshNodes {
        words,
        cells: places,
    })
}

/// How many words of each kind a node has, how many numbers its pool has, and how many of them chains may have.
#[derive(Clone, Copy, Debug)]
struct Room {
    keys: usize,
    links: usize,
    masks: usize,
    lengths: usize,
    numbers: u32,
    chunks: u32,
}

const NONE: Room = Room {
    keys: 0,
    links: 0,
    masks: 0,
    lengths: 0,
    numbers: 0,
    chunks: 0,
};

/// Such words for a node under so many places, with so many slots.
fn fresh_node(
    alloc: Global,
    node: &NodeShape,
    places: usize,
    slots: usize,
) -> Result<NodeWords, Memory>
    requires capped { IsCapped node.now.kind node.now }
    requires keyed { node.now.kind ≡ Hash → slots ≤ 2 ^ 32 }
    requires headed { node.now.kind ≡ Dynamic → places < 2 ^ 32 }
    requires sized { slots ≡ places * size_of node.now.sizes }
    ensures { IfOk result (λ kept. IsFreshNode node.now.kind node.now kept slots) }
{
    match node.kind {
        Kind::Dense => zero_words(alloc, &NONE),
        Kind::Bitmasked => {
            let masks = slots.div_ceil(64);
            zero_words(alloc, &Room { masks, ..NONE })
        }
        Kind::Pointer => {
            let numbers = count(node.cap) + SPARES;
            let links = slots;
            zero_words(
                alloc,
                &Room {
                    links,
                    numbers,
                    ..NONE
                },
            )
        }
        Kind::Hash => {
            let keys = table_places(node);
            let links = keys;
            let numbers = count(node.cap) + SPARES;
            zero_words(
                alloc,
                &Room {
                    keys,
                    links,
                    numbers,
                    ..NONE
                },
            )
        }
        Kind::Dynamic => {
            let lengths = places;
            let numbers = count(node.cap);
            zero_words(
                alloc,
                &Room {
                    lengths,
                    numbers,
                    chunks: numbers,
                    ..NONE
                },
            )
        }
    }
}

/// How many places stand below a node with so many slots.
fn places_below(node: &NodeShape, slots: usize) -> usize
    requires { IsCapped node.now.kind node.now }
    ensures { result ≡ places_below node.now.kind node.now slots }
{
    match node.kind {
        Kind::Pointer => (count(node.cap) + SPARES) as usize,
        Kind::Hash => (count(node.cap) + SPARES) as usize,
        Kind::Dense => slots,
        Kind::Bitmasked => slots,
        Kind::Dynamic => count(node.cap) as usize * chunk_of(node) as usize,
    }
}

/// The places of a hash node's table: the least power of two that is at least twice the cap.
fn table_places(node: &NodeShape) -> usize
    requires { IsCapped Hash node.now }
    ensures { result ≡ power_for (2 * count_of node.now.cap) }
{
    let cap = count(node.cap) as usize;
    (2 * cap).next_power_of_two()
}

/// So many words, all 0, an empty chain for each length, and a pool of so many numbers, none of them live.
fn zero_words(alloc: Global, room: &Room) -> Result<NodeWords, Memory>
    requires { room.now.lengths < 2 ^ 32 }
    ensures { IfOk result (AreZeroWords room.now) }
{
    let pool = Pool::make(alloc, room.numbers)?;
    // for the law that it ensures
    pool.places();
    Ok(NodeWords {
        keys: PagedRow::zeros(alloc, room.keys)?,
        links: PagedRow::zeros(alloc, room.links)?,
        masks: WordRow::zeros(alloc, room.masks)?,
        lengths: WordRow::zeros(alloc, room.lengths)?,
        chains: empty_chains(alloc, room.chunks, room.lengths as u32)?,
        pool,
    })
}

/// So many empty chains over so many numbers.
fn empty_chains(alloc: Global, numbers: u32, heads: u32) -> Result<Links, Memory>
    ensures { IfOk result (λ chains. chains ≡ empty_lists numbers heads) }
{
    match Links::make(alloc, numbers, heads) {
        Ok(chains) => Ok(chains),
        Err(_) => Err(Memory),
    }
}

/// Equal chains.
fn copy_chains(alloc: Global, chains: &Links) -> Result<Links, Memory>
    ensures { IfOk result (λ copy. copy ≡ chains.now) }
{
    match chains.copy(alloc) {
        Ok(copy) => Ok(copy),
        Err(_) => Err(Memory),
    }
}

/// A row of zeros for each of so many fields, with a word for each of so many cells.
pub(crate) fn zero_rows(alloc: Global, fields: usize, cells: usize) -> Result<Vec<FieldRow>, Memory>
    ensures many { IfOk result (λ rows. length rows.items ≡ fields) }
    ensures zeros { IfOk result (λ rows. All (IsZeroRow cells) rows.items) }
{
    let mut rows = Vec::new(alloc);
    for _field in 0..fields {
        rows.push(FieldRow::zeros(alloc, cells)?)?;
    }
    Ok(rows)
}

impl NodeWords {
    /// A copy of the words.
    pub(crate) fn copy(&self, alloc: Global) -> Result<NodeWords, Memory>
        ensures { IfOk result (λ copy. copy ≡ self.now) }
    {
        Ok(NodeWords {
            keys: self.keys.copy(alloc)?,
            links: self.links.copy(alloc)?,
            masks: self.masks.copy(alloc)?,
            lengths: self.lengths.copy(alloc)?,
            chains: copy_chains(alloc, &self.chains)?,
            pool: self.pool.copy(alloc)?,
        })
    }
}
