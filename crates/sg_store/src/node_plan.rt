//! What is planned of a node: the words that stay, beside the old ones. Planning takes memory, trimming takes none.

ghost use Rattle.std.specs.Prelude.{◌≡◌, ◌≢◌, ℕ, ◌≤◌, ◌^◌, length, slice_index, IfOk};
ghost use Rattle.std.specs.List.{All};
ghost use Rattle.sg_layout.specs.declared.shape.Kind.TheVariants.{Hash};
ghost use Rattle.sg_dynamic.specs.Chunks.{IsExact};
ghost use Rattle.sg_pool.specs.Numbers.{IsParted};
ghost use Rattle.sg_store.specs.WellFormed.{IsWithinCap};
ghost use Rattle.sg_store.specs.steps.Trimming.{IsTrimmed};
ghost use Rattle.sg_store.specs.steps.KeptWords.{in_row};
ghost use Rattle.sg_store.specs.steps.Cuts.{HasLinks, IsLinkedOnce};
ghost use Rattle.sg_store.specs.steps.Planning.{IsPlannable, AreStaying, IsPlanFor, HasCutLinks, HasCutTable, HasCutLengths};

use crate::cutting::give_back_cut;
use crate::kept_lengths::kept_lengths;
use crate::kept_table::{KeptTable, kept_table};
use crate::kept_words::{kept_links, kept_masks};
use crate::node::{NodeWords, chunk_of};
use crate::shorten::shorten_all;
use crate::word_row::WordRow;
use sg_hash::PagedRow;
use sg_layout::{Kind, NodeShape};
use sg_words::{Items, Memory};
use std::alloc::Global;

/// The row of the places below a node that are kept, and the words that stay.
#[derive(Debug, Drop)]
pub(crate) struct NodePlan {
    pub(crate) row: Items<bool>,
    pub(crate) words: StayingWords,
}

/// The words that stay of a node, by its kind: all; masks; links; a hash node's links by its old table, and its new table; lengths.
#[derive(Debug, Drop)]
pub(crate) enum StayingWords {
    Whole,
    Masks(WordRow),
    Linked(PagedRow),
    Table(PagedRow, KeptTable),
    Lengths(WordRow),
}

/// The plan of a node of which a row keeps places below.
pub(crate) fn plan_node(
    alloc: Global,
    node: &NodeShape,
    kept: &NodeWords,
    row: Items<bool>,
) -> Result<NodePlan, Memory>
    requires { IsPlannable node.now kept.now }
    ensures row { IfOk result (λ plan. plan.row ≡ row) }
    ensures plan { IfOk result (λ plan. IsPlanFor node.now.kind node.now kept.now plan) }
{
    let words = staying(alloc, node, kept, row.as_slice())?;
    Ok(NodePlan { row, words })
}

/// The words that stay of a node of which a row keeps places below.
fn staying(
    alloc: Global,
    node: &NodeShape,
    kept: &NodeWords,
    row: &[bool],
) -> Result<StayingWords, Memory>
    requires { IsPlannable node.now kept.now }
    ensures { IfOk result (λ words. AreStaying words node.now.kind node.now kept.now row.now) }
{
    match node.kind {
        Kind::Dense => Ok(StayingWords::Whole),
        Kind::Bitmasked => Ok(StayingWords::Masks(kept_masks(alloc, &kept.masks, row)?)),
        Kind::Pointer => Ok(StayingWords::Linked(kept_links(alloc, &kept.links, row)?)),
        Kind::Hash => staying_table(alloc, node, kept, row),
        Kind::Dynamic => {
            let lengths = kept_lengths(alloc, kept, chunk_of(node), row)?;
            Ok(StayingWords::Lengths(lengths))
        }
    }
}

/// The words that stay of a hash node.
fn staying_table(
    alloc: Global,
    node: &NodeShape,
    kept: &NodeWords,
    row: &[bool],
) -> Result<StayingWords, Memory>
    requires plannable { IsPlannable node.now kept.now }
    requires kind { node.now.kind ≡ Hash }
    ensures { IfOk result (λ words. AreStaying words node.now.kind node.now kept.now row.now) }
{
    let links = kept_links(alloc, &kept.links, row)?;
    let table = kept_table(alloc, &kept.keys, &kept.links, row)?;
    Ok(StayingWords::Table(links, table))
}

impl NodeWords {
    /// Trims a node as it is planned. Takes no memory.
    pub(crate) fn trim(&mut self, node: &NodeShape, plan: &NodePlan)
        requires node { IsPlannable node.now self.old }
        requires plan { IsPlanFor node.now.kind node.now self.old plan.now }
        ensures trimmed { IsTrimmed (in_row plan.now.row) node.now self.old self.new }
        ensures capped { IsWithinCap node.now.kind node.now self.new }
        ensures parted { IsParted self.new.pool }
    {
        match &plan.words {
            StayingWords::Whole => {}
            StayingWords::Masks(masks) => self.masks.become_like(masks),
            StayingWords::Linked(links) => self.cut_links(links),
            StayingWords::Table(links, table) => self.cut_table(links, table),
            StayingWords::Lengths(lengths) => self.cut_lengths(lengths, chunk_of(node)),
        }
        self.numbers_parted();
    }

    /// Each number of the pool is live, free once, or past the mark.
    fn numbers_parted(&self)
        ensures { IsParted self.now.pool }
    {
        // for the law that it ensures
        self.pool.places();
    }

    /// Gives a pointer node those of its links that stay, and gives back the numbers of the others.
    fn cut_links(&mut self, links: &PagedRow)
        requires as_many { length links.now ≡ length self.old.links }
        requires linked { HasLinks self.old.pool self.old.links }
        requires once { IsLinkedOnce self.old.links }
        requires stays { (slot : ℕ) → slice_index links.now slot ≢ 0 → slice_index links.now slot ≡ slice_index self.old.links slot }
        ensures { HasCutLinks links.now self.old self.new }
    {
        // for the bound that it ensures
        self.pool.places();
        give_back_cut(&mut self.pool, &self.links, links);
        self.links.become_like(links);
    }

    /// Gives a hash node its new table, and gives back the numbers of the links of its old one that don't stay.
    fn cut_table(&mut self, links: &PagedRow, table: &KeptTable)
        requires as_many { length links.now ≡ length self.old.links }
        requires keys_many { length table.now.keys ≡ length self.old.keys }
        requires links_many { length table.now.links ≡ length self.old.links }
        requires linked { HasLinks self.old.pool self.old.links }
        requires once { IsLinkedOnce self.old.links }
        requires stays { (slot : ℕ) → slice_index links.now slot ≢ 0 → slice_index links.now slot ≡ slice_index self.old.links slot }
        ensures { HasCutTable links.now table.now self.old self.new }
    {
        // for the bound that it ensures
        self.pool.places();
        give_back_cut(&mut self.pool, &self.links, links);
        self.keys.become_like(&table.keys);
        self.links.become_like(&table.links);
    }

    /// Gives a dynamic node other lengths, and cuts its chains to them.
    fn cut_lengths(&mut self, lengths: &WordRow, chunk: u32)
        requires some { 1 ≤ chunk }
        requires short { All (λ len. len ≤ 2 ^ 15) lengths.now }
        requires as_many { length lengths.now ≡ length self.old.lengths }
        requires many { length self.old.chains.lists ≡ length lengths.now }
        requires exact { IsExact self.old.chains self.old.pool }
        ensures { HasCutLengths lengths.now chunk self.old self.new }
    {
        shorten_all(&mut self.chains, &mut self.pool, lengths, chunk);
        self.chains.arrange();
        self.lengths.become_like(lengths);
    }
}
