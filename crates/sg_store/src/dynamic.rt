ghost use Rattle.std.specs.Prelude.{◌≡◌, ℕ, suc, ◌<◌, ◌≤◌, ◌^◌, ◌/◌, length, All, OnOk, OnErr, IfErr, Some, slice_get};
ghost use Rattle.sg_dynamic.specs.Chunks.{fit, IsExact, HaveRoom, AreFitted};
ghost use Rattle.sg_pool.specs.Numbers.{place_count};
ghost use Rattle.sg_store.specs.declared.node.NodeWords.{NodeWords};
ghost use Rattle.sg_store.specs.Reaching.{KeepsCells};
ghost use Rattle.sg_store.specs.steps.AtNode.{AtNodeOf, AreNumbers};
ghost use Rattle.sg_store.specs.steps.Settling.{ChangesAt, ChangesNode};
ghost use Rattle.sg_store.specs.steps.Raising.{IsRaised, RiseByMany, CanFitLengths, IsRefitted, CanLengthen, AnswersFit, IsDynamicOf};
ghost use Rattle.sg_store.specs.steps.Levels.{OpensNext, IsFullNode, IfRefused};

use crate::node::NodeWords;
use crate::reach::Full;
use crate::store::Store;
use crate::word_row::WordRow;
use sg_coord::Coord;
use sg_dynamic::{ChunkFull, fit_chunks, fit_front};
use sg_layout::{need_counts_live, paths_tell, rules_decide};
use sg_links::Links;
use sg_pool::Pool;
use sg_words::Stop;
use std::alloc::Global;

/// Raises the length of a slot's parent until it is past the slot, where each parent has so many slots.
fn raise(lengths: &mut WordRow, size: usize, slot: usize)
    requires some { 0 < size }
    requires there { slot / size < length lengths.old }
    ensures { IsRaised lengths.old lengths.new size slot }
{
    let parent = slot / size;
    let long = (slot % size) as u64 + 1;
    if lengths.get(parent) >= long {
        return;
    }
    lengths.set(parent, long);
}

/// Raises the lengths so that all these slots are below them.
fn raise_all(lengths: &mut WordRow, size: usize, slots: &[usize])
    requires some { 0 < size }
    requires there { All (λ slot. slot / size < length lengths.old) slots.now }
    ensures { RiseByMany lengths.old lengths.new size slots.now }
{
    for slot in slots {
        raise(lengths, size, *slot);
    }
}

/// Lets each chain grow to fit the lengths of a row, as `fit_chunks` does. In time by the lengths that stand, their chunks, and the chains
/// up to the last that was used.
fn fit_row(
    chains: &mut Links,
    pool: &mut Pool,
    lengths: &WordRow,
    chunk: u32,
) -> Result<(), ChunkFull>
    requires some { 1 ≤ chunk }
    requires short { All (λ len. len ≤ 2 ^ 15) lengths.now }
    requires room { HaveRoom chains.old lengths.now chunk }
    requires exact { IsExact chains.old pool.old }
    ensures answer { result ≡ fit chunk lengths.now (place_count pool.old) }
    ensures chains_stay { OnErr result (chains.new ≡ chains.old) }
    ensures pool_stays { OnErr result (pool.new ≡ pool.old) }
    ensures fitted { OnOk result (AreFitted chains.old chains.new lengths.now chunk) }
    ensures exact { IsExact chains.new pool.new }
{
    fit_front(chains, pool, lengths.standing(), chunk)
}

impl NodeWords {
    /// Gives the node these lengths, and each chain the chunks that its length needs. Refused, with nothing changed,
    /// where they are more than there are.
    fn relength(&mut self, lengths: &[u64], chunk: u32) -> Result<(), ChunkFull>
        requires { CanFitLengths lengths.now chunk self.old }
        ensures answer { result ≡ fit chunk lengths.now (place_count self.old.pool) }
        ensures fitted { OnOk result (IsRefitted lengths.now chunk self.old self.new) }
        ensures stays { OnErr result (self.new ≡ self.old) }
    {
        match fit_chunks(&mut self.chains, &mut self.pool, lengths, chunk) {
            Ok(()) => {
                self.lengths.overwrite(lengths);
                // for the law that it ensures
                self.pool.places();
                Ok(())
            }
            Err(full) => Err(full),
        }
    }

    /// Gives the node the lengths of a row, and each chain the chunks that its length needs. Refused, with nothing changed, where they are
    /// more than there are. In time by the lengths that stand, their chunks, and the chains up to the last that was used.
    fn relength_row(&mut self, lengths: &WordRow, chunk: u32) -> Result<(), ChunkFull>
        requires { CanFitLengths lengths.now chunk self.old }
        ensures answer { result ≡ fit chunk lengths.now (place_count self.old.pool) }
        ensures fitted { OnOk result (IsRefitted lengths.now chunk self.old self.new) }
        ensures stays { OnErr result (self.new ≡ self.old) }
    {
        match fit_row(&mut self.chains, &mut self.pool, lengths, chunk) {
            Ok(()) => {
                self.lengths.become_like(lengths);
                // for the law that it ensures
                self.pool.places();
                Ok(())
            }
            Err(full) => Err(full),
        }
    }
}

/// Gives one of these nodes, by its index from 0, these lengths.
fn relength_at(
    nodes: &mut Vec<NodeWords>,
    index: usize,
    lengths: &[u64],
    chunk: u32,
) -> Result<(), ChunkFull>
    requires there { index < length nodes.old.items }
    requires can { (kept : NodeWords) → slice_get nodes.old.items index ≡ Some kept → CanFitLengths lengths.now chunk kept }
    ensures answer { AnswersFit lengths.now chunk nodes.old.items index result }
    ensures fitted { OnOk result (ChangesAt (IsRefitted lengths.now chunk) nodes.old.items nodes.new.items index) }
    ensures stays { OnErr result (nodes.new.items ≡ nodes.old.items) }
{
    let kept = &mut nodes[index];
    kept.relength(lengths, chunk)
}

/// Gives one of these nodes, by its index from 0, the lengths of a row.
fn relength_row_at(
    nodes: &mut Vec<NodeWords>,
    index: usize,
    lengths: &WordRow,
    chunk: u32,
) -> Result<(), ChunkFull>
    requires there { index < length nodes.old.items }
    requires can { (kept : NodeWords) → slice_get nodes.old.items index ≡ Some kept → CanFitLengths lengths.now chunk kept }
    ensures answer { AnswersFit lengths.now chunk nodes.old.items index result }
    ensures fitted { OnOk result (ChangesAt (IsRefitted lengths.now chunk) nodes.old.items nodes.new.items index) }
    ensures stays { OnErr result (nodes.new.items ≡ nodes.old.items) }
{
    let kept = &mut nodes[index];
    kept.relength_row(lengths, chunk)
}

impl Store {
    /// Gives the dynamic node with this index, from 0, these lengths, and each chain the chunks that its length needs.
    /// Refused, with nothing changed, where they are more than the node has.
    pub(crate) fn relength_node(
        &mut self,
        index: usize,
        lengths: &[u64],
        chunk: u32,
    ) -> Result<(), ChunkFull>
        requires there { index < length self.old.nodes }
        requires can { AtNodeOf (CanLengthen lengths.now chunk) self.old index }
        ensures answer { AnswersFit lengths.now chunk self.old.nodes index result }
        ensures fitted { OnOk result (ChangesNode (IsRefitted lengths.now chunk) self.old self.new index) }
        ensures stays { OnErr result (self.new ≡ self.old) }
    {
        relength_at(&mut self.nodes, index, lengths, chunk)
    }

    /// Gives the dynamic node with this index, from 0, the lengths of a row, as `relength_node` does.
    fn relength_node_row(
        &mut self,
        index: usize,
        lengths: &WordRow,
        chunk: u32,
    ) -> Result<(), ChunkFull>
        requires there { index < length self.old.nodes }
        requires can { AtNodeOf (CanLengthen lengths.now chunk) self.old index }
        ensures answer { AnswersFit lengths.now chunk self.old.nodes index result }
        ensures fitted { OnOk result (ChangesNode (IsRefitted lengths.now chunk) self.old self.new index) }
        ensures stays { OnErr result (self.new ≡ self.old) }
    {
        relength_row_at(&mut self.nodes, index, lengths, chunk)
    }

    /// Opens the dynamic node with this index, from 0, for wanted coordinates, whose slots have these numbers.
    pub(crate) fn open_dynamic(
        &mut self,
        alloc: Global,
        index: usize,
        cap: u32,
        chunk: u32,
        wanted: &[Coord],
        slots: &[usize],
    ) -> Result<(), Stop<Full>>
        requires few { index < 6 }
        requires dynamic { AtNodeOf (IsDynamicOf cap chunk) self.old index }
        requires numbers { AreNumbers self.old index wanted.now slots.now }
        ensures opened { OnOk result (OpensNext self.old self.new wanted.now index) }
        ensures keeps { OnOk result (KeepsCells self.old self.new) }
        ensures full { IfErr result (IfRefused (IsFullNode self.old wanted.now index)) }
        ensures stays { OnErr result (self.new ≡ self.old) }
    {
        // for the laws that they ensure
        paths_tell();
        need_counts_live();
        rules_decide();
        let size = self.layout.size(index) as usize;
        let kept = &self.nodes.as_slice()[index];
        let mut lengths = kept.lengths.copy(alloc)?;
        raise_all(&mut lengths, size, slots);
        match self.relength_node_row(index, &lengths, chunk) {
            Ok(()) => Ok(()),
            Err(_full) => Err(Stop::Refused(Full {
                node: index as u32 + 1,
                cap,
            })),
        }
    }
}
