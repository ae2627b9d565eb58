ghost use Rattle.std.specs.Prelude.{◌≡◌, ℕ, suc, ◌+◌, ◌<◌, ◌≤◌, length, take, All, Contains, IsTrue, IfOk, IfErr, OnOk, OnErr, Some, slice_get};
ghost use Rattle.sg_pool.specs.Numbers.{place_count, is_live_number, live_count};
ghost use Rattle.sg_store.specs.declared.node.NodeWords.{NodeWords};
ghost use Rattle.sg_store.specs.Reaching.{KeepsCells};
ghost use Rattle.sg_store.specs.steps.AtNode.{AtNodeOf, AreNumbers};
ghost use Rattle.sg_store.specs.steps.Settling.{ChangesAt, ChangesNode};
ghost use Rattle.sg_store.specs.steps.Keying.{CanAddKey, AddsKey, FilledKeys, CanFillKeys, IsKeyPlan, CanPlanKeys, CanRekey, CanSettleKeys, IsRekeyed};
ghost use Rattle.sg_store.specs.steps.Levels.{IsHashOf, OpensNext, IsPastCap, IfRefused};

use crate::node::NodeWords;
use crate::reach::Full;
use crate::store::Store;
use sg_coord::Coord;
use sg_hash::{PagedRow, find_in, put_in};
use sg_layout::{need_counts_live, paths_tell, rules_decide};
use sg_words::{Items, Memory, Stop};
use std::alloc::Global;

/// A table for a hash node's slots, before it is settled: the slots that were no keys have the first `taken` numbers of
/// the stock, of which a front is here. There is room for `room` more numbers; `taken` is one past it where they are not enough.
#[derive(Debug, Drop)]
pub(crate) struct KeyPlan {
    pub(crate) keys: PagedRow,
    pub(crate) links: PagedRow,
    pub(crate) stock: Items<u32>,
    pub(crate) room: usize,
    pub(crate) taken: usize,
}

/// Puts a slot into a table, with a number beside it. False if it is there already.
fn add_key(keys: &mut PagedRow, links: &mut PagedRow, slot: usize, number: u32) -> bool
    ghost count: { ℕ }
    requires { CanAddKey keys.old links.old slot count }
    ensures { AddsKey keys.old links.old keys.new links.new slot number result count }
{
    if find_in(keys, links, slot as u32).is_some() {
        return false;
    }
    put_in(keys, links, slot as u32, number)
}

/// Puts the slots that are no keys into a table, with numbers of the stock, in order, until there are no more slots or one
/// number more than the room is taken. How many are taken.
fn fill_keys(
    keys: &mut PagedRow,
    links: &mut PagedRow,
    stock: &[u32],
    room: usize,
    slots: &[usize],
) -> usize
    ghost count: { ℕ }
    requires { CanFillKeys keys.old links.old stock.now room slots.now count }
    ensures { FilledKeys keys.old links.old keys.new links.new stock.now room result slots.now count }
{
    let mut taken = 0;
    for slot in slots {
        if add_key(keys, links, *slot, stock[taken]) {
            taken += 1;
            if taken > room {
                return taken;
            }
        }
    }
    taken
}

/// A table for slots of a hash node, filled beside its words.
fn plan_keys(alloc: Global, kept: &NodeWords, cap: u32, slots: &[usize]) -> Result<KeyPlan, Memory>
    ghost count: { ℕ }
    requires { CanPlanKeys kept.now cap slots.now count }
    ensures { IfOk result (IsKeyPlan kept.now cap slots.now count) }
{
    let stock = kept.pool.stock_front(alloc, slots.len())?;
    let mut keys = kept.keys.copy(alloc)?;
    let mut links = kept.links.copy(alloc)?;
    let room = (cap - kept.pool.live()) as usize;
    let taken = fill_keys(&mut keys, &mut links, stock.as_slice(), room, slots);
    Ok(KeyPlan {
        keys,
        links,
        stock,
        room,
        taken,
    })
}

impl NodeWords {
    /// Gives the node this table, and makes the numbers live that it takes from the stock.
    fn rekey(&mut self, keys: &[u64], links: &[u64], taken: &[u32])
        requires { CanRekey keys.now links.now taken.now self.old }
        ensures { IsRekeyed keys.now links.now taken.now self.old self.new }
    {
        self.keys.overwrite(keys);
        self.links.overwrite(links);
        self.pool.settle(taken);
        // for the law that it ensures
        self.pool.places();
    }

    /// The same with a table that is moved in, in time by the numbers taken and the pool's free list.
    fn rekey_row(&mut self, keys: PagedRow, links: PagedRow, taken: &[u32])
        requires { CanRekey keys links taken.now self.old }
        ensures { IsRekeyed keys links taken.now self.old self.new }
    {
        self.keys = keys;
        self.links = links;
        self.pool.settle(taken);
        // for the law that it ensures
        self.pool.places();
    }
}

/// Gives one of these nodes, by its index from 0, this table.
fn rekey_at(nodes: &mut Vec<NodeWords>, index: usize, keys: &[u64], links: &[u64], taken: &[u32])
    requires there { index < length nodes.old.items }
    requires can { (kept : NodeWords) → slice_get nodes.old.items index ≡ Some kept →
        CanRekey keys.now links.now taken.now kept }
    ensures { ChangesAt (IsRekeyed keys.now links.now taken.now) nodes.old.items nodes.new.items index }
{
    let kept = &mut nodes[index];
    kept.rekey(keys, links, taken);
}

/// The same with a table that is moved in.
fn rekey_row_at(
    nodes: &mut Vec<NodeWords>,
    index: usize,
    keys: PagedRow,
    links: PagedRow,
    taken: &[u32],
)
    requires there { index < length nodes.old.items }
    requires can { (kept : NodeWords) → slice_get nodes.old.items index ≡ Some kept → CanRekey keys links taken.now kept }
    ensures { ChangesAt (IsRekeyed keys links taken.now) nodes.old.items nodes.new.items index }
{
    let kept = &mut nodes[index];
    kept.rekey_row(keys, links, taken);
}

impl Store {
    /// Gives the hash node with this index, from 0, this table, and makes the numbers live that it takes from the stock.
    pub(crate) fn settle_keys(&mut self, index: usize, keys: &[u64], links: &[u64], taken: &[u32])
        requires there { index < length self.old.nodes }
        requires can { AtNodeOf (CanSettleKeys keys.now links.now taken.now) self.old index }
        ensures { ChangesNode (IsRekeyed keys.now links.now taken.now) self.old self.new index }
    {
        rekey_at(&mut self.nodes, index, keys, links, taken);
    }

    /// The same with a table that is moved in.
    fn settle_table(&mut self, index: usize, keys: PagedRow, links: PagedRow, taken: &[u32])
        requires there { index < length self.old.nodes }
        requires can { AtNodeOf (CanSettleKeys keys links taken.now) self.old index }
        ensures { ChangesNode (IsRekeyed keys links taken.now) self.old self.new index }
    {
        rekey_row_at(&mut self.nodes, index, keys, links, taken);
    }

    /// A table for slots of the hash node with this index, from 0, filled beside its words.
    fn key_plan(
        &self,
        alloc: Global,
        index: usize,
        cap: u32,
        slots: &[usize],
    ) -> Result<KeyPlan, Memory>
        ghost count: { ℕ }
        requires there { index < length self.now.nodes }
        requires can { (kept : NodeWords) → slice_get self.now.nodes index ≡ Some kept → CanPlanKeys kept cap slots.now count }
        ensures { IfOk result (λ plan. (kept : NodeWords) → slice_get self.now.nodes index ≡ Some kept →
            IsKeyPlan kept cap slots.now count plan) }
    {
        plan_keys(alloc, &self.nodes.as_slice()[index], cap, slots)
    }

    fn settle_key_plan(&mut self, index: usize, plan: KeyPlan)
        requires there { index < length self.old.nodes }
        requires within { plan.taken ≤ length plan.stock }
        requires can { AtNodeOf (CanSettleKeys plan.keys plan.links (take plan.taken plan.stock)) self.old index }
        ensures { ChangesNode (IsRekeyed plan.keys plan.links (take plan.taken plan.stock)) self.old self.new index }
    {
        let KeyPlan {
            keys,
            links,
            stock,
            room: _,
            taken,
        } = plan;
        let stock = stock.as_slice();
        self.settle_table(index, keys, links, &stock[..taken]);
    }

    /// Opens the hash node with this index, from 0, for wanted coordinates, whose slots have these numbers.
    pub(crate) fn open_hash(
        &mut self,
        alloc: Global,
        index: usize,
        cap: u32,
        wanted: &[Coord],
        slots: &[usize],
    ) -> Result<(), Stop<Full>>
        requires few { index < 6 }
        requires hash { AtNodeOf (IsHashOf cap) self.old index }
        requires numbers { AreNumbers self.old index wanted.now slots.now }
        ensures opened { OnOk result (OpensNext self.old self.new wanted.now index) }
        ensures keeps { OnOk result (KeepsCells self.old self.new) }
        ensures full { IfErr result (IfRefused (λ full. (full ≡ record { node = suc index; cap = cap })
            × IsPastCap self.old wanted.now index cap)) }
        ensures stays { OnErr result (self.new ≡ self.old) }
    {
        // for the laws that they ensure
        paths_tell();
        need_counts_live();
        rules_decide();
        // for the invariant that it ensures
        self.layout();
        let plan = self.key_plan(alloc, index, cap, slots)?;
        if plan.taken > plan.room {
            return Err(Stop::Refused(Full {
                node: index as u32 + 1,
                cap,
            }));
        }
        self.settle_key_plan(index, plan);
        Ok(())
    }
}
