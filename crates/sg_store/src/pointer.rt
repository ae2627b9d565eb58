ghost use Rattle.std.specs.Prelude.{◌≡◌, ℕ, suc, ◌+◌, ◌<◌, ◌≤◌, length, take, All, Contains, IsTrue, IfOk, IfErr, OnOk, OnErr, Some, slice_get};
ghost use Rattle.sg_pool.specs.Numbers.{place_count, is_live_number, live_count, CanSettle};
ghost use Rattle.sg_store.specs.declared.node.NodeWords.{NodeWords};
ghost use Rattle.sg_store.specs.Reaching.{KeepsCells};
ghost use Rattle.sg_store.specs.steps.AtNode.{AtNodeOf, AreNumbers};
ghost use Rattle.sg_store.specs.steps.Settling.{CanSettleLinks, CanRelink, IsRelinked, ChangesAt, ChangesNode};
ghost use Rattle.sg_store.specs.steps.Filling.{IsUnlinkedStock, HasEnough, FilledTo, IsPlan};
ghost use Rattle.sg_store.specs.steps.Levels.{IsPointerOf, OpensNext, IsPastCap, IfRefused};

use crate::node::NodeWords;
use crate::reach::Full;
use crate::store::Store;
use sg_coord::Coord;
use sg_hash::PagedRow;
use sg_layout::{need_counts_live, paths_tell};
use sg_words::{Items, Memory, Stop};
use std::alloc::Global;

/// Links for a node's slots, before they are settled: those that were empty have the first `taken` numbers of the
/// stock, of which a front is here. There is room for `room` more numbers; `taken` is one past it where they are not enough.
#[derive(Debug, Drop)]
pub(crate) struct Plan {
    pub(crate) links: PagedRow,
    pub(crate) stock: Items<u32>,
    pub(crate) room: usize,
    pub(crate) taken: usize,
}

/// Fills the slots that are empty with numbers of the stock, in order, until there are no more slots or one number more
/// than the room is taken. How many are taken.
fn fill(links: &mut PagedRow, stock: &[u32], room: usize, slots: &[usize]) -> usize
    requires enough { HasEnough stock.now room slots.now }
    requires fresh { IsUnlinkedStock links.old stock.now }
    requires within { All (λ slot. slot < length links.old) slots.now }
    ensures { FilledTo links.old links.new stock.now room result slots.now }
{
    let mut taken = 0;
    for slot in slots {
        let word = links.get(*slot);
        if word == 0 {
            links.set(*slot, u64::from(stock[taken]) + 1);
            taken += 1;
            if taken > room {
                return taken;
            }
        }
    }
    taken
}

/// Links for slots of a pointer node, filled beside its words.
fn plan_links(alloc: Global, kept: &NodeWords, cap: u32, slots: &[usize]) -> Result<Plan, Memory>
    requires within_cap { live_count kept.now.pool ≤ cap }
    requires places { place_count kept.now.pool ≡ cap + 17 }
    requires linked { (number : ℕ) → Contains kept.now.links (suc number) →
        IsTrue (is_live_number kept.now.pool number) }
    requires within { All (λ slot. slot < length kept.now.links) slots.now }
    ensures { IfOk result (IsPlan kept.now cap slots.now) }
{
    let stock = kept.pool.stock_front(alloc, slots.len())?;
    let mut links = kept.links.copy(alloc)?;
    let room = (cap - kept.pool.live()) as usize;
    let taken = fill(&mut links, stock.as_slice(), room, slots);
    Ok(Plan {
        links,
        stock,
        room,
        taken,
    })
}

impl NodeWords {
    /// Gives the node these links, and makes the numbers live that they take from the stock.
    fn relink(&mut self, links: &[u64], taken: &[u32])
        requires { CanRelink links.now taken.now self.old }
        ensures { IsRelinked links.now taken.now self.old self.new }
    {
        self.links.overwrite(links);
        self.pool.settle(taken);
        // for the law that it ensures
        self.pool.places();
    }

    /// The same with a row of links, in time by the numbers taken and the pool's free list.
    fn relink_row(&mut self, links: PagedRow, taken: &[u32])
        requires { CanRelink links taken.now self.old }
        ensures { IsRelinked links taken.now self.old self.new }
    {
        self.links = links;
        self.pool.settle(taken);
        // for the law that it ensures
        self.pool.places();
    }
}

/// Gives one of these nodes, by its index from 0, these links.
fn relink_at(nodes: &mut Vec<NodeWords>, index: usize, links: &[u64], taken: &[u32])
    requires there { index < length nodes.old.items }
    requires can { (kept : NodeWords) → slice_get nodes.old.items index ≡ Some kept →
        CanRelink links.now taken.now kept }
    ensures { ChangesAt (IsRelinked links.now taken.now) nodes.old.items nodes.new.items index }
{
    let kept = &mut nodes[index];
    kept.relink(links, taken);
}

/// The same with a row of links.
fn relink_row_at(nodes: &mut Vec<NodeWords>, index: usize, links: PagedRow, taken: &[u32])
    requires there { index < length nodes.old.items }
    requires can { (kept : NodeWords) → slice_get nodes.old.items index ≡ Some kept →
        CanRelink links taken.now kept }
    ensures { ChangesAt (IsRelinked links taken.now) nodes.old.items nodes.new.items index }
{
    let kept = &mut nodes[index];
    kept.relink_row(links, taken);
}

impl Store {
    /// Gives the pointer node with this index, from 0, these links, and makes the numbers live that they take from the
    /// stock.
    pub(crate) fn settle_links(&mut self, index: usize, links: &[u64], taken: &[u32])
        requires there { index < length self.old.nodes }
        requires can { AtNodeOf (CanSettleLinks links.now taken.now) self.old index }
        ensures { ChangesNode (IsRelinked links.now taken.now) self.old self.new index }
    {
        relink_at(&mut self.nodes, index, links, taken);
    }

    /// The same with a row of links.
    fn settle_row(&mut self, index: usize, links: PagedRow, taken: &[u32])
        requires there { index < length self.old.nodes }
        requires can { AtNodeOf (CanSettleLinks links taken.now) self.old index }
        ensures { ChangesNode (IsRelinked links taken.now) self.old self.new index }
    {
        relink_row_at(&mut self.nodes, index, links, taken);
    }

    fn settle_plan(&mut self, index: usize, plan: Plan)
        requires there { index < length self.old.nodes }
        requires within { plan.taken ≤ length plan.stock }
        requires can { AtNodeOf (CanSettleLinks plan.links (take plan.taken plan.stock)) self.old index }
        ensures { ChangesNode (IsRelinked plan.links (take plan.taken plan.stock)) self.old self.new index }
    {
        let Plan {
            links,
            stock,
            room: _,
            taken,
        } = plan;
        let stock = stock.as_slice();
        self.settle_row(index, links, &stock[..taken]);
    }

    /// Opens the pointer node with this index, from 0, for wanted coordinates, whose slots have these numbers.
    pub(crate) fn open_pointer(
        &mut self,
        alloc: Global,
        index: usize,
        cap: u32,
        wanted: &[Coord],
        slots: &[usize],
    ) -> Result<(), Stop<Full>>
        requires few { index < 6 }
        requires pointer { AtNodeOf (IsPointerOf cap) self.old index }
        requires numbers { AreNumbers self.old index wanted.now slots.now }
        ensures opened { OnOk result (OpensNext self.old self.new wanted.now index) }
        ensures keeps { OnOk result (KeepsCells self.old self.new) }
        ensures full { IfErr result (IfRefused (λ full. (full ≡ record { node = suc index; cap = cap })
            × IsPastCap self.old wanted.now index cap)) }
        ensures stays { OnErr result (self.new ≡ self.old) }
    {
        // for the laws that they ensure
        paths_tell();
        need_counts_live();
        let plan = plan_links(alloc, &self.nodes.as_slice()[index], cap, slots)?;
        if plan.taken > plan.room {
            return Err(Stop::Refused(Full {
                node: index as u32 + 1,
                cap,
            }));
        }
        self.settle_plan(index, plan);
        Ok(())
    }
}
