//! The start of a descent as it is made, node after node.
ghost use Rattle.std.specs.Prelude.{◌≡◌, suc, ◌+◌, ◌*◌, ◌^◌, ◌<◌, ◌≤◌, length, OnOk};
ghost use Rattle.sg_layout.specs.declared.shape.Kind.TheVariants.{Bitmasked, Pointer};
ghost use Rattle.sg_layout.specs.Live.{kind_at};
ghost use Rattle.sg_activate.specs.Descending.{open_before, last_fused};
ghost use Rattle.sg_activate.specs.steps.DescentPlans.{IsPlanOf, AddsSlots, AddsMasks, AddsDense};

use crate::caps::places_of;
use crate::descent::level::Level;
use crate::descent::rule::{MaskPart, SlotPart, Start};
use sg_layout::Kind;
use sg_store::{Store, levels};
use sg_words::{Items, Memory};
use std::alloc::Global;

/// The words, parts and levels so far; by which number the race knows the node whose containers hold the next node's
/// slots, and how many places above that node one container has.
#[derive(Drop)]
pub(crate) struct Plan {
    pub(crate) start: Start,
    pub(crate) levels: Items<Level>,
    pub(crate) over: u64,
    pub(crate) width: u64,
}

impl Plan {
    /// The next node, with this index from 0.
    pub(crate) fn add(&mut self, alloc: Global, store: &Store, index: usize) -> Result<(), Memory>
        requires plan { IsPlanOf store.now self.old }
        requires next { index ≡ open_before store.now.shape + length self.old.levels }
        requires fused { index < last_fused store.now.shape }
        ensures plan { OnOk result (IsPlanOf store.now self.new) }
        ensures longer { OnOk result (length self.new.levels ≡ suc (length self.old.levels)) }
    {
        // for the laws that they ensure
        levels::opening_by_nodes();
        let layout = store.layout();
        let size = layout.size(index) as u64;
        let node = index as u32 + 1;
        match layout.shape().nodes.as_slice()[index].kind {
            Kind::Dense => self.add_dense(size),
            Kind::Bitmasked => self.add_masks(alloc, store, node, size),
            Kind::Pointer => self.add_slots(alloc, store, node, size),
            Kind::Hash => unreachable!(),
            Kind::Dynamic => unreachable!(),
        }
    }

    // A dense node.
    fn add_dense(&mut self, size: u64) -> Result<(), Memory>
        requires room { self.old.width * size < 2 ^ 64 }
        ensures { OnOk result (AddsDense size self.old self.new) }
    {
        self.levels.push(Level {
            kind: Kind::Dense,
            size,
            part: 0,
            first: 0,
        })?;
        self.width = self.width * size;
        Ok(())
    }

    // The bits of a bitmasked node, numbered from 1.
    fn add_masks(
        &mut self,
        alloc: Global,
        store: &Store,
        node: u32,
        size: u64,
    ) -> Result<(), Memory>
        requires first { 1 ≤ node }
        requires masked { kind_at store.now.shape.nodes node ≡ Bitmasked }
        requires room { self.old.width * size < 2 ^ 64 }
        requires few { length self.old.start.masks < 2 ^ 56 }
        ensures { OnOk result (AddsMasks store.now node size self.old self.new) }
    {
        let masks = store.mask_words(alloc, node)?;
        let width = self.width * size;
        let part = MaskPart {
            words: masks.len() as u64,
            over: self.over,
            width,
        };
        self.levels.push(Level {
            kind: Kind::Bitmasked,
            size,
            part: self.start.mask_parts.len() as u64,
            first: self.start.masks.len() as u64 * 64,
        })?;
        self.start.mask_parts.push(part)?;
        self.start.masks.append(masks)?;
        self.width = width;
        Ok(())
    }

    // The links and the stock of a pointer node, numbered from 1.
    fn add_slots(
        &mut self,
        alloc: Global,
        store: &Store,
        node: u32,
        size: u64,
    ) -> Result<(), Memory>
        requires first { 1 ≤ node }
        requires pointer { kind_at store.now.shape.nodes node ≡ Pointer }
        requires there { node ≤ length store.now.shape.nodes }
        requires room { self.old.width * size < 2 ^ 64 }
        ensures { OnOk result (AddsSlots store.now node size self.old self.new) }
    {
        let links = store.slot_words(alloc, node)?;
        let stock = store.stock(alloc, node)?;
        let number = self.start.slot_parts.len() as u64;
        let part = SlotPart {
            slots: links.len() as u64,
            places: places_of(&store.layout().shape().nodes.as_slice()[node as usize - 1]),
            limit: stock.len() as u64,
            stock: self.start.stock.len() as u64,
            over: self.over,
            width: self.width * size,
        };
        self.levels.push(Level {
            kind: Kind::Pointer,
            size,
            part: number,
            first: self.start.links.len() as u64,
        })?;
        self.start.slot_parts.push(part)?;
        self.start.links.append(links)?;
        self.start.stock.append(stock)?;
        self.over = number;
        self.width = 1;
        Ok(())
    }
}
