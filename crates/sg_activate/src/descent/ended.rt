//! A descent whose table was taken apart: which numbers its new links take, and the words of a store for each node.
ghost use Rattle.std.specs.Prelude.{◌≡◌, suc, ◌+◌, ◌<◌, ◌≤◌, nat_le, List, ◌++◌, length, slice_index, Err, IfOk, OnOk, OnErr};
ghost use Rattle.std.specs.Mem.Slots.{slots_items, slots_len, IsFull};
ghost use Rattle.sg_words.specs.declared.race.Worker.{Worker};
ghost use Rattle.sg_words.specs.Answers.{Answers};
ghost use Rattle.sg_coord.specs.declared.coord.Coord.{Coord};
ghost use Rattle.sg_layout.specs.Need.{first_full};
ghost use Rattle.sg_layout.specs.declared.shape.Kind.TheVariants.{Pointer, Bitmasked};
ghost use Rattle.sg_words.specs.Stocks.{AreLinks, taken_of};
ghost use Rattle.sg_words.specs.Ranges.{range_at};
ghost use Rattle.sg_store.specs.Reaching.{KeepsCells, IsOpenThrough};
ghost use Rattle.sg_activate.specs.Activating.{unless_full};
ghost use Rattle.sg_activate.specs.DescentRace.{limits_of};
ghost use Rattle.sg_activate.specs.Descending.{open_before, last_fused, first_link_full, pointer_number, IsStartOf, FitsSeat, StaysAt};
ghost use Rattle.sg_activate.specs.steps.DescentWalk.{level_at};
ghost use Rattle.sg_activate.specs.steps.DescentEnds.{AreLevels, IsGathered, CanGoOn, GoesOn, IsTaken, AreTaken, IsOverFull, IsFirstOverFull, slots_of_node, masks_of_node};
ghost use Rattle.sg_activate.specs.steps.Levels.{IfActRefused};

use crate::caps::{SPARES, cap_at};
use crate::descent::level::Level;
use crate::descent::rule::Start;
use crate::fault::ActFault;
use atomic_table::Closed;
use sg_layout::{Kind, need_counts_live, paths_tell};
use sg_store::{Store, levels};
use sg_words::links::taken_numbers;
use sg_words::{Items, Stop};
use std::alloc::Global;

/// The slots and masks at the end, beside those of the start.
#[derive(Drop)]
pub(crate) struct Ended {
    pub(crate) start: Start,
    pub(crate) base: usize,
    pub(crate) levels: Items<Level>,
    pub(crate) links: Items<u64>,
    pub(crate) masks: Items<u64>,
    ghost levels_are: { AreLevels start base levels },
    ghost short: { base + length levels ≤ 6 },
    ghost long: { length links ≡ length start.links },
    ghost wide: { length masks ≡ length start.masks },
    ghost small: { AreLinks links },
}

impl Ended {
    /// Gives a store the words of all levels; refused where the numbers of a pointer node are more than its cap leaves.
    pub(crate) fn give(&self, alloc: Global, store: &mut Store) -> Result<(), Stop<ActFault>>
        requires gathered { (v : Worker) × IsGathered self.now.start self.now.links self.now.masks v }
        requires same { IsStartOf self.now.start store.old }
        ensures answer { (v : Worker) → IsGathered self.now.start self.now.links self.now.masks v →
            (old wanted : List Coord) → FitsSeat self.now.start v wanted →
            IsOpenThrough store.old old (old ++ wanted) (open_before store.old.shape) →
            Answers result (unless_full (first_link_full store.old.shape (old ++ wanted))) }
        ensures full { IfActRefused result (λ fault. (v : Worker) →
            IsGathered self.now.start self.now.links self.now.masks v → (old wanted : List Coord) →
            FitsSeat self.now.start v wanted → IsOpenThrough store.old old (old ++ wanted)
            (open_before store.old.shape) →
            unless_full (first_full store.old.shape (old ++ wanted)) ≡ Err fault) }
        ensures opened { OnOk result ((v : Worker) → IsGathered self.now.start self.now.links self.now.masks v →
            (old wanted : List Coord) → FitsSeat self.now.start v wanted →
            IsOpenThrough store.old old (old ++ wanted) (open_before store.old.shape) →
            IsOpenThrough store.new old (old ++ wanted) (last_fused store.old.shape)) }
        ensures keeps { OnOk result (KeepsCells store.old store.new) }
        ensures stays_at { OnOk result (StaysAt store.old store.new) }
        ensures stays { OnErr result (store.new ≡ store.old) }
    {
        // for the laws that they ensure, and the invariant
        levels::opening_by_nodes();
        paths_tell();
        need_counts_live();
        store.layout();
        match self.taken(alloc, store) {
            Ok(taken) => {
                self.settle(store, taken.as_slice());
                Ok(())
            }
            Err(stop) => Err(stop),
        }
    }

    /// The numbers of the new links, level after level; refused where those of a pointer node are more than its cap
    /// leaves.
    pub(crate) fn taken(
        &self,
        alloc: Global,
        store: &Store,
    ) -> Result<Items<Items<u32>>, Stop<ActFault>>
        requires same { self.now.start.layout ≡ store.now.shape }
        ensures taken { IfOk result (λ taken. (length taken ≡ length self.now.levels) ×
            AreTaken self.now.start self.now.base self.now.levels self.now.links taken) }
        ensures full { IfActRefused result
            (IsFirstOverFull self.now.start self.now.base self.now.levels self.now.links) }
    {
        let mut taken = Items::new(alloc);
        for index in 0..self.levels.len() {
            match self.taken_at(alloc, store, index) {
                Ok(numbers) => taken.push(numbers)?,
                Err(stop) => return Err(stop),
            }
        }
        Ok(taken)
    }

    // Those of one level.
    fn taken_at(
        &self,
        alloc: Global,
        store: &Store,
        index: usize,
    ) -> Result<Items<u32>, Stop<ActFault>>
        requires same { self.now.start.layout ≡ store.now.shape }
        requires there { index < length self.now.levels }
        ensures taken { IfOk result (IsTaken self.now.start self.now.base self.now.levels self.now.links index) }
        ensures full { IfActRefused result
            (IsOverFull self.now.start self.now.base self.now.levels self.now.links index) }
    {
        let level = self.level(index);
        match level.kind {
            Kind::Pointer => self.numbers_at(alloc, store, index),
            Kind::Dense => Ok(Items::new(alloc)),
            Kind::Bitmasked => Ok(Items::new(alloc)),
            Kind::Hash => Ok(Items::new(alloc)),
            Kind::Dynamic => Ok(Items::new(alloc)),
        }
    }

    // Those of a pointer level.
    fn numbers_at(
        &self,
        alloc: Global,
        store: &Store,
        index: usize,
    ) -> Result<Items<u32>, Stop<ActFault>>
        requires same { self.now.start.layout ≡ store.now.shape }
        requires there { index < length self.now.levels }
        requires pointer { (level_at self.now.levels index).kind ≡ Pointer }
        ensures taken { IfOk result (IsTaken self.now.start self.now.base self.now.levels self.now.links index) }
        ensures full { IfActRefused result
            (IsOverFull self.now.start self.now.base self.now.levels self.now.links index) }
    {
        let old = self.slots(self.start.links.as_slice(), index);
        let new = self.slots(self.links.as_slice(), index);
        let taken = taken_numbers(alloc, old, new)?;
        if self.fits(index, taken.len()) {
            return Ok(taken);
        }
        let node = self.number(index);
        let cap = cap_at(store, node);
        Err(Stop::Refused(ActFault::PoolFull { node, cap }))
    }

    // Whether so many numbers leave the spares in the stock of a pointer level.
    fn fits(&self, index: usize, count: usize) -> bool
        requires there { index < length self.now.levels }
        requires pointer { (level_at self.now.levels index).kind ≡ Pointer }
        ensures { result ≡ nat_le (count + 17) (slice_index (limits_of self.now.start) (pointer_number self.now.start
            (suc (self.now.base + index)))) }
    {
        let level = self.level(index);
        let limit = self.start.slot_parts.as_slice()[level.part as usize].limit;
        count as u64 <= limit && SPARES as u64 <= limit - count as u64
    }

    // The number of a level's node.
    fn number(&self, index: usize) -> u32
        requires there { index < length self.now.levels }
        ensures { result ≡ suc (self.now.base + index) }
    {
        (self.base + index) as u32 + 1
    }

    // The level with this index, from 0.
    fn level(&self, index: usize) -> Level
        requires there { index < length self.now.levels }
        ensures { result ≡ level_at self.now.levels index }
    {
        self.levels.as_slice()[index]
    }

    // The words of a pointer level, of all slots.
    fn slots<'a>(&self, words: &'a [u64], index: usize) -> &'a [u64]
        requires there { index < length self.now.levels }
        requires pointer { (level_at self.now.levels index).kind ≡ Pointer }
        requires long { length words.now ≡ length self.now.start.links }
        ensures { result.now ≡ slots_of_node self.now.start (suc (self.now.base + index)) words.now }
    {
        let level = self.level(index);
        let many = self.start.slot_parts.as_slice()[level.part as usize].slots;
        range(words, level.first, many)
    }

    // The words of a bitmasked level, of all masks.
    fn bits<'a>(&self, words: &'a [u64], index: usize) -> &'a [u64]
        requires there { index < length self.now.levels }
        requires masked { (level_at self.now.levels index).kind ≡ Bitmasked }
        requires long { length words.now ≡ length self.now.start.masks }
        ensures { result.now ≡ masks_of_node self.now.start (suc (self.now.base + index)) words.now }
    {
        let level = self.level(index);
        let many = self.start.mask_parts.as_slice()[level.part as usize].words;
        range(words, level.first / 64, many)
    }

    /// Gives a store the words of all levels.
    pub(crate) fn settle(&self, store: &mut Store, taken: &[Items<u32>])
        requires go { CanGoOn self.now.start self.now.base self.now.levels self.now.links self.now.masks store.old 0 }
        requires many { length taken.now ≡ length self.now.levels }
        requires taken { AreTaken self.now.start self.now.base self.now.levels self.now.links taken.now }
        ensures { GoesOn self.now.start self.now.base self.now.levels self.now.links self.now.masks store.old 0 store.new (length self.now.levels) }
    {
        for index in 0..self.levels.len() {
            self.settle_at(store, index, taken[index].as_slice());
        }
    }

    // Gives it those of one level.
    fn settle_at(&self, store: &mut Store, index: usize, taken: &[u32])
        requires there { index < length self.now.levels }
        requires go { CanGoOn self.now.start self.now.base self.now.levels self.now.links self.now.masks store.old index }
        requires taken { IsTaken self.now.start self.now.base self.now.levels self.now.links index taken.now }
        ensures { GoesOn self.now.start self.now.base self.now.levels self.now.links self.now.masks store.old index store.new (suc index) }
    {
        let level = self.level(index);
        let node = self.number(index);
        match level.kind {
            Kind::Dense => (),
            Kind::Bitmasked => store.settle_masks(node, self.bits(self.masks.as_slice(), index)),
            Kind::Pointer => {
                store.settle_slots(node, self.slots(self.links.as_slice(), index), taken)
            }
            Kind::Hash => unreachable!(),
            Kind::Dynamic => unreachable!(),
        }
    }
}

// So many words from one on.
fn range(words: &[u64], first: u64, many: u64) -> &[u64]
    requires fits { first + many ≤ length words.now }
    ensures { result.now ≡ range_at first many words.now }
{
    &words[first as usize..(first + many) as usize]
}

/// The words of a closed table from one on, as many as the list has.
pub(crate) fn copy_words(closed: &Closed<(), Global>, first: usize, words: &mut Items<u64>)
    requires full { IsFull closed.now.words }
    requires within { first + length words.old ≤ slots_len closed.now.words }
    requires items { length (slots_items closed.now.words) ≡ slots_len closed.now.words }
    ensures words { words.new ≡ range_at first (length words.old) (slots_items closed.now.words) }
    ensures long { length words.new ≡ length words.old }
{
    for i in 0..words.len() {
        words.set(i, closed.word(first + i));
    }
}
