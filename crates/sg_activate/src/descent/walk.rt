//! A walk of a coordinate down the nodes.
ghost use Rattle.std.specs.Prelude.{◌≡◌, ℕ, suc, ◌+◌, ◌*◌, ◌<◌, ◌≤◌, ◌⊎◌, ◌^◌, length, slice_index, MatchOption};
ghost use Rattle.sg_words.specs.Counts.{pairs, firsts, times_in};
ghost use Rattle.sg_words.specs.RaceMachine.{KnowsContainer};
ghost use Rattle.sg_coord.specs.Coord.{Inside};
ghost use Rattle.sg_layout.specs.Axes.{bounds_of_shape};
ghost use Rattle.sg_activate.specs.TableParts.{part_of};
ghost use Rattle.sg_activate.specs.DescentRace.{slots_each, places_each, setting_of, over_slot_at};
ghost use Rattle.sg_activate.specs.Descending.{KnowsKey, KnowsMore, GrewFor, IsAnswered};
ghost use Rattle.sg_activate.specs.Descents.{start_of, worker_of, IsSeatAt, IsSeatOf};
ghost use Rattle.sg_activate.specs.steps.DescentWalk.{level_at, places_at};
ghost use Rattle.sg_activate.specs.steps.DescentReaching.{offsets_below, place_from, IsOpenAt, IsMissedAt, IsWalked, StandsAt, BeginsAt, GrewBy};

use crate::descent::level::Level;
use crate::descent::seat::{DescentPass, DescentSeat};
use sg_coord::Coord;
use sg_hash::find;
use sg_layout::Kind;

/// What a reach for a coordinate answers: it is open at all pointer and bitmasked nodes, or the stock of a pointer node
/// is used up. Nodes are numbered from 1.
#[derive(Clone, Copy, Debug, PartialEq, Eq)]
pub enum Reach {
    Open,
    Dry { node: u32 },
}

impl DescentPass {
    /// Takes a coordinate through all pointer and bitmasked nodes. No memory, and no waiting.
    pub fn reach(&self, seat: &mut DescentSeat, at: Coord) -> Reach
        requires own { IsSeatOf self.now seat.old }
        requires inside { Inside (bounds_of_shape (start_of self.now).layout) at }
        requires keyed { KnowsKey (start_of self.now) at }
        ensures own { IsSeatOf self.now seat.new }
        ensures answer { IsAnswered (start_of self.now) (worker_of seat.new) at result }
        ensures grew { GrewFor (start_of self.now) at (worker_of seat.old) (worker_of seat.new) }
        ensures knows_more { KnowsMore (worker_of seat.old) (worker_of seat.new) }
    {
        match self.reach_keyed(seat, at) {
            Some(answer) => answer,
            None => unreachable!(),
        }
    }

    // The same for any coordinate inside; none where its key has no link.
    pub(crate) fn reach_keyed(&self, seat: &mut DescentSeat, at: Coord) -> Option<Reach>
        requires own { IsSeatOf self.now seat.old }
        requires inside { Inside (bounds_of_shape self.now.start.layout) at }
        ensures own { IsSeatOf self.now seat.new }
        ensures answer { MatchOption result (KnowsKey self.now.start at →
            ⊥) (λ answer. IsAnswered self.now.start (worker_of seat.new) at answer) }
        ensures grew { GrewFor self.now.start at (worker_of seat.old) (worker_of seat.new) }
        ensures knows_more { KnowsMore (worker_of seat.old) (worker_of seat.new) }
    {
        match self.begin(at) {
            Some(place) => Some(self.reach_from(seat, at, place)),
            None => None,
        }
    }

    // The same from the place where its walk begins.
    fn reach_from(&self, seat: &mut DescentSeat, at: Coord, place: u64) -> Reach
        requires own { IsSeatOf self.now seat.old }
        requires inside { Inside (bounds_of_shape self.now.start.layout) at }
        requires place { place ≡ place_from self.now.start self.now.base at }
        requires begins { BeginsAt self.now.start self.now.base at }
        ensures own { IsSeatOf self.now seat.new }
        ensures answer { IsAnswered self.now.start (worker_of seat.new) at result }
        ensures grew { GrewFor self.now.start at (worker_of seat.old) (worker_of seat.new) }
        ensures knows_more { KnowsMore (worker_of seat.old) (worker_of seat.new) }
    {
        match self.walk(seat, at, place) {
            Some(index) => {
                let node = self.number(index);
                Reach::Dry { node }
            }
            None => Reach::Open,
        }
    }

    // The number of the node of a level.
    fn number(&self, index: usize) -> u32
        requires there { index < length self.now.levels }
        ensures { result ≡ suc (self.now.base + index) }
    {
        (self.base + index) as u32 + 1
    }

    // Where a coordinate's walk begins: at the root, or in the container of its key; none if its key has no link.
    fn begin(&self, at: Coord) -> Option<u64>
        requires inside { Inside (bounds_of_shape self.now.start.layout) at }
        ensures { MatchOption result (KnowsKey self.now.start at →
            ⊥) (λ place. (place ≡ place_from self.now.start self.now.base at) ×
            BeginsAt self.now.start self.now.base at) }
    {
        if self.base == 0 {
            return Some(0);
        }
        let key = self.start.layout.offset(0, at);
        match find(self.start.keys.as_slice(), self.start.heads.as_slice(), key) {
            Some(number) => Some(number as u64),
            None => None,
        }
    }

    // A walk down all levels from a place; the index of the level at which the stock was used up, none if it came to
    // its end.
    fn walk(&self, seat: &mut DescentSeat, at: Coord, from: u64) -> Option<usize>
        requires own { IsSeatAt self.now seat.old }
        requires inside { Inside (bounds_of_shape self.now.start.layout) at }
        requires place { from ≡ place_from self.now.start self.now.base at }
        requires begins { BeginsAt self.now.start self.now.base at }
        ensures own { IsSeatAt self.now seat.new }
        ensures more { KnowsMore (worker_of seat.old) (worker_of seat.new) }
        ensures walked { IsWalked (worker_of seat.new) self.now.levels (place_from self.now.start self.now.base at)
            (offsets_below self.now.start self.now.base at) result }
        ensures grew { GrewBy self.now.levels (place_from self.now.start self.now.base at)
            (offsets_below self.now.start self.now.base at) (worker_of seat.old) (worker_of seat.new) }
        ensures there { MatchOption result (Unit {0}) (λ k. k < length self.now.levels) }
    {
        let mut place = from;
        for index in 0..self.levels.len() {
            match self.step(seat, at, index, place) {
                Some(next) => place = next,
                None => return Some(index),
            }
        }
        None
    }

    // One level down: the next place, none where the stock of a pointer level is used up.
    fn step(&self, seat: &mut DescentSeat, at: Coord, index: usize, place: u64) -> Option<u64>
        requires own { IsSeatAt self.now seat.old }
        requires inside { Inside (bounds_of_shape self.now.start.layout) at }
        requires there { index < length self.now.levels }
        requires stands { StandsAt self.now.start (worker_of seat.old) self.now.levels
            (place_from self.now.start self.now.base at) (offsets_below self.now.start self.now.base at) index place }
        ensures own { IsSeatAt self.now seat.new }
        ensures more { KnowsMore (worker_of seat.old) (worker_of seat.new) }
        ensures answer { MatchOption result (IsMissedAt (worker_of seat.new) self.now.levels
            (place_from self.now.start self.now.base at) (offsets_below self.now.start self.now.base at) index)
            (λ next. StandsAt self.now.start (worker_of seat.new) self.now.levels (place_from self.now.start self.now.base at) (offsets_below self.now.start self.now.base at) (suc index) next
            × IsOpenAt (worker_of seat.new) self.now.levels (place_from self.now.start self.now.base at) (offsets_below self.now.start self.now.base at) index) }
        ensures grew { GrewBy self.now.levels (place_from self.now.start self.now.base at)
            (offsets_below self.now.start self.now.base at) (worker_of seat.old) (worker_of seat.new) }
    {
        let level = self.level(index);
        let slot = self.slot_at(index, place, at);
        match level.kind {
            Kind::Dense => Some(slot),
            Kind::Bitmasked => {
                self.mark_once(seat, index, (level.first + slot) as usize);
                Some(slot)
            }
            Kind::Pointer => {
                match self.ask(seat, level.part as usize, (level.first + slot) as usize) {
                    Some(number) => Some(number as u64),
                    None => None,
                }
            }
            Kind::Hash => unreachable!(),
            Kind::Dynamic => unreachable!(),
        }
    }

    // The level with this index, from 0.
    fn level(&self, index: usize) -> Level
        requires there { index < length self.now.levels }
        ensures { result ≡ level_at self.now.levels index }
    {
        self.levels.as_slice()[index]
    }

    // The number of a coordinate's slot at a level under a place.
    fn slot_at(&self, index: usize, place: u64, at: Coord) -> u64
        requires there { index < length self.now.levels }
        requires place { place < places_at self.now.start self.now.start.head_places self.now.levels index }
        requires inside { Inside (bounds_of_shape self.now.start.layout) at }
        ensures value { result ≡ place * (level_at self.now.levels index).size + slice_index
            (offsets_below self.now.start self.now.base at) index }
        ensures below { slice_index (offsets_below self.now.start self.now.base at) index <
            (level_at self.now.levels index).size }
        ensures small { result < 2 ^ 47 }
    {
        let size = self.level(index).size;
        let offset = self.start.layout.offset(self.base + index, at);
        place * size + offset as u64
    }

    // The number that a slot of a pointer node holds; none where the node's stock is used up.
    fn ask(&self, seat: &mut DescentSeat, node: usize, slot: usize) -> Option<u32>
        requires own { IsSeatAt self.now seat.old }
        requires node { node < length self.now.start.slot_parts }
        requires inside { slot < length self.now.start.links }
        requires here { part_of (slots_each self.now.start) slot ≡ node }
        requires known { KnowsContainer (setting_of self.now.start) (worker_of seat.old)
            (over_slot_at self.now.start slot) }
        ensures own { IsSeatAt self.now seat.new }
        ensures more { KnowsMore (worker_of seat.old) (worker_of seat.new) }
        ensures answer { MatchOption result ((0 < times_in slot (worker_of seat.new).missed) ×
            (0 < firsts node (worker_of seat.new).past)) (λ n. 0 < pairs slot n (worker_of seat.new).seen) }
        ensures bound { MatchOption result (Unit {0}) (λ n. n < slice_index (places_each self.now.start) node) }
        ensures made { (i t : ℕ) → 0 < pairs i t (worker_of seat.new).made →
            (0 < pairs i t (worker_of seat.old).made) ⊎ (i ≡ slot) }
        ensures marked { (worker_of seat.new).marked ≡ (worker_of seat.old).marked }
    {
        let word = self.look(seat, slot);
        if word != 0 {
            return Some((word - 1) as u32);
        }
        match self.provide(seat, node) {
            Some(ticket) => Some(self.place(seat, node, slot, ticket)),
            None => None,
        }
    }
}
