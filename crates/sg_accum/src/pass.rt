//! The calls of a pass: start, those that give a word to a cell, split, join and finish.
ghost use Rattle.std.specs.Prelude.{◌≡◌, ◌<◌, ◌≤◌, length, IfOk};
ghost use Rattle.std.specs.List.{concat};
ghost use Rattle.sg_words.specs.declared.operators.AccOp.TheVariants as acc;
ghost use Rattle.sg_accum.specs.Folding.{old_values, operator_of, share_of, handed_of, IsSeatOf, IsStart, IsEnd, HasGivenWord, IsCut, IsMerged};
ghost use Rattle.sg_accum.specs.Parts.{part_values};
ghost use Rattle.sg_accum.specs.steps.Teams.{AreBegun};

use crate::halves::{Begun, begin_all, begun_here, end_all, ended_here};
use crate::rooms::{Cut, Room, Rooms};
use crate::seat::{AccPass, AccSeat};
use crate::teams::{join_each, split_each};
use sg_words::{AccOp, Items, Memory, Ty};
use std::alloc::Global;
use std::thread::Threads;

/// So many cells are a part.
pub(crate) const PART: usize = 65_536;

impl AccPass {
    /// A pass into these cells, by an operator in a type (`Bool` has the order of `U32`), and its first seat, which has the whole
    /// share of 16. It waits for nobody.
    pub fn start(
        alloc: Global,
        values: &[u32],
        op: AccOp,
        ty: Ty,
    ) -> Result<(AccPass, AccSeat), Memory>
        requires cells { 0 < length values.now }
        ensures { IfOk result (IsStart op ty values.now) }
    {
        let begun = begun_here(alloc, values, op, ty)?;
        pass_of(alloc, begun, op, ty)
    }

    /// The same, made by so many workers side by side, from 1 to 16, for which it waits.
    pub fn start_by_workers<R: Threads + Sync>(
        rt: &R,
        alloc: Global,
        values: &[u32],
        op: AccOp,
        ty: Ty,
        workers: u32,
    ) -> Result<(AccPass, AccSeat), Memory>
        requires cells { 0 < length values.now }
        ensures { IfOk result (IsStart op ty values.now) }
    {
        let begun = begin_all(rt, alloc, values, op, ty, workers, false)?;
        pass_of(alloc, begun, op, ty)
    }

    /// Adds a word to a cell, modulo 2^32. No refusal, no memory, and no waiting.
    #[inline(always)]
    pub fn add(&self, seat: &mut AccSeat, cell: usize, word: u32)
        requires own { IsSeatOf self.now seat.old }
        requires inside { cell < length (old_values self.now) }
        requires operator { operator_of self.now ≡ acc.Add }
        ensures own { IsSeatOf self.now seat.new }
        ensures gave { HasGivenWord cell word seat.old seat.new }
    {
        let place = cell / PART;
        self.parts[place].add(&mut seat.seats[place], cell % PART, word);
    }

    /// Lowers a cell to a word if that is less in the pass's type. No refusal, no memory, and no waiting.
    #[inline(always)]
    pub fn least(&self, seat: &mut AccSeat, cell: usize, word: u32)
        requires own { IsSeatOf self.now seat.old }
        requires inside { cell < length (old_values self.now) }
        requires operator { operator_of self.now ≡ acc.Min }
        ensures own { IsSeatOf self.now seat.new }
        ensures gave { HasGivenWord cell word seat.old seat.new }
    {
        let place = cell / PART;
        self.parts[place].least(&mut seat.seats[place], cell % PART, word);
    }

    /// Raises a cell to a word if that is more in the pass's type. No refusal, no memory, and no waiting.
    #[inline(always)]
    pub fn most(&self, seat: &mut AccSeat, cell: usize, word: u32)
        requires own { IsSeatOf self.now seat.old }
        requires inside { cell < length (old_values self.now) }
        requires operator { operator_of self.now ≡ acc.Max }
        ensures own { IsSeatOf self.now seat.new }
        ensures gave { HasGivenWord cell word seat.old seat.new }
    {
        let place = cell / PART;
        self.parts[place].most(&mut seat.seats[place], cell % PART, word);
    }

    /// Sets in a cell the bits that are set in a word. No refusal, no memory, and no waiting.
    #[inline(always)]
    pub fn set_bits(&self, seat: &mut AccSeat, cell: usize, word: u32)
        requires own { IsSeatOf self.now seat.old }
        requires inside { cell < length (old_values self.now) }
        requires operator { operator_of self.now ≡ acc.Or }
        ensures own { IsSeatOf self.now seat.new }
        ensures gave { HasGivenWord cell word seat.old seat.new }
    {
        let place = cell / PART;
        self.parts[place].set_bits(&mut seat.seats[place], cell % PART, word);
    }

    /// Keeps in a cell the bits that are set in a word, and clears the others. No refusal, no memory, and no waiting.
    #[inline(always)]
    pub fn keep_bits(&self, seat: &mut AccSeat, cell: usize, word: u32)
        requires own { IsSeatOf self.now seat.old }
        requires inside { cell < length (old_values self.now) }
        requires operator { operator_of self.now ≡ acc.And }
        ensures own { IsSeatOf self.now seat.new }
        ensures gave { HasGivenWord cell word seat.old seat.new }
    {
        let place = cell / PART;
        self.parts[place].keep_bits(&mut seat.seats[place], cell % PART, word);
    }

    /// Flips in a cell the bits that are set in a word. No refusal, no memory, and no waiting.
    #[inline(always)]
    pub fn flip_bits(&self, seat: &mut AccSeat, cell: usize, word: u32)
        requires own { IsSeatOf self.now seat.old }
        requires inside { cell < length (old_values self.now) }
        requires operator { operator_of self.now ≡ acc.Xor }
        ensures own { IsSeatOf self.now seat.new }
        ensures gave { HasGivenWord cell word seat.old seat.new }
    {
        let place = cell / PART;
        self.parts[place].flip_bits(&mut seat.seats[place], cell % PART, word);
    }

    /// A new seat, which takes half of the share, rounded down. No memory: its room was taken when the pass started.
    pub fn split(&self, seat: &mut AccSeat) -> AccSeat
        requires own { IsSeatOf self.now seat.old }
        requires share { 2 ≤ share_of seat.old }
        ensures own { IsSeatOf self.now seat.new }
        ensures other { IsSeatOf self.now result }
        ensures cut { IsCut seat.old seat.new result }
    {
        let Cut {
            first,
            mine,
            theirs,
        } = std::mem::replace(&mut seat.rooms, Rooms::None).cut();
        let Room { list: mut others } = first;
        split_each(self.parts.as_slice(), &mut seat.seats, &mut others);
        seat.rooms = mine;
        AccSeat {
            seats: others,
            rooms: theirs,
        }
    }

    /// Joins another seat into this one: what it has given, its share and what came back to it.
    pub fn join(&self, seat: &mut AccSeat, other: AccSeat)
        requires own { IsSeatOf self.now seat.old }
        requires other { IsSeatOf self.now other }
        ensures own { IsSeatOf self.now seat.new }
        ensures merged { IsMerged seat.old other seat.new }
    {
        let AccSeat { seats, rooms: _ } = other;
        join_each(self.parts.as_slice(), &mut seat.seats, seats);
    }

    /// Ends the pass by a seat into which all others were joined: each cell's old value and all contributions to it, folded; the
    /// cells of one part after those of another. It waits for nobody.
    pub fn finish(self, alloc: Global, seat: AccSeat) -> Result<Vec<Items<u32>>, Memory>
        requires own { IsSeatOf self seat }
        requires all { handed_of seat ≡ 16 }
        ensures { IfOk result (λ parts. IsEnd self seat (concat parts.items)) }
    {
        let AccPass { parts, op, ty } = self;
        let AccSeat { seats, rooms: _ } = seat;
        ended_here(alloc, op, ty, parts, seats)
    }

    /// The same, ended by so many workers side by side, from 1 to 16, for which it waits.
    pub fn finish_by_workers<R: Threads + Sync>(
        self,
        rt: &R,
        alloc: Global,
        seat: AccSeat,
        workers: u32,
    ) -> Result<Vec<Items<u32>>, Memory>
        requires own { IsSeatOf self seat }
        requires all { handed_of seat ≡ 16 }
        ensures { IfOk result (λ parts. IsEnd self seat (concat parts.items)) }
    {
        let AccPass { parts, op, ty } = self;
        let AccSeat { seats, rooms: _ } = seat;
        end_all(rt, alloc, op, ty, parts, seats, workers, false)
    }
}

// The pass of parts that have begun, and its first seat.
fn pass_of(alloc: Global, begun: Begun, op: AccOp, ty: Ty) -> Result<(AccPass, AccSeat), Memory>
    requires some { 0 < length begun.parts.items }
    requires begun { AreBegun op ty (concat (part_values begun.parts.items)) begun.parts.items begun.seats.items }
    ensures { IfOk result (IsStart op ty (concat (part_values begun.parts.items))) }
{
    let Begun { parts, seats } = begun;
    let rooms = Rooms::make(alloc, parts.len())?;
    Ok((AccPass { parts, op, ty }, AccSeat { seats, rooms }))
}
