//! The calls of a part: begin, those that give a word to a cell, split, join and end.
ghost use Rattle.std.specs.Prelude.{◌≡◌, ◌<◌, ◌≤◌, map, length, IfOk, OnOk};
ghost use Rattle.std.specs.Mem.Slots.{slots_items, slots_len, IsFull};
ghost use Rattle.sg_words.specs.declared.operators.AccOp.TheVariants as acc;
ghost use Rattle.sg_words.specs.RaceMachine.{after_split, other_half, after_join, after_add};
ghost use Rattle.sg_words.specs.RaceInvariant.{handed_share};
ghost use Rattle.sg_accum.specs.AccRace.{cell_of, IsEntry, AreEntries, first_worker};
ghost use Rattle.sg_accum.specs.Folding.{given_to, AreFolded};
ghost use Rattle.sg_accum.specs.steps.Signs.{is_signed};

use crate::begin::Start;
use crate::part::{Part, PartSeat};
use crate::rule::{Half, Plain, Signed};
use atomic_table::{Closed, Table};
use sg_words::{AccOp, Items, Memory, Ty, rank, unrank};
use std::alloc::Global;

impl Part {
    /// A part with these cells, by an operator in a type, and its first seat. The table's words are made in a list that may serve again.
    pub(crate) fn begin(
        alloc: Global,
        values: &[u32],
        op: AccOp,
        ty: Ty,
        words: &mut Vec<u64>,
    ) -> Result<(Part, PartSeat), Memory>
        requires cells { 0 < length values.now }
        ensures own { IfOk result (λ r. r.1.seat.table_id ≡ r.0.table.shared.table_id) }
        ensures values { IfOk result (λ r. r.0.start.values ≡ values.now) }
        ensures operator { IfOk result (λ r. r.0.start.op ≡ op) }
        ensures order { IfOk result (λ r. r.0.start.ty ≡ ty) }
        ensures worker { IfOk result (λ r. r.1.seat.me.0 ≡ first_worker) }
    {
        entries(op, ty, values, words)?;
        let start = Start {
            values: Items::from_slice(alloc, values)?,
            op,
            ty,
        };
        let (table, seat) = Table::of_words(alloc, words.as_slice(), &start)?;
        Ok((Part { table, start }, PartSeat { seat }))
    }

    /// Adds a word to a cell, modulo 2^32: one atomic step.
    #[inline(always)]
    pub(crate) fn add(&self, seat: &mut PartSeat, cell: usize, word: u32)
        requires own { seat.old.seat.table_id ≡ self.now.table.shared.table_id }
        requires inside { cell < length self.now.start.values }
        requires operator { self.now.start.op ≡ acc.Add }
        ensures own { seat.new.seat.table_id ≡ seat.old.seat.table_id }
        ensures gave { seat.new.seat.me.0 ≡ after_add cell word seat.old.seat.me.0 }
    {
        self.table
            .shared
            .fetch_add::<Plain>(&mut seat.seat, cell, word as u64);
    }

    /// Lowers a cell to a word if that is less in the part's type: one atomic step.
    #[inline(always)]
    pub(crate) fn least(&self, seat: &mut PartSeat, cell: usize, word: u32)
        requires own { seat.old.seat.table_id ≡ self.now.table.shared.table_id }
        requires inside { cell < length self.now.start.values }
        requires operator { self.now.start.op ≡ acc.Min }
        ensures own { seat.new.seat.table_id ≡ seat.old.seat.table_id }
        ensures gave { seat.new.seat.me.0 ≡ after_add cell word seat.old.seat.me.0 }
    {
        let place = rank(self.start.ty, word);
        if signed(self.start.ty) {
            self.table
                .shared
                .fetch_min::<Signed>(&mut seat.seat, cell, place);
        } else {
            self.table
                .shared
                .fetch_min::<Plain>(&mut seat.seat, cell, place);
        }
    }

    /// Raises a cell to a word if that is more in the part's type: one atomic step.
    #[inline(always)]
    pub(crate) fn most(&self, seat: &mut PartSeat, cell: usize, word: u32)
        requires own { seat.old.seat.table_id ≡ self.now.table.shared.table_id }
        requires inside { cell < length self.now.start.values }
        requires operator { self.now.start.op ≡ acc.Max }
        ensures own { seat.new.seat.table_id ≡ seat.old.seat.table_id }
        ensures gave { seat.new.seat.me.0 ≡ after_add cell word seat.old.seat.me.0 }
    {
        let place = rank(self.start.ty, word);
        if signed(self.start.ty) {
            self.table
                .shared
                .fetch_max::<Signed>(&mut seat.seat, cell, place);
        } else {
            self.table
                .shared
                .fetch_max::<Plain>(&mut seat.seat, cell, place);
        }
    }

    /// Sets in a cell the bits that are set in a word: one atomic step.
    #[inline(always)]
    pub(crate) fn set_bits(&self, seat: &mut PartSeat, cell: usize, word: u32)
        requires own { seat.old.seat.table_id ≡ self.now.table.shared.table_id }
        requires inside { cell < length self.now.start.values }
        requires operator { self.now.start.op ≡ acc.Or }
        ensures own { seat.new.seat.table_id ≡ seat.old.seat.table_id }
        ensures gave { seat.new.seat.me.0 ≡ after_add cell word seat.old.seat.me.0 }
    {
        self.table
            .shared
            .fetch_or::<Plain>(&mut seat.seat, cell, word as u64);
    }

    /// Keeps in a cell the bits that are set in a word, and clears the others: one atomic step.
    #[inline(always)]
    pub(crate) fn keep_bits(&self, seat: &mut PartSeat, cell: usize, word: u32)
        requires own { seat.old.seat.table_id ≡ self.now.table.shared.table_id }
        requires inside { cell < length self.now.start.values }
        requires operator { self.now.start.op ≡ acc.And }
        ensures own { seat.new.seat.table_id ≡ seat.old.seat.table_id }
        ensures gave { seat.new.seat.me.0 ≡ after_add cell word seat.old.seat.me.0 }
    {
        self.table
            .shared
            .fetch_and::<Plain>(&mut seat.seat, cell, word as u64);
    }

    /// Flips in a cell the bits that are set in a word: one atomic step.
    #[inline(always)]
    pub(crate) fn flip_bits(&self, seat: &mut PartSeat, cell: usize, word: u32)
        requires own { seat.old.seat.table_id ≡ self.now.table.shared.table_id }
        requires inside { cell < length self.now.start.values }
        requires operator { self.now.start.op ≡ acc.Xor }
        ensures own { seat.new.seat.table_id ≡ seat.old.seat.table_id }
        ensures gave { seat.new.seat.me.0 ≡ after_add cell word seat.old.seat.me.0 }
    {
        self.table
            .shared
            .fetch_xor::<Plain>(&mut seat.seat, cell, word as u64);
    }

    /// A new seat, which takes half of the share, rounded down.
    pub(crate) fn split(&self, seat: &mut PartSeat) -> PartSeat
        requires own { seat.old.seat.table_id ≡ self.now.table.shared.table_id }
        requires share { 2 ≤ seat.old.seat.me.0.share }
        ensures own { seat.new.seat.table_id ≡ seat.old.seat.table_id }
        ensures other { result.seat.table_id ≡ self.now.table.shared.table_id }
        ensures left { seat.new.seat.me.0 ≡ after_split seat.old.seat.me.0 }
        ensures right { result.seat.me.0 ≡ other_half seat.old.seat.me.0 }
    {
        let other = self.table.shared.split_seat::<Half>(&mut seat.seat);
        PartSeat { seat: other }
    }

    /// Joins another seat into this one.
    pub(crate) fn join(&self, seat: &mut PartSeat, other: PartSeat)
        requires own { seat.old.seat.table_id ≡ self.now.table.shared.table_id }
        requires other { other.seat.table_id ≡ self.now.table.shared.table_id }
        ensures own { seat.new.seat.table_id ≡ seat.old.seat.table_id }
        ensures both { seat.new.seat.me.0 ≡ after_join seat.old.seat.me.0 other.seat.me.0 }
    {
        let PartSeat { seat: joined } = other;
        self.table.shared.join_seat::<Half>(&mut seat.seat, joined);
    }

    /// Ends the part by a seat into which all others were joined. The cells are written over the values with which it began.
    pub(crate) fn end(self, seat: PartSeat) -> Items<u32>
        requires own { seat.seat.table_id ≡ self.table.shared.table_id }
        requires all { handed_share seat.seat.me.0 ≡ 16 }
        ensures { AreFolded self.start.op self.start.ty self.start.values (λ c. given_to c seat.seat.me.0.given) result }
    {
        let Part { table, start } = self;
        let Start { mut values, op, ty } = start;
        let PartSeat { seat } = seat;
        let closed = table.close_with(seat);
        copy_cells(op, ty, &closed, &mut values);
        closed.free();
        values
    }
}

// The table's words at the start, instead of those that stood in the list.
fn entries(op: AccOp, ty: Ty, values: &[u32], words: &mut Vec<u64>) -> Result<(), Memory>
    ensures cells { OnOk result (map (cell_of op ty) words.new.items ≡ values.now) }
    ensures low { OnOk result (AreEntries op words.new.items) }
{
    words.clear();
    words.reserve(values.len())?;
    for value in values {
        words.push_reserved(entry(op, ty, *value));
    }
    Ok(())
}

// A cell as a word of the table: of least and greatest the rank stands there, else the cell itself.
fn entry(op: AccOp, ty: Ty, value: u32) -> u64
    ensures cell { cell_of op ty result ≡ value }
    ensures low { IsEntry op result }
{
    match op {
        AccOp::Add => value as u64,
        AccOp::Min => rank(ty, value),
        AccOp::Max => rank(ty, value),
        AccOp::Or => value as u64,
        AccOp::And => value as u64,
        AccOp::Xor => value as u64,
    }
}

// The cell for which a word of the table stands.
fn cell(op: AccOp, ty: Ty, word: u64) -> u32
    requires low { IsEntry op word }
    ensures { result ≡ cell_of op ty word }
{
    match op {
        AccOp::Add => (word % 0x1_0000_0000) as u32,
        AccOp::Min => unrank(ty, word),
        AccOp::Max => unrank(ty, word),
        AccOp::Or => word as u32,
        AccOp::And => word as u32,
        AccOp::Xor => word as u32,
    }
}

fn signed(ty: Ty) -> bool
    ensures { result ≡ is_signed ty }
{
    match ty {
        Ty::I32 => true,
        Ty::U32 => false,
        Ty::Bool => false,
    }
}

// The cells of a closed table.
fn copy_cells(op: AccOp, ty: Ty, closed: &Closed<(), Global>, values: &mut Items<u32>)
    requires full { IsFull closed.now.words }
    requires within { length values.old ≡ slots_len closed.now.words }
    requires items { length (slots_items closed.now.words) ≡ slots_len closed.now.words }
    requires low { AreEntries op (slots_items closed.now.words) }
    ensures { values.new ≡ map (cell_of op ty) (slots_items closed.now.words) }
{
    for i in 0..values.len() {
        values.set(i, cell(op, ty, closed.word(i)));
    }
}
