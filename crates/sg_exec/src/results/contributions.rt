ghost use Rattle.std.specs.Prelude.{◌≡◌, ◌++◌, ◌∷◌, ◌<◌, ◌≤◌, [], ℕ, length, IfOk, OnOk, IfSome, Some, None, slice_get, MatchOption};
ghost use Rattle.sg_accum.specs.Folding.{old_values, operator_of, type_of, IsSeatOf, HasGivenWord};
ghost use Rattle.sg_exec.specs.declared.results.shared.Accumulated.{Accumulated};
ghost use Rattle.sg_exec.specs.steps.Machines.{AreCells, IsCellOf};
ghost use Rattle.sg_exec.specs.steps.Landing.{current};
ghost use Rattle.sg_exec.specs.steps.Racing.{last_own, listed, ArePasses, AreSeats};
ghost use Rattle.sg_exec.specs.steps.Pending.{IsPending, ArePending, NonePending, HasTaken, HaveTaken, HasGivenLast, HaveGivenLast};
ghost use Rattle.sg_exec.specs.steps.Written.{own_write};
ghost use Rattle.sg_exec.specs.steps.Puts.{kept_writes};

use crate::lanes::cell_write::CellWrite;
use crate::lanes::cells::Cells;
use crate::results::own_writes::Puts;
use crate::results::shared::{Accumulated, Owned, Pending};
use sg_accum::AccSeat;
use sg_flat::Way;
use sg_store::{Store, Stores};
use sg_words::{AccOp, Memory, fold};
use std::alloc::Global;

/// For each accumulated field that no contribution is pending.
pub(crate) fn none_pending(
    alloc: Global,
    accumulated: &[Accumulated],
) -> Result<Vec<Option<Pending>>, Memory>
    ensures { IfOk result (λ pending. NonePending accumulated.now pending.items) }
{
    let mut pending = Vec::new(alloc);
    for _field in accumulated {
        pending.push(None)?;
    }
    Ok(pending)
}

/// Gives the contributions among writes to the passes, each by its seat. Those to one cell of a field that follow one another are joined
/// first: the last one to each field stays pending.
pub(crate) fn give_all(
    stores: &Stores,
    reached: &[Option<Store>],
    accumulated: &[Accumulated],
    writes: &[CellWrite],
    pending: &mut Vec<Option<Pending>>,
    seats: &mut Vec<AccSeat>,
)
    requires passes { ArePasses (current reached.now stores.now.list) accumulated.now }
    requires cells { AreCells (current reached.now stores.now.list) writes.now }
    requires pending { ArePending accumulated.now pending.old.items }
    requires seats { AreSeats accumulated.now seats.old.items }
    ensures pending { ArePending accumulated.now pending.new.items }
    ensures seats { AreSeats accumulated.now seats.new.items }
    ensures taken { HaveTaken accumulated.now writes.now pending.old.items seats.old.items pending.new.items seats.new.items }
{
    if accumulated.len() == 0 {
        return;
    }
    let mut last = 0;
    for write in writes {
        last = give_one(stores, reached, accumulated, write, last, pending, seats);
    }
}

/// Gives the contributions that are pending.
pub(crate) fn give_last(
    stores: &Stores,
    reached: &[Option<Store>],
    accumulated: &[Accumulated],
    pending: &mut Vec<Option<Pending>>,
    seats: &mut Vec<AccSeat>,
)
    requires passes { ArePasses (current reached.now stores.now.list) accumulated.now }
    requires pending { ArePending accumulated.now pending.old.items }
    requires seats { AreSeats accumulated.now seats.old.items }
    ensures none { NonePending accumulated.now pending.new.items }
    ensures seats { AreSeats accumulated.now seats.new.items }
    ensures gave { HaveGivenLast accumulated.now pending.old.items seats.old.items seats.new.items }
{
    let (_stores, _reached) = (stores, reached);
    for number in 0..accumulated.len() {
        let before = pending[number];
        let seat = &mut seats[number];
        give_pending(&accumulated[number], before, seat);
        pending[number] = None;
    }
}

/// Gives the contribution to a field that is pending, if there is one.
fn give_pending(to: &Accumulated, before: Option<Pending>, seat: &mut AccSeat)
    requires own { IsSeatOf to.now.pass seat.old }
    requires operator { operator_of to.now.pass ≡ to.now.op }
    requires pending { IsPending to.now before }
    ensures own { IsSeatOf to.now.pass seat.new }
    ensures gave { HasGivenLast before seat.old seat.new }
{
    if let Some(one) = before {
        give(to, seat, one.cell, one.word);
    }
}

/// Makes a write pending for the pass of its field, if it is a contribution. The field is looked for from that of the last contribution on,
/// whose number it is given and answers.
#[inline(always)]
fn give_one(
    stores: &Stores,
    reached: &[Option<Store>],
    accumulated: &[Accumulated],
    write: &CellWrite,
    last: usize,
    pending: &mut Vec<Option<Pending>>,
    seats: &mut Vec<AccSeat>,
) -> usize
    requires passes { ArePasses (current reached.now stores.now.list) accumulated.now }
    requires cell { IfSome write.now.cell (IsCellOf (current reached.now stores.now.list) write.now.layout) }
    requires pending { ArePending accumulated.now pending.old.items }
    requires seats { AreSeats accumulated.now seats.old.items }
    ensures pending { ArePending accumulated.now pending.new.items }
    ensures seats { AreSeats accumulated.now seats.new.items }
    ensures taken { HaveTaken accumulated.now (write.now ∷ []) pending.old.items seats.old.items pending.new.items seats.new.items }
{
    let (_stores, _reached) = (stores, reached);
    match write.way {
        Way::Own => return last,
        Way::Acc(_op) => {}
    }
    let Some(cell) = write.cell else {
        return last;
    };
    let Some(number) = number_of(accumulated, write.layout, write.place, last) else {
        return last;
    };
    let before = pending[number];
    let seat = &mut seats[number];
    let after = join_or_give(&accumulated[number], before, cell, write.value, seat);
    pending[number] = Some(after);
    number
}

/// Joins a contribution to the one that is pending, if that goes to the same cell, and else gives that one. What it answers is pending then.
#[inline(always)]
fn join_or_give(
    to: &Accumulated,
    before: Option<Pending>,
    cell: u32,
    word: u32,
    seat: &mut AccSeat,
) -> Pending
    requires own { IsSeatOf to.now.pass seat.old }
    requires operator { operator_of to.now.pass ≡ to.now.op }
    requires order { type_of to.now.pass ≡ to.now.ty }
    requires pending { IsPending to.now before }
    requires inside { cell < length (old_values to.now.pass) }
    ensures own { IsSeatOf to.now.pass seat.new }
    ensures pending { IsPending to.now (Some result) }
    ensures taken { HasTaken to.now ((cell, word) ∷ []) before seat.old (Some result) seat.new }
{
    let Some(one) = before else {
        return Pending { cell, word };
    };
    if one.cell == cell {
        let word = fold(to.op, to.ty, one.word, word);
        return Pending { cell, word };
    }
    give(to, seat, one.cell, one.word);
    Pending { cell, word }
}

/// One contribution to a cell, by the field's operator.
#[inline(always)]
fn give(to: &Accumulated, seat: &mut AccSeat, cell: u32, word: u32)
    requires own { IsSeatOf to.now.pass seat.old }
    requires operator { operator_of to.now.pass ≡ to.now.op }
    requires inside { cell < length (old_values to.now.pass) }
    ensures own { IsSeatOf to.now.pass seat.new }
    ensures gave { HasGivenWord cell word seat.old seat.new }
{
    match to.op {
        AccOp::Add => to.pass.add(seat, cell as usize, word),
        AccOp::Min => to.pass.least(seat, cell as usize, word),
        AccOp::Max => to.pass.most(seat, cell as usize, word),
        AccOp::Or => to.pass.set_bits(seat, cell as usize, word),
        AccOp::And => to.pass.keep_bits(seat, cell as usize, word),
        AccOp::Xor => to.pass.flip_bits(seat, cell as usize, word),
    }
}

/// The number of a field among accumulated ones, which is looked for from one number on, and then before it.
#[inline(always)]
pub(crate) fn number_of(
    accumulated: &[Accumulated],
    layout: u32,
    field: u32,
    first: usize,
) -> Option<usize>
    ensures { MatchOption result
        ((k : ℕ) (it : Accumulated) → slice_get accumulated.now k ≡ Some it → it.layout ≡ layout → it.field ≡ field → ⊥)
        (λ k. (it : Accumulated) × (slice_get accumulated.now k ≡ Some it) × (it.layout ≡ layout) × (it.field ≡ field)) }
{
    let first = first.min(accumulated.len());
    match number_between(accumulated, layout, field, first, accumulated.len()) {
        Some(number) => Some(number),
        None => number_between(accumulated, layout, field, 0, first),
    }
}

/// The number of a field among accumulated ones, which is looked for from one number up to below another.
fn number_between(
    accumulated: &[Accumulated],
    layout: u32,
    field: u32,
    from: usize,
    to: usize,
) -> Option<usize>
    requires { to ≤ length accumulated.now }
    ensures { MatchOption result
        ((k : ℕ) (it : Accumulated) → from ≤ k → k < to → slice_get accumulated.now k ≡ Some it → it.layout ≡ layout → it.field ≡ field → ⊥)
        (λ k. (it : Accumulated) × (slice_get accumulated.now k ≡ Some it) × (it.layout ≡ layout) × (it.field ≡ field)) }
{
    for number in from..to {
        let it = &accumulated[number];
        if it.layout == layout && it.field == field {
            return Some(number);
        }
    }
    None
}

/// Adds the last own write to each own-written field.
pub(crate) fn put_all(owned: &[Owned], cells: &Cells, puts: &mut Puts) -> Result<(), Memory>
    ensures puts { OnOk result (kept_writes puts.new ≡ kept_writes puts.old ++ last_own owned.now cells.now.writes) }
    ensures cells { OnOk result (AreCells cells.now.stores (kept_writes puts.old) → AreCells cells.now.stores (kept_writes puts.new)) }
{
    for own in owned {
        put_one(*own, cells, puts)?;
    }
    Ok(())
}

#[inline(always)]
fn put_one(own: Owned, cells: &Cells, puts: &mut Puts) -> Result<(), Memory>
    ensures puts { OnOk result (kept_writes puts.new ≡ kept_writes puts.old ++ listed (own_write own.layout own.field cells.now.writes)) }
    ensures cells { OnOk result (AreCells cells.now.stores (kept_writes puts.old) → AreCells cells.now.stores (kept_writes puts.new)) }
{
    // for the cells that it ensures
    cells.writes();
    if let Some(write) = cells.own_write(own.layout, own.field) {
        puts.push(write)?;
    }
    Ok(())
}
