ghost use Rattle.std.specs.Prelude.{◌≡◌, ◌<◌, ◌≤◌, ◌^◌, ℕ, All, List, [], map, length, IfOk, OnOk, Some, slice_get, slice_index};
ghost use Rattle.std.specs.List.{concat};
ghost use Rattle.sg_accum.specs.Folding.{old_values, operator_of, type_of, given_of, handed_of, IsSeatOf, AreFolded};
ghost use Rattle.sg_coord.specs.declared.coord.Coord.{Coord};
ghost use Rattle.sg_flat.specs.declared.effects.Turn.{Turn};
ghost use Rattle.sg_flat.specs.declared.effects.Write.{Write};
ghost use Rattle.sg_flat.specs.declared.state.FlatLayout.{FlatLayout};
ghost use Rattle.sg_flat.specs.declared.state.FlatState.{FlatState};
ghost use Rattle.sg_flat.specs.Effects.{writes_of};
ghost use Rattle.sg_ir.specs.Apt.{uses_in};
ghost use Rattle.sg_store.specs.StoreWords.{StoreWords, word_in};
ghost use Rattle.sg_store.specs.StandsFor.{StandsFor};
ghost use Rattle.sg_store.specs.Rows.{IsFieldFront};
ghost use Rattle.sg_exec.specs.declared.results.shared.Accumulated.{Accumulated};
ghost use Rattle.sg_exec.specs.steps.Machines.{Sees, AreCells};
ghost use Rattle.sg_exec.specs.steps.Moments.{AreNamedAt};
ghost use Rattle.sg_exec.specs.steps.Landing.{current, landed_layout, AreTurnsOf, HasTree, Lands};
ghost use Rattle.sg_exec.specs.steps.Racing.{AreSeats};
ghost use Rattle.sg_exec.specs.steps.Working.{HasRaced};
ghost use Rattle.sg_exec.specs.steps.Passes.{WritesOneWay, HaveFields, AreWhole, IsSumOf, AreActiveTo, into_field, with_row};
ghost use Rattle.sg_exec.specs.steps.Puts.{kept_writes};
ghost use Rattle.sg_exec.specs.steps.Made.{AddsSums, EndsUsed, HasLanded, HasRow, words_of};

use crate::lanes::values::ONE_POINT;
use crate::results::fields::written_fields;
use crate::results::made::Ended;
use crate::results::own_writes::Puts;
use crate::results::shared::{Accumulated, Owned};
use crate::results::written_fields::WrittenFields;
use crate::workers::effort::effort_of;
use crate::workers::points::Points;
use crate::workers::race::race;
use crate::workers::state::Hand;
use sg_accum::AccSeat;
use sg_activate::workers_at;
use sg_coord::{numbering, slices_partition};
use sg_ir::Inst;
use sg_layout::{closure_closes, closure_members, paths_tell};
use sg_outside::Gate;
use sg_store::laws::cells_are_active;
use sg_store::{Store, Stores};
use sg_words::{Items, Memory};
use std::alloc::Global;
use std::thread::Threads;

/// The share of a pass's first seat.
const SHARE: u32 = 16;

/// The values of the first cells of an accumulated field, with all reached ones among them, at the end of its pass; in parts, one after the
/// other.
#[derive(Drop)]
pub struct Sum {
    pub layout: u32,
    pub field: u32,
    pub words: Vec<Items<u32>>,
}

/// What code writes at these points, over the stores with what was reached in their places. The workers run the iterations side by
/// side: all of them where the gate may hold one, and else as many as have enough to do.
pub(crate) fn raced_points<R: Threads + Sync, G: Gate + Sync>(
    rt: &R,
    alloc: Global,
    stores: &Stores,
    reached: &[Option<Store>],
    points: &Points,
    code: &[Inst],
    workers: u32,
    gate: &G,
) -> Result<Ended, Memory>
    requires some { 1 ≤ workers }
    requires few { workers ≤ 16 }
    ensures rows { IfOk result (λ ended. All (HasRow (current reached.now stores.now.list)) ended.sums.items) }
    ensures cells { IfOk result (λ ended. AreCells (current reached.now stores.now.list) (kept_writes ended.puts)) }
    ensures used { IfOk result (EndsUsed (uses_in code.now)) }
    ensures lands { IfOk result (λ ended. WritesOneWay (uses_in code.now) → (state : FlatState) → Sees (current reached.now stores.now.list) state →
        AreNamedAt (current reached.now stores.now.list) state code.now points.now →
        (turn : Coord → Turn) → AreTurnsOf (current reached.now stores.now.list) state code.now points.now turn →
        (news : List StoreWords) → HasLanded (current reached.now stores.now.list) ended news →
        Lands (current reached.now stores.now.list) news (writes_of (map turn points.now))) }
{
    let fields = written_fields(rt, alloc, stores, reached, code, workers)?;
    let WrittenFields {
        accumulated,
        seats,
        owned,
    } = fields;
    let list = accumulated.as_slice();
    let own = owned.as_slice();
    let effort = points.len().saturating_mul(effort_of(code));
    let busy = workers_at(gate, effort, workers);
    let after = raced(
        rt, alloc, stores, reached, points, code, list, seats, own, busy, gate,
    )?;
    landed(rt, alloc, accumulated, after, workers)
}

/// The hand of all workers, after all iterations.
fn raced<R: Threads + Sync, G: Gate + Sync>(
    rt: &R,
    alloc: Global,
    stores: &Stores,
    reached: &[Option<Store>],
    points: &Points,
    code: &[Inst],
    accumulated: &[Accumulated],
    seats: Vec<AccSeat>,
    owned: &[Owned],
    workers: u32,
    gate: &G,
) -> Result<Hand, Memory>
    requires some { 1 ≤ workers }
    requires few { workers ≤ 16 }
    requires fields { HaveFields (current reached.now stores.now.list) (uses_in code.now) accumulated.now seats.items owned.now }
    ensures { IfOk result (HasRaced (current reached.now stores.now.list) code.now points.now accumulated.now) }
{
    // for the law that it ensures
    slices_partition(points.len(), workers);
    let puts = Puts::new(alloc);
    let hand = Hand { seats, puts };
    race(
        rt,
        alloc,
        stores,
        reached,
        points,
        code,
        accumulated,
        owned,
        workers,
        gate,
        0,
        workers,
        SHARE,
        false,
        hand,
    )
}

/// What the passes made of their fields, the last first, and what the hand has put.
fn landed<R: Threads + Sync>(
    rt: &R,
    alloc: Global,
    accumulated: Vec<Accumulated>,
    after: Hand,
    workers: u32,
) -> Result<Ended, Memory>
    requires seats { AreSeats accumulated.items after.seats.items }
    requires whole { AreWhole after.seats.items }
    ensures sums { IfOk result (λ ended. AddsSums accumulated.items after.seats.items [] ended.sums.items) }
    ensures puts { IfOk result (λ ended. (kept_writes ended.puts) ≡ (kept_writes after.puts)) }
{
    let Hand { seats, puts } = after;
    let mut sums = Vec::new(alloc);
    finish_all(rt, alloc, accumulated, seats, &mut sums, workers)?;
    Ok(Ended { sums, puts })
}

/// Adds what the passes made of their fields, the last first.
fn finish_all<R: Threads + Sync>(
    rt: &R,
    alloc: Global,
    accumulated: Vec<Accumulated>,
    seats: Vec<AccSeat>,
    sums: &mut Vec<Sum>,
    workers: u32,
) -> Result<(), Memory>
    requires seats { AreSeats accumulated.items seats.items }
    requires whole { AreWhole seats.items }
    ensures { OnOk result (AddsSums accumulated.items seats.items sums.old.items sums.new.items) }
{
    let mut accumulated = accumulated;
    let mut seats = seats;
    let Some(last) = accumulated.pop() else {
        return Ok(());
    };
    let Some(seat) = seats.pop() else {
        return Ok(());
    };
    let sum = finish(rt, alloc, last, seat, workers)?;
    sums.push(sum)?;
    finish_all(rt, alloc, accumulated, seats, sums, workers)
}

/// The end of a pass.
fn finish<R: Threads + Sync>(
    rt: &R,
    alloc: Global,
    it: Accumulated,
    seat: AccSeat,
    workers: u32,
) -> Result<Sum, Memory>
    requires own { IsSeatOf it.pass seat }
    requires whole { handed_of seat ≡ 16 }
    ensures layout { IfOk result (λ sum. sum.layout ≡ it.layout) }
    ensures field { IfOk result (λ sum. sum.field ≡ it.field) }
    ensures folds { IfOk result (λ sum. AreFolded (operator_of it.pass) (type_of it.pass) (old_values it.pass) (given_of seat) (concat sum.words.items)) }
{
    let Accumulated {
        layout,
        field,
        op: _op,
        ty: _ty,
        pass,
    } = it;
    let words = pass.finish_by_workers(rt, alloc, seat, workers)?;
    Ok(Sum {
        layout,
        field,
        words,
    })
}

/// Gives a field of a store its values in the first cells.
pub(crate) fn put_sum(store: &mut Store, sum: &Sum)
    requires field { sum.now.field < length store.old.shape.fields }
    requires row { IsFieldFront store.old (words_of sum.now) }
    ensures set { store.new ≡ with_row store.old sum.now.field (words_of sum.now) }
    ensures lands { (stores : List StoreWords) (base : StoreWords) (writes : List Write) →
        IsSumOf stores sum.now.layout sum.now.field (words_of sum.now) writes → slice_get stores sum.now.layout ≡ Some base → HasTree base store.old →
        ((cell : ℕ) → word_in store.old sum.now.field cell ≡ word_in base sum.now.field cell) →
        (flat : FlatLayout) → StandsFor store.old flat → AreActiveTo flat sum.now.layout sum.now.field writes →
        StandsFor store.new (landed_layout sum.now.layout store.old.shape flat (into_field sum.now.layout sum.now.field writes)) }
{
    // for the laws that they ensure
    numbering(&ONE_POINT);
    closure_closes();
    closure_members();
    cells_are_active();
    paths_tell();
    store.layout();
    let parts = sum.words.as_slice();
    are_low(parts);
    store.set_field_front(sum.field, parts);
}

/// The words of parts are below 2^32. It changes nothing.
fn are_low(parts: &[Items<u32>])
    ensures { (k : ℕ) → slice_index (concat parts.now) k < 2 ^ 32 }
{
    for part in parts {
        is_low(part.as_slice());
    }
}

/// Words are below 2^32. It does nothing.
fn is_low(words: &[u32])
    ensures { (k : ℕ) → slice_index words.now k < 2 ^ 32 }
{
    let _words = words;
}
