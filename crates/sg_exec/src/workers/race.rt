ghost use Rattle.std.specs.Prelude.{◌≡◌, ◌++◌, ◌+◌, ◌-◌, ◌/◌, ◌≤◌, ◌<◌, ℕ, length, take, drop, IfOk, OnOk, Some, slice_get};
ghost use Rattle.sg_coord.specs.declared.coord.Coord.{Coord};
ghost use Rattle.sg_exec.specs.declared.workers.state.Hand.{Hand};
ghost use Rattle.sg_exec.specs.steps.Moments.{IsOver};
ghost use Rattle.std.specs.Thread.{IsSync};
ghost use Rattle.sg_coord.specs.Slices.{slice_start};
ghost use Rattle.sg_flat.specs.declared.state.FlatState.{FlatState};
ghost use Rattle.sg_ir.specs.Named.{AreNamed};
ghost use Rattle.sg_ir.specs.Runs.{iteration};
ghost use Rattle.sg_exec.specs.Standing.{shapes_of};
ghost use Rattle.sg_accum.specs.declared.seat.AccSeat.{AccSeat};
ghost use Rattle.sg_exec.specs.steps.Machines.{seen_in, Sees, AreCells};
ghost use Rattle.sg_exec.specs.steps.Landing.{current};
ghost use Rattle.sg_exec.specs.steps.Racing.{wrote, between, ArePasses, AreSeats, HaveShares};
ghost use Rattle.sg_exec.specs.steps.Pending.{NonePending};
ghost use Rattle.sg_exec.specs.steps.Working.{HasRunAt};
ghost use Rattle.sg_exec.specs.steps.Puts.{kept_writes};

use crate::lanes::batch::{Batch, SIDE_BY_SIDE, batch_for, iterate_all};
use crate::results::contributions::{give_all, give_last, none_pending, put_all};
use crate::results::shared::{Accumulated, Owned, Pending};
use crate::workers::points::{Points, row_for};
use crate::workers::state::{Hand, both, divided, rest_of};
use sg_coord::{Coord, slice_of};
use sg_ir::Inst;
use sg_outside::{Gate, Phase};
use sg_store::{Store, Stores};
use sg_words::Memory;
use std::alloc::Global;
use std::thread::{Threads, join};

/// With fewer points than these for each worker one more thread takes longer than a wait for the thread that has forked.
const MANY_POINTS: usize = 1_024;

/// Runs the iterations of workers, from this one on, each worker in a thread of its own, side by side. With fewer points than workers the
/// last workers have none, and no thread. With many points a thread that has forked `waits`: it runs no iteration itself.
#[cycle(racing)]
pub(crate) fn race<R: Threads + Sync, G: Gate + Sync>(
    rt: &R,
    alloc: Global,
    stores: &Stores,
    reached: &[Option<Store>],
    points: &Points,
    code: &[Inst],
    accumulated: &[Accumulated],
    owned: &[Owned],
    all: u32,
    gate: &G,
    first: u32,
    workers: u32,
    share: u32,
    waits: bool,
    hand: Hand,
) -> Result<Hand, Memory>
    requires some { 1 ≤ workers }
    requires within { first + workers ≤ all }
    requires few { all ≤ 16 }
    requires passes { ArePasses (current reached.now stores.now.list) accumulated.now }
    requires seats { AreSeats accumulated.now hand.seats.items }
    requires enough { workers ≤ share }
    requires shares { HaveShares share hand.seats.items }
    requires cells { AreCells (current reached.now stores.now.list) (kept_writes hand.puts) }
    ensures seats { IfOk result (λ after. AreSeats accumulated.now after.seats.items) }
    ensures cells { IfOk result (λ after. AreCells (current reached.now stores.now.list) (kept_writes after.puts)) }
    ensures ran { IfOk result (HasRunAt (current reached.now stores.now.list) code.now points.now (between
        (slice_start (length points.now) all first) (slice_start (length points.now) all (first + workers)) points.now)
        accumulated.now owned.now hand) }
{
    if workers < 2 {
        if waits {
            return work_apart(
                rt,
                alloc,
                stores,
                reached,
                points,
                code,
                accumulated,
                owned,
                all,
                gate,
                first,
                hand,
            );
        }
        return work(
            alloc,
            stores,
            reached,
            points,
            code,
            accumulated,
            owned,
            all,
            gate,
            first,
            hand,
        );
    }
    let rest = rest_of(workers, share);
    if points.len() <= (first + (workers - rest)) as usize {
        return race(
            rt,
            alloc,
            stores,
            reached,
            points,
            code,
            accumulated,
            owned,
            all,
            gate,
            first,
            workers - rest,
            share,
            waits,
            hand,
        );
    }
    let (hand, other) = divided(alloc, stores, reached, accumulated, share, hand)?;
    let (left, right) = join(
        rt,
        move || -> Result<Hand, Memory>
            requires { IsSync R.row × IsSync G.row × (rest < workers) × (workers - rest ≤ share - share / 2) × (first + workers ≤ all) × (all ≤ 16)
                × ArePasses (current reached.now stores.now.list) accumulated.now × AreSeats accumulated.now hand.seats.items
                × HaveShares (share - share / 2) hand.seats.items × AreCells (current reached.now stores.now.list) (kept_writes hand.puts) }
            ensures { IfOk result (λ after. AreSeats accumulated.entry.now after.seats.items
                × AreCells (current reached.entry.now stores.entry.now.list) (kept_writes after.puts)
                × HasRunAt (current reached.entry.now stores.entry.now.list) code.entry.now points.entry.now (between
                (slice_start (length points.entry.now) all first) (slice_start (length points.entry.now) all (first + (workers - rest)))
                points.entry.now) accumulated.entry.now owned.entry.now hand after) }
        {
            race(
                rt,
                alloc,
                stores,
                reached,
                points,
                code,
                accumulated,
                owned,
                all,
                gate,
                first,
                workers - rest,
                share - share / 2,
                false,
                hand,
            )
        },
        move || -> Result<Hand, Memory>
            requires { IsSync R.row × IsSync G.row × (1 ≤ rest) × (rest < workers) × (rest ≤ share / 2) × (first + workers ≤ all) × (all ≤ 16)
                × ArePasses (current reached.now stores.now.list) accumulated.now × AreSeats accumulated.now other.seats.items
                × HaveShares (share / 2) other.seats.items × AreCells (current reached.now stores.now.list) (kept_writes other.puts) }
            ensures { IfOk result (λ after. AreSeats accumulated.entry.now after.seats.items
                × AreCells (current reached.entry.now stores.entry.now.list) (kept_writes after.puts)
                × HasRunAt (current reached.entry.now stores.entry.now.list) code.entry.now points.entry.now (between
                (slice_start (length points.entry.now) all (first + (workers - rest)))
                (slice_start (length points.entry.now) all (first + (workers - rest) + rest)) points.entry.now)
                accumulated.entry.now owned.entry.now other after) }
        {
            race(
                rt,
                alloc,
                stores,
                reached,
                points,
                code,
                accumulated,
                owned,
                all,
                gate,
                first + (workers - rest),
                rest,
                share / 2,
                points.len() >= MANY_POINTS.saturating_mul(all as usize),
                other,
            )
        },
    );
    both(stores, reached, accumulated, left, right)
}

/// One worker's iterations, in a thread of its own.
fn work_apart<R: Threads + Sync, G: Gate + Sync>(
    rt: &R,
    alloc: Global,
    stores: &Stores,
    reached: &[Option<Store>],
    points: &Points,
    code: &[Inst],
    accumulated: &[Accumulated],
    owned: &[Owned],
    all: u32,
    gate: &G,
    worker: u32,
    hand: Hand,
) -> Result<Hand, Memory>
    requires within { worker < all }
    requires few { all ≤ 16 }
    requires passes { ArePasses (current reached.now stores.now.list) accumulated.now }
    requires seats { AreSeats accumulated.now hand.seats.items }
    requires cells { AreCells (current reached.now stores.now.list) (kept_writes hand.puts) }
    ensures seats { IfOk result (λ after. AreSeats accumulated.now after.seats.items) }
    ensures cells { IfOk result (λ after. AreCells (current reached.now stores.now.list) (kept_writes after.puts)) }
    ensures ran { IfOk result (HasRunAt (current reached.now stores.now.list) code.now points.now (between
        (slice_start (length points.now) all worker) (slice_start (length points.now) all (worker + 1)) points.now)
        accumulated.now owned.now hand) }
{
    let (after, ()) = join(
        rt,
        move || -> Result<Hand, Memory>
            requires { IsSync G.row × (worker < all) × (all ≤ 16) × ArePasses (current reached.now stores.now.list) accumulated.now
                × AreSeats accumulated.now hand.seats.items × AreCells (current reached.now stores.now.list) (kept_writes hand.puts) }
            ensures { IfOk result (λ after. AreSeats accumulated.entry.now after.seats.items
                × AreCells (current reached.entry.now stores.entry.now.list) (kept_writes after.puts)
                × HasRunAt (current reached.entry.now stores.entry.now.list) code.entry.now points.entry.now (between
                (slice_start (length points.entry.now) all worker) (slice_start (length points.entry.now) all (worker + 1))
                points.entry.now) accumulated.entry.now owned.entry.now hand after) }
        {
            work(
                alloc,
                stores,
                reached,
                points,
                code,
                accumulated,
                owned,
                all,
                gate,
                worker,
                hand,
            )
        },
        || (),
    );
    after
}

/// One worker's iterations, in row order.
fn work<G: Gate>(
    alloc: Global,
    stores: &Stores,
    reached: &[Option<Store>],
    points: &Points,
    code: &[Inst],
    accumulated: &[Accumulated],
    owned: &[Owned],
    all: u32,
    gate: &G,
    worker: u32,
    hand: Hand,
) -> Result<Hand, Memory>
    requires within { worker < all }
    requires few { all ≤ 16 }
    requires passes { ArePasses (current reached.now stores.now.list) accumulated.now }
    requires seats { AreSeats accumulated.now hand.seats.items }
    requires cells { AreCells (current reached.now stores.now.list) (kept_writes hand.puts) }
    ensures seats { IfOk result (λ after. AreSeats accumulated.now after.seats.items) }
    ensures cells { IfOk result (λ after. AreCells (current reached.now stores.now.list) (kept_writes after.puts)) }
    ensures ran { IfOk result (HasRunAt (current reached.now stores.now.list) code.now points.now (between
        (slice_start (length points.now) all worker) (slice_start (length points.now) all (worker + 1)) points.now)
        accumulated.now owned.now hand) }
{
    let (from, to) = slice_of(points.len(), all, worker);
    let mut batch = batch_for(alloc, stores, reached)?;
    let mut row = row_for(alloc)?;
    let mut pending = none_pending(alloc, accumulated)?;
    work_all(
        stores,
        reached,
        points,
        code,
        accumulated,
        owned,
        gate,
        worker,
        from,
        to,
        &mut row,
        &mut batch,
        &mut pending,
        hand,
    )
}

/// The iterations at the points from one number up to below another, up to 32 side by side.
fn work_all<G: Gate>(
    stores: &Stores,
    reached: &[Option<Store>],
    points: &Points,
    code: &[Inst],
    accumulated: &[Accumulated],
    owned: &[Owned],
    gate: &G,
    worker: u32,
    from: usize,
    to: usize,
    row: &mut Vec<Coord>,
    batch: &mut Batch,
    pending: &mut Vec<Option<Pending>>,
    hand: Hand,
) -> Result<Hand, Memory>
    requires order { from ≤ to }
    requires within { to ≤ length points.now }
    requires over { IsOver (current reached.now stores.now.list) batch.old }
    requires none { NonePending accumulated.now pending.old.items }
    requires passes { ArePasses (current reached.now stores.now.list) accumulated.now }
    requires seats { AreSeats accumulated.now hand.seats.items }
    requires cells { AreCells (current reached.now stores.now.list) (kept_writes hand.puts) }
    ensures seats { IfOk result (λ after. AreSeats accumulated.now after.seats.items) }
    ensures cells { IfOk result (λ after. AreCells (current reached.now stores.now.list) (kept_writes after.puts)) }
    ensures ran { IfOk result (HasRunAt (current reached.now stores.now.list) code.now points.now (between from to points.now)
        accumulated.now owned.now hand) }
{
    let mut hand = hand;
    let all = to - from;
    for number in 0..all.div_ceil(SIDE_BY_SIDE) {
        let first = number * SIDE_BY_SIDE;
        let count = (all - first).min(SIDE_BY_SIDE);
        work_some(
            stores,
            reached,
            points,
            code,
            accumulated,
            owned,
            gate,
            worker,
            from,
            first,
            count,
            row,
            batch,
            pending,
            &mut hand,
        )?;
    }
    Ok(hand)
}

/// So many iterations at the worker's points from one number on, side by side. Before each one's contributions the worker passes the gate;
/// the last ones are given at the end.
fn work_some<G: Gate>(
    stores: &Stores,
    reached: &[Option<Store>],
    points: &Points,
    code: &[Inst],
    accumulated: &[Accumulated],
    owned: &[Owned],
    gate: &G,
    worker: u32,
    from: usize,
    first: usize,
    count: usize,
    row: &mut Vec<Coord>,
    batch: &mut Batch,
    pending: &mut Vec<Option<Pending>>,
    hand: &mut Hand,
) -> Result<(), Memory>
    requires few { count ≤ 32 }
    requires room { from + first + count ≤ length points.now }
    requires over { IsOver (current reached.now stores.now.list) batch.old }
    requires none { NonePending accumulated.now pending.old.items }
    requires passes { ArePasses (current reached.now stores.now.list) accumulated.now }
    requires seats { AreSeats accumulated.now hand.old.seats.items }
    requires cells { AreCells (current reached.now stores.now.list) (kept_writes hand.old.puts) }
    ensures over { IsOver (current reached.now stores.now.list) batch.new }
    ensures none { OnOk result (NonePending accumulated.now pending.new.items) }
    ensures seats { OnOk result (AreSeats accumulated.now hand.new.seats.items) }
    ensures cells { OnOk result (AreCells (current reached.now stores.now.list) (kept_writes hand.new.puts)) }
    ensures ran { OnOk result ((start : Hand) →
        HasRunAt (current reached.now stores.now.list) code.now points.now (take first (drop from points.now)) accumulated.now owned.now start hand.old →
        HasRunAt (current reached.now stores.now.list) code.now points.now (take (first + count) (drop from points.now)) accumulated.now owned.now start hand.new) }
{
    // for the bound that it ensures
    let _all = points.len();
    points.fill(from + first, count, row)?;
    iterate_all(stores, reached, batch, row.as_slice(), code)?;
    for k in 0..count {
        let turn = u32::try_from(first + k).unwrap_or(u32::MAX);
        gate.before(Phase::Values, worker, turn);
        let moment = &batch.moments[k];
        let writes = moment.cells.writes();
        give_all(
            stores,
            reached,
            accumulated,
            writes,
            pending,
            &mut hand.seats,
        );
        put_all(owned, &moment.cells, &mut hand.puts)?;
    }
    give_last(stores, reached, accumulated, pending, &mut hand.seats);
    Ok(())
}
