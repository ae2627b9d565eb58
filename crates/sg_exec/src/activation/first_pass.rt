//! The first write outside the extents of its layout, and whether all that is wanted is active.

ghost use Rattle.std.specs.Prelude.{◌≡◌, ◌-◌, ◌≤◌, true, All, Ok, IfOk, IfSome, IsTrue, Some, length, map, slice_get};
ghost use Rattle.std.specs.Thread.{IsSync};
ghost use Rattle.sg_flat.specs.Kernel.{is_inside_of, outside_among, first_outside};
ghost use Rattle.sg_exec.specs.Running.{turn_of};
ghost use Rattle.sg_exec.specs.Standing.{shapes_of};
ghost use Rattle.sg_exec.specs.steps.Moments.{IsOver};
ghost use Rattle.sg_exec.specs.steps.Racing.{between};
ghost use Rattle.sg_exec.specs.steps.Turning.{SliceTells, IsActive, IsActiveAt, in_both};

use crate::activation::alike::block_reads_point;
use crate::activation::limits::{block_strays, limits_of, starts_limited};
use crate::activation::turns::block_seeks;
use crate::lanes::batch::{Batch, SIDE_BY_SIDE, batch_for, iterate_all};
use crate::workers::effort::effort_of;
use crate::workers::points::{Points, row_for};
use sg_activate::workers_for;
use sg_coord::{Coord, inside};
use sg_flat::{RunFault, Write};
use sg_ir::Inst;
use sg_store::Stores;
use sg_words::{Memory, Stop};
use std::alloc::Global;
use std::thread::{Threads, join};

/// Refuses where a slice wants a coordinate outside at one of these points, with the fault of the first. Else it tells whether all that the
/// slice wants there is active. A slice isn't run if its text tells that it wants nothing, or nothing that can be outside or inactive. One that
/// wants the same at all points is run at the first; any other by as many of the workers as have enough to do.
pub(crate) fn first_pass<R: Threads + Sync>(
    rt: &R,
    alloc: Global,
    stores: &Stores,
    points: &Points,
    block: &[Inst],
    workers: u32,
) -> Result<bool, Stop<RunFault>>
    requires some { 1 ≤ workers }
    ensures { SliceTells stores.now.list block.now points.now result }
{
    if block_seeks(block) {
        return look(rt, alloc, stores, points, block, workers);
    }
    Ok(true)
}

/// The same of a slice in which an instruction may want.
fn look<R: Threads + Sync>(
    rt: &R,
    alloc: Global,
    stores: &Stores,
    points: &Points,
    block: &[Inst],
    workers: u32,
) -> Result<bool, Stop<RunFault>>
    requires some { 1 ≤ workers }
    ensures { SliceTells stores.now.list block.now points.now result }
{
    let idle = wants_idle(alloc, stores, points, block)?;
    if idle {
        return Ok(true);
    }
    let all = points.len();
    if block_reads_point(block) {
        let busy = workers_for(all.saturating_mul(effort_of(block)), workers);
        return no_want_outside(rt, alloc, stores, points, 0, all, block, busy, false);
    }
    no_want_outside_here(alloc, stores, points, 0, one_of(all), block)
}

/// One of so many, or none if there is none.
fn one_of(all: usize) -> usize
    ensures one { result ≤ 1 }
    ensures within { result ≤ all }
    ensures some { 1 ≤ all → 1 ≤ result }
{
    if all == 0 { 0 } else { 1 }
}

/// Whether by the text of a slice all that it wants at these points is inside layouts of dense nodes, where everything is active.
fn wants_idle(
    alloc: Global,
    stores: &Stores,
    points: &Points,
    block: &[Inst],
) -> Result<bool, Memory>
    ensures { IfOk result (λ idle. IsTrue idle → SliceTells stores.now.list block.now points.now (Ok true)) }
{
    let Some(most) = points.most() else {
        return Ok(false);
    };
    let limits = limits_of(alloc, most, block)?;
    if block_strays(stores, &limits, block) {
        return Ok(false);
    }
    Ok(starts_limited(&limits, most))
}

/// What the first pass tells of any slice, at the points from one number up to below another. The workers run it each at a part of them;
/// what the left half finds stands before what the right half finds. A thread that has forked `waits`: it runs the slice at no point itself.
fn no_want_outside<R: Threads + Sync>(
    rt: &R,
    alloc: Global,
    stores: &Stores,
    points: &Points,
    from: usize,
    to: usize,
    block: &[Inst],
    workers: u32,
    waits: bool,
) -> Result<bool, Stop<RunFault>>
    requires some { 1 ≤ workers }
    requires order { from ≤ to }
    requires within { to ≤ length points.now }
    ensures { SliceTells stores.now.list block.now (between from to points.now) result }
{
    if workers < 2 {
        if waits {
            return no_want_outside_apart(rt, alloc, stores, points, from, to, block);
        }
        return no_want_outside_here(alloc, stores, points, from, to, block);
    }
    let half = workers / 2;
    let mid = from + (to - from) / 2;
    let (first, second) = join(
        rt,
        move || -> Result<bool, Stop<RunFault>>
            requires { IsSync R.row × (1 ≤ workers - half) × (from ≤ mid) × (mid ≤ length points.now) }
            ensures { SliceTells stores.entry.now.list block.entry.now (between from mid points.entry.now) result }
        {
            no_want_outside(
                rt,
                alloc,
                stores,
                points,
                from,
                mid,
                block,
                workers - half,
                false,
            )
        },
        move || -> Result<bool, Stop<RunFault>>
            requires { IsSync R.row × (1 ≤ half) × (mid ≤ to) × (to ≤ length points.now) }
            ensures { SliceTells stores.entry.now.list block.entry.now (between mid to points.entry.now) result }
        { no_want_outside(rt, alloc, stores, points, mid, to, block, half, true) },
    );
    match first {
        Ok(active) => in_both(active, second),
        Err(why) => Err(why),
    }
}

/// What is told where the left half has no want outside: the fault of the right half, or whether all is active in both.
fn in_both(active: bool, second: Result<bool, Stop<RunFault>>) -> Result<bool, Stop<RunFault>>
    ensures { result ≡ in_both active second }
{
    match second {
        Ok(others) => Ok(active && others),
        Err(why) => Err(why),
    }
}

/// What the first pass tells, by one worker in a thread of its own.
fn no_want_outside_apart<R: Threads + Sync>(
    rt: &R,
    alloc: Global,
    stores: &Stores,
    points: &Points,
    from: usize,
    to: usize,
    block: &[Inst],
) -> Result<bool, Stop<RunFault>>
    requires order { from ≤ to }
    requires within { to ≤ length points.now }
    ensures { SliceTells stores.now.list block.now (between from to points.now) result }
{
    let (tells, ()) = join(
        rt,
        move || -> Result<bool, Stop<RunFault>>
            requires { (from ≤ to) × (to ≤ length points.now) }
            ensures { SliceTells stores.entry.now.list block.entry.now (between from to points.entry.now) result }
        { no_want_outside_here(alloc, stores, points, from, to, block) },
        || (),
    );
    tells
}

/// What the first pass tells, by one worker, which runs the slice at several points side by side.
fn no_want_outside_here(
    alloc: Global,
    stores: &Stores,
    points: &Points,
    from: usize,
    to: usize,
    block: &[Inst],
) -> Result<bool, Stop<RunFault>>
    requires order { from ≤ to }
    requires within { to ≤ length points.now }
    ensures { SliceTells stores.now.list block.now (between from to points.now) result }
{
    let mut batch = batch_for(alloc, stores, &[])?;
    let mut row = row_for(alloc)?;
    let mut active = true;
    let mut last = None;
    let all = to - from;
    for number in 0..all.div_ceil(SIDE_BY_SIDE) {
        let first = number * SIDE_BY_SIDE;
        let count = (all - first).min(SIDE_BY_SIDE);
        points.fill(from + first, count, &mut row)?;
        let some = row.as_slice();
        active = no_want_outside_among(stores, &mut batch, some, block, active, &mut last)?;
    }
    Ok(active)
}

/// What the first pass tells of up to 32 points, if it is known whether all was active so far.
fn no_want_outside_among(
    stores: &Stores,
    batch: &mut Batch,
    points: &[Coord],
    block: &[Inst],
    active: bool,
    last: &mut Option<(u32, Coord)>,
) -> Result<bool, Stop<RunFault>>
    requires few { length points.now ≤ 32 }
    requires over { IsOver stores.now.list batch.old }
    requires last { IfSome last.old (λ it. IsActiveAt stores.now.list it.0 it.1) }
    ensures over { IsOver stores.now.list batch.new }
    ensures last { IfSome last.new (λ it. IsActiveAt stores.now.list it.0 it.1) }
    ensures so_far { IfOk result (λ all. IsTrue all → IsTrue active) }
    ensures told { SliceTells stores.now.list block.now points.now result }
{
    iterate_all(stores, &[], batch, points, block)?;
    let mut all = active;
    for k in 0..points.len() {
        let wants = batch.moments[k].wants.as_slice();
        if let Some(fault) = outside_among(stores, points[k], wants, last) {
            return Err(Stop::Refused(fault));
        }
        all = are_active(stores, wants, all, last);
    }
    Ok(all)
}

/// Whether all was active so far, and each of these writes is at a coordinate that is active in its layout's store. The coordinate that was
/// looked for last, with its layout, isn't looked for again.
#[inline(always)]
fn are_active(
    stores: &Stores,
    writes: &[Write],
    active: bool,
    last: &mut Option<(u32, Coord)>,
) -> bool
    requires last { IfSome last.old (λ it. IsActiveAt stores.now.list it.0 it.1) }
    ensures last { IfSome last.new (λ it. IsActiveAt stores.now.list it.0 it.1) }
    ensures so_far { IsTrue result → IsTrue active }
    ensures active { IsTrue result → All (IsActive stores.now.list) writes.now }
{
    if !active {
        return false;
    }
    for write in writes {
        if !is_active(stores, write.layout, write.at, last) {
            return false;
        }
    }
    true
}

/// Whether a coordinate is active in a layout's store.
#[inline(always)]
fn is_active(stores: &Stores, layout: u32, at: Coord, last: &mut Option<(u32, Coord)>) -> bool
    requires last { IfSome last.old (λ it. IsActiveAt stores.now.list it.0 it.1) }
    ensures last { IfSome last.new (λ it. IsActiveAt stores.now.list it.0 it.1) }
    ensures active { IsTrue result → IsActiveAt stores.now.list layout at }
{
    if is_last(last, layout, at) {
        return true;
    }
    if !has_cell(stores, layout, at) {
        return false;
    }
    *last = Some((layout, at));
    true
}

/// Whether this coordinate of this layout is the one that was looked for last.
#[inline(always)]
fn is_last(last: &Option<(u32, Coord)>, layout: u32, at: Coord) -> bool
    ensures { IsTrue result → last.now ≡ Some (layout, at) }
{
    match last {
        Some(other) => *other == (layout, at),
        None => false,
    }
}

/// Whether a coordinate has a cell in a layout's store.
#[inline(always)]
fn has_cell(stores: &Stores, layout: u32, at: Coord) -> bool
    ensures { IsTrue result → IsActiveAt stores.now.list layout at }
{
    match stores.list.get(layout as usize) {
        Some(store) => store.cell_of(at).is_some(),
        None => false,
    }
}

/// The fault of the first of listed writes that is outside, each a turn of its own.
pub(crate) fn first_outside(stores: &Stores, rows: &[Write]) -> Option<RunFault>
    ensures { result ≡ first_outside (shapes_of stores.now.list) (map turn_of rows.now) }
{
    for row in rows {
        if let Some(fault) = outside_among(stores, row.at, &[*row], &None) {
            return Some(fault);
        }
    }
    None
}

/// The fault of the first write outside of one turn.
#[inline(always)]
fn outside_among(
    stores: &Stores,
    at: Coord,
    writes: &[Write],
    last: &Option<(u32, Coord)>,
) -> Option<RunFault>
    requires last { IfSome last.now (λ it. IsActiveAt stores.now.list it.0 it.1) }
    ensures { result ≡ outside_among (shapes_of stores.now.list) at writes.now }
{
    for write in writes {
        if !is_within(stores, write.layout, write.at, last) {
            return Some(RunFault::WriteOutside {
                stmt: write.stmt,
                at,
            });
        }
    }
    None
}

/// Whether a coordinate is inside the extents of a layout. The one that was found active last is.
#[inline(always)]
fn is_within(stores: &Stores, layout: u32, at: Coord, last: &Option<(u32, Coord)>) -> bool
    requires last { IfSome last.now (λ it. IsActiveAt stores.now.list it.0 it.1) }
    ensures { result ≡ is_inside_of (slice_get (shapes_of stores.now.list) layout) at }
{
    if is_last(last, layout, at) {
        return true;
    }
    is_inside(stores, layout, at)
}

/// Whether a coordinate is inside the extents of a layout.
#[inline(always)]
fn is_inside(stores: &Stores, layout: u32, at: Coord) -> bool
    ensures { result ≡ is_inside_of (slice_get (shapes_of stores.now.list) layout) at }
{
    match stores.list.get(layout as usize) {
        Some(store) => inside(&store.layout().extents(), at),
        None => false,
    }
}
