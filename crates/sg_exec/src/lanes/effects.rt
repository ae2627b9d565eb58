//! Own writes, contributions and wants, in some columns.

ghost use Rattle.std.specs.Prelude.{◌≡◌, ◌<◌, ◌≤◌, ◌+◌, ◌*◌, ◌==◌, ℕ, None, true, not, length, get_or, map, IfSome, IsTrue};
ghost use Rattle.sg_ir.specs.declared.code.Inst.TheVariants as v;
ghost use Rattle.sg_ir.specs.Runs.{does};
ghost use Rattle.sg_exec.specs.steps.Rows.{item_in, On};
ghost use Rattle.sg_exec.specs.steps.Machines.{coord_from, IsCellOf, IsStoreOf};
ghost use Rattle.sg_exec.specs.steps.Moments.{AllMove, IsOver};
ghost use Rattle.sg_exec.specs.steps.Accessing.{own_write_at, coord_in, AreCellsOver, AreMade, IsCellAt, IsContributed, IsWanted, IsWritten, KeepStores};

use crate::lanes::batch::Batch;
use crate::lanes::columns::{Columns, has_several};
use crate::lanes::known::Known;
use crate::lanes::moment::Moment;
use crate::lanes::places::Places;
use crate::lanes::row::row_or_zero;
use sg_coord::Coord;
use sg_words::AccOp;
use std::simd::prelude::*;

/// Own writes.
#[inline(never)]
pub(crate) fn own_writes(
    batch: &mut Batch,
    columns: &Columns,
    layout: u32,
    field: u32,
    from: u32,
    stmt: u32,
)
    requires room { 32 ≤ length batch.old.moments.items }
    requires over { IsOver batch.old.places.stores batch.old }
    ensures { AllMove (λ seen. does seen (v.OwnWrite layout field from stmt)) (On columns.now.on) batch.old batch.new }
{
    let _stmt = stmt;
    if batch.has_regs(from, from, from) {
        let wrote = add_own_writes(
            &batch.places,
            batch.moments.as_mut_slice(),
            batch.regs.as_slice(),
            columns,
            layout,
            field,
            from,
        );
        if !wrote {
            batch.lacks = true;
        }
    }
}

/// Own writes, each in the iteration's own cell. False if memory runs out.
#[inline(always)]
fn add_own_writes(
    places: &Places,
    moments: &mut [Moment],
    regs: &[u32],
    columns: &Columns,
    layout: u32,
    field: u32,
    from: u32,
) -> bool
    requires room { 32 ≤ length moments.old }
    requires from { from * 32 + 32 ≤ length regs.now }
    requires over { AreCellsOver places.now.stores moments.old }
    ensures stores { KeepStores moments.old moments.new }
    ensures made { IsTrue result → AreMade (λ k before. IsWritten (own_write_at layout field (item_in regs.now 0 k from) before) before)
        (On columns.now.on) moments.old moments.new }
{
    find_cells(places, moments, columns, layout);
    write_all(moments, regs, columns, layout, field, from)
}

/// Looks for the own cells of the iterations of some columns in a layout's store, if there are several and cells may follow one another.
#[inline(always)]
pub(crate) fn find_cells(places: &Places, moments: &mut [Moment], columns: &Columns, layout: u32)
    requires room { 32 ≤ length moments.old }
    requires over { AreCellsOver places.now.stores moments.old }
    ensures { moments.new ≡ moments.old }
{
    if has_several(columns) && places.may_follow(layout) {
        find_each(places, moments, columns, layout);
    }
}

/// Looks for the own cells of the iterations of some columns in a layout's store, each by the one before where it follows that.
fn find_each(places: &Places, moments: &mut [Moment], columns: &Columns, layout: u32)
    requires room { 32 ≤ length moments.old }
    requires over { AreCellsOver places.now.stores moments.old }
    ensures { moments.new ≡ moments.old }
{
    let _places = places;
    let lanes = columns.on.to_array();
    let mut near = None;
    for k in 0..32 {
        let moment = &mut moments[k];
        near = moment.find_if(lanes[k], layout, near);
    }
}

/// Own writes, where their cells are at hand. False if memory runs out.
#[inline(always)]
fn write_all(
    moments: &mut [Moment],
    regs: &[u32],
    columns: &Columns,
    layout: u32,
    field: u32,
    from: u32,
) -> bool
    requires room { 32 ≤ length moments.old }
    requires from { from * 32 + 32 ≤ length regs.now }
    ensures stores { KeepStores moments.old moments.new }
    ensures made { IsTrue result → AreMade (λ k before. IsWritten (own_write_at layout field (item_in regs.now 0 k from) before) before)
        (On columns.now.on) moments.old moments.new }
{
    let lanes = columns.on.to_array();
    for k in 0..32 {
        let moment = &mut moments[k];
        if !moment.own_write_if(lanes[k], layout, field, regs[from as usize * 32 + k]) {
            return false;
        }
    }
    true
}

/// Contributions, each in the cell of its place.
#[inline(never)]
pub(crate) fn contributions(
    batch: &mut Batch,
    columns: &Columns,
    op: AccOp,
    layout: u32,
    field: u32,
    place: u32,
    from: u32,
    index: &[u32],
    stmt: u32,
)
    requires room { 32 ≤ length batch.old.moments.items }
    requires over { IsOver batch.old.places.stores batch.old }
    ensures { AllMove (λ seen. does seen (v.Acc op layout field place from index.now stmt)) (On columns.now.on) batch.old batch.new }
{
    let (_index, _stmt) = (index, stmt);
    if batch.has_regs(from, from, from) && batch.has_places(place, place) {
        let wrote = add_contributions(
            batch.moments.as_mut_slice(),
            &batch.places,
            batch.regs.as_slice(),
            columns,
            op,
            layout,
            field,
            place,
            from,
        );
        if !wrote {
            batch.lacks = true;
        }
    }
}

/// Contributions, each in the cell of its place. False if memory runs out.
#[inline(always)]
fn add_contributions(
    moments: &mut [Moment],
    places: &Places,
    regs: &[u32],
    columns: &Columns,
    op: AccOp,
    layout: u32,
    field: u32,
    place: u32,
    from: u32,
) -> bool
    requires room { 32 ≤ length moments.old }
    requires place { place * 32 + 32 ≤ length places.now.list }
    requires from { from * 32 + 32 ≤ length regs.now }
    requires over { AreCellsOver places.now.stores moments.old }
    ensures stores { KeepStores moments.old moments.new }
    ensures made { IsTrue result → AreMade (λ k. IsContributed places.now.stores (item_in places.now.list None k place) op layout field (item_in regs.now 0 k from))
        (On columns.now.on) moments.old moments.new }
{
    let known = places.store_of(layout);
    let lanes = columns.on.to_array();
    for k in 0..32 {
        let moment = &mut moments[k];
        if !moment.contribute_if(
            lanes[k],
            op,
            layout,
            field,
            cell_if(places, lanes[k], known, place, k, layout),
            regs[from as usize * 32 + k],
        ) {
            return false;
        }
    }
    true
}

/// The cell of a place of a column in a layout's store, and none if the lane is 0.
#[inline(always)]
fn cell_if(
    places: &Places,
    lane: u32,
    known: Option<Known>,
    place: u32,
    k: usize,
    layout: u32,
) -> Option<u32>
    requires place { place * 32 + 32 ≤ length places.now.list }
    requires column { k < 32 }
    requires known { IfSome known (λ known. IsStoreOf places.now.stores known.layout known.store.now) }
    ensures reached { IfSome result (IsCellOf places.now.stores layout) }
    ensures cell { not (lane == 0) ≡ true → IsCellAt places.now.stores layout (item_in places.now.list None k place) result }
{
    if lane == 0 {
        None
    } else {
        places.cell(known, place, k, layout)
    }
}

/// Wanted coordinates.
#[inline(never)]
pub(crate) fn wants(batch: &mut Batch, columns: &Columns, layout: u32, index: &[u32], stmt: u32)
    requires room { 32 ≤ length batch.old.moments.items }
    ensures { AllMove (λ seen. does seen (v.Want layout index.now stmt)) (On columns.now.on) batch.old batch.new }
{
    let wanted = add_wants(
        batch.moments.as_mut_slice(),
        batch.regs.as_slice(),
        columns,
        layout,
        index,
        stmt,
    );
    if !wanted {
        batch.lacks = true;
    }
}

/// Wanted coordinates. False if memory runs out.
#[inline(always)]
fn add_wants(
    moments: &mut [Moment],
    regs: &[u32],
    columns: &Columns,
    layout: u32,
    index: &[u32],
    stmt: u32,
) -> bool
    requires room { 32 ≤ length moments.old }
    ensures stores { KeepStores moments.old moments.new }
    ensures made { IsTrue result → AreMade (λ k. IsWanted (record { layout = layout; stmt = stmt; at = coord_in regs.now k index.now }))
        (On columns.now.on) moments.old moments.new }
{
    let Some(n) = part_count(index.len()) else {
        return false;
    };
    let lanes = columns.on.to_array();
    let first = part_row(regs, index, 0).to_array();
    let second = part_row(regs, index, 1).to_array();
    let third = part_row(regs, index, 2).to_array();
    for k in 0..32 {
        let moment = &mut moments[k];
        let at = coord_from(n, first[k], second[k], third[k]);
        if !moment.want_if(lanes[k], layout, at, stmt) {
            return false;
        }
    }
    true
}

/// The row of the index register for an axis, and zeros past the last.
#[inline(always)]
fn part_row(regs: &[u32], index: &[u32], axis: usize) -> u32x32
    ensures { (k : ℕ) → k < 32 → get_or result k 0 ≡ get_or (map (item_in regs.now 0 k) index.now) axis 0 }
{
    match index.get(axis) {
        Some(reg) => row_or_zero(regs, *reg),
        None => u32x32::splat(0),
    }
}

/// How many parts a coordinate has. There are never 2^32, which no memory has room for.
#[inline(always)]
fn part_count(parts: usize) -> Option<u32>
    ensures { IfSome result (λ n. n ≡ parts) }
{
    match u32::try_from(parts) {
        Ok(n) => Some(n),
        Err(_) => None,
    }
}

/// The coordinate with these words as its parts.
#[inline(always)]
fn coord_from(n: u32, a: u32, b: u32, c: u32) -> Coord
    ensures { result ≡ coord_from n a b c }
{
    Coord {
        n,
        a: a.cast_signed(),
        b: b.cast_signed(),
        c: c.cast_signed(),
    }
}
