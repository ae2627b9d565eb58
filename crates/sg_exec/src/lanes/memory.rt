//! Places and reads, in some columns.

ghost use Rattle.std.specs.Prelude.{◌≡◌, ◌<◌, ◌≤◌, ◌+◌, ◌*◌, ◌==◌, None, true, not, length, IfSome};
ghost use Rattle.std.specs.List.{AllZip};
ghost use Rattle.sg_flat.specs.declared.state.FlatState.{FlatState};
ghost use Rattle.sg_flat.specs.State.{value_of};
ghost use Rattle.sg_store.specs.StandsFor.{StandsFor};
ghost use Rattle.sg_ir.specs.declared.code.Inst.TheVariants as v;
ghost use Rattle.sg_ir.specs.Runs.{does, set_place, down};
ghost use Rattle.sg_exec.specs.Standing.{shapes_of};
ghost use Rattle.sg_exec.specs.steps.Rows.{item_in, On, IsPut};
ghost use Rattle.sg_exec.specs.steps.Machines.{IsStoreOf};
ghost use Rattle.sg_exec.specs.steps.Written.{own_write, last_or};
ghost use Rattle.sg_exec.specs.steps.Moments.{AllMove, IsOver};
ghost use Rattle.sg_exec.specs.steps.Accessing.{AreCellsOver, TellsActive, IsOwnValue, IsValueAt};

use crate::lanes::batch::Batch;
use crate::lanes::columns::Columns;
use crate::lanes::effects::find_cells;
use crate::lanes::known::Known;
use crate::lanes::moment::Moment;
use crate::lanes::places::Places;
use crate::lanes::row::put_row;
use std::simd::prelude::*;

/// A layout's root.
#[inline(never)]
pub(crate) fn roots(batch: &mut Batch, columns: &Columns, to: u32, layout: u32)
    ensures { AllMove (λ seen. does seen (v.Root to layout)) (On columns.now.on) batch.old batch.new }
{
    if batch.has_places(to, to) {
        let rooted = batch.places.root(columns, to, layout);
        if !rooted {
            batch.lacks = true;
        }
    }
}

/// A place, or none if a register's word isn't on an axis.
#[inline(never)]
pub(crate) fn checks(
    batch: &mut Batch,
    columns: &Columns,
    to: u32,
    place: u32,
    axis: u32,
    extent: u32,
    index: u32,
)
    ensures { AllMove (λ seen. does seen (v.Check to place axis extent index)) (On columns.now.on) batch.old batch.new }
{
    let _axis = axis;
    if batch.has_regs(index, index, index) && batch.has_places(to, place) {
        batch
            .places
            .check(columns, to, place, extent, batch.regs.as_slice(), index);
    }
}

/// One step down.
#[inline(never)]
pub(crate) fn steps(
    batch: &mut Batch,
    columns: &Columns,
    to: u32,
    place: u32,
    node: u32,
    offset: u32,
)
    ensures { AllMove (λ seen now. set_place to (now.roots place) (down seen.shapes node (now.regs offset) (now.places place)) now) (On columns.now.on) batch.old batch.new }
{
    if batch.has_regs(offset, offset, offset) && batch.has_places(to, place) {
        batch
            .places
            .step(columns, to, place, node, batch.regs.as_slice(), offset);
    }
}

/// Registers become the values of a field at places.
#[inline(never)]
pub(crate) fn reads(
    batch: &mut Batch,
    columns: &Columns,
    to: u32,
    place: u32,
    layout: u32,
    field: u32,
    index: &[u32],
)
    ensures { AllMove (λ seen. does seen (v.ReadCell to place layout field index.now)) (On columns.now.on) batch.old batch.new }
{
    let (_layout, _index) = (layout, index);
    if batch.has_regs(to, to, to) && batch.has_places(place, place) {
        put_values(
            &batch.places,
            batch.regs.as_mut_slice(),
            columns,
            to,
            place,
            field,
        );
    }
}

/// In these columns a register becomes the value of a field at a place.
#[inline(always)]
fn put_values(places: &Places, regs: &mut [u32], columns: &Columns, to: u32, place: u32, field: u32)
    requires to { to * 32 + 32 ≤ length regs.old }
    requires place { place * 32 + 32 ≤ length places.now.list }
    ensures { IsPut (λ k. IsValueAt places.now.stores (item_in places.now.list None k place) field) (On columns.now.on) to 0 regs.old regs.new }
{
    put_row(regs, columns, to, places.values(columns, place, field));
}

/// Registers tell whether places are active.
#[inline(never)]
pub(crate) fn asks(batch: &mut Batch, columns: &Columns, to: u32, place: u32, index: &[u32])
    ensures { AllMove (λ seen. does seen (v.IsActive to place index.now)) (On columns.now.on) batch.old batch.new }
{
    let _index = index;
    if batch.has_regs(to, to, to) && batch.has_places(place, place) {
        put_active(&batch.places, batch.regs.as_mut_slice(), columns, to, place);
    }
}

/// In these columns a register tells whether a place is active.
#[inline(always)]
fn put_active(places: &Places, regs: &mut [u32], columns: &Columns, to: u32, place: u32)
    requires to { to * 32 + 32 ≤ length regs.old }
    requires place { place * 32 + 32 ≤ length places.now.list }
    ensures { IsPut (λ k. TellsActive places.now.stores (item_in places.now.list None k place)) (On columns.now.on) to 0 regs.old regs.new }
{
    put_row(regs, columns, to, places.active(columns, place));
}

/// Registers become the values of a field in the iterations' own cells: the last own value, or else the state's value.
#[inline(never)]
pub(crate) fn own_reads(batch: &mut Batch, columns: &Columns, to: u32, layout: u32, field: u32)
    requires room { 32 ≤ length batch.old.moments.items }
    requires over { IsOver batch.old.places.stores batch.old }
    ensures { AllMove (λ seen. does seen (v.OwnRead to layout field)) (On columns.now.on) batch.old batch.new }
{
    if batch.has_regs(to, to, to) {
        put_own_values(
            &batch.places,
            batch.moments.as_mut_slice(),
            batch.regs.as_mut_slice(),
            columns,
            to,
            layout,
            field,
        );
    }
}

/// In these columns a register becomes the value of a field in the iteration's own cell.
#[inline(always)]
fn put_own_values(
    places: &Places,
    moments: &mut [Moment],
    regs: &mut [u32],
    columns: &Columns,
    to: u32,
    layout: u32,
    field: u32,
)
    requires room { 32 ≤ length moments.old }
    requires to { to * 32 + 32 ≤ length regs.old }
    requires over { AreCellsOver places.now.stores moments.old }
    ensures same { moments.new ≡ moments.old }
    ensures put { IsPut (IsOwnValue places.now.stores moments.old layout field) (On columns.now.on) to 0 regs.old regs.new }
{
    find_cells(places, moments, columns, layout);
    let known = places.store_of(layout);
    let lanes = columns.on.to_array();
    let mut words = [0; 32];
    for k in 0..32 {
        let moment = &mut moments[k];
        words[k] = own_value_if(moment, lanes[k], known, layout, field);
    }
    put_row(regs, columns, to, u32x32::from_array(words));
}

/// The value of a field in a moment's own cell, and 0 if the lane is 0.
#[inline(always)]
fn own_value_if(
    moment: &mut Moment,
    lane: u32,
    known: Option<Known>,
    layout: u32,
    field: u32,
) -> u32
    requires known { IfSome known (λ known. IsStoreOf moment.old.cells.stores known.layout known.store.now) }
    ensures value { not (lane == 0) ≡ true → (state : FlatState) → AllZip StandsFor moment.old.cells.stores state.layouts →
        result ≡ last_or (own_write layout field moment.old.cells.writes) (value_of (shapes_of moment.old.cells.stores) state layout field moment.old.cells.at) }
    ensures stays { moment.new ≡ moment.old }
{
    if lane == 0 {
        0
    } else {
        moment.cells.own_value(known, layout, field)
    }
}
