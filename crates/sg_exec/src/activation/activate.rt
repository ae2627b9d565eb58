//! The stores with what turns want active in them.

ghost use Rattle.std.specs.Prelude.{◌≡◌, ◌≤◌, ◌++◌, ◌∷◌, [], List, map, length, Contains, IfOk, IsTrue, OnOk, Some, unwrap_or};
ghost use Rattle.std.specs.List.{AllZip};
ghost use Rattle.sg_coord.specs.declared.coord.Coord.{Coord};
ghost use Rattle.sg_flat.specs.declared.effects.Turn.{Turn};
ghost use Rattle.sg_flat.specs.declared.state.FlatLayout.{FlatLayout};
ghost use Rattle.sg_flat.specs.declared.state.FlatState.{FlatState};
ghost use Rattle.sg_flat.specs.Effects.{writes_of};
ghost use Rattle.sg_store.specs.StoreWords.{StoreWords};
ghost use Rattle.sg_store.specs.StandsFor.{StandsFor};
ghost use Rattle.sg_store.specs.Links.{GrowsLinks};
ghost use Rattle.sg_ir.specs.Touches.{layouts_wanted};
ghost use Rattle.sg_exec.specs.Running.{turn_of};
ghost use Rattle.sg_exec.specs.Standing.{shapes_of};
ghost use Rattle.sg_exec.specs.steps.Landing.{current, CopiesInto};
ghost use Rattle.sg_exec.specs.steps.Moments.{AreNamedAt, slice_turn};
ghost use Rattle.sg_exec.specs.steps.Turning.{AreActive, IsActiveStore, AreMeant, IsMeant, MayWant, TurnsActivated, full_layout};
ghost use Rattle.sg_exec.specs.steps.Wants.{AreWants, StoreReached, AllReached};

use crate::activation::first_pass::{first_outside, first_pass};
use crate::activation::requests::LayoutWants;
use crate::activation::turns::{Turns, count_of, turns_want};
use crate::lanes::values::ONE_POINT;
use crate::workers::points::Points;
use sg_activate::{ActFault, activated, pass_gate};
use sg_coord::numbering;
use sg_flat::{RunFault, Write};
use sg_ir::Inst;
use sg_layout::{closure_members, need_grows};
use sg_outside::{FreeGate, Gate};
use sg_store::laws::{cells_are_active, live_is_need};
use sg_store::{Store, Stores};
use sg_words::{Memory, Stop};
use std::alloc::Global;
use std::thread::Threads;

/// Copies of the stores in which a slice wants what isn't active at these points, with it active; or the first want outside, or the
/// first layout that is too full. So many workers look, and activate.
pub(crate) fn activated_for_slice<R: Threads + Sync, G: Gate + Sync>(
    rt: &R,
    alloc: Global,
    stores: &Stores,
    points: &Points,
    block: &[Inst],
    workers: u32,
    gate: &G,
) -> Result<Vec<Option<Store>>, Stop<RunFault>>
    requires some { 1 ≤ workers }
    requires few { workers ≤ 16 }
    ensures ran { (state : FlatState) → AllZip StandsFor stores.now.list state.layouts →
        AreNamedAt stores.now.list state block.now points.now →
        TurnsActivated (λ copies. current copies.items stores.now.list) stores.now.list
        (map (slice_turn stores.now.list state block.now) points.now) result }
    ensures shapes { IfOk result (λ copies. shapes_of (current copies.items stores.now.list) ≡ shapes_of stores.now.list) }
    ensures room { IfOk result (λ copies. length copies.items ≡ length stores.now.list) }
    ensures links { IfOk result (λ copies. AllZip GrowsLinks stores.now.list (current copies.items stores.now.list)) }
    ensures into { IfOk result (λ copies. CopiesInto (λ layout. Contains (layouts_wanted block.now) layout) copies.items) }
{
    let active = first_pass(rt, alloc, stores, points, block, workers)?;
    let turns = Turns::Slice { points, block };
    activated_copies(rt, alloc, stores, turns, active, workers, gate)
}

/// The copies of the stores after the activation that listed writes ask for, each a turn at its own coordinate, on one worker.
pub(crate) fn activated_for_rows<R: Threads + Sync>(
    rt: &R,
    alloc: Global,
    stores: &Stores,
    rows: &[Write],
) -> Result<Vec<Option<Store>>, Stop<RunFault>>
    ensures ran { (state : FlatState) → AllZip StandsFor stores.now.list state.layouts →
        TurnsActivated (λ copies. current copies.items stores.now.list) stores.now.list (map turn_of rows.now) result }
    ensures shapes { IfOk result (λ copies. shapes_of (current copies.items stores.now.list) ≡ shapes_of stores.now.list) }
    ensures room { IfOk result (λ copies. length copies.items ≡ length stores.now.list) }
    ensures links { IfOk result (λ copies. AllZip GrowsLinks stores.now.list (current copies.items stores.now.list)) }
{
    if let Some(fault) = first_outside(stores, rows) {
        return Err(Stop::Refused(fault));
    }
    activated_copies(rt, alloc, stores, Turns::Rows(rows), false, 1, &FreeGate)
}

/// Copies of the stores in which turns want what isn't active, with it active, or the first layout that is too full. The layouts
/// into which a turn may want to write are activated in order, each by so many workers, which pass the gate. Where it is said that all
/// that the turns want is active, the workers pass the gate alone.
fn activated_copies<R: Threads + Sync, G: Gate + Sync>(
    rt: &R,
    alloc: Global,
    stores: &Stores,
    turns: Turns,
    active: bool,
    workers: u32,
    gate: &G,
) -> Result<Vec<Option<Store>>, Stop<RunFault>>
    requires some { 1 ≤ workers }
    requires few { workers ≤ 16 }
    requires active { IsTrue active → AreActive stores.now.list turns }
    ensures reached { (wants : List (List Coord)) → AreMeant stores.now.list turns.entry wants →
        (flats : List FlatLayout) (made : List Turn) → AllZip StandsFor stores.now.list flats →
        AreWants flats wants (writes_of made) →
        AllReached (λ copies. current copies.items stores.now.list) (shapes_of stores.now.list) flats made result }
    ensures shapes { IfOk result (λ copies. shapes_of (current copies.items stores.now.list) ≡ shapes_of stores.now.list) }
    ensures room { IfOk result (λ copies. length copies.items ≡ length stores.now.list) }
    ensures links { IfOk result (λ copies. AllZip GrowsLinks stores.now.list (current copies.items stores.now.list)) }
    ensures into { IfOk result (λ copies. CopiesInto (MayWant turns.entry) copies.items) }
{
    let mut copies = Vec::new(alloc);
    // for the laws that they ensure
    closure_members();
    need_grows();
    let list = stores.list.as_slice();
    for number in 0..list.len() {
        let copy = store_activated(
            rt,
            alloc,
            number,
            stores,
            &list[number],
            turns,
            active,
            workers,
            gate,
        )?;
        add_copy(&mut copies, copy)?;
    }
    Ok(copies)
}

fn add_copy(copies: &mut Vec<Option<Store>>, copy: Option<Store>) -> Result<(), Memory>
    ensures { OnOk result (copies.new.items ≡ copies.old.items ++ copy ∷ []) }
{
    copies.push(copy)?;
    Ok(())
}

/// A copy of the store with a number with what turns want active; none if all of it is active already, as may be said.
fn store_activated<R: Threads + Sync, G: Gate + Sync>(
    rt: &R,
    alloc: Global,
    number: usize,
    stores: &Stores,
    store: &Store,
    turns: Turns,
    active: bool,
    workers: u32,
    gate: &G,
) -> Result<Option<Store>, Stop<RunFault>>
    requires some { 1 ≤ workers }
    requires few { workers ≤ 16 }
    requires active { IsTrue active → IsActiveStore stores.now.list turns number store.now }
    ensures reached { (wanted : List Coord) → IsMeant stores.now.list turns.entry number store.now wanted → (flat : FlatLayout) → StandsFor store.now flat →
        StoreReached (λ copy. unwrap_or copy store.now) number store.now.shape flat wanted result }
    ensures shape { IfOk result (λ copy. (unwrap_or copy store.now).shape ≡ store.now.shape) }
    ensures links { IfOk result (λ copy. GrowsLinks store.now (unwrap_or copy store.now)) }
    ensures into { IfOk result (λ copy. (made : StoreWords) → copy ≡ Some made → MayWant turns.entry number) }
{
    // for the laws that they ensure
    live_is_need();
    cells_are_active();
    closure_members();
    need_grows();
    numbering(&ONE_POINT);
    store.layout();
    let layout = word(number)?;
    let count = word(count_of(turns))?;
    if !turns_want(turns, layout) {
        return Ok(None);
    }
    if active {
        pass_gate(rt, count, workers, gate);
        return Ok(None);
    }
    let want = LayoutWants {
        stores,
        turns,
        count,
        layout,
        extents: store.layout().extents(),
    };
    match activated(rt, alloc, store, &want, workers, gate) {
        Ok(copy) => Ok(copy),
        Err(Stop::Memory) => Err(Stop::Memory),
        Err(Stop::Refused(fault)) => Err(Stop::Refused(full_layout(layout, fault))),
    }
}

/// A number as a word. One past 32 bits can't come: a box has fewer points, and no memory has room for so many layouts or rows.
fn word(number: usize) -> Result<u32, Memory>
    ensures { IfOk result (λ word. word ≡ number) }
{
    u32::try_from(number).map_err(|_| Memory)
}

/// The fault of a layout whose activation was refused.
fn full_layout(layout: u32, fault: ActFault) -> RunFault
    ensures { result ≡ full_layout layout fault }
{
    match fault {
        ActFault::PoolFull { node, cap } => RunFault::PoolFull { layout, node, cap },
    }
}
