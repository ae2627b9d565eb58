ghost use Rattle.std.specs.Prelude.{◌≡◌, ◌<◌, ◌≤◌, [], All, length, IfOk, OnErr, vec_capacity};
ghost use Rattle.std.specs.List.{AllZip};
ghost use Rattle.sg_flat.specs.declared.state.FlatState.{FlatState};
ghost use Rattle.sg_store.specs.StandsFor.{StandsFor};
ghost use Rattle.sg_store.specs.Links.{GrowsLinks};
ghost use Rattle.sg_exec.specs.Standing.{shapes_of, StandForState};
ghost use Rattle.sg_exec.specs.Running.{IsRunnable, Ran, run_meaning, load_meaning};
ghost use Rattle.sg_exec.specs.Runs.{IsShortRun, writes_of_runs};
ghost use Rattle.sg_exec.specs.Preparing.{IsMadeFor, Prepared};
ghost use Rattle.sg_exec.specs.steps.Landing.{current, with_copied_store, CopiesRan};
ghost use Rattle.sg_exec.specs.steps.Made.{CanLand, MadeRan};

use crate::activation::activate::{activated_for_rows, activated_for_slice};
use crate::lanes::values::ONE_POINT;
use crate::loads::copies::run_copies;
use crate::loads::expanding::writes_of_runs;
use crate::loads::row_run::RowRun;
use crate::results::commit::land;
use crate::results::landing::land_all;
use crate::results::made::Made;
use crate::results::sums::raced_points;
use crate::workers::points::domain_points;
use sg_coord::numbering;
use sg_flat::laws::unwritten_stays;
use sg_flat::{RunFault, Write};
use sg_ir::KernelCode;
use sg_ir::laws::reads_decide;
use sg_layout::{Layouts, closure_closes, closure_members};
use sg_outside::Gate;
use sg_store::laws::{stands_for_one, stands_has_room};
use sg_store::{Store, Stores};
use sg_words::{Memory, Stop};
use std::alloc::Global;
use std::thread::Threads;

/// Runs a kernel over the stores of these layouts on so many workers, from 1 to 16, or refuses it. Each worker passes the gate
/// before what each iteration of its slice asks for and before what it contributes. After a refusal, or where memory runs out, the
/// stores are as before.
pub fn run_kernel<R: Threads + Sync, G: Gate + Sync>(
    rt: &R,
    alloc: Global,
    stores: &mut Stores,
    layouts: &Layouts,
    kernel: &KernelCode,
    workers: u32,
    gate: &G,
) -> Result<(), Stop<RunFault>>
    requires runnable { IsRunnable layouts.now.list kernel.now }
    requires some { 1 ≤ workers }
    requires few { workers ≤ 16 }
    ensures answer { (state : FlatState) → StandForState layouts.now.list stores.old.list state →
        Ran layouts.now.list stores.new.list result (run_meaning layouts.now.list state kernel.now) }
    ensures links { AllZip GrowsLinks stores.old.list stores.new.list }
    ensures stays { OnErr result (stores.new ≡ stores.old) }
{
    let _layouts = layouts;
    let made = kernel_made(rt, alloc, stores, kernel, workers, gate)?;
    land(alloc, stores, made);
    Ok(())
}

/// Loads rows into the stores of these layouts: what is listed is written, each row by a write of its own, and nothing else
/// changes. Refused where a node has no room, or a row is outside. After a refusal, or where memory runs out, the stores are as
/// before.
pub fn load_rows<R: Threads + Sync>(
    rt: &R,
    alloc: Global,
    stores: &mut Stores,
    layouts: &Layouts,
    rows: &[Write],
) -> Result<(), Stop<RunFault>>
    ensures answer { (state : FlatState) → StandForState layouts.now.list stores.old.list state →
        Ran layouts.now.list stores.new.list result (load_meaning layouts.now.list state rows.now) }
    ensures links { AllZip GrowsLinks stores.old.list stores.new.list }
    ensures stays { OnErr result (stores.new ≡ stores.old) }
{
    let _layouts = layouts;
    let copies = loaded_copies(rt, alloc, stores, rows)?;
    settle(stores, copies);
    Ok(())
}

/// Loads runs of rows into a field, from 0, of a layout, from 0: what `load_rows` makes of all their rows. Rows that stand side by side in a
/// container are asked for and found together, where that tells all. Refused as `load_rows` is; after a refusal, or where memory runs
/// out, the stores are as before. No part of a run's coordinate is below 0, and those of its last row are numbers of I32.
pub fn load_runs<R: Threads + Sync>(
    rt: &R,
    alloc: Global,
    stores: &mut Stores,
    layouts: &Layouts,
    layout: u32,
    place: u32,
    runs: &[RowRun],
) -> Result<(), Stop<RunFault>>
    requires short { All IsShortRun runs.now }
    ensures answer { (state : FlatState) → StandForState layouts.now.list stores.old.list state →
        Ran layouts.now.list stores.new.list result (load_meaning layouts.now.list state (writes_of_runs layout place runs.now)) }
    ensures links { AllZip GrowsLinks stores.old.list stores.new.list }
    ensures stays { OnErr result (stores.new ≡ stores.old) }
{
    match run_copies(rt, alloc, stores, layout, place, runs) {
        Ok(Some(copies)) => {
            settle(stores, copies);
            Ok(())
        }
        Ok(None) => load_each(rt, alloc, stores, layouts, layout, place, runs),
        Err(Memory) => Err(Stop::Memory),
    }
}

/// The same, row by row.
fn load_each<R: Threads + Sync>(
    rt: &R,
    alloc: Global,
    stores: &mut Stores,
    layouts: &Layouts,
    layout: u32,
    place: u32,
    runs: &[RowRun],
) -> Result<(), Stop<RunFault>>
    requires short { All IsShortRun runs.now }
    ensures answer { (state : FlatState) → StandForState layouts.now.list stores.old.list state →
        Ran layouts.now.list stores.new.list result (load_meaning layouts.now.list state (writes_of_runs layout place runs.now)) }
    ensures links { AllZip GrowsLinks stores.old.list stores.new.list }
    ensures stays { OnErr result (stores.new ≡ stores.old) }
{
    let rows = writes_of_runs(alloc, layout, place, runs)?;
    load_rows(rt, alloc, stores, layouts, rows.as_slice())
}

/// The first half of a run: what a kernel makes of the stores, which stay as they are, or its refusal. It lands by `land`, in these stores or in
/// later ones in which the layouts that the kernel touches are the same. Workers and gate as for a run.
pub fn prepare<R: Threads + Sync, G: Gate + Sync>(
    rt: &R,
    alloc: Global,
    stores: &Stores,
    layouts: &Layouts,
    kernel: &KernelCode,
    workers: u32,
    gate: &G,
) -> Result<Made, Stop<RunFault>>
    requires runnable { IsRunnable layouts.now.list kernel.now }
    requires some { 1 ≤ workers }
    requires few { workers ≤ 16 }
    ensures prepared { (state : FlatState) → StandForState layouts.now.list stores.now.list state →
        Prepared layouts.now.list kernel.now stores.now.list result }
    ensures lands { IfOk result (IsMadeFor kernel.now stores.now.list) }
{
    let _layouts = layouts;
    // for the laws that they ensure
    reads_decide();
    unwritten_stays();
    stands_for_one();
    stands_has_room();
    stores.well_formed();
    kernel_made(rt, alloc, stores, kernel, workers, gate)
}

/// What a kernel makes of the stores, and room to land it.
pub(crate) fn kernel_made<R: Threads + Sync, G: Gate + Sync>(
    rt: &R,
    alloc: Global,
    stores: &Stores,
    kernel: &KernelCode,
    workers: u32,
    gate: &G,
) -> Result<Made, Stop<RunFault>>
    requires some { 1 ≤ workers }
    requires few { workers ≤ 16 }
    ensures ran { IsRunnable (shapes_of stores.now.list) kernel.now → (state : FlatState) → AllZip StandsFor stores.now.list state.layouts →
        MadeRan stores.now.list result (run_meaning (shapes_of stores.now.list) state kernel.now) }
    ensures lands { IfOk result (CanLand stores.now.list) }
    ensures goes { IfOk result (IsMadeFor kernel.now stores.now.list) }
{
    // for the laws that they ensure
    numbering(&ONE_POINT);
    closure_members();
    closure_closes();
    let points = domain_points(rt, alloc, stores, kernel.domain, workers)?;
    let slice = kernel.slice.body.as_slice();
    let copies = activated_for_slice(rt, alloc, stores, &points, slice, workers, gate)?;
    let code = kernel.code.body.as_slice();
    let ended = raced_points(rt, alloc, stores, &copies, &points, code, workers, gate)?;
    let room = room_for(alloc, stores)?;
    Ok(Made {
        copies,
        ended,
        room,
    })
}

/// Room for as many stores.
fn room_for(alloc: Global, stores: &Stores) -> Result<Vec<Store>, Memory>
    ensures none { IfOk result (λ room. room.items ≡ []) }
    ensures space { IfOk result (λ room. length stores.now.list ≤ vec_capacity room) }
{
    Ok(Vec::with_capacity(alloc, stores.list.len())?)
}

/// Copies of the stores that have a row, as they are after the load.
fn loaded_copies<R: Threads + Sync>(
    rt: &R,
    alloc: Global,
    stores: &Stores,
    rows: &[Write],
) -> Result<Vec<Option<Store>>, Stop<RunFault>>
    ensures ran { (state : FlatState) → AllZip StandsFor stores.now.list state.layouts →
        CopiesRan (λ copies. current copies.items stores.now.list) (shapes_of stores.now.list) result
        (load_meaning (shapes_of stores.now.list) state rows.now) }
    ensures room { IfOk result (λ copies. length copies.items ≡ length stores.now.list) }
    ensures links { IfOk result (λ copies. AllZip GrowsLinks stores.now.list (current copies.items stores.now.list)) }
{
    // for the laws that they ensure
    numbering(&ONE_POINT);
    closure_closes();
    let mut copies = activated_for_rows(rt, alloc, stores, rows)?;
    land_all(alloc, stores, &mut copies, rows)?;
    Ok(copies)
}

/// Puts the copies in the places of their stores.
pub(crate) fn settle(stores: &mut Stores, copies: Vec<Option<Store>>)
    requires room { length copies.items ≡ length stores.old.list }
    ensures { stores.new.list ≡ current copies.items stores.old.list }
{
    let mut copies = copies;
    for number in 0..copies.len() {
        let slot = &mut copies[number];
        let copy = slot.take();
        place(stores, number, copy);
    }
}

fn place(stores: &mut Stores, number: usize, copy: Option<Store>)
    requires { number < length stores.old.list }
    ensures { stores.new.list ≡ with_copied_store stores.old.list number copy }
{
    if let Some(store) = copy {
        stores.list.set(number, store);
    }
}
