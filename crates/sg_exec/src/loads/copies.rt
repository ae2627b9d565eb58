//! Copies of stores in which the rows of runs have landed.

ghost use Rattle.std.specs.Prelude.{◌≡◌, length, IfOk, IfSome};
ghost use Rattle.std.specs.List.{AllZip};
ghost use Rattle.std.specs.Result.{IsOkAnd};
ghost use Rattle.sg_flat.specs.declared.state.FlatState.{FlatState};
ghost use Rattle.sg_store.specs.StandsFor.{StandsFor};
ghost use Rattle.sg_store.specs.Links.{GrowsLinks};
ghost use Rattle.sg_exec.specs.Standing.{shapes_of, StandForState};
ghost use Rattle.sg_exec.specs.Running.{load_meaning};
ghost use Rattle.sg_exec.specs.Runs.{writes_of_runs};
ghost use Rattle.sg_exec.specs.steps.Asked.{HasAsked};
ghost use Rattle.sg_exec.specs.steps.Landing.{current};

use crate::activation::activate::activated_for_rows;
use crate::lanes::values::ONE_POINT;
use crate::loads::heads::heads_of;
use crate::loads::landing_runs::land_runs_in;
use crate::loads::row_run::RowRun;
use sg_coord::numbering;
use sg_layout::{closure_closes, closure_members, need_absorbs, need_grows};
use sg_store::{Store, Stores};
use sg_words::{Memory, Stop};
use std::alloc::Global;
use std::thread::Threads;

/// Copies of the stores that have a row, as they are after the load of runs. None if not all rows are active once their heads are.
pub(crate) fn run_copies<R: Threads + Sync>(
    rt: &R,
    alloc: Global,
    stores: &Stores,
    layout: u32,
    place: u32,
    runs: &[RowRun],
) -> Result<Option<Vec<Option<Store>>>, Memory>
    ensures ran { IfOk result (λ made. IfSome made (λ copies. (state : FlatState) → AllZip StandsFor stores.now.list state.layouts →
        IsOkAnd (load_meaning (shapes_of stores.now.list) state (writes_of_runs layout place runs.now))
        (StandForState (shapes_of stores.now.list) (current copies.items stores.now.list)))) }
    ensures room { IfOk result (λ made. IfSome made (λ copies. length copies.items ≡ length stores.now.list)) }
    ensures links { IfOk result (λ made. IfSome made (λ copies.
        AllZip GrowsLinks stores.now.list (current copies.items stores.now.list))) }
{
    match asked_copies(rt, alloc, stores, layout, place, runs) {
        Ok(Some(copies)) => landed_copies(alloc, stores, copies, layout, place, runs),
        Ok(None) => Ok(None),
        Err(Memory) => Err(Memory),
    }
}

/// Copies of the stores in which the heads of runs are active. None if there is no such layout, or a head is refused.
fn asked_copies<R: Threads + Sync>(
    rt: &R,
    alloc: Global,
    stores: &Stores,
    layout: u32,
    place: u32,
    runs: &[RowRun],
) -> Result<Option<Vec<Option<Store>>>, Memory>
    ensures asked { IfOk result (λ made. IfSome made (λ copies.
        HasAsked stores.now.list (writes_of_runs layout place runs.now) copies.items)) }
    ensures room { IfOk result (λ made. IfSome made (λ copies. length copies.items ≡ length stores.now.list)) }
{
    let Some(store) = stores.list.get(layout as usize) else {
        return Ok(None);
    };
    let heads = heads_of(alloc, store, layout, place, runs)?;
    match activated_for_rows(rt, alloc, stores, heads.as_slice()) {
        Ok(copies) => Ok(Some(copies)),
        Err(Stop::Refused(_fault)) => Ok(None),
        Err(Stop::Memory) => Err(Memory),
    }
}

/// The copies after all rows have landed in that of their store. None if a row isn't active.
fn landed_copies(
    alloc: Global,
    stores: &Stores,
    copies: Vec<Option<Store>>,
    layout: u32,
    place: u32,
    runs: &[RowRun],
) -> Result<Option<Vec<Option<Store>>>, Memory>
    requires asked { HasAsked stores.now.list (writes_of_runs layout place runs.now) copies.items }
    requires room { length copies.items ≡ length stores.now.list }
    ensures ran { IfOk result (λ made. IfSome made (λ copies. (state : FlatState) → AllZip StandsFor stores.now.list state.layouts →
        IsOkAnd (load_meaning (shapes_of stores.now.list) state (writes_of_runs layout place runs.now))
        (StandForState (shapes_of stores.now.list) (current copies.items stores.now.list)))) }
    ensures room { IfOk result (λ made. IfSome made (λ copies. length copies.items ≡ length stores.now.list)) }
    ensures links { IfOk result (λ made. IfSome made (λ copies.
        AllZip GrowsLinks stores.now.list (current copies.items stores.now.list))) }
{
    // for the laws that they ensure
    numbering(&ONE_POINT);
    closure_closes();
    closure_members();
    need_absorbs();
    need_grows();
    let number = layout as usize;
    let mut copies = copies;
    let Some(store) = stores.list.get(number) else {
        return Ok(None);
    };
    let slot = &mut copies[number];
    let all = land_runs_in(alloc, store, slot, layout, place, runs)?;
    if all {
        return Ok(Some(copies));
    }
    Ok(None)
}
