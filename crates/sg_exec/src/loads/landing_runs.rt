//! Rows of runs land in a store, as far as they are active.

ghost use Rattle.std.specs.Prelude.{◌∷◌, [], IsTrue, IfOk, unwrap_or};
ghost use Rattle.sg_exec.specs.Runs.{run_write, run_writes, writes_of_runs};
ghost use Rattle.sg_exec.specs.steps.Blocks.{HasRow, RowsLanded};

use crate::lanes::cell_write::CellWrite;
use crate::lanes::values::ONE_POINT;
use crate::loads::blocks::{Block, block_for, no_block};
use crate::loads::row_run::RowRun;
use crate::results::landing::put_cell;
use sg_coord::numbering;
use sg_flat::Way;
use sg_layout::{closure_members, paths_tell};
use sg_store::Store;
use sg_store::laws::cells_are_active;
use sg_words::Memory;
use std::alloc::Global;

/// Lands the rows of runs, by own writes into a field, in the copy of a store, which is made if there is none; says whether all are active.
pub(crate) fn land_runs_in(
    alloc: Global,
    store: &Store,
    slot: &mut Option<Store>,
    layout: u32,
    place: u32,
    runs: &[RowRun],
) -> Result<bool, Memory>
    ensures lands { IfOk result (λ all. IsTrue all →
        RowsLanded (unwrap_or slot.old store.now) (unwrap_or slot.new store.now) layout (writes_of_runs layout place runs.now)) }
{
    match slot {
        Some(copy) => Ok(land_runs(copy, layout, place, runs)),
        None => {
            let mut copy = store.copy(alloc)?;
            let all = land_runs(&mut copy, layout, place, runs);
            *slot = Some(copy);
            Ok(all)
        }
    }
}

/// Lands the rows of runs, one run after the other, up to one that isn't active; says whether all are.
fn land_runs(store: &mut Store, layout: u32, place: u32, runs: &[RowRun]) -> bool
    ensures { IsTrue result → RowsLanded store.old store.new layout (writes_of_runs layout place runs.now) }
{
    for run in runs {
        if !land_run(store, layout, place, *run) {
            return false;
        }
    }
    true
}

/// Lands the rows of a run, up to one that isn't active; says whether all are.
fn land_run(store: &mut Store, layout: u32, place: u32, run: RowRun) -> bool
    ensures { IsTrue result → RowsLanded store.old store.new layout (run_writes layout place run) }
{
    let mut block = no_block(store, run);
    for k in 0..run.len {
        let Some(next) = block_for(store, run, block, k) else {
            return false;
        };
        if !land_row(store, layout, place, run, next, k) {
            return false;
        }
        block = next;
    }
    true
}

/// Lands the row of a run with this number, from 0, which its block has; says whether it is active.
#[inline(always)]
fn land_row(store: &mut Store, layout: u32, place: u32, run: RowRun, block: Block, k: u32) -> bool
    requires { HasRow store.old run k block }
    ensures { IsTrue result → RowsLanded store.old store.new layout (run_write layout place run k ∷ []) }
{
    // for the laws that they ensure
    numbering(&ONE_POINT);
    paths_tell();
    closure_members();
    cells_are_active();
    store.layout();
    let Some(spot) = store.under(block.front, block.offset + (k - block.from)) else {
        return false;
    };
    let cell = store.cell_at(spot);
    let write = CellWrite {
        layout,
        place,
        cell: Some(cell),
        way: Way::Own,
        value: run.word,
    };
    put_cell(store, &write);
    true
}
