//! Rows that are asked for in place of all rows of runs.

ghost use Rattle.std.specs.Prelude.{◌<◌, ℕ, List, All, Contains, IfOk, OnOk};
ghost use Rattle.sg_flat.specs.declared.effects.Write.{Write};
ghost use Rattle.sg_exec.specs.Runs.{run_write, writes_of_runs};

use crate::loads::blocks::along;
use crate::loads::row_run::RowRun;
use crate::loads::spans::last_span;
use sg_coord::Coord;
use sg_flat::{Way, Write};
use sg_layout::Kind;
use sg_store::Store;
use sg_words::{Items, Memory};
use std::alloc::Global;

/// Own writes of some rows of runs into a field: of each run the first one, and each that is the first at a slot of the last node but one, if
/// the last one is dense; else of all rows. That these make all rows active isn't said: it shows when all have landed.
pub(crate) fn heads_of(
    alloc: Global,
    store: &Store,
    layout: u32,
    place: u32,
    runs: &[RowRun],
) -> Result<Items<Write>, Memory>
    ensures { IfOk result (λ heads. All (Contains (writes_of_runs layout place runs.now)) heads) }
{
    let step = step_of(store);
    let mut heads = Items::new(alloc);
    for run in runs {
        add_heads(&mut heads, step, layout, place, *run)?;
    }
    Ok(heads)
}

/// Adds own writes of the first row of a run, and of each where a block of so many rows along the last axis begins.
fn add_heads(
    heads: &mut Items<Write>,
    step: u32,
    layout: u32,
    place: u32,
    run: RowRun,
) -> Result<(), Memory>
    ensures { OnOk result ((rows : List Write) → ((k : ℕ) → k < run.len → Contains rows (run_write layout place run k)) →
        All (Contains rows) heads.old → All (Contains rows) heads.new) }
{
    let mut next = 0;
    for k in 0..run.len {
        next = add_head(heads, step, layout, place, run, k, next)?;
    }
    Ok(())
}

/// Adds an own write of the row of a run with this number, from 0, if it is the next one that is asked for, and says which is the next one
/// then.
#[inline(always)]
fn add_head(
    heads: &mut Items<Write>,
    step: u32,
    layout: u32,
    place: u32,
    run: RowRun,
    k: u32,
    next: u32,
) -> Result<u32, Memory>
    ensures { OnOk result ((rows : List Write) → Contains rows (run_write layout place run k) →
        All (Contains rows) heads.old → All (Contains rows) heads.new) }
{
    if k != next {
        return Ok(next);
    }
    let Some(at) = along(run.at, k) else {
        return Ok(next);
    };
    heads.push(Write {
        layout,
        place,
        stmt: 0,
        at,
        way: Way::Own,
        value: run.word,
    })?;
    Ok(k.saturating_add(rest_of_block(at, step)))
}

/// How many coordinates there are from this one on along the last axis, up to the end of its block of so many.
fn rest_of_block(at: Coord, step: u32) -> u32 {
    let part = last_part(at).unsigned_abs();
    if step == 0 {
        return 1;
    }
    step - part % step
}

/// The part on the last axis.
fn last_part(at: Coord) -> i32 {
    if at.n >= 3 {
        return at.c;
    }
    if at.n >= 2 { at.b } else { at.a }
}

/// How many rows along the last axis are active together, as far as the last node tells.
fn step_of(store: &Store) -> u32 {
    let layout = store.layout();
    let node = &layout.shape().nodes.as_slice()[layout.nodes() - 1];
    match node.kind {
        Kind::Dense => last_span(layout),
        Kind::Bitmasked | Kind::Pointer | Kind::Hash | Kind::Dynamic => 1,
    }
}
