//! The rows of runs, each as a write of its own.

ghost use Rattle.std.specs.Prelude.{◌≡◌, ◌++◌, All, IfOk, OnOk};
ghost use Rattle.sg_exec.specs.Runs.{IsShortRun, run_writes, writes_of_runs};

use crate::loads::blocks::moved;
use crate::loads::row_run::RowRun;
use sg_flat::{Way, Write};
use sg_words::{Items, Memory};
use std::alloc::Global;

/// The own writes of the rows of runs into a field.
pub(crate) fn writes_of_runs(
    alloc: Global,
    layout: u32,
    place: u32,
    runs: &[RowRun],
) -> Result<Items<Write>, Memory>
    requires { All IsShortRun runs.now }
    ensures { IfOk result (λ writes. writes ≡ writes_of_runs layout place runs.now) }
{
    let mut writes = Items::new(alloc);
    for run in runs {
        add_writes(&mut writes, layout, place, *run)?;
    }
    Ok(writes)
}

/// Adds the own writes of the rows of a run into a field.
fn add_writes(writes: &mut Items<Write>, layout: u32, place: u32, run: RowRun) -> Result<(), Memory>
    requires { IsShortRun run }
    ensures { OnOk result (writes.new ≡ writes.old ++ run_writes layout place run) }
{
    for k in 0..run.len {
        writes.push(Write {
            layout,
            place,
            stmt: 0,
            at: moved(run.at, k),
            way: Way::Own,
            value: run.word,
        })?;
    }
    Ok(())
}
