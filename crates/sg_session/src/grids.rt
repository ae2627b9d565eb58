//! Loads of grid texts into stores.

ghost use Rattle.std.specs.Prelude.{◌≡◌, ◌≤◌, ◌++◌, false, map, Some, slice_get, IsSome, OnErr, OnOk, IfOk};
ghost use Rattle.std.specs.Option.{option_copied};
ghost use Rattle.sg_flat.specs.declared.state.FlatState.{FlatState};
ghost use Rattle.std.specs.List.{All, AllZip};
ghost use Rattle.sg_store.specs.Links.{GrowsLinks};
ghost use Rattle.sg_exec.specs.Running.{Ran, load_meaning};
ghost use Rattle.sg_exec.specs.Runs.{IsShortRun, writes_of_runs};
ghost use Rattle.sg_exec.specs.Standing.{StandForState};
ghost use Rattle.sg_coord.specs.Bounds.{bounds_of};
ghost use Rattle.sg_grid.specs.Reading.{IsRunInside};
ghost use Rattle.sg_grid.specs.Runs.{run_rows, rows_of_runs};
ghost use Rattle.sg_outside.specs.Files.{Held, Reading, Bytes};
ghost use Rattle.sg_session.specs.Compiled.{IsField};
ghost use Rattle.sg_session.specs.Bindings.{binding_read, file_of_field};
ghost use Rattle.sg_session.specs.Commands.{bounds_or_none, field_writes, grid_refusal, row_write, load_made};
ghost use Rattle.sg_session.specs.Performed.{Performs, reading_of, StepCause, reads_after, asked_after};
ghost use Rattle.sg_words.specs.Answers.{AnswersAs};
ghost use Rattle.sg_session.specs.steps.Reads.{is_read_refusal};
ghost use Rattle.sg_session.specs.steps.LongRuns.{row_run};

use crate::binds::{Binds, file_bound};
use crate::compiled::Compiled;
use crate::perform::no_text;
use crate::refusal::RunRefusal;
use sg_coord::Extents;
use sg_exec::{RowRun, load_rows, load_runs};
use sg_flat::{RunFault, Way, Write};
use sg_grid::runs::is_run_inside;
use sg_grid::{Grid, GridFault, GridRun, read_grid, row_of_run};
use sg_names::FieldAt;
use sg_outside::{Files, Got};
use sg_store::Stores;
use sg_words::{Items, Memory, Stop, Text};
use std::alloc::Global;
use std::thread::Threads;

/// The most bytes of a file that is loaded.
const GRID_LIMIT: u64 = 1 << 24;

/// Reads the file of a field and loads its grid.
#[tactic(auto, using(crate::proofs::LinksKept::links_itself))]
pub fn load<R: Threads + Sync, F: Files>(
    rt: &R,
    alloc: Global,
    compiled: &Compiled,
    stores: &mut Stores,
    at: FieldAt,
    binds: &Binds,
    files: &mut F,
) -> Result<Text, Stop<RunRefusal>>
    requires field { IsField compiled.now at }
    requires bound { IsSome (file_of_field compiled.now.names (map binding_read binds.now.list) at) }
    ensures told { (held : Held) → F.holds files.old ≡ Some held → (state : FlatState) →
        StandForState compiled.now.layouts stores.old.list state →
        Performs compiled.now.layouts stores.new.list result (load_made compiled.now.layouts state at
        (reading_of held (file_of_field compiled.now.names (map binding_read binds.now.list) at) result)) }
    ensures performed { (state : FlatState) → StandForState compiled.now.layouts stores.old.list state →
        (given : Reading) × Performs compiled.now.layouts stores.new.list result (load_made compiled.now.layouts state at given) }
    ensures links { AllZip GrowsLinks stores.old.list stores.new.list }
    ensures stays { OnErr result (stores.new ≡ stores.old) }
    ensures holds { F.holds files.new ≡ F.holds files.old }
    ensures asked { F.asked files.new ≡ asked_after (file_of_field compiled.now.names (map binding_read binds.now.list) at) (F.asked files.old) }
    ensures reads { F.reads files.new ≡ reads_after (file_of_field compiled.now.names (map binding_read binds.now.list) at) (F.reads files.old) }
    ensures cause { StepCause result (F.faults files.old) (F.faults files.new) }
    ensures never_falls { F.faults files.old ≤ F.faults files.new }
{
    let Some(name) = file_of_field(compiled, binds, at) else {
        unreachable!();
    };
    let mut bytes = Vec::new(alloc);
    match files.read(name, GRID_LIMIT, &mut bytes) {
        Got::All => load_bytes(rt, alloc, compiled, stores, at, bytes.as_slice()),
        Got::TooLong => Err(Stop::Refused(RunRefusal::GridBytes { field: at.number })),
        Got::Failed => Err(Stop::Refused(RunRefusal::Read { field: at.number })),
        Got::Memory => Err(Stop::Memory),
    }
}

/// The file that a field is read from.
fn file_of_field<'a>(compiled: &Compiled, binds: &'a Binds, at: FieldAt) -> Option<&'a str>
    requires { IsField compiled.now at }
    ensures { option_copied result ≡ file_of_field compiled.now.names (map binding_read binds.now.list) at }
{
    file_bound(binds, compiled.names.field_name(at.number))
}

/// Loads the grid that these bytes are.
#[tactic(auto, using(crate::proofs::LinksKept::links_itself))]
fn load_bytes<R: Threads + Sync>(
    rt: &R,
    alloc: Global,
    compiled: &Compiled,
    stores: &mut Stores,
    at: FieldAt,
    bytes: &[u8],
) -> Result<Text, Stop<RunRefusal>>
    requires field { IsField compiled.now at }
    ensures performed { (state : FlatState) → StandForState compiled.now.layouts stores.old.list state →
        Performs compiled.now.layouts stores.new.list result (load_made compiled.now.layouts state at (Bytes bytes.now)) }
    ensures read { is_read_refusal result ≡ false }
    ensures links { AllZip GrowsLinks stores.old.list stores.new.list }
    ensures stays { OnErr result (stores.new ≡ stores.old) }
{
    match runs_of(alloc, compiled, at, bytes) {
        Ok(grid) => match load_grid(rt, alloc, compiled, stores, at, grid.runs.as_slice()) {
            Ok(()) => Ok(no_text(alloc)),
            Err(Stop::Refused(fault)) => Err(Stop::Refused(RunRefusal::Run {
                kernel: None,
                fault,
            })),
            Err(Stop::Memory) => Err(Stop::Memory),
        },
        Err(Stop::Refused(fault)) => Err(Stop::Refused(grid_refusal(at.number, fault))),
        Err(Stop::Memory) => Err(Stop::Memory),
    }
}

/// The runs of a grid text over the layout of a field.
fn runs_of(
    alloc: Global,
    compiled: &Compiled,
    at: FieldAt,
    bytes: &[u8],
) -> Result<Grid, Stop<GridFault>>
    requires { IsField compiled.now at }
    ensures rows { AnswersAs (λ grid. map (row_write at.layout at.place) (rows_of_runs grid.runs)) result (field_writes compiled.now.layouts at bytes.now) }
    ensures inside { IfOk result (λ grid. All (IsRunInside (bounds_or_none (slice_get compiled.now.layouts at.layout))) grid.runs) }
{
    let extents = extents_of(compiled, at);
    read_grid(alloc, bytes, &extents, at.ty)
}

/// The extents of the layout of a field.
fn extents_of(compiled: &Compiled, at: FieldAt) -> Extents
    requires { IsField compiled.now at }
    ensures { bounds_of result ≡ bounds_or_none (slice_get compiled.now.layouts at.layout) }
{
    let layout = &compiled.layouts.list.as_slice()[at.layout as usize];
    layout.extents()
}

/// Loads the rows of runs into a field: where some run is longer than a row, run by run, else row by row.
#[tactic(auto, using(crate::proofs::LinksKept::links_itself))]
fn load_grid<R: Threads + Sync>(
    rt: &R,
    alloc: Global,
    compiled: &Compiled,
    stores: &mut Stores,
    at: FieldAt,
    runs: &[GridRun],
) -> Result<(), Stop<RunFault>>
    requires field { IsField compiled.now at }
    requires inside { All (IsRunInside (bounds_or_none (slice_get compiled.now.layouts at.layout))) runs.now }
    ensures answer { (state : FlatState) → StandForState compiled.now.layouts stores.old.list state →
        Ran compiled.now.layouts stores.new.list result (load_meaning compiled.now.layouts state (map (row_write at.layout at.place) (rows_of_runs runs.now))) }
    ensures links { AllZip GrowsLinks stores.old.list stores.new.list }
    ensures stays { OnErr result (stores.new ≡ stores.old) }
{
    let extents = extents_of(compiled, at);
    if runs.iter().any(|run| run.len > 1) {
        let long = row_runs(alloc, &extents, runs)?;
        return load_long(rt, alloc, compiled, stores, at, long.as_slice());
    }
    let writes = writes_of(alloc, at, &extents, runs)?;
    load_rows(rt, alloc, stores, &compiled.layouts, writes.as_slice())
}

/// Loads runs of rows into a field.
fn load_long<R: Threads + Sync>(
    rt: &R,
    alloc: Global,
    compiled: &Compiled,
    stores: &mut Stores,
    at: FieldAt,
    runs: &[RowRun],
) -> Result<(), Stop<RunFault>>
    requires short { All IsShortRun runs.now }
    ensures answer { (state : FlatState) → StandForState compiled.now.layouts stores.old.list state →
        Ran compiled.now.layouts stores.new.list result (load_meaning compiled.now.layouts state (writes_of_runs at.layout at.place runs.now)) }
    ensures links { AllZip GrowsLinks stores.old.list stores.new.list }
    ensures stays { OnErr result (stores.new ≡ stores.old) }
{
    let layouts = &compiled.layouts;
    load_runs(rt, alloc, stores, layouts, at.layout, at.place, runs)
}

/// Runs of a grid as runs of rows.
fn row_runs(alloc: Global, extents: &Extents, runs: &[GridRun]) -> Result<Items<RowRun>, Memory>
    requires { All (IsRunInside (bounds_of extents.now)) runs.now }
    ensures runs { IfOk result (λ long. long ≡ map row_run runs.now) }
    ensures short { IfOk result (All IsShortRun) }
{
    let mut long = Items::new(alloc);
    for run in runs {
        long.push(row_run(extents, *run))?;
    }
    Ok(long)
}

/// A run of a grid as a run of rows.
fn row_run(extents: &Extents, run: GridRun) -> RowRun
    requires { IsRunInside (bounds_of extents.now) run }
    ensures run { result ≡ row_run run }
    ensures short { IsShortRun result }
{
    // for the bound that it ensures
    is_run_inside(extents, run);
    let GridRun { at, len, word } = run;
    RowRun { at, len, word }
}

/// The write of each row of runs into a field.
fn writes_of(
    alloc: Global,
    at: FieldAt,
    extents: &Extents,
    runs: &[GridRun],
) -> Result<Items<Write>, Memory>
    requires { All (IsRunInside (bounds_of extents.now)) runs.now }
    ensures { IfOk result (λ writes. writes ≡ map (row_write at.layout at.place) (rows_of_runs runs.now)) }
{
    let mut writes = Items::new(alloc);
    for run in runs {
        push_run(&mut writes, at, extents, *run)?;
    }
    Ok(writes)
}

/// Adds the write of each row of a run into a field.
fn push_run(
    writes: &mut Items<Write>,
    at: FieldAt,
    extents: &Extents,
    run: GridRun,
) -> Result<(), Memory>
    requires { IsRunInside (bounds_of extents.now) run }
    ensures { OnOk result (writes.new ≡ writes.old ++ map (row_write at.layout at.place) (run_rows run)) }
{
    for k in 0..run.len {
        let row = row_of_run(extents, run, k);
        writes.push(Write {
            layout: at.layout,
            place: at.place,
            stmt: 0,
            at: row.at,
            way: Way::Own,
            value: row.word,
        })?;
    }
    Ok(())
}

/// Why bytes are no grid of the field with this number.
fn grid_refusal(field: u32, fault: GridFault) -> RunRefusal
    ensures { result ≡ grid_refusal field fault }
{
    match fault {
        GridFault::BadText { line } => RunRefusal::Grid { field, line },
        GridFault::Outside { line } => RunRefusal::Grid { field, line },
        GridFault::NotRising { line } => RunRefusal::Grid { field, line },
        GridFault::TooManyBytes => RunRefusal::GridBytes { field },
        GridFault::TooManyRows => RunRefusal::GridRows { field },
    }
}
