//! Runs of kernels and dumps over stores.

ghost use Rattle.std.specs.Prelude.{◌≡◌, ◌<◌, ◌≤◌, false, [], length, OnErr, IfOk, slice_get};
ghost use Rattle.sg_flat.specs.declared.state.FlatState.{FlatState};
ghost use Rattle.std.specs.List.{AllZip};
ghost use Rattle.sg_store.specs.Links.{GrowsLinks};
ghost use Rattle.sg_exec.specs.Standing.{StandForState};
ghost use Rattle.sg_session.specs.Compiled.{IsField};
ghost use Rattle.sg_session.specs.Commands.{after_code, run_made, dump_made, text_of_field};
ghost use Rattle.sg_session.specs.Performed.{HasState, Performs};
ghost use Rattle.sg_session.specs.steps.Reads.{is_read_refusal};

use crate::compiled::Compiled;
use crate::refusal::RunRefusal;
use sg_exec::run_kernel;
use sg_names::FieldAt;
use sg_outside::Gate;
use sg_store::Stores;
use sg_words::{Items, Memory, Stop, Text};
use std::alloc::Global;
use std::thread::Threads;

/// Runs the kernel with this number, on so many workers, which pass the gate.
pub fn run<R: Threads + Sync, G: Gate + Sync>(
    rt: &R,
    alloc: Global,
    compiled: &Compiled,
    stores: &mut Stores,
    kernel: u32,
    workers: u32,
    gate: &G,
) -> Result<Text, Stop<RunRefusal>>
    requires there { kernel < length compiled.now.kernels }
    requires some { 1 ≤ workers }
    requires few { workers ≤ 16 }
    ensures performed { (state : FlatState) → StandForState compiled.now.layouts stores.old.list state →
        Performs compiled.now.layouts stores.new.list result (run_made kernel (after_code compiled.now.layouts state (slice_get compiled.now.kernels kernel))) }
    ensures stand { IfOk result (λ text. HasState compiled.now.layouts stores.old.list → HasState compiled.now.layouts stores.new.list) }
    ensures read { is_read_refusal result ≡ false }
    ensures links { AllZip GrowsLinks stores.old.list stores.new.list }
    ensures stays { OnErr result (stores.new ≡ stores.old) }
{
    let code = &compiled.kernels.as_slice()[kernel as usize];
    match run_kernel(rt, alloc, stores, &compiled.layouts, code, workers, gate) {
        Ok(()) => Ok(no_text(alloc)),
        Err(Stop::Refused(fault)) => Err(Stop::Refused(RunRefusal::Run {
            kernel: Some(kernel),
            fault,
        })),
        Err(Stop::Memory) => Err(Stop::Memory),
    }
}

/// The text of a command that gives none.
pub fn no_text(alloc: Global) -> Text
    ensures { result.bytes ≡ [] }
{
    Text {
        bytes: Items::new(alloc),
    }
}

/// Gives the grid text of a field.
pub fn write_out(
    alloc: Global,
    compiled: &Compiled,
    stores: &Stores,
    at: FieldAt,
) -> Result<Text, Stop<RunRefusal>>
    requires field { IsField compiled.now at }
    requires stand { HasState compiled.now.layouts stores.now.list }
    ensures { (state : FlatState) → StandForState compiled.now.layouts stores.now.list state →
        Performs compiled.now.layouts stores.now.list result (dump_made compiled.now.layouts state at) }
{
    match dump(alloc, compiled, stores, at) {
        Ok(text) => Ok(text),
        Err(Memory) => Err(Stop::Memory),
    }
}

/// The grid text of a field.
fn dump(alloc: Global, compiled: &Compiled, stores: &Stores, at: FieldAt) -> Result<Text, Memory>
    requires field { IsField compiled.now at }
    requires stand { HasState compiled.now.layouts stores.now.list }
    ensures { IfOk result (λ text. (state : FlatState) → StandForState compiled.now.layouts stores.now.list state →
        text.bytes ≡ text_of_field at.place (slice_get compiled.now.layouts at.layout) (slice_get state.layouts at.layout)) }
{
    let store = &stores.list.as_slice()[at.layout as usize];
    sg_grid::dump(alloc, store, at.place)
}
