//! Images and counts over stores.

ghost use Rattle.std.specs.Prelude.{◌≡◌, ◌<◌, ◌≤◌, length, slice_get, IfOk};
ghost use Rattle.sg_flat.specs.declared.state.FlatState.{FlatState};
ghost use Rattle.sg_names.specs.Tables.{layout_name_of};
ghost use Rattle.sg_exec.specs.Standing.{StandForState};
ghost use Rattle.sg_session.specs.Compiled.{IsImageTask};
ghost use Rattle.sg_session.specs.Commands.{image_made, image_of_field, stats_made, counts_of_layout};
ghost use Rattle.sg_session.specs.Performed.{HasState, Performs};

use crate::compiled::Compiled;
use crate::refusal::RunRefusal;
use sg_names::FieldAt;
use sg_store::Stores;
use sg_words::{Memory, Stop, Text};
use std::alloc::Global;
use std::thread::Threads;

/// Gives the image of a field.
pub fn draw(
    alloc: Global,
    compiled: &Compiled,
    stores: &Stores,
    at: FieldAt,
    lo: i64,
    hi: i64,
) -> Result<Text, Stop<RunRefusal>>
    requires drawn { IsImageTask compiled.now at lo hi }
    requires stand { HasState compiled.now.layouts stores.now.list }
    ensures { (state : FlatState) → StandForState compiled.now.layouts stores.now.list state →
        Performs compiled.now.layouts stores.now.list result (image_made compiled.now.layouts state at lo hi) }
{
    match image(alloc, compiled, stores, at, lo, hi) {
        Ok(text) => Ok(text),
        Err(Memory) => Err(Stop::Memory),
    }
}

/// The image of a field.
fn image(
    alloc: Global,
    compiled: &Compiled,
    stores: &Stores,
    at: FieldAt,
    lo: i64,
    hi: i64,
) -> Result<Text, Memory>
    requires drawn { IsImageTask compiled.now at lo hi }
    requires stand { HasState compiled.now.layouts stores.now.list }
    ensures { IfOk result (λ text. (state : FlatState) → StandForState compiled.now.layouts stores.now.list state →
        text.bytes ≡ image_of_field at.place lo hi (slice_get compiled.now.layouts at.layout) (slice_get state.layouts at.layout)) }
{
    let store = &stores.list.as_slice()[at.layout as usize];
    sg_image::image(alloc, store, at.place, lo, hi)
}

/// Gives the counts of a layout, in which so many workers count the coordinates.
pub fn count<R: Threads + Sync>(
    rt: &R,
    alloc: Global,
    compiled: &Compiled,
    stores: &Stores,
    layout: u32,
    workers: u32,
) -> Result<Text, Stop<RunRefusal>>
    requires some { 1 ≤ workers }
    requires layout { layout < length compiled.now.layouts }
    requires stand { HasState compiled.now.layouts stores.now.list }
    ensures { (state : FlatState) → StandForState compiled.now.layouts stores.now.list state →
        Performs compiled.now.layouts stores.now.list result (stats_made compiled.now.names compiled.now.layouts state layout) }
{
    match stats(rt, alloc, compiled, stores, layout, workers) {
        Ok(text) => Ok(text),
        Err(Memory) => Err(Stop::Memory),
    }
}

/// The counts of a layout.
fn stats<R: Threads + Sync>(
    rt: &R,
    alloc: Global,
    compiled: &Compiled,
    stores: &Stores,
    layout: u32,
    workers: u32,
) -> Result<Text, Memory>
    requires some { 1 ≤ workers }
    requires layout { layout < length compiled.now.layouts }
    requires stand { HasState compiled.now.layouts stores.now.list }
    ensures { IfOk result (λ text. (state : FlatState) → StandForState compiled.now.layouts stores.now.list state →
        text.bytes ≡ counts_of_layout (layout_name_of compiled.now.names layout) (slice_get compiled.now.layouts layout) (slice_get state.layouts layout)) }
{
    let store = &stores.list.as_slice()[layout as usize];
    sg_image::stats_by_workers(
        rt,
        alloc,
        store,
        compiled.names.layout_name(layout).text.as_slice(),
        workers,
    )
}
