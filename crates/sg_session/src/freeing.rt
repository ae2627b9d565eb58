//! Pruning and clearing a layout's store.

ghost use Rattle.std.specs.Prelude.{◌≡◌, ◌<◌, false, length, OnErr};
ghost use Rattle.sg_flat.specs.declared.state.FlatState.{FlatState};
ghost use Rattle.std.specs.List.{AllZip};
ghost use Rattle.sg_store.specs.Links.{GrowsLinks};
ghost use Rattle.sg_exec.specs.Standing.{StandForState};
ghost use Rattle.sg_store.specs.Pruning.{pruned};
ghost use Rattle.sg_session.specs.Commands.{layout_made, cleared_layout};
ghost use Rattle.sg_session.specs.Performed.{HasState, Performs};
ghost use Rattle.sg_session.specs.steps.Reads.{is_read_refusal};

use crate::compiled::Compiled;
use crate::perform::no_text;
use crate::refusal::RunRefusal;
use sg_store::Stores;
use sg_words::{Stop, Text};
use std::alloc::Global;

/// Frees what holds no values in the layout with this number.
pub fn prune(
    alloc: Global,
    compiled: &Compiled,
    stores: &mut Stores,
    layout: u32,
) -> Result<Text, Stop<RunRefusal>>
    requires layout { layout < length compiled.now.layouts }
    requires stand { HasState compiled.now.layouts stores.old.list }
    ensures performed { (state : FlatState) → StandForState compiled.now.layouts stores.old.list state →
        Performs compiled.now.layouts stores.new.list result (layout_made pruned compiled.now.layouts state layout) }
    ensures stand { HasState compiled.now.layouts stores.new.list }
    ensures read { is_read_refusal result ≡ false }
    ensures links { AllZip GrowsLinks stores.new.list stores.old.list }
    ensures stays { OnErr result (stores.new ≡ stores.old) }
{
    stores.prune(alloc, layout as usize)?;
    Ok(no_text(alloc))
}

/// Makes all values of the layout with this number 0 and frees what holds them.
pub fn clear(
    alloc: Global,
    compiled: &Compiled,
    stores: &mut Stores,
    layout: u32,
) -> Result<Text, Stop<RunRefusal>>
    requires layout { layout < length compiled.now.layouts }
    requires stand { HasState compiled.now.layouts stores.old.list }
    ensures performed { (state : FlatState) → StandForState compiled.now.layouts stores.old.list state →
        Performs compiled.now.layouts stores.new.list result (layout_made cleared_layout compiled.now.layouts state layout) }
    ensures stand { HasState compiled.now.layouts stores.new.list }
    ensures read { is_read_refusal result ≡ false }
    ensures links { AllZip GrowsLinks stores.new.list stores.old.list }
    ensures stays { OnErr result (stores.new ≡ stores.old) }
{
    stores.clear(alloc, layout as usize)?;
    Ok(no_text(alloc))
}
