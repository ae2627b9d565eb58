//! What the members of a group made lands in the stores, in order.

ghost use Rattle.std.specs.Prelude.{◌<◌, ℕ, List, All, Option, length, reverse};
ghost use Rattle.sg_layout.specs.declared.shape.Shape.{Shape};
ghost use Rattle.sg_flat.specs.declared.state.FlatState.{FlatState};
ghost use Rattle.sg_exec.specs.Standing.{StandForState};
ghost use Rattle.sg_batch.specs.declared.fault.BatchFault.{BatchFault};
ghost use Rattle.sg_batch.specs.Batches.{EndsAs, group_end, members};
ghost use Rattle.sg_batch.specs.Independent.{AreApart};
ghost use Rattle.sg_batch.specs.steps.Passing.{FlatAlong};
ghost use Rattle.sg_batch.specs.steps.Ready.{AreReady, Fit};

use sg_exec::{Made, land};
use sg_ir::KernelCode;
use sg_store::Stores;
use std::alloc::Global;

/// Lands what the kernels of a group made, in their order. In the list the last one's comes first.
#[cycle(landing)]
pub(crate) fn land_all(
    alloc: Global,
    stores: &mut Stores,
    kernels: &[KernelCode],
    group: &[u32],
    made: Vec<Made>,
)
    requires there { All (λ number. number < length kernels.now) group.now }
    requires apart { AreApart (members kernels.now group.now) }
    requires fits { Fit stores.old.list (members kernels.now group.now) (reverse made.items) }
    ensures ends { (shapes : List Shape) (at : ℕ) (refused : Option BatchFault) (state : FlatState) → StandForState shapes stores.old.list state →
        AreReady shapes stores.old.list at (members kernels.now group.now) (reverse made.items) refused →
        EndsAs shapes stores.new.list refused (group_end shapes at state (members kernels.now group.now)) }
    ensures flat { (shapes : List Shape) (at : ℕ) (refused : Option BatchFault) (state : FlatState) → StandForState shapes stores.old.list state →
        AreReady shapes stores.old.list at (members kernels.now group.now) (reverse made.items) refused →
        FlatAlong shapes state (members kernels.now group.now) }
{
    let mut made = made;
    // for what each of them keeps
    stores.well_formed();
    let Some(first) = made.pop() else {
        return;
    };
    let Some((_number, rest)) = group.split_first() else {
        return;
    };
    land(alloc, stores, first);
    land_all(alloc, stores, kernels, rest, made);
}
