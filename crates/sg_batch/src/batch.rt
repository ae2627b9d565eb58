//! Kernels that don't touch each other, run at the same time.

ghost use Rattle.std.specs.Prelude.{◌≡◌, ◌≤◌, ◌<◌, All, Err, length};
ghost use Rattle.sg_flat.specs.declared.state.FlatState.{FlatState};
ghost use Rattle.sg_exec.specs.Standing.{StandForState};
ghost use Rattle.sg_words.specs.declared.memory.Stop.TheVariants as stop;
ghost use Rattle.sg_batch.specs.declared.fault.BatchFault.{BatchFault};
ghost use Rattle.sg_batch.specs.Independent.{AreApart};
ghost use Rattle.sg_batch.specs.Batches.{Batched, RunnableAt, StaysAtMemory, group_end, members};
ghost use Rattle.sg_batch.specs.steps.Passing.{PassesFlat};

use crate::fault::BatchFault;
use crate::landing::land_all;
use crate::readying::{Place, Ready, ready_from};
use sg_ir::KernelCode;
use sg_layout::Layouts;
use sg_outside::Gate;
use sg_store::Stores;
use sg_words::{Memory, Stop};
use std::alloc::Global;
use std::thread::Threads;

/// Runs one to four kernels, no more than workers, by their numbers from 0, over the stores of these layouts, as one after the other; no kernel of the
/// group writes what another one touches. They run at the same time, each on its slice of the workers, which pass the gate with their numbers among
/// all. The first kernel that is refused ends the group: the stores are then as the kernels before it leave them. Where memory runs out before that,
/// they are as before. It waits for its workers.
pub fn run_batch<R: Threads + Sync, G: Gate + Sync>(
    rt: &R,
    alloc: Global,
    stores: &mut Stores,
    layouts: &Layouts,
    kernels: &[KernelCode],
    group: &[u32],
    workers: u32,
    gate: &G,
) -> Result<(), Stop<BatchFault>>
    requires there { All (λ number. number < length kernels.now) group.now }
    requires runnable { All (RunnableAt layouts.now.list kernels.now) group.now }
    requires apart { AreApart (members kernels.now group.now) }
    requires some { 1 ≤ length group.now }
    requires few_members { length group.now ≤ 4 }
    requires enough { length group.now ≤ workers }
    requires few { workers ≤ 16 }
    ensures answer { (state : FlatState) → StandForState layouts.now.list stores.old.list state →
        Batched layouts.now.list stores.new.list result (group_end layouts.now.list 0 state (members kernels.now group.now)) }
    ensures flat { (state : FlatState) → StandForState layouts.now.list stores.old.list state →
        PassesFlat layouts.now.list result state (members kernels.now group.now) }
    ensures place { (fault : BatchFault) → result ≡ Err (stop.Refused fault) → fault.at < length group.now }
    ensures stays { StaysAtMemory result stores.old.list stores.new.list }
{
    let place = Place {
        at: 0,
        members: group.len() as u32,
        workers,
    };
    match ready_from(rt, alloc, stores, layouts, kernels, group, place, gate) {
        Ok(ready) => {
            let Ready { made, refused } = ready;
            land_all(alloc, stores, kernels, group, made);
            match refused {
                None => Ok(()),
                Some(fault) => Err(Stop::Refused(fault)),
            }
        }
        Err(Memory) => Err(Stop::Memory),
    }
}
