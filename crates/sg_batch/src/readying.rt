//! What the members of a group make over the stores as they are, side by side.

ghost use Rattle.std.specs.Prelude.{◌≡◌, ◌≤◌, ◌<◌, ◌+◌, ◌++◌, ◌∷◌, [], ℕ, List, All, None, Ok, Err, length, IfOk};
ghost use Rattle.std.specs.Thread.{IsSync};
ghost use Rattle.sg_coord.specs.Slices.{slice_start};
ghost use Rattle.sg_layout.specs.declared.shape.Shape.{Shape};
ghost use Rattle.sg_store.specs.StoreWords.{StoreWords};
ghost use Rattle.sg_ir.specs.declared.code.KernelCode.{KernelCode};
ghost use Rattle.sg_batch.specs.Batches.{RunnableAt};
ghost use Rattle.sg_batch.specs.steps.Ready.{IsPreparedAt, IsReadyFrom};

use crate::fault::BatchFault;
use crate::shifted::Shifted;
use sg_coord::slice_of;
use sg_exec::{Made, prepare};
use sg_flat::RunFault;
use sg_ir::KernelCode;
use sg_layout::Layouts;
use sg_outside::Gate;
use sg_store::Stores;
use sg_words::{Memory, Stop};
use std::alloc::Global;
use std::thread::{Threads, join};

/// What is ready to land of a group: what its members made, the last first, up to the first that is refused; and its refusal, if one is.
#[derive(Drop)]
pub struct Ready {
    pub made: Vec<Made>,
    pub refused: Option<BatchFault>,
}

/// A place in a group of so many members, on so many workers.
#[derive(Clone, Copy, Debug)]
pub struct Place {
    pub at: u32,
    pub members: u32,
    pub workers: u32,
}

/// What members make from the one at this place on. Each has the workers of its slice, in a thread of its own. Want of memory behind the first
/// refusal doesn't count.
#[cycle(readying)]
pub(crate) fn ready_from<R: Threads + Sync, G: Gate + Sync>(
    rt: &R,
    alloc: Global,
    stores: &Stores,
    layouts: &Layouts,
    kernels: &[KernelCode],
    group: &[u32],
    place: Place,
    gate: &G,
) -> Result<Ready, Memory>
    requires there { All (λ number. number < length kernels.now) group.now }
    requires runnable { All (RunnableAt layouts.now.list kernels.now) group.now }
    requires within { place.at + length group.now ≤ place.members }
    requires enough { place.members ≤ place.workers }
    requires few { place.workers ≤ 16 }
    ensures { IsReadyFrom layouts.now.list kernels.now stores.now.list place.at group.now result }
{
    let Some((number, rest)) = group.split_first() else {
        return Ok(nothing(alloc));
    };
    if rest.len() > 0 {
        return ready_beside(
            rt, alloc, stores, layouts, kernels, *number, rest, place, gate,
        );
    }
    let first = prepared_at(rt, alloc, stores, layouts, kernels, *number, place, gate);
    with_first(alloc, place.at, first, Ok(nothing(alloc)))
}

/// What is ready of no member.
fn nothing(alloc: Global) -> Ready
    ensures items { result.made.items ≡ [] }
    ensures refused { result.refused ≡ None }
{
    let made = Vec::new(alloc);
    Ready {
        made,
        refused: None,
    }
}

/// What the member at this place and those behind it make, side by side.
#[cycle(readying)]
fn ready_beside<R: Threads + Sync, G: Gate + Sync>(
    rt: &R,
    alloc: Global,
    stores: &Stores,
    layouts: &Layouts,
    kernels: &[KernelCode],
    number: u32,
    rest: &[u32],
    place: Place,
    gate: &G,
) -> Result<Ready, Memory>
    requires first { number < length kernels.now }
    requires there { All (λ other. other < length kernels.now) rest.now }
    requires can { RunnableAt layouts.now.list kernels.now number }
    requires runnable { All (RunnableAt layouts.now.list kernels.now) rest.now }
    requires within { place.at + 1 + length rest.now ≤ place.members }
    requires enough { place.members ≤ place.workers }
    requires few { place.workers ≤ 16 }
    ensures { IsReadyFrom layouts.now.list kernels.now stores.now.list place.at (number ∷ rest.now) result }
{
    let Place {
        at,
        members,
        workers,
    } = place;
    let (first, later) = join(
        rt,
        move || -> Result<Made, Stop<RunFault>>
            requires { IsSync R.row × IsSync G.row × (number < length kernels.now) × RunnableAt layouts.now.list kernels.now number
                × (at < members) × (members ≤ workers) × (workers ≤ 16) }
            ensures { IsPreparedAt layouts.entry.now.list kernels.entry.now stores.entry.now.list number result }
        {
            let place = Place {
                at,
                members,
                workers,
            };
            prepared_at(rt, alloc, stores, layouts, kernels, number, place, gate)
        },
        move || -> Result<Ready, Memory>
            requires { IsSync R.row × IsSync G.row × All (λ other. other < length kernels.now) rest.now
                × All (RunnableAt layouts.now.list kernels.now) rest.now × (at + 1 + length rest.now ≤ members) × (members ≤ workers) × (workers ≤ 16) }
            ensures { IsReadyFrom layouts.entry.now.list kernels.entry.now stores.entry.now.list (at + 1) rest.entry.now result }
        {
            let place = Place {
                at: at + 1,
                members,
                workers,
            };
            ready_from(rt, alloc, stores, layouts, kernels, rest, place, gate)
        },
    );
    with_first(alloc, at, first, later)
}

/// What the kernel with a number makes, which is the member at this place. It has the workers of its slice, and the first of them passes the gate as
/// the first of the slice.
fn prepared_at<R: Threads + Sync, G: Gate + Sync>(
    rt: &R,
    alloc: Global,
    stores: &Stores,
    layouts: &Layouts,
    kernels: &[KernelCode],
    number: u32,
    place: Place,
    gate: &G,
) -> Result<Made, Stop<RunFault>>
    requires there { number < length kernels.now }
    requires runnable { RunnableAt layouts.now.list kernels.now number }
    requires within { place.at < place.members }
    requires enough { place.members ≤ place.workers }
    requires few { place.workers ≤ 16 }
    ensures { IsPreparedAt layouts.now.list kernels.now stores.now.list number result }
{
    let kernel = &kernels[number as usize];
    let Share { start, workers } = share_of(place);
    let shifted = Shifted { gate, start };
    prepare(rt, alloc, stores, layouts, kernel, workers, &shifted)
}

/// The workers of a member: how many there are, and the number of the first among all.
#[derive(Clone, Copy, Debug)]
pub struct Share {
    pub start: u32,
    pub workers: u32,
}

/// The share of the member at a place: its slice of the workers.
fn share_of(place: Place) -> Share
    requires within { place.at < place.members }
    requires enough { place.members ≤ place.workers }
    requires few { place.workers ≤ 16 }
    ensures start { result.start ≡ slice_start place.workers place.members place.at }
    ensures end { result.start + result.workers ≡ slice_start place.workers place.members (place.at + 1) }
    ensures some { 1 ≤ result.workers }
    ensures few { result.workers ≤ 16 }
{
    let (from, to) = slice_of(place.workers as usize, place.members, place.at);
    Share {
        start: from as u32,
        workers: (to - from) as u32,
    }
}

/// What the member at a place made, in front of what is ready behind it; or its refusal alone.
fn with_first(
    alloc: Global,
    at: u32,
    first: Result<Made, Stop<RunFault>>,
    later: Result<Ready, Memory>,
) -> Result<Ready, Memory>
    ensures { (shapes : List Shape) (kernels : List KernelCode) (stores : List StoreWords) (number : ℕ) (rest : List ℕ) → number < length kernels →
        IsPreparedAt shapes kernels stores number first → IsReadyFrom shapes kernels stores (at + 1) rest later →
        IsReadyFrom shapes kernels stores at (number ∷ rest) result }
{
    match first {
        Ok(made) => behind(later, made),
        Err(why) => refused_at(alloc, at, why),
    }
}

/// The refusal of the member at a place, with nothing ready; or want of memory.
fn refused_at(alloc: Global, at: u32, why: Stop<RunFault>) -> Result<Ready, Memory>
    ensures { (shapes : List Shape) (kernels : List KernelCode) (stores : List StoreWords) (number : ℕ) (rest : List ℕ) → number < length kernels →
        IsPreparedAt shapes kernels stores number (Err why) → IsReadyFrom shapes kernels stores at (number ∷ rest) result }
{
    match why {
        Stop::Refused(fault) => {
            let made = Vec::new(alloc);
            Ok(Ready {
                made,
                refused: Some(BatchFault { at, fault }),
            })
        }
        Stop::Memory => Err(Memory),
    }
}

/// What the member at a place made, in front of what is ready behind it.
fn behind(later: Result<Ready, Memory>, made: Made) -> Result<Ready, Memory>
    ensures { (shapes : List Shape) (kernels : List KernelCode) (stores : List StoreWords) (at number : ℕ) (rest : List ℕ) → number < length kernels →
        IsPreparedAt shapes kernels stores number (Ok made) → IsReadyFrom shapes kernels stores (at + 1) rest later →
        IsReadyFrom shapes kernels stores at (number ∷ rest) result }
{
    match later {
        Ok(ready) => pushed(ready, made),
        Err(Memory) => Err(Memory),
    }
}

/// What is ready, and what one more member made, behind the others.
fn pushed(ready: Ready, made: Made) -> Result<Ready, Memory>
    ensures items { IfOk result (λ now. now.made.items ≡ ready.made.items ++ made ∷ []) }
    ensures refused { IfOk result (λ now. now.refused ≡ ready.refused) }
{
    let mut ready = ready;
    ready.made.push(made)?;
    Ok(ready)
}
