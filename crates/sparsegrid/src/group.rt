//! Neighbouring runs of kernels that don't touch each other, performed at the same time.

ghost use Rattle.std.specs.Prelude.{◌≡◌, ◌≤◌, ◌<◌, ◌++◌, ◌∷◌, [], All, Err, IfOk, OnOk, length};
ghost use Rattle.std.specs.List.{AllByRecursion};
ghost use Rattle.sg_words.specs.declared.memory.Stop.TheVariants as stop;
ghost use Rattle.sg_flat.specs.declared.state.FlatState.{FlatState};
ghost use Rattle.sg_exec.specs.Standing.{StandForState};
ghost use Rattle.sg_batch.specs.declared.fault.BatchFault.{BatchFault};
ghost use Rattle.sg_batch.specs.Batches.{Batched, StaysAtMemory, group_end, members};
ghost use Rattle.sg_batch.specs.Independent.{AreApart, IsLongestFront};
ghost use Rattle.sg_batch.specs.steps.Passing.{PassesFlat};
ghost use Rattle.sg_session.specs.Compiled.{IsTask};
ghost use Rattle.sparsegrid.specs.steps.Grouping.{IsGroup, most_members, runs_front};

use sg_batch::{BatchFault, group_of, is_worth, run_batch};
use sg_exec::effort;
use sg_flat::Domain;
use sg_ir::KernelCode;
use sg_outside::Gate;
use sg_session::{Compiled, Session, Task};
use sg_store::Stores;
use sg_words::{Memory, Stop};
use std::alloc::Global;
use std::thread::Threads;

/// The most kernels that run at the same time.
const MOST_MEMBERS: u32 = 4;

/// With fewer instructions to do a kernel isn't worth a thread beside others.
const SOMETHING: usize = 65_536;

/// The numbers of the kernels of the longest group at the front of tasks, on so many workers: one alone where only one runs there or it touches
/// what the next one writes, and none where the first task isn't a run.
pub(crate) fn group_at(
    alloc: Global,
    compiled: &Compiled,
    tasks: &[Task],
    workers: u32,
) -> Result<Vec<u32>, Memory>
    requires there { AllByRecursion (IsTask compiled.now) tasks.now }
    requires some { 1 ≤ workers }
    ensures { IfOk result (λ group. IsGroup compiled.now tasks.now workers group.items) }
{
    let most = most_of(workers);
    let mut order = runs_at(alloc, tasks, most)?;
    let count = count_of(compiled, order.as_slice(), most);
    order.truncate(count as usize);
    Ok(order)
}

/// How many kernels may run at the same time on so many workers.
fn most_of(workers: u32) -> u32
    ensures { result ≡ most_members workers }
{
    if workers < MOST_MEMBERS {
        workers
    } else {
        MOST_MEMBERS
    }
}

/// How many of the kernels of an order, from the first on and at most so many, don't touch each other.
fn count_of(compiled: &Compiled, order: &[u32], most: u32) -> u32
    requires there { All (λ number. number < length compiled.now.kernels) order.now }
    requires one { 1 ≤ most }
    requires few { most ≤ 4 }
    ensures { IsLongestFront compiled.now.kernels order.now most result }
{
    if order.len() == 0 {
        return 0;
    }
    group_of(compiled.kernels.as_slice(), order, most)
}

/// The numbers of the kernels of the runs at the front of tasks, at most so many.
fn runs_at(alloc: Global, tasks: &[Task], most: u32) -> Result<Vec<u32>, Memory>
    ensures { IfOk result (λ order. order.items ≡ runs_front tasks.now most) }
{
    let mut order = Vec::new(alloc);
    for task in tasks {
        let Task::Run { kernel } = task else {
            return Ok(order);
        };
        if most as usize <= order.len() {
            return Ok(order);
        }
        add_number(&mut order, *kernel)?;
    }
    Ok(order)
}

fn add_number(order: &mut Vec<u32>, number: u32) -> Result<(), Memory>
    ensures { OnOk result (order.new.items ≡ order.old.items ++ number ∷ []) }
{
    order.push(number)?;
    Ok(())
}

/// Performs the runs of a group on a session.
pub(crate) fn run_group<R: Threads + Sync, G: Gate + Sync>(
    rt: &R,
    alloc: Global,
    session: &mut Session,
    group: &[u32],
    workers: u32,
    gate: &G,
) -> Result<(), Stop<BatchFault>>
    requires there { All (λ number. number < length session.old.compiled.kernels) group.now }
    requires apart { AreApart (members session.old.compiled.kernels group.now) }
    requires some { 1 ≤ length group.now }
    requires few_members { length group.now ≤ 4 }
    requires enough { length group.now ≤ workers }
    requires few { workers ≤ 16 }
    ensures answer { (state : FlatState) → StandForState session.old.compiled.layouts session.old.stores state →
        Batched session.old.compiled.layouts session.new.stores result (group_end session.old.compiled.layouts 0 state (members session.old.compiled.kernels group.now)) }
    ensures flat { (state : FlatState) → StandForState session.old.compiled.layouts session.old.stores state →
        PassesFlat session.old.compiled.layouts result state (members session.old.compiled.kernels group.now) }
    ensures place { (fault : BatchFault) → result ≡ Err (stop.Refused fault) → fault.at < length group.now }
    ensures compiled { session.new.compiled ≡ session.old.compiled }
    ensures stays { StaysAtMemory result session.old.stores session.new.stores }
{
    run_members(
        rt,
        alloc,
        &session.compiled,
        &mut session.stores,
        group,
        workers,
        gate,
    )
}

/// Runs the kernels of a group of a compiled program over its stores.
fn run_members<R: Threads + Sync, G: Gate + Sync>(
    rt: &R,
    alloc: Global,
    compiled: &Compiled,
    stores: &mut Stores,
    group: &[u32],
    workers: u32,
    gate: &G,
) -> Result<(), Stop<BatchFault>>
    requires there { All (λ number. number < length compiled.now.kernels) group.now }
    requires apart { AreApart (members compiled.now.kernels group.now) }
    requires some { 1 ≤ length group.now }
    requires few_members { length group.now ≤ 4 }
    requires enough { length group.now ≤ workers }
    requires few { workers ≤ 16 }
    ensures answer { (state : FlatState) → StandForState compiled.now.layouts stores.old.list state →
        Batched compiled.now.layouts stores.new.list result (group_end compiled.now.layouts 0 state (members compiled.now.kernels group.now)) }
    ensures flat { (state : FlatState) → StandForState compiled.now.layouts stores.old.list state →
        PassesFlat compiled.now.layouts result state (members compiled.now.kernels group.now) }
    ensures place { (fault : BatchFault) → result ≡ Err (stop.Refused fault) → fault.at < length group.now }
    ensures stays { StaysAtMemory result stores.old.list stores.new.list }
{
    let kernels = compiled.kernels.as_slice();
    run_batch(
        rt,
        alloc,
        stores,
        &compiled.layouts,
        kernels,
        group,
        workers,
        gate,
    )
}

/// Whether some run of a compiled program may be worth a thread beside others: there is a second worker, and a kernel walks or has something to do
/// in its box, or the gate may hold a worker. It promises nothing.
pub(crate) fn may_ever_group<G: Gate>(session: &Session, workers: u32, gate: &G) -> bool {
    2 <= workers && (gate.may_hold() || some_is_ever_much(session))
}

/// Whether a kernel walks, or has something to do in its box.
fn some_is_ever_much(session: &Session) -> bool {
    for kernel in session.compiled.kernels.as_slice() {
        if is_ever_much(session, kernel) {
            return true;
        }
    }
    false
}

/// Whether this kernel does.
fn is_ever_much(session: &Session, kernel: &KernelCode) -> bool {
    match kernel.domain {
        Domain::Walk { layout: _layout } => true,
        Domain::Range { lo: _lo, hi: _hi } => SOMETHING <= effort(&session.stores, kernel),
    }
}

/// Whether there may be a group at the front of tasks that is worth it: the first two tasks are runs that have each something to do, or the gate may
/// hold a worker. It takes little time, and promises nothing.
pub(crate) fn may_group<G: Gate>(session: &Session, tasks: &[Task], gate: &G) -> bool {
    is_much(session, tasks.get(1), gate) && is_much(session, tasks.get(0), gate)
}

/// Whether a task is a run that has something to do, or that a gate may hold.
fn is_much<G: Gate>(session: &Session, task: Option<&Task>, gate: &G) -> bool {
    match task {
        Some(Task::Run { kernel }) => gate.may_hold() || SOMETHING <= effort_of(session, *kernel),
        _ => false,
    }
}

/// About how many instructions the kernel with a number has to do.
fn effort_of(session: &Session, number: u32) -> usize {
    match session.compiled.kernels.as_slice().get(number as usize) {
        Some(kernel) => effort(&session.stores, kernel),
        None => 0,
    }
}

/// Whether the kernels of a group are performed at the same time.
pub(crate) fn is_beside<G: Gate>(session: &Session, group: &[u32], workers: u32, gate: &G) -> bool
    requires few_members { length group.now ≤ 4 }
    requires enough { length group.now ≤ workers }
{
    let kernels = session.compiled.kernels.as_slice();
    2 <= group.len() && is_worth(&session.stores, kernels, group, workers, gate)
}
