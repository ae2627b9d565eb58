//! Whether kernels are worth running at the same time.

ghost use Rattle.std.specs.Prelude.{◌≤◌, length};

use sg_activate::workers_for;
use sg_exec::effort;
use sg_ir::KernelCode;
use sg_outside::Gate;
use sg_store::Stores;

/// Whether the kernels of these numbers, that don't touch each other, are worth running at the same time: where the gate may hold a worker, or where
/// by what they have to do each on its slice of the workers is done no later than all of them one after the other, each on all workers, and threads
/// of their own have enough to do. It promises nothing.
pub fn is_worth<G: Gate>(
    stores: &Stores,
    kernels: &[KernelCode],
    group: &[u32],
    workers: u32,
    gate: &G,
) -> bool
    requires some { 1 ≤ length group.now }
    requires few_members { length group.now ≤ 4 }
    requires enough { length group.now ≤ workers }
{
    if gate.may_hold() {
        return true;
    }
    let share = workers / group.len() as u32;
    let mut all = 0_usize;
    let mut most = 0_usize;
    let mut together = 0_usize;
    let mut in_turn = 0_usize;
    for number in group {
        if let Some(kernel) = kernels.get(*number as usize) {
            let steps = effort(stores, kernel);
            all = all.saturating_add(steps);
            most = most.max(steps);
            together = together.max(time_of(steps, share));
            in_turn = in_turn.saturating_add(time_of(steps, workers));
        }
    }
    together <= in_turn && workers_for(all.saturating_sub(most), workers) > 1
}

/// About how many instructions the busiest of so many workers has of so many.
fn time_of(steps: usize, workers: u32) -> usize
    requires { 1 ≤ workers }
{
    steps / workers_for(steps, workers) as usize
}
