//! How many neighbouring kernels make a batch.

ghost use Rattle.std.specs.Prelude.{◌≡◌, ◌≤◌, ◌<◌, All, length};
ghost use Rattle.std.specs.List.{list_all};
ghost use Rattle.sg_batch.specs.Batches.{members};
ghost use Rattle.sg_batch.specs.Independent.{are_independent, IsLongestFront};

use crate::touching::independent;
use sg_ir::KernelCode;

/// The length of the longest front of an order of kernels, of at most so many members, from 1 to 4, that don't touch what another one writes. The
/// numbers are those of the kernels, from 0; the order isn't empty.
pub fn group_of(kernels: &[KernelCode], order: &[u32], most: u32) -> u32
    requires there { All (λ number. number < length kernels.now) order.now }
    requires some { 1 ≤ length order.now }
    requires one { 1 ≤ most }
    requires few { most ≤ 4 }
    ensures { IsLongestFront kernels.now order.now most result }
{
    let mut count = 0_u32;
    for number in order {
        if most <= count {
            return count;
        }
        let before = &order[..count as usize];
        let kernel = &kernels[*number as usize];
        if !joins(kernels, before, kernel) {
            return count;
        }
        count += 1;
    }
    count
}

/// Whether a kernel is independent of all before it.
fn joins(kernels: &[KernelCode], before: &[u32], kernel: &KernelCode) -> bool
    requires { All (λ other. other < length kernels.now) before.now }
    ensures { result ≡ list_all (are_independent kernel.now) (members kernels.now before.now) }
{
    for other in before {
        let next = &kernels[*other as usize];
        if !independent(kernel, next) {
            return false;
        }
    }
    true
}
