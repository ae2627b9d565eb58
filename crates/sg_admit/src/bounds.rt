//! The turns of inner loops, and the boxes of kernels.

ghost use Rattle.std.specs.Prelude.{◌≡◌, ◌≤◌, ◌^◌, ◌-ℤ◌, IfSome};
ghost use Rattle.sg_words.specs.declared.operators.Ty.TheVariants as ty;
ghost use Rattle.sg_words.specs.Words as words;
ghost use Rattle.sg_layout.specs.Axes.{count_of};
ghost use Rattle.std.specs.List.{list_all};
ghost use Rattle.sg_admit.specs.Bounds.{is_constant_range};
ghost use Rattle.sg_admit.specs.Limits.{most_loop_turns};
ghost use Rattle.sg_admit.specs.steps.Reading.{turns_if_constant, turns_if_few};

use crate::constants::constant;
use sg_types::TypedRange;
use sg_words::{Ty, number};

/// How many inner loops may stand in one another.
const MOST_LOOPS: usize = 4;

/// How many turns the inner loops round a statement may make in one iteration.
const MOST_TURNS: u64 = 4096;

/// How many numbers a range has whose bounds are constant.
pub(crate) fn turns_of(range: &TypedRange) -> Option<u64>
    ensures value { result ≡ turns_if_constant range.now }
    ensures few { IfSome result (λ turns. turns ≤ 2 ^ 33) }
{
    let lo = constant(&range.lo)?;
    let hi = constant(&range.hi)?;
    Some(count_between(lo, hi))
}

/// How many numbers there are from `lo` up to below `hi`, as words of I32.
pub(crate) fn count_between(lo: u32, hi: u32) -> u64
    ensures value { result ≡ count_of (words.number ty.I32 hi -ℤ words.number ty.I32 lo) }
    ensures few { result ≤ 2 ^ 33 }
{
    let count = number(Ty::I32, hi) - number(Ty::I32, lo);
    if count < 0 { 0 } else { count as u64 }
}

/// The turns that an inner loop makes with those round it, if there are at most as many of both as there may be.
pub(crate) fn turns_within(depth: usize, turns: u64, own: Option<u64>) -> Option<u64>
    requires turns { turns ≤ most_loop_turns }
    requires own { IfSome own (λ own. own ≤ 2 ^ 33) }
    ensures value { result ≡ turns_if_few depth turns own }
    ensures few { IfSome result (λ product. product ≤ most_loop_turns) }
    ensures shallow { IfSome result (λ product. depth ≤ 3) }
{
    let own = own?;
    let product = own * turns;
    if depth < MOST_LOOPS && product <= MOST_TURNS {
        Some(product)
    } else {
        None
    }
}

pub(crate) fn are_constant(ranges: &[TypedRange]) -> bool
    ensures { result ≡ list_all is_constant_range ranges.now }
{
    for range in ranges {
        if turns_of(range).is_none() {
            return false;
        }
    }
    true
}
