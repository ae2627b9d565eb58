//! Which of the 32 columns of rows take part.

ghost use Rattle.std.specs.Prelude.{◌≡◌, ◌<◌, ◌≤◌, ◌&&◌, ℕ, false, ◌==◌, not, nat_lt, count_by, length, IsTrue};
ghost use Rattle.sg_exec.specs.steps.Rows.{is_on, On};

use std::simd::prelude::*;

/// Some of the 32 columns of rows: those whose lane isn't 0. If `all` is true, all of them.
#[derive(Clone, Copy)]
pub struct Columns {
    pub on: u32x32,
    pub all: bool,
    ghost long: { length on ≡ 32 },
    ghost whole: { IsTrue all → (k : ℕ) → k < 32 → On on k },
}

/// So many columns, from the first on.
pub(crate) fn first_columns(count: usize) -> Columns
    requires few { count ≤ 32 }
    ensures { (k : ℕ) → k < count → On result.on k }
{
    with_lanes(first_lanes(count))
}

fn first_lanes(count: usize) -> u32x32
    requires few { count ≤ 32 }
    ensures { (k : ℕ) → k < count → On result k }
{
    let mut lanes = [0; 32];
    for k in 0..count {
        lanes[k] = 1;
    }
    u32x32::from_array(lanes)
}

/// Those of some columns in which a row isn't 0.
#[inline(always)]
pub(crate) fn where_set(columns: &Columns, row: u32x32) -> Columns
    ensures { (k : ℕ) → is_on result.on k ≡ (is_on columns.now.on k && is_on row k) }
{
    with_lanes(set_lanes(columns.on, row))
}

/// Those of some columns in which a row is 0.
#[inline(always)]
pub(crate) fn where_zero(columns: &Columns, row: u32x32) -> Columns
    ensures { (k : ℕ) → is_on result.on k ≡ (is_on columns.now.on k && not (is_on row k)) }
{
    with_lanes(zero_lanes(columns.on, row))
}

/// The columns whose lanes aren't 0.
#[inline(always)]
fn with_lanes(on: u32x32) -> Columns
    ensures { result.on ≡ on }
{
    Columns {
        on,
        all: are_set(on),
    }
}

#[inline(always)]
fn set_lanes(on: u32x32, row: u32x32) -> u32x32
    ensures { (k : ℕ) → is_on result k ≡ (is_on on k && is_on row k) }
{
    row.simd_eq(u32x32::splat(0)).select(u32x32::splat(0), on)
}

#[inline(always)]
fn zero_lanes(on: u32x32, row: u32x32) -> u32x32
    ensures { (k : ℕ) → is_on result k ≡ (is_on on k && not (is_on row k)) }
{
    row.simd_eq(u32x32::splat(0)).select(on, u32x32::splat(0))
}

/// Whether no lane is 0.
#[inline(always)]
fn are_set(on: u32x32) -> bool
    ensures { IsTrue result → (k : ℕ) → k < 32 → On on k }
{
    on.simd_eq(u32x32::splat(0)).to_bitmask() == 0
}

/// Whether there is a column among these.
#[inline(always)]
pub(crate) fn has_some(columns: &Columns) -> bool
    ensures { result ≡ false → (k : ℕ) → k < 32 → On columns.now.on k → ⊥ }
{
    u32x32::splat(0).simd_lt(columns.on).to_bitmask() != 0
}

/// Whether there are several columns among these.
#[inline(always)]
pub(crate) fn has_several(columns: &Columns) -> bool
    ensures { result ≡ nat_lt 1 (count_by (λ word. not (word == 0)) columns.now.on) }
{
    columns
        .on
        .simd_ne(u32x32::splat(0))
        .to_bitmask()
        .count_ones()
        > 1
}
