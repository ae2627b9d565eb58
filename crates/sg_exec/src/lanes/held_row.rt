//! What place registers hold, as words: for each register and each of 32 columns one word for the layout and the node together, and the
//! part and the slot of the spot.

ghost use Rattle.std.specs.Prelude.{◌≡◌, ◌<◌, ◌≤◌, ◌==◌, ◌^◌, ℕ, None, Some, get_or, nat_lt, IfSome, if◌then◌else◌};
ghost use Rattle.sg_words.specs.Words.{number};
ghost use Rattle.sg_words.specs.declared.operators.Ty.TheVariants as ty;
ghost use Rattle.sg_coord.specs.Coord.{is_on_axis};
ghost use Rattle.sg_exec.specs.steps.Rows.{On};
ghost use Rattle.sg_exec.specs.steps.Holding.{held_of, held_at, FitsWord, HasLayoutWord, IsOneOf};

use crate::lanes::columns::Columns;
use crate::lanes::held::Held;
use crate::lanes::operators::are_all;
use sg_store::Spot;
use std::simd::prelude::*;

/// What a place register holds in 32 columns: a word for the layout and the node, which is 0 where it holds nothing, and the part and
/// the slot of each spot.
#[derive(Clone, Copy)]
pub struct HeldRow {
    pub kinds: u32x32,
    pub parts: u32x32,
    pub slots: u32x32,
}

/// The same in one column.
#[derive(Clone, Copy, PartialEq, Eq)]
pub struct HeldWords {
    pub kind: u32,
    pub part: u32,
    pub slot: u32,
}

/// What three words stand for.
#[inline(always)]
pub(crate) fn held_of(kind: u32, part: u32, slot: u32) -> Option<Held>
    ensures is { result ≡ held_of kind part slot }
    ensures layout { IfSome result HasLayoutWord }
{
    if kind == 0 {
        None
    } else {
        Some(held_by(kind, part, slot))
    }
}

#[inline(always)]
fn held_by(kind: u32, part: u32, slot: u32) -> Held
    requires { 1 ≤ kind }
    ensures is { held_of kind part slot ≡ Some result }
    ensures layout { HasLayoutWord result }
{
    Held {
        layout: (kind - 1) / 8,
        spot: Spot {
            node: (kind - 1) % 8,
            part,
            slot,
        },
    }
}

/// The same where each word that isn't 0 is known to be one.
#[inline(always)]
pub(crate) fn held_where(one: Option<u32>, kind: u32, part: u32, slot: u32) -> Option<Held>
    requires { IfSome one (IsOneOf kind) }
    ensures is { result ≡ held_of kind part slot }
    ensures layout { IfSome result HasLayoutWord }
{
    match one {
        Some(it) => {
            if kind == 0 {
                None
            } else {
                held_of(it, part, slot)
            }
        }
        None => held_of(kind, part, slot),
    }
}

/// The words for what a place register holds.
#[inline(always)]
pub(crate) fn words_of(held: Option<Held>) -> HeldWords
    requires { IfSome held FitsWord }
    ensures { held_of result.kind result.part result.slot ≡ held }
{
    match held {
        Some(held) => words_for(held),
        None => HeldWords {
            kind: 0,
            part: 0,
            slot: 0,
        },
    }
}

#[inline(always)]
fn words_for(held: Held) -> HeldWords
    requires { FitsWord held }
    ensures { held_of result.kind result.part result.slot ≡ Some held }
{
    HeldWords {
        kind: held.layout * 8 + held.spot.node + 1,
        part: held.spot.part,
        slot: held.spot.slot,
    }
}

/// The same words in all columns.
#[inline(always)]
pub(crate) fn in_all(words: HeldWords) -> HeldRow
    ensures { (k : ℕ) → k < 32 → held_at result k ≡ held_of words.kind words.part words.slot }
{
    HeldRow {
        kinds: u32x32::splat(words.kind),
        parts: u32x32::splat(words.part),
        slots: u32x32::splat(words.slot),
    }
}

/// What is held where a word, as an i32, is from 0 to below an extent, and nothing elsewhere.
#[inline(always)]
pub(crate) fn checked(row: &HeldRow, extent: u32, words: u32x32) -> HeldRow
    ensures { (k : ℕ) → k < 32 → held_at result k ≡ (if is_on_axis extent (number ty.I32 (get_or words k 0)) then held_at row.now k else None) }
{
    HeldRow {
        kinds: kinds_on_axis(row.kinds, extent, words),
        parts: row.parts,
        slots: row.slots,
    }
}

/// Words where others, as i32, are from 0 to below an extent, and 0 elsewhere.
#[inline(always)]
fn kinds_on_axis(kinds: u32x32, extent: u32, words: u32x32) -> u32x32
    ensures { (k : ℕ) → k < 32 → get_or result k 0 ≡ (if is_on_axis extent (number ty.I32 (get_or words k 0)) then get_or kinds k 0 else 0) }
{
    words
        .simd_lt(u32x32::splat(axis_end(extent)))
        .select(kinds, u32x32::splat(0))
}

/// The word below which a word is where it, as an i32, is from 0 to below an extent.
#[inline(always)]
fn axis_end(extent: u32) -> u32
    ensures { (word : ℕ) → word < 2 ^ 32 → nat_lt word result ≡ is_on_axis extent (number ty.I32 word) }
{
    if extent < 0x8000_0000 {
        extent
    } else {
        0x8000_0000
    }
}

/// What is held in some columns, and nothing in the others.
#[inline(always)]
pub(crate) fn held_in_some(row: &HeldRow, columns: &Columns) -> HeldRow
    ensures on { (k : ℕ) → k < 32 → On columns.now.on k → held_at result k ≡ held_at row.now k }
    ensures others { (k : ℕ) → k < 32 → (On columns.now.on k → ⊥) → held_at result k ≡ None }
{
    HeldRow {
        kinds: words_where(row.kinds, columns.on),
        parts: row.parts,
        slots: row.slots,
    }
}

/// Words where others aren't 0, and 0 elsewhere.
#[inline(always)]
pub(crate) fn words_where(words: u32x32, on: u32x32) -> u32x32
    ensures { (k : ℕ) → k < 32 → get_or result k 0 ≡ (if get_or on k 0 == 0 then 0 else get_or words k 0) }
{
    on.simd_eq(u32x32::splat(0)).select(u32x32::splat(0), words)
}

/// The one word that all of a row are which aren't 0, if there is one.
#[inline(always)]
pub(crate) fn one_of(kinds: u32x32) -> Option<u32>
    ensures { IfSome result (λ one. (k : ℕ) → k < 32 → IsOneOf (get_or kinds k 0) one) }
{
    let one = kinds.reduce_or();
    if are_all(filled(kinds, one), one) {
        Some(one)
    } else {
        None
    }
}

/// A word where others are 0.
#[inline(always)]
fn filled(kinds: u32x32, one: u32) -> u32x32
    ensures { (k : ℕ) → k < 32 → get_or result k 0 ≡ (if get_or kinds k 0 == 0 then one else get_or kinds k 0) }
{
    kinds
        .simd_eq(u32x32::splat(0))
        .select(u32x32::splat(one), kinds)
}
