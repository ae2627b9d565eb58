//! Rows of items, each with an item in each of 32 columns. The item of a row in a column stands in a list at 32 times the row's number plus
//! the column's.

ghost use Rattle.std.specs.Prelude.{◌≡◌, ◌<◌, ◌≤◌, ◌+◌, ◌*◌, ℕ, length, get_or, OnOk, IsTrue};
ghost use Rattle.sg_exec.specs.steps.Rows.{item_in, On, IsPut};

use crate::lanes::columns::Columns;
use sg_words::Memory;
use std::simd::prelude::*;

/// Makes a list long enough for a row, by items `none`. False if memory runs out.
#[inline(always)]
pub(crate) fn reaches<T: Copy>(items: &mut Vec<T>, number: u32, none: T) -> bool
    ensures long { IsTrue result → number * 32 + 32 ≤ length items.new.items }
    ensures longer { length items.old.items ≤ length items.new.items }
    ensures most { (bound : ℕ) → length items.old.items ≤ bound → number * 32 + 32 ≤ bound → length items.new.items ≤ bound }
    ensures same { (place : ℕ) → get_or items.new.items place none ≡ get_or items.old.items place none }
{
    let count = number as usize * 32 + 32;
    if count <= items.len() {
        return true;
    }
    match lengthen(items, count, none) {
        Ok(()) => true,
        Err(_) => false,
    }
}

/// Room for so many rows is made at once.
const FEW_ROWS: usize = 256;

/// Makes a list so long, by items `none`. The items aren't passed to it, so that they can stay in registers.
#[cold]
#[inline(never)]
fn lengthen<T: Copy>(items: &mut Vec<T>, count: usize, none: T) -> Result<(), Memory>
    ensures ok { OnOk result (count ≤ length items.new.items) }
    ensures longer { length items.old.items ≤ length items.new.items }
    ensures most { (bound : ℕ) → length items.old.items ≤ bound → count ≤ bound → length items.new.items ≤ bound }
    ensures same { (place : ℕ) → get_or items.new.items place none ≡ get_or items.old.items place none }
{
    if items.len() < count {
        items.reserve((FEW_ROWS * 32).saturating_sub(items.len()))?;
        items.resize(count, none)?;
    }
    Ok(())
}

/// Makes all items of a list `none`.
#[inline(always)]
pub(crate) fn reset<T: Copy>(items: &mut Vec<T>, none: T)
    ensures none { (place : ℕ) → get_or items.new.items place none ≡ none }
    ensures long { length items.new.items ≡ length items.old.items }
{
    reset_all(items.as_mut_slice(), none);
}

/// Makes all items of a slice `none`.
#[inline(always)]
fn reset_all<T: Copy>(items: &mut [T], none: T)
    ensures none { (place : ℕ) → get_or items.new place none ≡ none }
    ensures long { length items.new ≡ length items.old }
{
    for place in 0..items.len() {
        items[place] = none;
    }
}

/// A row of words.
#[inline(always)]
pub(crate) fn row(items: &[u32], number: u32) -> u32x32
    requires room { number * 32 + 32 ≤ length items.now }
    ensures { (k : ℕ) → k < 32 → get_or result k 0 ≡ item_in items.now 0 k number }
{
    u32x32::from_slice(&items[number as usize * 32..])
}

/// A row of words becomes another in some columns.
#[inline(always)]
pub(crate) fn put_row(items: &mut [u32], columns: &Columns, to: u32, words: u32x32)
    requires room { to * 32 + 32 ≤ length items.old }
    ensures { IsPut (λ k word. word ≡ get_or words k 0) (On columns.now.on) to 0 items.old items.new }
{
    let place = to as usize * 32;
    if columns.all {
        words.copy_to_slice(&mut items[place..]);
    } else {
        let olds = u32x32::from_slice(&items[place..]);
        columns
            .on
            .simd_eq(u32x32::splat(0))
            .select(olds, words)
            .copy_to_slice(&mut items[place..]);
    }
}

/// A row of words, and 0 for what is past the end of the list.
#[inline(always)]
pub(crate) fn row_or_zero(items: &[u32], number: u32) -> u32x32
    ensures { (k : ℕ) → k < 32 → get_or result k 0 ≡ item_in items.now 0 k number }
{
    if number as usize * 32 + 32 <= items.len() {
        row(items, number)
    } else {
        row_past(items, number)
    }
}

/// A row of words of which some may be past the end of the list.
#[cold]
#[inline(never)]
fn row_past(items: &[u32], number: u32) -> u32x32
    ensures { (k : ℕ) → k < 32 → get_or result k 0 ≡ item_in items.now 0 k number }
{
    let mut words = [0; 32];
    for k in 0..32 {
        words[k] = word_in(items, number, k);
    }
    u32x32::from_array(words)
}

/// A word of a row, and 0 past the end of the list.
#[inline(always)]
pub(crate) fn word_in(items: &[u32], number: u32, k: usize) -> u32
    requires column { k < 32 }
    ensures { result ≡ item_in items.now 0 k number }
{
    items.get(number as usize * 32 + k).copied().unwrap_or(0)
}
