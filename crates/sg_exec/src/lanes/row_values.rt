//! The values of a field at a row of places that are all of one layout, after its last node.

ghost use Rattle.std.specs.Prelude.{◌≡◌, ◌<◌, ◌≤◌, ◌+◌, ◌^◌, ℕ, true, length, get_or, IfSome};
ghost use Rattle.sg_exec.specs.steps.Accessing.{IsValueAt};
ghost use Rattle.sg_exec.specs.steps.Holding.{held_at, AreHeldAt, IsOneOf};
ghost use Rattle.sg_exec.specs.steps.FieldReads.{IsFieldOf, IsFieldIn};

use crate::lanes::dense_step::slots_over;
use crate::lanes::held_row::{HeldRow, words_where};
use crate::lanes::operators::{are_all, first_lane};
use crate::lanes::values::ONE_POINT;
use crate::lanes::view::View;
use sg_coord::numbering;
use sg_ir::places_tell;
use sg_store::{FieldCells, Store};
use std::simd::prelude::*;

/// The cells of a field, from 0, of the layout that a word for a layout and a node names, if the node is its last and it has the field.
#[inline(always)]
pub(crate) fn cells_after<'a>(view: &View<'a>, one: u32, field: u32) -> Option<FieldCells<'a>>
    ensures { IfSome result (λ cells. IsFieldOf view.now one field cells.width cells.words.now) }
{
    if one == 0 {
        return None;
    }
    match view.get((one - 1) / 8) {
        Some(store) => cells_in(store, (one - 1) % 8, field),
        None => None,
    }
}

/// The cells of a field, from 0, of a store, if it has so many nodes and the field.
#[inline(always)]
fn cells_in<'a>(store: &'a Store, node: u32, field: u32) -> Option<FieldCells<'a>>
    ensures { IfSome result (λ cells. IsFieldIn store.now node field cells.width cells.words.now) }
{
    if node as usize != store.layout().nodes() {
        return None;
    }
    if field as usize >= store.layout().shape().fields.len() {
        return None;
    }
    Some(store.field_cells(field))
}

/// The values of a field at places, by its cells: 0 where nothing is active.
#[inline(always)]
pub(crate) fn values_over(
    view: &View,
    row: &HeldRow,
    one: u32,
    field: u32,
    width: u32,
    words: &[u32],
) -> u32x32
    requires held { AreHeldAt view.now row.now }
    requires one { (k : ℕ) → k < 32 → IsOneOf (get_or row.now.kinds k 0) one }
    requires cells { IsFieldOf view.now one field width words.now }
    ensures { (k : ℕ) → k < 32 → IsValueAt view.now (held_at row.now k) field (get_or result k 0) }
{
    // for the laws that they ensure
    numbering(&ONE_POINT);
    places_tell();
    let (_view, _one, _field) = (view, one, field);
    let cells = slots_over(row.parts, width, row.slots);
    words_where(words_at(words, cells), row.kinds)
}

/// The words with these numbers, and 0 past the last.
#[inline(always)]
fn words_at(words: &[u32], numbers: u32x32) -> u32x32
    ensures { (k : ℕ) → k < 32 → get_or result k 0 ≡ get_or words.now (get_or numbers k 0) 0 }
{
    let first = first_lane(numbers);
    if !has_row(words, first) {
        return words_each(words, numbers);
    }
    if !follow(numbers, lane_numbers(), first) {
        return words_each(words, numbers);
    }
    words_from(words, first)
}

/// Whether there are 32 words from one on, whose numbers are words.
#[inline(always)]
fn has_row(words: &[u32], first: u32) -> bool
    ensures room { result ≡ true → first + 32 ≤ length words.now }
    ensures few { result ≡ true → first + 32 ≤ 2 ^ 32 }
{
    if first > 0xffff_ffe0 {
        return false;
    }
    if first as usize + 32 > words.len() {
        return false;
    }
    true
}

/// Whether each lane is a number past the first, by the number of the lane.
#[inline(always)]
fn follow(numbers: u32x32, counts: u32x32, first: u32) -> bool
    requires few { first + 32 ≤ 2 ^ 32 }
    requires counts { (k : ℕ) → k < 32 → get_or counts k 0 ≡ k }
    ensures { result ≡ true → (k : ℕ) → k < 32 → get_or numbers k 0 ≡ first + k }
{
    are_all(numbers - counts, first)
}

/// In each lane its number.
#[inline(always)]
fn lane_numbers() -> u32x32
    ensures { (k : ℕ) → k < 32 → get_or result k 0 ≡ k }
{
    let mut lanes = [0; 32];
    for k in 0..32 {
        lanes[k] = k as u32;
    }
    u32x32::from_array(lanes)
}

/// 32 words from one on.
#[inline(always)]
fn words_from(words: &[u32], first: u32) -> u32x32
    requires { first + 32 ≤ length words.now }
    ensures { (k : ℕ) → k < 32 → get_or result k 0 ≡ get_or words.now (first + k) 0 }
{
    u32x32::from_slice(&words[first as usize..])
}

/// The words with these numbers, one after the other.
#[inline(always)]
fn words_each(words: &[u32], numbers: u32x32) -> u32x32
    ensures { (k : ℕ) → k < 32 → get_or result k 0 ≡ get_or words.now (get_or numbers k 0) 0 }
{
    let numbers = numbers.to_array();
    let mut lanes = [0; 32];
    for k in 0..32 {
        lanes[k] = word_at(words, numbers[k]);
    }
    u32x32::from_array(lanes)
}

/// The word with a number, and 0 past the last.
#[inline(always)]
fn word_at(words: &[u32], number: u32) -> u32
    ensures { result ≡ get_or words.now number 0 }
{
    words.get(number as usize).copied().unwrap_or(0)
}
