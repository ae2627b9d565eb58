//! Steps and values of a row of places.

ghost use Rattle.std.specs.Prelude.{◌≡◌, ◌<◌, ℕ, get_or, IfSome, IsTrue};
ghost use Rattle.sg_exec.specs.steps.Rows.{On};
ghost use Rattle.sg_exec.specs.steps.Machines.{IsHeld, IsStoreOf, StepsDown};
ghost use Rattle.sg_exec.specs.steps.Accessing.{TellsActive, IsValueAt};
ghost use Rattle.sg_exec.specs.steps.Holding.{held_of, held_at, AreHeldAt, HasLayoutWord, IsOneOf, IsStep};

use crate::lanes::columns::Columns;
use crate::lanes::dense_step::{dense_after, row_over};
use crate::lanes::held::Held;
use crate::lanes::held_row::{HeldRow, HeldWords, held_in_some, held_where, one_of, words_of};
use crate::lanes::known::{Known, known_of};
use crate::lanes::row_values::{cells_after, values_over};
use crate::lanes::spots::{below, is_cell_held, value_held};
use crate::lanes::values::ONE_POINT;
use crate::lanes::view::View;
use sg_coord::numbering;
use sg_ir::places_tell;
use sg_store::laws::cells_are_active;
use std::simd::prelude::*;

/// The places one node below, over words, in some columns.
#[inline(always)]
pub(crate) fn row_below(
    view: &View,
    columns: &Columns,
    row: &HeldRow,
    node: u32,
    offsets: u32x32,
) -> HeldRow
    requires held { AreHeldAt view.now row.now }
    ensures { (k : ℕ) → k < 32 → On columns.now.on k → StepsDown view.now node (get_or offsets k 0) (held_at row.now k) (held_at result k) }
{
    let here = held_in_some(row, columns);
    all_below(view, &here, node, offsets)
}

/// The same in all columns.
#[inline(always)]
fn all_below(view: &View, row: &HeldRow, node: u32, offsets: u32x32) -> HeldRow
    requires held { AreHeldAt view.now row.now }
    ensures { (k : ℕ) → k < 32 → StepsDown view.now node (get_or offsets k 0) (held_at row.now k) (held_at result k) }
{
    match one_of(row.kinds) {
        Some(one) => alike_below(view, one, row, node, offsets),
        None => each_below(view, None, row, node, offsets),
    }
}

/// The same, where all that is held is of one layout and node.
#[inline(always)]
fn alike_below(view: &View, one: u32, row: &HeldRow, node: u32, offsets: u32x32) -> HeldRow
    requires held { AreHeldAt view.now row.now }
    requires one { (k : ℕ) → k < 32 → IsOneOf (get_or row.now.kinds k 0) one }
    ensures { (k : ℕ) → k < 32 → StepsDown view.now node (get_or offsets k 0) (held_at row.now k) (held_at result k) }
{
    match dense_after(view, one, node) {
        Some(size) => row_over(view, row, one, node, size, offsets),
        None => each_below(view, Some(one), row, node, offsets),
    }
}

/// The same. Where all that is held is of one layout and node, that is asked once.
#[inline(always)]
fn each_below(view: &View, one: Option<u32>, row: &HeldRow, node: u32, offsets: u32x32) -> HeldRow
    requires held { AreHeldAt view.now row.now }
    requires one { IfSome one (λ one. (k : ℕ) → k < 32 → IsOneOf (get_or row.now.kinds k 0) one) }
    ensures { (k : ℕ) → k < 32 → StepsDown view.now node (get_or offsets k 0) (held_at row.now k) (held_at result k) }
{
    let known = known_by(view, one);
    let (kinds, parts, slots) = (
        row.kinds.to_array(),
        row.parts.to_array(),
        row.slots.to_array(),
    );
    let over = offsets.to_array();
    let mut below_kinds = [0; 32];
    let mut below_parts = [0; 32];
    let mut below_slots = [0; 32];
    let nothing = HeldWords {
        kind: 0,
        part: 0,
        slot: 0,
    };
    let mut last = Step {
        from: nothing,
        offset: 0,
        below: nothing,
    };
    for k in 0..32 {
        let from = HeldWords {
            kind: kinds[k],
            part: parts[k],
            slot: slots[k],
        };
        last = step_from(view, known, one, last, from, node, over[k]);
        below_kinds[k] = last.below.kind;
        below_parts[k] = last.below.part;
        below_slots[k] = last.below.slot;
    }
    HeldRow {
        kinds: u32x32::from_array(below_kinds),
        parts: u32x32::from_array(below_parts),
        slots: u32x32::from_array(below_slots),
    }
}

/// A step that was taken: from what is held, over an offset, to what is held below.
#[derive(Clone, Copy)]
pub struct Step {
    pub from: HeldWords,
    pub offset: u32,
    pub below: HeldWords,
}

/// The step from what is held over an offset, which may be the one that was taken last.
#[inline(always)]
fn step_from(
    view: &View,
    known: Option<Known>,
    one: Option<u32>,
    last: Step,
    from: HeldWords,
    node: u32,
    offset: u32,
) -> Step
    requires known { IfSome known (λ known. IsStoreOf view.now known.layout known.store.now) }
    requires one { IfSome one (IsOneOf from.kind) }
    requires held { IfSome (held_of from.kind from.part from.slot) (IsHeld view.now) }
    requires last { IsStep view.now node last }
    ensures step { IsStep view.now node result }
    ensures from { result.from ≡ from }
    ensures offset { result.offset ≡ offset }
{
    if is_from(last, from, offset) {
        return last;
    }
    let held = held_where(one, from.kind, from.part, from.slot);
    let below = words_below(view, known, held, node, offset);
    Step {
        from,
        offset,
        below,
    }
}

/// Whether a step is from these words over this offset.
#[inline(always)]
fn is_from(step: Step, from: HeldWords, offset: u32) -> bool
    ensures from { IsTrue result → step.from ≡ from }
    ensures offset { IsTrue result → step.offset ≡ offset }
{
    step.from == from && step.offset == offset
}

/// The words for the place one node below another.
#[inline(always)]
fn words_below(
    view: &View,
    known: Option<Known>,
    held: Option<Held>,
    node: u32,
    offset: u32,
) -> HeldWords
    requires known { IfSome known (λ known. IsStoreOf view.now known.layout known.store.now) }
    requires held { IfSome held (IsHeld view.now) }
    requires layout { IfSome held HasLayoutWord }
    ensures { StepsDown view.now node offset held (held_of result.kind result.part result.slot) }
{
    words_of(below(view, known, held, node, offset))
}

/// The store of the layout that a word for a layout and a node names.
#[inline(always)]
fn known_by<'a>(view: &View<'a>, one: Option<u32>) -> Option<Known<'a>>
    ensures { IfSome result (λ known. IsStoreOf view.now known.layout known.store.now) }
{
    match one {
        Some(kind) => {
            if kind == 0 {
                None
            } else {
                known_of(view, (kind - 1) / 8)
            }
        }
        None => None,
    }
}

/// The values of a field, from 0, at places, in some columns: 0 where nothing is active.
#[inline(always)]
pub(crate) fn row_values(view: &View, columns: &Columns, row: &HeldRow, field: u32) -> u32x32
    requires held { AreHeldAt view.now row.now }
    ensures { (k : ℕ) → k < 32 → On columns.now.on k → IsValueAt view.now (held_at row.now k) field (get_or result k 0) }
{
    let here = held_in_some(row, columns);
    all_values(view, &here, field)
}

/// The same in all columns.
#[inline(always)]
fn all_values(view: &View, row: &HeldRow, field: u32) -> u32x32
    requires held { AreHeldAt view.now row.now }
    ensures { (k : ℕ) → k < 32 → IsValueAt view.now (held_at row.now k) field (get_or result k 0) }
{
    match one_of(row.kinds) {
        Some(one) => alike_values(view, one, row, field),
        None => each_value(view, None, row, field),
    }
}

/// The same, where all that is held is of one layout and node.
#[inline(always)]
fn alike_values(view: &View, one: u32, row: &HeldRow, field: u32) -> u32x32
    requires held { AreHeldAt view.now row.now }
    requires one { (k : ℕ) → k < 32 → IsOneOf (get_or row.now.kinds k 0) one }
    ensures { (k : ℕ) → k < 32 → IsValueAt view.now (held_at row.now k) field (get_or result k 0) }
{
    match cells_after(view, one, field) {
        Some(cells) => values_over(view, row, one, field, cells.width, cells.words),
        None => each_value(view, Some(one), row, field),
    }
}

/// The same. Where all that is held is of one layout and node, that is asked once.
#[inline(always)]
fn each_value(view: &View, one: Option<u32>, row: &HeldRow, field: u32) -> u32x32
    requires held { AreHeldAt view.now row.now }
    requires one { IfSome one (λ one. (k : ℕ) → k < 32 → IsOneOf (get_or row.now.kinds k 0) one) }
    ensures { (k : ℕ) → k < 32 → IsValueAt view.now (held_at row.now k) field (get_or result k 0) }
{
    let known = known_by(view, one);
    let (kinds, parts, slots) = (
        row.kinds.to_array(),
        row.parts.to_array(),
        row.slots.to_array(),
    );
    let mut words = [0; 32];
    for k in 0..32 {
        let held = held_where(one, kinds[k], parts[k], slots[k]);
        words[k] = value_of(view, known, held, field);
    }
    u32x32::from_array(words)
}

/// The value of a field, from 0, at a place: 0 if nothing is active. Where the place is in the known store, that isn't looked for.
#[inline(always)]
fn value_of(view: &View, known: Option<Known>, held: Option<Held>, field: u32) -> u32
    requires known { IfSome known (λ known. IsStoreOf view.now known.layout known.store.now) }
    requires held { IfSome held (IsHeld view.now) }
    ensures { IsValueAt view.now held field result }
{
    // for the laws that they ensure
    numbering(&ONE_POINT);
    places_tell();
    match held {
        Some(held) => value_held(view, known, held, field),
        None => 0,
    }
}

/// Whether places are active, as words 1 and 0, in some columns.
#[inline(always)]
pub(crate) fn row_active(view: &View, columns: &Columns, row: &HeldRow) -> u32x32
    requires held { AreHeldAt view.now row.now }
    ensures { (k : ℕ) → k < 32 → On columns.now.on k → TellsActive view.now (held_at row.now k) (get_or result k 0) }
{
    let here = held_in_some(row, columns);
    all_active(view, &here)
}

/// The same in all columns.
#[inline(always)]
fn all_active(view: &View, row: &HeldRow) -> u32x32
    requires held { AreHeldAt view.now row.now }
    ensures { (k : ℕ) → k < 32 → TellsActive view.now (held_at row.now k) (get_or result k 0) }
{
    match one_of(row.kinds) {
        Some(one) => each_active(view, Some(one), row),
        None => each_active(view, None, row),
    }
}

/// The same. Where all that is held is of one layout and node, that is asked once.
#[inline(always)]
fn each_active(view: &View, one: Option<u32>, row: &HeldRow) -> u32x32
    requires held { AreHeldAt view.now row.now }
    requires one { IfSome one (λ one. (k : ℕ) → k < 32 → IsOneOf (get_or row.now.kinds k 0) one) }
    ensures { (k : ℕ) → k < 32 → TellsActive view.now (held_at row.now k) (get_or result k 0) }
{
    let known = known_by(view, one);
    let (kinds, parts, slots) = (
        row.kinds.to_array(),
        row.parts.to_array(),
        row.slots.to_array(),
    );
    let mut words = [0; 32];
    for k in 0..32 {
        let held = held_where(one, kinds[k], parts[k], slots[k]);
        words[k] = active_word(view, known, held);
    }
    u32x32::from_array(words)
}

/// Whether a place is active, as a word: 0 for none. Where the place is in the known store, that isn't looked for.
#[inline(always)]
fn active_word(view: &View, known: Option<Known>, held: Option<Held>) -> u32
    requires known { IfSome known (λ known. IsStoreOf view.now known.layout known.store.now) }
    requires held { IfSome held (IsHeld view.now) }
    ensures { TellsActive view.now held result }
{
    // for the laws that they ensure
    cells_are_active();
    places_tell();
    match held {
        Some(held) => u32::from(is_cell_held(view, known, held)),
        None => 0,
    }
}
