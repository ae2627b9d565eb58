//! The lengths that a dynamic node keeps: up to the last slot that leads to a kept cell.

ghost use Rattle.std.specs.Prelude.{◌≡◌, ◌<◌, ◌≤◌, ◌^◌, length, slice_index, slice_set, IfOk};
ghost use Rattle.std.specs.List.{All};
ghost use Rattle.sg_store.specs.steps.KeptWords.{in_row, last_kept, keeps_cell, AreKeptLengths};

use crate::kept_words::is_in_row;
use crate::node::{NodeWords, chunk_cell};
use crate::word_row::WordRow;
use sg_links::Links;
use sg_words::Memory;
use std::alloc::Global;

/// The length of each parent up to its last slot that leads to a cell that a row keeps. In time by the lengths that stand and their slots.
pub(crate) fn kept_lengths(
    alloc: Global,
    kept: &NodeWords,
    chunk: u32,
    row: &[bool],
) -> Result<WordRow, Memory>
    requires some { 1 ≤ chunk }
    requires many { length kept.now.chains.lists ≡ length kept.now.lengths }
    requires short { All (λ len. len ≤ 2 ^ 15) kept.now.lengths }
    ensures { IfOk result (λ lengths. AreKeptLengths kept.now chunk row.now lengths (length kept.now.lengths)) }
{
    let mut lengths = kept.lengths.copy(alloc)?;
    for parent in 0..kept.lengths.standing().len() {
        keep_length(&mut lengths, &kept.chains, chunk, parent, row);
    }
    Ok(lengths)
}

/// Cuts the length of a parent after its last slot that leads to a cell that a row keeps.
fn keep_length(lengths: &mut WordRow, chains: &Links, chunk: u32, parent: usize, row: &[bool])
    requires some { 1 ≤ chunk }
    requires there { parent < length lengths.old }
    requires many { length chains.now.lists ≡ length lengths.old }
    requires short { slice_index lengths.old parent ≤ 2 ^ 15 }
    ensures { lengths.new ≡ slice_set lengths.old parent (last_kept (keeps_cell chains.now chunk (in_row row.now) parent) (slice_index lengths.old parent)) }
{
    let len = lengths.get(parent);
    let mut long = 0;
    for index in 0..len {
        if is_cell_kept(chains, chunk, parent, index as usize, row) {
            long = index + 1;
        }
    }
    lengths.set(parent, long);
}

/// Whether a row keeps the cell of an index under a parent.
fn is_cell_kept(chains: &Links, chunk: u32, parent: usize, index: usize, row: &[bool]) -> bool
    requires some { 1 ≤ chunk }
    requires there { parent < length chains.now.lists }
    requires short { index < 2 ^ 32 }
    ensures { result ≡ keeps_cell chains.now chunk (in_row row.now) parent index }
{
    match chunk_cell(chains, chunk, parent, index) {
        Some(cell) => is_in_row(row, cell),
        None => false,
    }
}
