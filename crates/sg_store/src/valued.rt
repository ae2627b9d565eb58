//! The cells that hold values.

ghost use Rattle.std.specs.Prelude.{◌≡◌, ◌≤◌, ℕ, ◌||◌, ◌==◌, not, length, slice_index, IfOk, OnOk};
ghost use Rattle.sg_store.specs.steps.KeptWords.{in_row, HasWords};
ghost use Rattle.sg_store.specs.steps.StorePlans.{has_word};

use crate::field_row::FieldRow;
use crate::store::Store;
use sg_words::{Items, Memory};
use std::alloc::Global;

impl Store {
    /// The cells in which some field has a word. In time by the words that stand.
    pub(crate) fn valued_cells(&self, alloc: Global) -> Result<Items<bool>, Memory>
        ensures { IfOk result (λ row. (cell : ℕ) → in_row row cell ≡ has_word self.now cell) }
    {
        cell_row(alloc, self.fields.as_slice())
    }
}

/// The cells in which some field has a word.
fn cell_row(alloc: Global, fields: &[FieldRow]) -> Result<Items<bool>, Memory>
    ensures { IfOk result (HasWords fields.now) }
{
    let mut row = Items::new(alloc);
    for field in fields {
        let words = field.standing();
        fit(alloc, &mut row, words.len())?;
        add_words(&mut row, words);
    }
    Ok(row)
}

/// Makes a row at least so long: what it hadn't is false.
fn fit(alloc: Global, row: &mut Items<bool>, cells: usize) -> Result<(), Memory>
    ensures long { OnOk result (cells ≤ length row.new) }
    ensures same { OnOk result ((cell : ℕ) → in_row row.new cell ≡ in_row row.old cell) }
{
    let have = row.len();
    if have < cells {
        row.append(Items::from_vec(vec![in alloc; false; cells - have]?))?;
    }
    Ok(())
}

/// Adds the cells in which a field has a word.
fn add_words(row: &mut Items<bool>, words: &[u32])
    requires { length words.now ≤ length row.old }
    ensures { (cell : ℕ) → in_row row.new cell ≡ (in_row row.old cell || not (slice_index words.now cell == 0)) }
{
    for (cell, word) in words.iter().enumerate() {
        if *word != 0 {
            row.set(cell, true);
        }
    }
}
