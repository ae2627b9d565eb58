ghost use Rattle.std.specs.Prelude.{◌≡◌, ◌≢◌, ℕ, ◌+◌, ◌<◌, ◌≤◌, ◌++◌, [], length, Some, IfOk, slice_index, slice_index_or, slice_set, take, drop};
ghost use Rattle.std.specs.List.{concat};
ghost use Rattle.sg_coord.specs.declared.coord.Coord.{Coord};
ghost use Rattle.sg_flat.specs.declared.state.FlatLayout.{FlatLayout};
ghost use Rattle.sg_flat.specs.State.{value_at};
ghost use Rattle.sg_store.specs.StoreWords.{word_in};
ghost use Rattle.sg_store.specs.Walks.{cell_in};
ghost use Rattle.sg_store.specs.WellFormed.{IsFieldRow};
ghost use Rattle.sg_store.specs.StandsFor.{StandsFor};
ghost use Rattle.sg_store.specs.Rows.{IsFieldFront, put_over, SetsRow};

use crate::field_row::{FieldFront, FieldRow};
use crate::store::Store;
use sg_coord::numbering;
use sg_layout::paths_tell;
use sg_words::{Items, Memory};
use std::alloc::Global;

impl Store {
    /// The values of a field, from 0: a word for each cell, which is 0 if the cell is that of no coordinate.
    pub fn field_row(&self, alloc: Global, place: u32) -> Result<FieldFront<'_>, Memory>
        requires field { place < length self.now.shape.fields }
        ensures row { IfOk result (IsFieldRow self.now) }
        ensures words { IfOk result (λ row. (cell : ℕ) → slice_index row cell ≡ word_in self.now place cell) }
        ensures idle { IfOk result (λ row. (cell : ℕ) → ((at : Coord) → cell_in self.now at ≢ Some cell) → slice_index row cell ≡ 0) }
        ensures stands { IfOk result (λ row. (flat : FlatLayout) → StandsFor self.now flat → (at : Coord) (cell : ℕ) →
            cell_in self.now at ≡ Some cell → slice_index row cell ≡ value_at self.now.shape flat place at) }
    {
        // for the laws that they ensure
        paths_tell();
        numbering(&self.layout.extents());
        let row = &self.fields.as_slice()[place as usize];
        let front = row.front(alloc, row.len())?;
        Ok(front)
    }

    /// The values of a field, from 0, in the first cells, with all cells of coordinates among them: a word for each, which is 0 if the
    /// cell is that of no coordinate. In time by the nodes, and by these cells where words past the last that was given are among them.
    pub fn field_front(&self, alloc: Global, place: u32) -> Result<FieldFront<'_>, Memory>
        requires field { place < length self.now.shape.fields }
        ensures front { IfOk result (IsFieldFront self.now) }
        ensures words { IfOk result (λ front. (cell : ℕ) → slice_index front cell ≡ word_in self.now place cell) }
    {
        let cells = self.cells_in_use();
        let row = &self.fields.as_slice()[place as usize];
        let front = row.front(alloc, cells)?;
        Ok(front)
    }

    /// Gives a field, from 0, the values that stand in these parts, one after the other: a word for each cell, which is 0 if the
    /// cell is that of no coordinate.
    pub fn set_field_row(&mut self, place: u32, parts: &[Items<u32>])
        requires field { place < length self.old.shape.fields }
        requires row { IsFieldRow self.old (concat parts.now) }
        ensures set { self.new ≡ record self.old { fields = slice_set self.old.fields place (concat parts.now) } }
        ensures stands { (flat now : FlatLayout) → StandsFor self.old flat →
            SetsRow self.old flat now place (concat parts.now) → StandsFor self.new now }
    {
        let row = &mut self.fields[place as usize];
        rewrite(row, parts);
    }

    /// Gives a field, from 0, in its first cells the values that stand in these parts, one after the other: a word for each of these cells, with
    /// all cells of coordinates among them, which is 0 if the cell is that of no coordinate. In time by these words.
    pub fn set_field_front(&mut self, place: u32, parts: &[Items<u32>])
        requires field { place < length self.old.shape.fields }
        requires front { IsFieldFront self.old (concat parts.now) }
        ensures set { self.new ≡ record self.old {
          fields = slice_set self.old.fields place (put_over (concat parts.now) (slice_index_or self.old.fields place []));
        } }
        ensures stands { (flat now : FlatLayout) → StandsFor self.old flat →
            SetsRow self.old flat now place (concat parts.now) → StandsFor self.new now }
    {
        // for the laws that it ensures
        paths_tell();
        let row = &mut self.fields[place as usize];
        rewrite(row, parts);
    }
}

/// Gives the front of a row the words of these parts.
fn rewrite(row: &mut FieldRow, parts: &[Items<u32>])
    requires { length (concat parts.now) ≤ length row.old }
    ensures { row.new ≡ put_over (concat parts.now) row.old }
{
    let mut cell = 0;
    for part in parts {
        cell = write(row, cell, part.as_slice());
    }
}

/// Gives a row these words from a cell on, and says at which cell they end.
fn write(row: &mut FieldRow, from: usize, words: &[u32]) -> usize
    requires { from + length words.now ≤ length row.old }
    ensures written { row.new ≡ take from row.old ++ (words.now ++ drop (from + length words.now) row.old) }
    ensures end { result ≡ from + length words.now }
{
    // for the bound that it ensures
    let _cells = row.len();
    row.stand(from + words.len());
    let mut cell = from;
    for word in words {
        row.set(cell, *word);
        cell += 1;
    }
    cell
}
