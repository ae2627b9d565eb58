//! The values of a field, by cells. A row ends after the last word that it was given, so that it takes time by these words and not
//! by its cells.

ghost use Rattle.std.specs.Prelude.{◌≡◌, ℕ, ◌<◌, ◌≤◌, length, replicate, take, slice_index, slice_set, vec_capacity, IfOk};
ghost use Rattle.sg_store.specs.steps.Fresh.{IsZeroRow};
ghost use Rattle.sg_store.specs.steps.Padded.{padded};

use sg_words::{Items, Memory};
use std::alloc::Global;
use std::marker::Model;

/// A word for each cell of a store, with room for all of them; past the last that was given all are 0. Contracts see the words of all
/// cells.
#[derive(Debug, Drop)]
pub struct FieldRow {
    words: Vec<u32>,
    cells: usize,
}

impl Model for FieldRow {
    ghost use Rattle.std.specs.Prelude.{ℕ, List, ◌≤◌, length, vec_capacity};
    ghost use Rattle.sg_store.specs.steps.Padded.{padded};

    ghost Value = { List ℕ };

    ghost view = { λ row. padded row.words.items row.cells };

    ghost invariant = { λ row. (length row.words.items ≤ row.cells) × (row.cells ≤ vec_capacity row.words) };
}

/// The first words of a row: lent where they stand, else made.
#[derive(Drop)]
pub struct FieldFront<'a> {
    words: Words<'a>,
}

/// Words that are lent or made.
#[derive(Drop)]
pub enum Words<'a> {
    Lent(&'a [u32]),
    Made(Items<u32>),
}

impl<'a> Model for FieldFront<'a> {
    ghost use Rattle.std.specs.Prelude.{ℕ, List};
    ghost use Rattle.sg_store.specs.steps.Padded.{words_of};

    ghost Value = { List ℕ };

    ghost view = { λ front. words_of front.words };
}

impl<'a> FieldFront<'a> {
    /// A word for each of the first cells.
    pub fn as_slice(&self) -> &[u32]
        ensures { result.now ≡ self.now }
    {
        match &self.words {
            Words::Lent(words) => words,
            Words::Made(words) => words.as_slice(),
        }
    }
}

impl FieldRow {
    /// A row of zeros, with a word for each of so many cells.
    pub(crate) fn zeros(alloc: Global, cells: usize) -> Result<FieldRow, Memory>
        ensures { IfOk result (λ row. row ≡ replicate cells 0) }
    {
        let words = Vec::with_capacity(alloc, cells)?;
        Ok(FieldRow { words, cells })
    }

    /// A copy of the row.
    pub(crate) fn copy(&self, alloc: Global) -> Result<FieldRow, Memory>
        ensures { IfOk result (λ copy. copy ≡ self.now) }
    {
        let mut words = Vec::with_capacity(alloc, self.cells)?;
        words.extend_from_slice(self.words.as_slice())?;
        Ok(FieldRow {
            words,
            cells: self.cells,
        })
    }

    /// How many cells there are.
    pub(crate) fn len(&self) -> usize
        ensures { result ≡ length self.now }
    {
        self.cells
    }

    /// The words up to the last that was given.
    pub(crate) fn standing(&self) -> &[u32]
        ensures few { length result.now ≤ length self.now }
        ensures words { (cell : ℕ) → slice_index result.now cell ≡ slice_index self.now cell }
    {
        self.words.as_slice()
    }

    /// The word of a cell.
    pub(crate) fn get(&self, cell: usize) -> u32
        ensures { result ≡ slice_index self.now cell }
    {
        let words = self.words.as_slice();
        if cell < words.len() { words[cell] } else { 0 }
    }

    /// The words of the first cells.
    pub(crate) fn front(&self, alloc: Global, cells: usize) -> Result<FieldFront<'_>, Memory>
        requires { cells ≤ length self.now }
        ensures { IfOk result (λ front. front ≡ take cells self.now) }
    {
        let words = self.words.as_slice();
        if cells <= words.len() {
            return Ok(FieldFront {
                words: Words::Lent(&words[..cells]),
            });
        }
        let mut made = Vec::with_capacity(alloc, cells)?;
        made.extend_from_slice(words)?;
        grow(&mut made, cells);
        Ok(FieldFront {
            words: Words::Made(Items::from_vec(made)),
        })
    }

    /// Gives a cell a word.
    pub(crate) fn set(&mut self, cell: usize, word: u32)
        requires { cell < length self.old }
        ensures { self.new ≡ slice_set self.old cell word }
    {
        if word == 0 && cell >= self.words.len() {
            return;
        }
        grow(&mut self.words, cell + 1);
        self.words[cell] = word;
    }

    /// Makes the words of the first cells stand, so that a front of them is lent.
    pub(crate) fn stand(&mut self, cells: usize)
        requires { cells ≤ length self.old }
        ensures { self.new ≡ self.old }
    {
        grow(&mut self.words, cells);
    }

    /// Makes all words 0.
    pub(crate) fn clear(&mut self)
        ensures { IsZeroRow (length self.old) self.new }
    {
        self.words.clear();
    }
}

/// Makes words at least as many, within their room: those that are added are 0.
fn grow(words: &mut Vec<u32>, cells: usize)
    requires { cells ≤ vec_capacity words.old }
    ensures items { words.new.items ≡ padded words.old.items cells }
    ensures room { vec_capacity words.old ≤ vec_capacity words.new }
{
    if words.len() < cells {
        words.resize(cells, 0).unwrap();
    }
}
