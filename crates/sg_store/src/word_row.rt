//! Rows of words of a node. A row ends after the last word that it was given, so that it takes time by these words and not by its
//! slots.

ghost use Rattle.std.specs.Prelude.{◌≡◌, ℕ, ◌<◌, ◌≤◌, length, replicate, slice_index, slice_set, vec_capacity, IfOk};
ghost use Rattle.sg_store.specs.steps.Padded.{padded};

use sg_words::{Items, Memory};
use std::alloc::Global;
use std::marker::Model;

/// A word for each slot of a row, with room for all of them; past the last that was given all are 0. Slots of a row are those of the
/// node, 64 of them together, or its parents. Contracts see the words of all slots.
#[derive(Debug, Drop)]
pub struct WordRow {
    words: Vec<u64>,
    slots: usize,
}

impl Model for WordRow {
    ghost use Rattle.std.specs.Prelude.{ℕ, List, ◌≤◌, length, vec_capacity};
    ghost use Rattle.sg_store.specs.steps.Padded.{padded};

    ghost Value = { List ℕ };

    ghost view = { λ row. padded row.words.items row.slots };

    ghost invariant = { λ row. (length row.words.items ≤ row.slots) × (row.slots ≤ vec_capacity row.words) };
}

impl WordRow {
    /// A row of zeros, with a word for each of so many slots.
    pub(crate) fn zeros(alloc: Global, slots: usize) -> Result<WordRow, Memory>
        ensures { IfOk result (λ row. row ≡ replicate slots 0) }
    {
        let words = Vec::with_capacity(alloc, slots)?;
        Ok(WordRow { words, slots })
    }

    /// A copy of the row.
    pub(crate) fn copy(&self, alloc: Global) -> Result<WordRow, Memory>
        ensures { IfOk result (λ copy. copy ≡ self.now) }
    {
        let mut words = Vec::with_capacity(alloc, self.slots)?;
        words.extend_from_slice(self.words.as_slice())?;
        Ok(WordRow {
            words,
            slots: self.slots,
        })
    }

    /// The words of all slots.
    pub(crate) fn whole(&self, alloc: Global) -> Result<Vec<u64>, Memory>
        ensures { IfOk result (λ words. words.items ≡ self.now) }
    {
        let mut words = Vec::with_capacity(alloc, self.slots)?;
        words.extend_from_slice(self.words.as_slice())?;
        grow(&mut words, self.slots);
        Ok(words)
    }

    /// How many slots there are.
    pub(crate) fn len(&self) -> usize
        ensures { result ≡ length self.now }
    {
        self.slots
    }

    /// The words up to the last that was given.
    pub(crate) fn standing(&self) -> &[u64]
        ensures few { length result.now ≤ length self.now }
        ensures words { (slot : ℕ) → slice_index result.now slot ≡ slice_index self.now slot }
        ensures row { self.now ≡ padded result.now (length self.now) }
    {
        self.words.as_slice()
    }

    /// The word of a slot; 0 past the last.
    pub(crate) fn get(&self, slot: usize) -> u64
        ensures { result ≡ slice_index self.now slot }
    {
        let words = self.words.as_slice();
        if slot < words.len() { words[slot] } else { 0 }
    }

    /// Gives a slot a word.
    pub(crate) fn set(&mut self, slot: usize, word: u64)
        requires { slot < length self.old }
        ensures { self.new ≡ slice_set self.old slot word }
    {
        if word == 0 && slot >= self.words.len() {
            return;
        }
        grow(&mut self.words, slot + 1);
        self.words[slot] = word;
    }

    /// Makes all words 0.
    fn clear(&mut self)
        ensures { self.new ≡ replicate (length self.old) 0 }
    {
        self.words.clear();
    }

    /// Gives all slots other words.
    pub(crate) fn overwrite(&mut self, values: &[u64])
        requires { length values.now ≡ length self.old }
        ensures { self.new ≡ values.now }
    {
        for (slot, word) in values.iter().enumerate() {
            self.set(slot, *word);
        }
    }

    /// Makes the row equal to another of as many slots. In time by the words that stand.
    pub(crate) fn become_like(&mut self, other: &WordRow)
        requires { length other.now ≡ length self.old }
        ensures { self.new ≡ other.now }
    {
        self.clear();
        for (slot, word) in other.standing().iter().enumerate() {
            self.set(slot, *word);
        }
    }
}

/// Makes words at least as many, within their room: those that are added are 0.
fn grow(words: &mut Vec<u64>, slots: usize)
    requires { slots ≤ vec_capacity words.old }
    ensures items { words.new.items ≡ padded words.old.items slots }
    ensures room { vec_capacity words.old ≤ vec_capacity words.new }
{
    if words.len() < slots {
        words.resize(slots, 0).unwrap();
    }
}
