use sg_words::Memory;
use std::alloc::Global;
use std::collections::BTreeMap;
use std::marker::Model;

/// The words of a field by row number; a row that is not there has the word 0.
#[derive(Debug, Drop)]
pub struct FlatField {
    words: BTreeMap<u32, u32>,
}

impl Model for FlatField {
    ghost use Rattle.std.specs.Prelude.{ℕ, List, IsTrue};
    ghost use Rattle.sg_flat.specs.Words.{has_no_zero, are_words};

    ghost Value = { List (ℕ × ℕ) };

    ghost view = { λ field. field.words.entries };

    ghost invariant = { λ field. IsTrue (has_no_zero field.words.entries) × IsTrue (are_words field.words.entries) };
}

impl FlatField {
    ghost use Rattle.std.specs.Prelude.{◌≡◌, [], ℕ, ◌<◌, IsTrue, IfOk, OnOk};
    ghost use Rattle.sg_flat.specs.Words.{has_no_zero, are_words, word_at, words_of};
    ghost use Rattle.sg_flat.specs.steps.Landing.{AreWordsBelow, put_word};

    /// A field whose words are all 0.
    pub(crate) fn new(alloc: Global) -> FlatField
        ensures { result ≡ [] }
    {
        FlatField {
            words: BTreeMap::new(alloc),
        }
    }

    /// The word of a row.
    pub fn word(&self, row: u32) -> u32
        ensures { result ≡ word_at self.now row }
    {
        self.words.get(&row).copied().unwrap_or(0)
    }

    /// What every field keeps: its entries are words, and none is 0.
    pub(crate) fn keeps_words(&self)
        ensures no_zero { IsTrue (has_no_zero self.now) }
        ensures in_range { IsTrue (are_words self.now) }
    {
        let _words = &self.words;
    }

    /// A second field with the same words.
    pub(crate) fn copy(&self) -> Result<FlatField, Memory>
        ensures { IfOk result (λ copy. copy ≡ self.now) }
    {
        Ok(FlatField {
            words: self.words.clone()?,
        })
    }

    /// Gives a row a word; 0 takes the row out.
    pub(crate) fn put(&mut self, row: u32, word: u32) -> Result<(), Memory>
        ensures { OnOk result ((size : ℕ) → row < size → AreWordsBelow size self.old
            → self.new ≡ words_of size (put_word self.old row word)) }
    {
        if word == 0 {
            self.words.remove(&row);
        } else {
            self.words.insert(row, word)?;
        }
        Ok(())
    }
}
